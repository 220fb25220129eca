//! What comes of the frame that an instruction leaves.

ghost use Rattle.jv_verify_rules.specs.Inside.Over.{Settles};

use crate::words::{is_within, push_within};
use jv_verify_frame::TypeFrame;
use jv_verify_types::Outcome;
use std::alloc::AllocError;

/// Makes the frame the one that an outcome says, where its stack then has no more words than it may have.
pub fn settle(frame: &mut TypeFrame, outcome: Outcome, max_stack: u16) -> Result<bool, AllocError>
    ensures { Settles max_stack frame.old frame.new outcome result }
{
    match outcome {
        Outcome::Fails => Ok(false),
        Outcome::Leaves => Ok(is_within(frame, max_stack)),
        Outcome::Gives(item) => push_within(frame, item, max_stack),
    }
}
