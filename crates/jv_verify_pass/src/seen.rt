//! What is known beside the frame before an instruction.

ghost use Rattle.std.specs.Prelude.{IfOk};
ghost use Rattle.jv_verify_types.specs.Numbered.{NumberFrame};
ghost use Rattle.jv_verify_pass.specs.Inside.Seen.{BeginsWith, IsSeen};

use crate::opening::Openings;
use crate::pass::Pass;
use crate::stacks::FlowedStacks;
use jv_verify_known::Known;
use std::alloc::{AllocError, Global};

/// Into which frames of the stack map the local variables flow, and the stack, and the handlers that cover the instruction.
pub(crate) struct Seen {
    pub(crate) known: Known,
    pub(crate) openings: Openings,
    pub(crate) stacks: FlowedStacks,
}

impl Drop for Seen {
    fn drop(self) {
        let Seen {
            known: _,
            openings: _,
            stacks: _,
        } = self;
    }
}

impl Seen {
    /// Nothing is known of the frame with which a method begins.
    ///
    /// # Errors
    ///
    /// Where the host had no memory for it.
    pub(crate) fn new(alloc: Global, pass: &Pass<'_, '_, '_, '_, '_>) -> Result<Seen, AllocError>
        ensures { IfOk result (λ seen. (frame : NumberFrame) → BeginsWith pass.now frame → IsSeen pass.now seen 0 frame) }
    {
        Ok(Seen {
            known: Known::new(alloc, pass.types, pass.frames, pass.max_locals, pass.words)?,
            openings: Openings::new(alloc, pass)?,
            stacks: FlowedStacks::new(alloc),
        })
    }
}
