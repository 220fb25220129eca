//! What an instruction's rule comes to.

use crate::names::Item;

/// What is left behind an instruction, when the frame before it has been changed in place.
#[derive(Clone, Copy)]
pub enum Outcome {
    /// The instruction may not stand there; the frame is of no more use.
    Fails,
    /// The frame is the one behind the instruction.
    Leaves,
    /// The frame is so with this item on top.
    Gives(Item),
}
