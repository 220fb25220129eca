//! What becomes of the frame before an instruction of a method: the rule of the instruction (JVMS 4.10.1.9), on a frame that is changed
//! in place, and whether a frame flows into one of the stack map (4.10.1.2, 4.10.1.4).
//!
//! [`apply`] makes the frame before an instruction exactly the one behind it, or answers that the instruction may not stand there.
#![tactic(auto)]

mod frame_flow;
mod rule;

pub use frame_flow::{
    flag_flows, frame_flows, has_this, item_flows, locals_flow, stack_flows, thrown_flows,
    thrown_stack_flows,
};
pub use rule::apply;
