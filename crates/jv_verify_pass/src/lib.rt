//! One pass over the instructions of a method (JVMS 4.10.1.6): its handlers and its stack map against the rules on the whole
//! code, then a frame that goes from instruction to instruction, against the map's. A room of `jv_verify`.
#![tactic(auto)]

mod before;
mod catching;
mod changes;
mod difference;
mod fault;
mod maps;
mod merging;
mod named;
mod objects;
mod onward;
mod opening;
mod pass;
mod seen;
mod setting;
mod sink;
mod stacks;
mod standing;
mod step;
mod targets;
mod telling;
mod walk;

pub use before::{FramesBefore, frames_before};
pub use catching::handlers_hold;
pub use difference::Difference;
pub use fault::CodeFault;
pub use maps::read_map;
pub use named::{NamedFrame, NamedType};
pub use onward::NamedUnmet;
pub use pass::Pass;
pub use sink::{FrameSink, FramedInsn};
pub use telling::tell_frames;
pub use walk::{FrameRoom, check_code};
