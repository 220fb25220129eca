//! Frames and control in words (JVMS 2.6, 2.10, 5.5): methods are entered and left, exceptions are thrown and caught, and classes are
//! initialized; and what the effects of instructions make of frames (2.11). A room of `jv_interp`.
#![tactic(auto)]

mod above;
mod acting;
mod beginning;
mod classes;
mod code;
mod constants;
mod control;
mod entering;
mod exceptions;
mod finishing;
mod frames;
mod handlers;
mod initialization;
mod leaving;
mod passing;
mod places;
mod program;
mod resuming;
mod returning;
mod states;
mod statics;
mod suspending;
mod tasks;
mod throwing;
mod throws;
mod unwinding;

pub use acting::act;
pub use beginning::begin;
pub use control::{Control, End, PlaceRecord};
pub use frames::Frames;
pub use initialization::initialization_step;
pub use program::Program;
pub use resuming::resume;
pub use suspending::suspend;
