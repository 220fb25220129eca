//! A guest (JVMS 2.5, 5.2): made at its start, run, fed, and what it shows. At its start: what it holds, its static fields and two objects
//! that the machine makes; the states of its classes, and which of them were accepted with all above them; its main method, and the first
//! frame, in which the class of that is initialized.
#![tactic(auto)]

mod accepted;
mod beginning;
mod budget;
mod counts;
mod feeding;
mod first;
mod guest;
mod main_method;
mod objects;
mod observation;
mod opening;
mod room;
mod starting;
mod states;
mod turns;
mod verified;

pub use budget::Budget;
pub use counts::classes_are_few;
pub use guest::Guest;
pub use jv_interp_steps::Turn;
pub use main_method::main_number;
pub use observation::{GuestEnd, Observation, ThrowPlace};
pub use room::start_memory;
pub use states::start_states;
