//! How many files a guest may have and how long they may be, and why a host refuses a call.
#![tactic(auto)]

mod fault;
mod file_limits;

pub use fault::{AdmitFault, FeedFault, NoGuest, TurnFault};
pub use file_limits::first_file_refusal;
