//! The host: it admits guests that don't trust each other, gives them turns, feeds them, and shows what they show.
//!
//! What it shows of a guest is what that guest's own files, main class name, input, feeds and budget give on the machine alone, after as
//! many of its own steps: whatever the other guests are and do, and whenever they do it.
#![tactic(auto)]

mod admission;
mod files;
mod host;
mod laws;
mod limits;
mod rounds;
mod watch;

pub use files::GuestFiles;
pub use host::{GuestId, Host};
pub use jv_interp::{Budget, GuestEnd, Observation, ThrowPlace};
pub use jv_library::KnownLibrary;
pub use jv_limits::{AdmitFault, FeedFault, NoGuest, TurnFault};
pub use laws::two_worlds;
pub use watch::{Progress, Unwatched, Watch};
