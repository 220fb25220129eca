//! The host and the verifier for programs in C: `include/jvhost.h` has what each function is for, and what its caller owes.
//!
//! In contracts a handle is the list of admissions that its host stands for, or nothing (`guests_of`).
#![tactic(auto)]

mod alone;
mod beside;
mod checking;
mod codes;
mod done;
mod handle;
mod hosts;
mod jobs;
mod judging;
mod kept;
mod loose;
mod room;
mod seed;
mod shown;
mod told;
mod verdict_text;

pub use handle::{JvHost, Opaque, Owner};
pub use kept::kept_is_send;
pub use told::{Guest, Seen, ToldPlace, ToldVerdict};
