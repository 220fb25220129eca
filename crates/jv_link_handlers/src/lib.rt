//! Which of a list of handlers takes what is thrown.
#![tactic(auto)]

mod firsts;
mod pieces;
mod placed;
mod reach;
mod tree;

pub use firsts::{Firsts, first_at, firsts_of};
pub use reach::Reach;
