//! Whether a host's library stands beside a guest's files; a closed one is judged once, for all guests.
#![tactic(auto)]

mod known;
mod same;

pub use known::KnownLibrary;
