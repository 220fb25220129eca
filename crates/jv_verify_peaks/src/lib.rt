//! Numbers, with the greatest over any stretch of them.
#![tactic(auto)]

mod peaks;

pub use peaks::Peaks;
