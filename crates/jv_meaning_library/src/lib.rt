//! Closed libraries, and that their classes are judged alike beside any guest's.
#![tactic(auto)]

mod law;

pub use law::{closed_is_judged_once, closed_rows, closed_stands_once};
