//! Whether the classes of a table name each other alone: whether a library is closed.
#![tactic(auto)]

mod classes;
mod constants;
mod first;
mod texts;

pub use classes::is_closed;
