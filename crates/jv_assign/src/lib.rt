//! Assignability (JVMS 4.10.1.2): which verification type can stand where another is expected. A question on two types costs at most two
//! hashes, one of a name each, and no memory.
#![tactic(auto)]

mod arrays;
mod classes;
mod types;

pub use classes::other_class_flows;
pub use types::flows;
