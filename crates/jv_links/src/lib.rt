//! What is said of the references of a class's methods that don't resolve (JVMS 5.4.3), for people: the method, the instruction, and the
//! error that it throws.
#![tactic(auto)]

mod block;
mod class;
mod code;
mod error;
mod reference;
mod referred;
mod why;

pub use class::explain_links;
