//! The instruction at a place of a class file, as text, for people (JVMS 4.6, 4.7.3, 6.5).
#![tactic(auto)]

mod code;
mod file;
mod method;

pub use file::instruction_of;
