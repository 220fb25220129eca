//! Lines of source (JVMS 4.7.12): the line of an instruction, as a class file's LineNumberTable says it. Nothing is promised of what is
//! read: the machine knows no lines, and a file may name any.
#![tactic(auto)]

mod code;
mod file;
mod lines;
mod reading;
mod table;

pub use file::line_of;
pub use lines::Lines;
