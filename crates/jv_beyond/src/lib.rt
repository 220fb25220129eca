//! The first part of a class file that is beyond this host's profile, as text, for people (JVMS 4.4 to 4.7, 6.5).
#![tactic(auto)]

mod beyond;
mod code;
mod feature;
mod file;
mod finding;
mod header;
mod instruction;
mod law;
mod mnemonics;
mod supported;
mod telling;
mod text;
mod uses;
mod using;

pub use beyond::Beyond;
pub use feature::Feature;
pub use file::explain_unsupported;
pub use law::{some_is_beyond, worked_rows};
