//! The parts of a class file behind its version (JVMS 4.1, 4.5 to 4.7): the structure that the
//! bytes spell, or that they spell none. Rules on names, types and flags are not looked at here.
#![tactic(auto)]

mod attributes;
mod body;
mod fault;
mod flags;
mod law;
mod member;
mod members;
mod method_list;
mod parts;

pub use fault::PartsFault;
pub use flags::{ClassFlags, FieldFlags, MethodFlags};
pub use law::one_behind_version;
pub use member::{Field, Method, MethodCode};
pub use members::{field_at, method_at, three_at};
pub use parts::{Parts, read_parts};
