//! What a guest's classes link to (JVMS 5.4), found once: [`Linked`] answers as the calls of `jv_link` do, and keeps
//! what the steps of a machine ask again and again, where there is memory for it.
#![tactic(auto)]

mod bodies;
mod caught;
mod class_use;
mod classes;
mod field_use;
mod fields;
mod handlers;
mod law;
mod linked;
mod method_use;
mod methods;
mod orders;
mod places;
mod ranks;
mod reaches;
mod rows;
mod selections;
mod tasks;
mod words;

pub use bodies::{Body, body_at};
pub use class_use::ClassUse;
pub use field_use::{FieldKind, FieldUse};
pub use law::words_are_inherited;
pub use linked::{Linked, link};
pub use method_use::MethodUse;
pub use tasks::{InitialValue, initial_value};
