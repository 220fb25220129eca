//! What each instruction does to the frame before it, which is changed in place (JVMS 4.10.1.9).
#![tactic(auto)]

mod arrays;
mod branches;
mod calls;
mod casts;
mod classes;
mod constants;
mod constructing;
mod construction;
mod constructors;
mod context;
mod effects;
mod field_access;
mod fields;
mod forms;
mod guards;
mod law;
mod locals;
mod methods;
mod operands;
mod receivers;
mod references;
mod returns;
mod settling;
mod stack;
mod table;
mod texts;
mod variables;
mod words;

pub use constructing::constructed_object;
pub use context::MethodContext;
pub use effects::effect;
pub use jv_verify_types::{Outcome, value_type};
pub use law::{keeps_local_count, leaves_below, leaves_locals, writes_there};
pub use locals::keeps_locals;
pub use settling::settle;
pub use table::number_type;
