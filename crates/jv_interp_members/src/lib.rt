//! Calls of methods and uses of fields, by what a class's constants name (JVMS 6.5: invokevirtual, invokespecial, invokestatic,
//! invokeinterface, getstatic, putstatic, getfield, putfield); fields of objects and of classes, in words; and a guest's methods by
//! numbers, with their code (4.6). A room of `jv_interp`.
#![tactic(auto)]

mod calls;
mod current;
mod errors;
mod fields;
mod instance_fields;
mod linking;
mod methods;
mod statics;

pub use calls::{StaticCall, call_special, call_static, call_virtual};
pub use current::Current;
pub use errors::number_of_error;
pub use fields::{getfield, getstatic, putfield, putstatic};
pub use linking::is_ready;
pub use methods::{MethodRow, Methods};
