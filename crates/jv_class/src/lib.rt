//! Class files (JVMS 4): the structure that the bytes of a file have, or why they have none.
//!
//! [`read_class`] reads a file exactly where `specs/ClassFile.antt` says that the bytes are a class
//! file, and `specs/Supported.antt` that this host's profile supports it. Texts, code and tables of
//! a [`ClassFile`] are parts of the file.
#![tactic(auto)]

mod alike;
mod class_file;
mod class_rules;
mod constant_value;
mod fault;
pub mod field_rules;
mod flags;
mod law;
pub mod method_rules;
mod names;
mod reading;
mod supported;

pub use class_file::ClassFile;
pub use class_rules::itself_keeps_rules;
pub use constant_value::ConstantValue;
pub use fault::ClassFault;
pub use jv_class_structure::{ClassFlags, Field, FieldFlags, Method, MethodCode, MethodFlags};
pub use law::{is_some_class, one_of_each_name, one_structure};
pub use names::is_clinit;
pub use reading::read_class;
