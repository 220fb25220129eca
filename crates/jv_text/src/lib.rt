//! The texts of class files: modified UTF-8 (JVMS 4.4.7), names (4.2) and descriptors (4.3).
//!
//! Bytes are as they stand in a Utf8 constant, without its length. Every call answers for any
//! bytes, in time linear in their number, and keeps nothing. Only `decode` and `method_type` take
//! memory, for the list that they give.
#![tactic(auto)]

mod descriptor;
mod field;
mod kinds;
mod method;
mod name;
mod text;

ghost use Rattle.jv_text.specs.Text.{OneText};
ghost use Rattle.jv_text.specs.Descriptor.{OneField, OneMethod};
ghost use Rattle.jv_text.specs.Types.{TypesAgree};

pub use descriptor::{
    BadDescriptor, Base, DescFault, Element, FieldType, FieldTypeOf, MethodShape, MethodType,
};
pub use field::{field_type, known_field_type};
pub use kinds::{TextKinds, text_kinds};
pub use method::{is_floating, method_shape, method_type};
pub use name::{
    begins_with, is_array_name, is_class_name, is_init, is_member_name, is_method_name,
};
pub use text::{TextFault, decode, is_text};

/// A law: bytes spell one list of units at most.
pub fn one_text()
    ensures { OneText }
{}

/// A law: the text of a field descriptor tells its type.
pub fn one_field()
    ensures { OneField }
{}

/// A law: the text of a method descriptor tells its parameters and its result.
pub fn one_method()
    ensures { OneMethod }
{}

/// A law: the types that descriptors describe, as functions of the texts (JVMS 4.3.2, 4.3.3).
pub fn types_agree()
    ensures { TypesAgree }
{}
