//! Verification types with numbers for names, so that a name is looked at once and types are compared by number (JVMS 4.10.1.2); what the
//! constants of a class say as such types (4.4), at hand by index, what the operands of instructions name, and what the rules ask of the
//! class itself; and which types the entries of the stack map's frames stand for (4.7.4).
#![tactic(auto)]

mod answers;
mod argument;
mod classes;
mod constant_names;
mod constants;
mod current_class;
mod declared;
mod entries;
mod fields;
mod flow;
mod guards;
mod hashed;
mod indices;
mod kept_number;
mod marks;
mod methods;
mod name_marks;
mod names;
mod numbers;
mod outcome;
mod packages;
mod pushed;
mod texts;
mod value;
mod words;

pub use argument::Argument;
pub use classes::{array_of, array_type, class_number, names_class};
pub use constants::ConstantTypes;
pub use current_class::CurrentClass;
pub use entries::EntryTypes;
pub use fields::{FieldTypes, field_types};
pub use methods::{CalledTypes, called_types};
pub use names::{Item, TypeNames};
pub use outcome::Outcome;
pub use pushed::{long_constant_type, one_word_constant_type};
pub use texts::MethodTypes;
pub use value::value_type;
pub use words::words_of;
