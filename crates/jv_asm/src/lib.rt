//! The class writer: class files (JVMS 4) from lists of their parts, and code from lists of
//! instructions.
//!
//! [`write_class`] writes the bytes that `jv_class_structure` defines for a structure, and
//! [`write_code`] those that an instruction's operands spell. `jv_asm_builder` puts structures and
//! code together by calls.
#![tactic(auto)]

mod attribute;
mod code;
mod constant;
mod description;
mod fault;
mod item;
mod law;
mod member;
mod part;
mod writer;

pub use code::{
    item_size, items_are_code, lookupswitch_size, put_item, tableswitch_size, write_code,
};
pub use constant::{constant_fits, entries, put_index};
pub use description::{
    AttributeDescription, CodeDescription, Description, FieldDescription,
    MethodAttributeDescription, MethodDescription,
};
pub use fault::AsmFault;
pub use item::Item;
pub use jv_format::Handler;
pub use jv_pool::Constant;
pub use law::written_reads_back;
pub use member::Method;
pub use part::put_half;
pub use writer::{write_class, write_class_with};
