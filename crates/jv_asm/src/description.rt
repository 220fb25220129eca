//! A class file as lists of its parts (JVMS 4.1 to 4.7).
//!
//! Numbers and indices are as they stand in the file; counts and lengths are those of the lists.
//! `specs/Description.antt` says which structure of `jv_class_structure` a description stands for.

use jv_format::Handler;
use jv_pool::Constant;

/// An attribute: the index of its name, and its contents (4.7).
#[derive(Clone, Copy)]
pub struct AttributeDescription<'a> {
    pub attribute_name_index: u16,
    pub info: &'a [u8],
}

/// What a Code attribute holds (4.7.3).
#[derive(Clone, Copy)]
pub struct CodeDescription<'a> {
    pub max_stack: u16,
    pub max_locals: u16,
    pub code: &'a [u8],
    pub exception_table: &'a [Handler],
    pub attributes: &'a [AttributeDescription<'a>],
}

/// An attribute of a method.
#[derive(Clone, Copy)]
pub enum MethodAttributeDescription<'a> {
    /// Its code, behind the index of the name `Code`.
    Code(u16, CodeDescription<'a>),
    /// Any other.
    Other(AttributeDescription<'a>),
}

/// A field (4.5).
#[derive(Clone, Copy)]
pub struct FieldDescription<'a> {
    pub access_flags: u16,
    pub name_index: u16,
    pub descriptor_index: u16,
    pub attributes: &'a [AttributeDescription<'a>],
}

/// A method (4.6).
#[derive(Clone, Copy)]
pub struct MethodDescription<'a> {
    pub access_flags: u16,
    pub name_index: u16,
    pub descriptor_index: u16,
    pub attributes: &'a [MethodAttributeDescription<'a>],
}

/// A class file (4.1).
#[derive(Clone, Copy)]
pub struct Description<'a> {
    pub minor_version: u16,
    pub major_version: u16,
    /// The constants in their order; the first has index 1, and a Long or a Double takes two.
    pub constant_pool: &'a [Constant<&'a [u8]>],
    pub access_flags: u16,
    pub this_class: u16,
    /// The index of a class; 0 for none.
    pub super_class: u16,
    pub interfaces: &'a [u16],
    pub fields: &'a [FieldDescription<'a>],
    pub methods: &'a [MethodDescription<'a>],
    pub attributes: &'a [AttributeDescription<'a>],
}
