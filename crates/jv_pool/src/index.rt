//! Typed indices: the index of a constant, with the kind that it is meant to have.
//!
//! An index that a `Pool` or a read class gives names a constant of its kind there, so that the
//! getter for the kind answers without a refusal.

/// The index of a Utf8 constant (JVMS 4.4.7).
#[derive(Clone, Copy)]
pub struct Utf8Index(pub u16);

/// The index of an Integer constant (4.4.4).
#[derive(Clone, Copy)]
pub struct IntegerIndex(pub u16);

/// The index of a Long constant (4.4.5).
#[derive(Clone, Copy)]
pub struct LongIndex(pub u16);

/// The index of a Class constant (4.4.1).
#[derive(Clone, Copy)]
pub struct ClassIndex(pub u16);

/// The index of a String constant (4.4.3).
#[derive(Clone, Copy)]
pub struct StringIndex(pub u16);

/// The index of a Fieldref constant (4.4.2).
#[derive(Clone, Copy)]
pub struct FieldrefIndex(pub u16);

/// The index of a Methodref constant (4.4.2).
#[derive(Clone, Copy)]
pub struct MethodrefIndex(pub u16);

/// The index of an InterfaceMethodref constant (4.4.2).
#[derive(Clone, Copy)]
pub struct InterfaceMethodrefIndex(pub u16);

/// The index of a NameAndType constant (4.4.6).
#[derive(Clone, Copy)]
pub struct NameAndTypeIndex(pub u16);
