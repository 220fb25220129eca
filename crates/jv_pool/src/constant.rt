//! The constants of a class file (JVMS 4.4).

ghost use Rattle.std.specs.Prelude.{◌≡◌};

use std::alloc::AllocError;

/// A constant, whose text is a `T`. Indices and numbers are as they stand in the file.
pub enum Constant<T> {
    /// A text (4.4.7).
    Utf8(T),
    /// An int, as its 32 bits (4.4.4).
    Integer(u32),
    /// A float, as its 32 bits (4.4.4).
    Float(u32),
    /// A long, as its high and its low 32 bits (4.4.5).
    Long(u32, u32),
    /// A double, as its high and its low 32 bits (4.4.5).
    Double(u32, u32),
    /// A class or an array type: the index of its name (4.4.1).
    Class(u16),
    /// A string: the index of its text (4.4.3).
    String(u16),
    /// A field: the indices of its Class and of its NameAndType (4.4.2).
    Fieldref(u16, u16),
    /// A method of a class: the indices of its Class and of its NameAndType (4.4.2).
    Methodref(u16, u16),
    /// A method of an interface: the indices of its Class and of its NameAndType (4.4.2).
    InterfaceMethodref(u16, u16),
    /// A member: the indices of its name and of its descriptor (4.4.6).
    NameAndType(u16, u16),
    /// A method handle: its kind and an index (4.4.8), not looked at.
    MethodHandle(u8, u16),
    /// A method type: the index of its descriptor (4.4.9), not looked at.
    MethodType(u16),
    /// A dynamic call site: the index of its bootstrap method and that of a NameAndType (4.4.10),
    /// not looked at.
    InvokeDynamic(u16, u16),
}

impl<T: Copy> Clone for Constant<T> {
    ghost is_clone = { λ x y. y ≡ x };

    ghost is_infallible = { λ _. Unit {0} };

    fn clone(&self) -> Result<Self, AllocError> {
        Ok(*self)
    }
}

impl<T: Copy> Copy for Constant<T> {}

/// Which constant an index names, by its tag (JVMS table 4.4-A).
#[derive(Clone, Copy)]
pub enum Kind {
    /// Tag 1, a text (4.4.7).
    Utf8,
    /// Tag 3, an int (4.4.4).
    Integer,
    /// Tag 4, a float (4.4.4).
    Float,
    /// Tag 5, a long (4.4.5).
    Long,
    /// Tag 6, a double (4.4.5).
    Double,
    /// Tag 7, a class or an array type (4.4.1).
    Class,
    /// Tag 8, a string (4.4.3).
    String,
    /// Tag 9, a field (4.4.2).
    Fieldref,
    /// Tag 10, a method of a class (4.4.2).
    Methodref,
    /// Tag 11, a method of an interface (4.4.2).
    InterfaceMethodref,
    /// Tag 12, the name and descriptor of a member (4.4.6).
    NameAndType,
    /// Tag 15, a method handle (4.4.8).
    MethodHandle,
    /// Tag 16, a method type (4.4.9).
    MethodType,
    /// Tag 18, a dynamic call site (4.4.10).
    InvokeDynamic,
}

/// A field or a method as a constant names it; the three texts are parts of the file.
#[derive(Clone, Copy)]
pub struct MemberName<'a> {
    /// A class name, or an array's field descriptor.
    pub class: &'a [u8],
    pub name: &'a [u8],
    pub descriptor: &'a [u8],
}

/// What a NameAndType constant names; both texts are parts of the file.
#[derive(Clone, Copy)]
pub struct NameAndTypeTexts<'a> {
    pub name: &'a [u8],
    pub descriptor: &'a [u8],
}
