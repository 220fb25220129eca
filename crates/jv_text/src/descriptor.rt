//! The types that descriptors describe (JVMS 4.3).

ghost use Rattle.std.specs.Prelude.{◌≡◌};

use std::alloc::{AllocError, AllocFailed};
use thiserror::Error;

/// A primitive type.
#[derive(Clone, Copy, PartialEq, Eq)]
pub enum Base {
    Byte,
    Char,
    Double,
    Float,
    Int,
    Long,
    Short,
    Boolean,
}

/// A type that is no array. `T` is a class's name: its bytes in the code, their list in
/// definitions.
pub enum Element<T> {
    Base(Base),
    Class(T),
}

impl<T: Copy> Clone for Element<T> {
    ghost is_clone = { λ x y. y ≡ x };

    ghost is_infallible = { λ _. Unit {0} };

    fn clone(&self) -> Result<Self, AllocError> {
        Ok(*self)
    }
}

impl<T: Copy> Copy for Element<T> {}

/// The type of a field, a parameter or a result: an array of so many dimensions, or its element
/// itself where there are none.
pub struct FieldTypeOf<T> {
    pub dimensions: u8,
    pub element: Element<T>,
}

impl<T: Copy> Clone for FieldTypeOf<T> {
    ghost is_clone = { λ x y. y ≡ x };

    ghost is_infallible = { λ _. Unit {0} };

    fn clone(&self) -> Result<Self, AllocError> {
        Ok(*self)
    }
}

impl<T: Copy> Copy for FieldTypeOf<T> {}

/// A type whose class name is a part of the descriptor that it was read from.
pub type FieldType<'a> = FieldTypeOf<&'a [u8]>;

/// The parameters of a method without its receiver, and its result, `None` for void.
#[derive(Drop)]
pub struct MethodType<'a> {
    pub parameters: Vec<FieldType<'a>>,
    pub result: Option<FieldType<'a>>,
}

/// What a method's descriptor comes to without a list of its parameters: the local variables that
/// they fill (1 each, 2 for a long and a double; the receiver is not counted), whether one of them
/// or the result is float or double or an array of one of these, and its result, `None` for void.
#[derive(Clone, Copy)]
pub struct MethodShape<'a> {
    pub slots: u8,
    pub floating: bool,
    pub result: Option<FieldType<'a>>,
}

/// The bytes are no descriptor of the kind that was asked for.
#[derive(Clone, Copy, Debug, Error)]
#[error("no descriptor")]
pub struct BadDescriptor;

/// Why there is no method type.
#[derive(Clone, Copy, Debug, Error)]
pub enum DescFault {
    /// The bytes are no method descriptor.
    #[error("no method descriptor")]
    BadDescriptor,
    /// No memory was left for the parameters.
    #[error("out of memory")]
    OutOfMemory,
}

impl<T: Drop> From<AllocFailed<T>> for DescFault {
    ghost use Rattle.jv_text.specs.declared.descriptor.DescFault.TheVariants.{OutOfMemory};

    ghost from_gives = { λ _ e. e ≡ OutOfMemory };

    fn from(_e: AllocFailed<T>) -> DescFault {
        DescFault::OutOfMemory
    }
}
