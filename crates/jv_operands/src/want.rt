//! What an instruction wants of a stack item or of a local variable.

ghost use Rattle.std.specs.Prelude.{◌≡◌};

use jv_stackmap::VerificationTypeOf;
use std::alloc::AllocError;

/// What an instruction wants of a stack item or of a local variable (JVMS 4.10.1.9), where `T` is a class's name: a list of bytes in
/// definitions.
pub enum Want<T> {
    /// What flows to a type (JVMS 4.10.1.2).
    Type(VerificationTypeOf<T>),
    /// What flows to one of two types.
    Either(VerificationTypeOf<T>, VerificationTypeOf<T>),
    /// An object, an array or null, also an object that is not initialized.
    Reference,
    /// An array, or null.
    Array,
    /// An array of references, or null.
    ReferenceArray,
    /// An object that is not initialized.
    Uninitialized,
    /// A value of one word: no long.
    Word,
    /// Anything that is there.
    Any,
}

impl<T: Copy> Clone for Want<T> {
    ghost is_clone = { λ x y. y ≡ x };

    ghost is_infallible = { λ _. Unit {0} };

    fn clone(&self) -> Result<Self, AllocError> {
        Ok(*self)
    }
}

impl<T: Copy> Copy for Want<T> {}
