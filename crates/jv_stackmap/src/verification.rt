//! The types of local variables and stack items (JVMS 4.10.1.2).

ghost use Rattle.std.specs.Prelude.{◌≡◌};

use jv_text::FieldTypeOf;
use std::alloc::AllocError;

/// The type of a local variable or of a stack item, where `T` is a class's name: a list of bytes
/// in definitions.
pub enum VerificationTypeOf<T> {
    /// Any word, which no instruction can use; also the second word of a long.
    Top,
    /// An int, a short, a char, a byte or a boolean.
    Int,
    /// A long, two words.
    Long,
    /// The type of `null`.
    Null,
    /// The receiver of a constructor that has not yet called another.
    UninitializedThis,
    /// A class or an interface, by its name.
    Class(T),
    /// An array, by the type of its components.
    Array(FieldTypeOf<T>),
    /// What the `new` at this offset in the code, in bytes, made.
    Uninitialized(u16),
}

impl<T: Copy> Clone for VerificationTypeOf<T> {
    ghost is_clone = { λ x y. y ≡ x };

    ghost is_infallible = { λ _. Unit {0} };

    fn clone(&self) -> Result<Self, AllocError> {
        Ok(*self)
    }
}

impl<T: Copy> Copy for VerificationTypeOf<T> {}
