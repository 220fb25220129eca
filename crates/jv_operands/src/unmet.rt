//! A want that is not met.

ghost use Rattle.std.specs.Prelude.{◌≡◌};

use crate::want::Want;
use jv_stackmap::VerificationTypeOf;
use std::alloc::AllocError;

/// Where an instruction wants something.
#[derive(Clone, Copy)]
pub enum Place {
    /// An item of the stack, by how many are above it.
    Item(usize),
    /// A local variable, by its index.
    Local(usize),
}

/// What an instruction wants at a place, and what is there instead. `T` is a class's name.
pub struct UnmetWant<T> {
    pub place: Place,
    pub want: Want<T>,
    /// The type that is there; `None` where there is no such item or local variable.
    pub found: Option<VerificationTypeOf<T>>,
}

impl<T: Copy> Clone for UnmetWant<T> {
    ghost is_clone = { λ x y. y ≡ x };

    ghost is_infallible = { λ _. Unit {0} };

    fn clone(&self) -> Result<Self, AllocError> {
        Ok(*self)
    }
}

impl<T: Copy> Copy for UnmetWant<T> {}
