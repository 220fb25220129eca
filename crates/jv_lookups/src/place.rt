//! Where a member stands.

ghost use Rattle.std.specs.Prelude.{◌≡◌};

use std::alloc::AllocError;

/// The place of a field or a method: the number of the class that declares it, and its place among the
/// fields or the methods there.
pub struct Place {
    pub class: usize,
    pub member: usize,
}

impl Clone for Place {
    ghost is_clone = { λ x y. y ≡ x };

    ghost is_infallible = { λ _. Unit {0} };

    fn clone(&self) -> Result<Place, AllocError> {
        Ok(*self)
    }
}

impl Copy for Place {}
