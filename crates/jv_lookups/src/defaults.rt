//! Which methods of superinterfaces a call can run.

ghost use Rattle.std.specs.Prelude.{◌≡◌};

use crate::place::Place;
use std::alloc::AllocError;

/// The maximally specific superinterface methods of a name and a descriptor that are not abstract (JVMS
/// 6.5): none, one at its place, or several.
pub enum Defaults {
    Absent,
    One(Place),
    Several,
}

impl Clone for Defaults {
    ghost is_clone = { λ x y. y ≡ x };

    ghost is_infallible = { λ _. Unit {0} };

    fn clone(&self) -> Result<Defaults, AllocError> {
        Ok(*self)
    }
}

impl Copy for Defaults {}
