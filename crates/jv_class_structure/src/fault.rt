//! Why bytes have no parts.

ghost use Rattle.std.specs.Prelude.{◌≡◌};
ghost use Rattle.jv_class_structure.specs.declared.fault.PartsFault.TheVariants.{OutOfMemory};

use std::alloc::{AllocError, AllocFailed};

/// Why there are no parts.
#[derive(Clone, Copy, Debug)]
pub enum PartsFault {
    /// The bytes are no class structure's.
    Format,
    /// The host had no memory for the lists.
    OutOfMemory,
}

impl<T: Drop> From<AllocFailed<T>> for PartsFault {
    ghost from_gives = { λ _ e. e ≡ OutOfMemory };

    fn from(_e: AllocFailed<T>) -> PartsFault {
        PartsFault::OutOfMemory
    }
}

impl From<AllocError> for PartsFault {
    ghost from_gives = { λ _ e. e ≡ OutOfMemory };

    fn from(_e: AllocError) -> PartsFault {
        PartsFault::OutOfMemory
    }
}
