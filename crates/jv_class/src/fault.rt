//! Why bytes were not read as a class file.

ghost use Rattle.std.specs.Prelude.{◌≡◌};
ghost use Rattle.jv_class.specs.declared.fault.ClassFault.TheVariants.{OutOfMemory};

use std::alloc::AllocFailed;
use thiserror::Error;

/// Why bytes were not read as a class file, the first that applies.
#[derive(Clone, Copy, Debug, Error)]
pub enum ClassFault {
    /// The bytes begin like a class file, with a version other than 50.0, 51.0 and 52.0 (JVMS 4.1).
    #[error("another version")]
    Version,
    /// The bytes break a rule of the format (JVMS 4.1 to 4.7).
    #[error("no class file")]
    Format,
    /// The class file has what this host's profile lacks, its code aside.
    #[error("beyond the profile")]
    Unsupported,
    /// The host's memory was refused.
    #[error("out of memory")]
    OutOfMemory,
}

impl<T: Drop> From<AllocFailed<T>> for ClassFault {
    ghost from_gives = { λ _ e. e ≡ OutOfMemory };

    fn from(_e: AllocFailed<T>) -> ClassFault {
        ClassFault::OutOfMemory
    }
}
