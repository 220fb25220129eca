//! Why nothing was written.

ghost use Rattle.std.specs.Prelude.{◌≡◌};
ghost use Rattle.jv_asm.specs.declared.fault.AsmFault.TheVariants.{OutOfMemory};

use std::alloc::{AllocError, AllocFailed};
use thiserror::Error;

/// Why nothing was written, the first that applies.
#[derive(Clone, Copy, Debug, Error)]
pub enum AsmFault {
    /// A count or a length does not fit its field.
    #[error("too large")]
    TooLarge,
    /// The host's memory was refused.
    #[error("out of memory")]
    OutOfMemory,
}

impl From<AllocError> for AsmFault {
    ghost from_gives = { λ _ e. e ≡ OutOfMemory };

    fn from(_e: AllocError) -> AsmFault {
        AsmFault::OutOfMemory
    }
}

impl<T: Drop> From<AllocFailed<T>> for AsmFault {
    ghost from_gives = { λ _ e. e ≡ OutOfMemory };

    fn from(_e: AllocFailed<T>) -> AsmFault {
        AsmFault::OutOfMemory
    }
}
