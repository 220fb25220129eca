//! Why code was not assembled.

ghost use Rattle.std.specs.Prelude.{◌≡◌};
ghost use Rattle.jv_asm_builder.specs.declared.fault.BuilderFault.TheVariants.{OutOfMemory};
ghost use Rattle.jv_asm_builder.specs.Faults.{fault_of};

use jv_asm::AsmFault;
use std::alloc::{AllocError, AllocFailed};
use thiserror::Error;

/// Why code was not assembled, the first that applies.
#[derive(Clone, Copy, Debug, Error)]
pub enum BuilderFault {
    /// An instruction or a handler has a label that was not placed.
    #[error("a label was not placed")]
    Unplaced,
    /// The distance of a branch, a count or a length does not fit its field.
    #[error("too large")]
    TooLarge,
    /// A frame stands where another one does.
    #[error("two frames at one place")]
    TwoFrames,
    /// The host's memory was refused.
    #[error("out of memory")]
    OutOfMemory,
}

impl From<AsmFault> for BuilderFault {
    ghost from_gives = { λ fault e. e ≡ fault_of fault };

    fn from(fault: AsmFault) -> BuilderFault {
        match fault {
            AsmFault::TooLarge => BuilderFault::TooLarge,
            AsmFault::OutOfMemory => BuilderFault::OutOfMemory,
        }
    }
}

impl From<AllocError> for BuilderFault {
    ghost from_gives = { λ _ e. e ≡ OutOfMemory };

    fn from(_e: AllocError) -> BuilderFault {
        BuilderFault::OutOfMemory
    }
}

impl<T: Drop> From<AllocFailed<T>> for BuilderFault {
    ghost from_gives = { λ _ e. e ≡ OutOfMemory };

    fn from(_e: AllocFailed<T>) -> BuilderFault {
        BuilderFault::OutOfMemory
    }
}
