//! Why there are no frames.

ghost use Rattle.std.specs.Prelude.{◌≡◌};
ghost use Rattle.jv_stackmap.specs.declared.fault.FrameFault.TheVariants.{OutOfMemory};

use std::alloc::{AllocError, AllocFailed};
use thiserror::Error;

/// Why there are no frames.
#[derive(Clone, Copy, Debug, Error)]
pub enum FrameFault {
    /// The bytes have no frames within the limits.
    #[error("no stack map frames")]
    BadFrames,
    /// The host had no memory for the frames.
    #[error("out of memory")]
    OutOfMemory,
}

impl<T: Drop> From<AllocFailed<T>> for FrameFault {
    ghost from_gives = { λ _ e. e ≡ OutOfMemory };

    fn from(_e: AllocFailed<T>) -> FrameFault {
        FrameFault::OutOfMemory
    }
}

impl From<AllocError> for FrameFault {
    ghost from_gives = { λ _ e. e ≡ OutOfMemory };

    fn from(_e: AllocError) -> FrameFault {
        FrameFault::OutOfMemory
    }
}
