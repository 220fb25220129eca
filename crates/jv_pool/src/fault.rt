//! Why there is no pool.

ghost use Rattle.std.specs.Prelude.{◌≡◌};
ghost use Rattle.jv_pool.specs.declared.fault.PoolFault.TheVariants.{OutOfMemory};

use std::alloc::{AllocError, AllocFailed};
use thiserror::Error;

/// Why there is no pool.
#[derive(Clone, Copy, Debug, Error)]
pub enum PoolFault {
    /// No front of the bytes is a pool.
    #[error("no constant pool")]
    BadPool,
    /// The host had no memory for the pool.
    #[error("out of memory")]
    OutOfMemory,
}

impl<T: Drop> From<AllocFailed<T>> for PoolFault {
    ghost from_gives = { λ _ e. e ≡ OutOfMemory };

    fn from(_e: AllocFailed<T>) -> PoolFault {
        PoolFault::OutOfMemory
    }
}

impl From<AllocError> for PoolFault {
    ghost from_gives = { λ _ e. e ≡ OutOfMemory };

    fn from(_e: AllocError) -> PoolFault {
        PoolFault::OutOfMemory
    }
}
