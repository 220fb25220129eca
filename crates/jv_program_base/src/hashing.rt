//! How names are hashed.
ghost use Rattle.std.specs.Prelude.{◌≡◌, IfErr};
ghost use Rattle.jv_program_base.specs.declared.failure.Failure.TheVariants.{HostMemory};

use crate::failure::Failure;
use std::hash::RandomState;
use std::random::RandomSource;

/// The state with which names are hashed; a system that gives none is short of memory.
pub fn hashing_state<R: RandomSource>(rt: &R) -> Result<RandomState, Failure>
    ensures { IfErr result (λ failure. failure ≡ HostMemory) }
{
    match RandomState::new(rt) {
        Ok(state) => Ok(state),
        Err(_) => Err(Failure::HostMemory),
    }
}
