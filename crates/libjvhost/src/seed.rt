//! The state for hashing, of a seed that is given.

use std::hash::RandomState;
use std::io;
use std::random::RandomSource;

/// Sixteen bytes that the caller gave.
#[derive(Drop)]
struct Seed {
    bytes: [u8; 16],
}

impl RandomSource for Seed {
    fn fill_bytes(&self, buf: &mut [u8]) -> io::Result<()> {
        for (to, from) in buf.iter_mut().zip(self.bytes.iter()) {
            *to = *from;
        }
        Ok(())
    }
}

/// The state for hashing with this seed.
pub(crate) fn state_of(seed: u64, more_seed: u64) -> Option<RandomState> {
    let seed = Seed {
        bytes: (u128::from(more_seed) << 64 | u128::from(seed)).to_le_bytes(),
    };
    RandomState::new(&seed).ok()
}
