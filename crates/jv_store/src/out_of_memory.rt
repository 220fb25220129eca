use std::alloc::AllocError;

/// The host had no memory for what was asked.
#[derive(Clone, Copy, Debug)]
pub struct OutOfMemory;

impl From<AllocError> for OutOfMemory {
    fn from(_refused: AllocError) -> Self {
        OutOfMemory
    }
}
