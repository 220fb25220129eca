//! Files that are cut or grown.

use jv_class::{ClassFault, read_class};
use std::alloc::Global;

fn is_refused(alloc: Global, bytes: &[u8]) -> bool {
    matches!(read_class(alloc, bytes), Err(ClassFault::Format))
}

/// How many of a file's prefixes are refused for their format.
pub(crate) fn refused(alloc: Global, bytes: &[u8]) -> usize {
    let mut count: usize = 0;
    for length in 0..bytes.len() {
        if is_refused(alloc, &bytes[..length]) {
            count = count.saturating_add(1);
        }
    }
    count
}

/// Whether a file with one more byte is refused for its format.
pub(crate) fn longer_is_refused(alloc: Global, bytes: &[u8]) -> bool {
    let Ok(mut longer) = Vec::from_slice(alloc, bytes) else {
        return false;
    };
    longer.push(0).is_ok() && is_refused(alloc, &longer)
}
