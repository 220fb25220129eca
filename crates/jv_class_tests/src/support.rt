//! What the tests share.

use jv_pool::{Pool, read_pool};
use jv_stackmap::{FrameFault, Limits, MapFrames, Width, read_frames};
use std::alloc::Global;

/// Utf8 `A`, Class 1, Utf8 `[[J`, Class 3.
pub(crate) const POOL: &[u8] = b"\x00\x05\x01\x00\x01A\x07\x00\x01\x01\x00\x03[[J\x07\x00\x03";

/// The frames of the bytes behind class A, long and int.
pub(crate) fn frames_in(
    alloc: Global,
    bytes: &[u8],
    pool: &Pool<'_>,
    max_locals: u16,
    max_stack: u16,
) -> Result<MapFrames, FrameFault> {
    let widths = [Width::One, Width::Two, Width::One];
    let limits = Limits {
        max_locals,
        max_stack,
    };
    read_frames(alloc, bytes, pool, &widths, limits)
}

/// Whether the bytes are refused as having no frames within the limits.
pub(crate) fn is_refused(alloc: Global, bytes: &[u8], max_locals: u16, max_stack: u16) -> bool {
    match read_pool(alloc, POOL) {
        Ok((pool, _)) => matches!(
            frames_in(alloc, bytes, &pool, max_locals, max_stack),
            Err(FrameFault::BadFrames)
        ),
        Err(_) => false,
    }
}
