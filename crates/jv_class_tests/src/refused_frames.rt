//! Bytes that have no frames within the limits.

use crate::support::is_refused;

/// Bytes, and how many local variables and words of the stack there are.
static REFUSED: [(&[u8], u16, u16); 21] = [
    // No count, fewer frames than it says, and bytes left over.
    (b"", 4, 2),
    (b"\x00", 4, 2),
    (b"\x00\x02\x00", 4, 2),
    (b"\x00\x01\x00\x00", 4, 2),
    (b"\x00\x00\x00", 4, 2),
    // Reserved types.
    (b"\x00\x01\x80", 4, 2),
    (b"\x00\x01\xf6", 4, 2),
    // Float, double and no tag.
    (b"\x00\x01\x40\x02", 4, 2),
    (b"\x00\x01\x40\x03", 4, 2),
    (b"\x00\x01\x40\x09", 4, 2),
    // Cut off.
    (b"\x00\x01\xfb\x00", 4, 2),
    (b"\x00\x01\xff\x00\x00\x00\x00\x00\x02\x01", 4, 2),
    // An Object of a Utf8 constant, of none, and of index 0.
    (b"\x00\x01\x40\x07\x00\x01", 4, 2),
    (b"\x00\x01\x40\x07\x00\x05", 4, 2),
    (b"\x00\x01\x40\x07\x00\x00", 4, 2),
    // More chopped than there is.
    (b"\x00\x02\xf8\x00\x00\xf8\x00\x00", 4, 2),
    // An int more than there are local variables.
    (b"\x00\x01\xfc\x00\x00\x01", 4, 2),
    // The second word of a long more.
    (b"\x00\x01\xff\x00\x00\x00\x03\x01\x04\x04\x00\x00", 4, 2),
    // A stack of a long and an int.
    (b"\x00\x01\xff\x00\x00\x00\x00\x00\x02\x04\x01", 4, 2),
    // A long on a stack of one word.
    (b"\x00\x01\x40\x04", 4, 1),
    // One local variable fewer than the initial entries fill.
    (b"\x00\x01\x00", 3, 2),
];

#[test]
fn refused(rt: HostRuntime) {
    for (bytes, max_locals, max_stack) in &REFUSED {
        assert!(rt;
            is_refused(rt.alloc(), bytes, *max_locals, *max_stack),
            "{bytes:?}"
        );
    }
}
