//! Frames of each form.

use crate::support::{POOL, frames_in};
use jv_pool::read_pool;
use jv_stackmap::{Entries, FrameEntry, MapFrames, no_frames};
use std::alloc::Global;

/// A frame as the tests have it: its offset, a letter for each of its local entries from the last
/// on, their words, and a letter for each item of its stack from the top on.
type Row = (u32, &'static [u8], u16, &'static [u8]);

/// The letter of an entry; the initial ones are a, b and c.
fn letter(entry: FrameEntry) -> u8 {
    match entry {
        FrameEntry::Top => b'T',
        FrameEntry::Int => b'I',
        FrameEntry::Long => b'J',
        FrameEntry::Null => b'N',
        FrameEntry::UninitializedThis => b'U',
        FrameEntry::Object(2) => b'A',
        FrameEntry::Object(4) => b'2',
        FrameEntry::Uninitialized(7) => b'7',
        FrameEntry::Initial(0) => b'a',
        FrameEntry::Initial(1) => b'b',
        FrameEntry::Initial(2) => b'c',
        _ => b'?',
    }
}

/// Whether the entries that are left have these letters.
fn are(mut entries: Entries<'_>, letters: &[u8]) -> bool {
    for wanted in letters {
        match entries.next() {
            Some(entry) => {
                if letter(entry) != *wanted {
                    return false;
                }
            }
            None => return false,
        }
    }
    entries.next().is_none()
}

/// Whether the frame at a place, and at the row's offset, is that of a row.
fn is_row(frames: &MapFrames, place: usize, row: Row) -> bool {
    if place >= frames.count() {
        return false;
    }
    let frame = frames.frame_at(place);
    let (offset, locals, words, stack) = row;
    frames.place_of(offset) == Some(place)
        && frame.offset() == offset
        && frame.local_words() == words
        && are(frame.locals(), locals)
        && are(frame.stack(), stack)
}

/// Whether the frames are those of the rows.
fn are_rows(frames: &MapFrames, rows: &[Row]) -> bool {
    for (place, row) in rows.iter().enumerate() {
        if !is_row(frames, place, *row) {
            return false;
        }
    }
    frames.count() == rows.len()
}

/// Bytes, how many local variables and words of the stack there are, the frames, and an offset at which none
/// stands.
type File = (&'static [u8], u16, u16, &'static [Row], u32);

static FILES: [File; 4] = [
    // Two entries go.
    (
        b"\x00\x02\x0a\xf9\x00\x03",
        4,
        0,
        &[(10, b"cba", 4, b""), (14, b"a", 1, b"")],
        11,
    ),
    // One item at 0, one at 0 + 1 + 300, and none at 301 + 1 + 2 and 304 + 1 + 0.
    (
        b"\x00\x04\x40\x04\xf7\x01\x2c\x08\x00\x07\xfb\x00\x02\x00",
        4,
        2,
        &[
            (0, b"cba", 4, b"J"),
            (301, b"cba", 4, b"7"),
            (304, b"cba", 4, b""),
            (305, b"cba", 4, b""),
        ],
        306,
    ),
    // All entries go, and then null and an array are added.
    (
        b"\x00\x02\xf8\x00\x00\xfd\x00\x00\x05\x07\x00\x04",
        4,
        2,
        &[(0, b"", 0, b""), (1, b"2N", 2, b"")],
        2,
    ),
    // A long as the last two local variables; top above uninitialized `this` on the stack, and a
    // class. The second offset is past all code.
    (
        b"\x00\x03\xff\x00\x05\x00\x03\x00\x01\x04\x00\x02\x06\x00\xfb\xff\xff\xff\x00\x00\x00\x01\x07\x00\x02\x00\x00",
        4,
        2,
        &[
            (5, b"JIT", 4, b"TU"),
            (65541, b"JIT", 4, b""),
            (65542, b"A", 1, b""),
        ],
        6,
    ),
];

/// Whether the bytes of a file are its frames.
fn is_read(alloc: Global, file: &File) -> bool {
    let (bytes, max_locals, max_stack, rows, vacant) = *file;
    let Ok((pool, _)) = read_pool(alloc, POOL) else {
        return false;
    };
    match frames_in(alloc, bytes, &pool, max_locals, max_stack) {
        Ok(frames) => are_rows(&frames, rows) && frames.place_of(vacant).is_none(),
        Err(_) => false,
    }
}

#[test]
fn forms(rt: HostRuntime) {
    for file in &FILES {
        assert!(rt; is_read(rt.alloc(), file), "{:?}", file.0);
    }
}

#[test]
fn none(rt: HostRuntime) {
    assert!(rt; no_frames(rt.alloc()).count() == 0);
}
