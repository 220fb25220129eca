//! The lines of all offsets of a Code attribute.
ghost use Rattle.std.specs.Prelude.{◌≡◌};
ghost use Rattle.jv_lines.specs.Lines.{line_in};

use crate::code::body_in;
use crate::reading::{Rest, is_text};
use jv_pool::Pool;
use std::alloc::{AllocError, Global};

/// The lines that entries of LineNumberTables name for the offset with which they begin: of each offset the first entry's and the last's.
#[derive(Drop)]
struct Marks {
    first: Vec<Option<u16>>,
    last: Vec<Option<u16>>,
}

/// No line for any of so many offsets.
fn none_of(alloc: Global, count: usize) -> Result<Vec<Option<u16>>, AllocError> {
    let mut lines = Vec::new(alloc);
    for _ in 0..count {
        lines.push(None)?;
    }
    Ok(lines)
}

/// The line at a place.
pub(crate) fn line_in(lines: &[Option<u16>], place: usize) -> Option<u16>
    ensures { result ≡ line_in lines.now place }
{
    match lines.get(place) {
        Some(line) => *line,
        None => None,
    }
}

impl Marks {
    /// Marks the offset of an entry with its line.
    fn mark(&mut self, start: u16, line: u16) {
        let place = usize::from(start);
        if let Some(slot) = self.first.get_mut(place) {
            if slot.is_none() {
                *slot = Some(line);
            }
        }
        if let Some(slot) = self.last.get_mut(place) {
            *slot = Some(line);
        }
    }

    /// Marks the offsets of the entries of a LineNumberTable, as far as there are any (4.7.12).
    fn mark_all(&mut self, table: &[u8]) -> Option<()> {
        let mut rest = Rest(table);
        let count = rest.half()?;
        for _ in 0..count {
            let start = rest.half()?;
            let line = rest.half()?;
            self.mark(start, line);
        }
        Some(())
    }
}

/// The line of each of so many offsets, as HotSpot reads it: that of the first entry with this very offset, else that of the last entry
/// with the greatest offset below it (4.7.12).
fn lines_by(alloc: Global, marks: &Marks, count: usize) -> Result<Vec<Option<u16>>, AllocError> {
    let mut lines = Vec::new(alloc);
    let mut before = None;
    for place in 0..count {
        let first = line_in(marks.first.as_slice(), place);
        lines.push(if first.is_some() { first } else { before })?;
        let last = line_in(marks.last.as_slice(), place);
        before = if last.is_some() { last } else { before };
    }
    Ok(lines)
}

/// The line of each offset of the code of a Code attribute with these contents, where an attribute of it says one (4.7.3, 4.7.12).
pub(crate) fn lines_in(
    alloc: Global,
    pool: &Pool<'_>,
    contents: &[u8],
) -> Result<Vec<Option<u16>>, AllocError> {
    let Some((code, count, mut rest)) = body_in(contents) else {
        return Ok(Vec::new(alloc));
    };
    let size = code.len();
    let mut marks = Marks {
        first: none_of(alloc, size)?,
        last: none_of(alloc, size)?,
    };
    for _ in 0..count {
        let Some((name, table)) = rest.attribute() else {
            return lines_by(alloc, &marks, size);
        };
        if is_text(pool, name, b"LineNumberTable".as_slice()) {
            let _ = marks.mark_all(table);
        }
    }
    lines_by(alloc, &marks, size)
}
