//! The line of an offset, in a Code attribute.

use crate::reading::{Rest, is_text};
use jv_pool::Pool;

/// The last entry of a LineNumberTable with the greatest offset that is at most this one, and the first with this very one; what was found
/// before stays where none is later (4.7.12). So HotSpot reads it.
fn later_line(table: &[u8], offset: u16, found: Option<(u16, u16)>) -> Option<(u16, u16)> {
    let mut rest = Rest(table);
    let mut found = found;
    let count = rest.half()?;
    for _ in 0..count {
        let start = rest.half()?;
        let line = rest.half()?;
        let is_later = match found {
            Some((before, _)) => before < start || before == start && start != offset,
            None => true,
        };
        if start <= offset && is_later {
            found = Some((start, line));
        }
    }
    found
}

/// The code of a Code attribute with these contents, the number of its attributes, and what begins with them (4.7.3).
pub(crate) fn body_in(contents: &[u8]) -> Option<(&[u8], u16, Rest<'_>)> {
    let mut rest = Rest(contents);
    let _max_stack = rest.half()?;
    let _max_locals = rest.half()?;
    let code = rest.counted()?;
    let handlers = rest.half()?;
    let _exception_table = rest.bytes(usize::from(handlers) * 8)?;
    let attributes = rest.half()?;
    Some((code, attributes, rest))
}

/// The line of the instruction at an offset, where an attribute of this Code attribute has it (4.7.3, 4.7.12).
pub(crate) fn line_in(pool: &Pool<'_>, contents: &[u8], offset: u16) -> Option<u16> {
    let (_code, attributes, mut rest) = body_in(contents)?;
    let mut found = None;
    for _ in 0..attributes {
        let (name, table) = rest.attribute()?;
        if is_text(pool, name, b"LineNumberTable".as_slice()) {
            found = later_line(table, offset, found);
        }
    }
    match found {
        Some((_, line)) => Some(line),
        None => None,
    }
}
