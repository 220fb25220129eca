//! Bytes, read one behind the other.

use jv_format::{bytes_at, half_at, quad_at};
use jv_pool::Pool;

/// What is left of a file.
#[derive(Clone, Copy)]
pub(crate) struct Rest<'a>(pub(crate) &'a [u8]);

impl<'a> Rest<'a> {
    /// The next two bytes, as a number.
    pub(crate) fn half(&mut self) -> Option<u16> {
        let (number, rest) = half_at(self.0)?;
        self.0 = rest;
        Some(number)
    }

    /// So many bytes.
    pub(crate) fn bytes(&mut self, count: usize) -> Option<&'a [u8]> {
        let (bytes, rest) = bytes_at(count, self.0)?;
        self.0 = rest;
        Some(bytes)
    }

    /// The bytes behind their number, a `u4`.
    pub(crate) fn counted(&mut self) -> Option<&'a [u8]> {
        let (count, rest) = quad_at(self.0)?;
        self.0 = rest;
        self.bytes(count as usize)
    }

    /// An attribute: the index of its name, and its contents (4.7).
    pub(crate) fn attribute(&mut self) -> Option<(u16, &'a [u8])> {
        let name = self.half()?;
        let contents = self.counted()?;
        Some((name, contents))
    }
}

/// The least index of a Utf8 constant that is this text, where there is one (4.4.7).
pub(crate) fn index_of(pool: &Pool<'_>, text: &[u8]) -> Option<u16> {
    for index in 1..pool.count() {
        if is_text(pool, index, text) {
            return Some(index);
        }
    }
    None
}

/// Whether the constant with an index has the text of that with another one, the least of its text; no text is gone over.
pub(crate) fn is_alike(pool: &Pool<'_>, index: u16, least: u16) -> bool {
    match pool.utf8_index(index) {
        Some(index) => pool.first_alike(index) == least,
        None => false,
    }
}

/// Whether the constant with an index is this text (4.4.7).
pub(crate) fn is_text(pool: &Pool<'_>, index: u16, text: &[u8]) -> bool {
    match pool.utf8_index(index) {
        Some(index) => pool.utf8(index) == text,
        None => false,
    }
}
