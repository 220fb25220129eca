//! Formats: how numbers, texts and lists are spelled in bytes.
//!
//! `specs/Format.antt` has a format as three functions: the bytes of a value, which values have
//! bytes, and what stands at the front of bytes. `proofs/Laws.antt` shows of each that reading
//! gives exactly what was spelled. The functions here read from the front of a slice. Each
//! answers the value and the bytes that follow it, or `None` where no value stands there; none
//! takes memory.
#![tactic(auto)]

mod handlers;
mod law;

ghost use Rattle.jv_format.specs.Format.{Finds, byte, half, quad, text};
ghost use Rattle.jv_format.specs.Readers.{bytes_of};

use byteorder::{BigEndian, ByteOrder};
pub use handlers::{ExceptionTable, Handler};
pub use law::{are_big_endian, handlers_stand};

/// The byte at the front, and what follows it. `None` where there is none.
#[inline]
pub fn byte_at(bytes: &[u8]) -> Option<(u8, &[u8])>
    ensures { Finds byte bytes.now (λ x. (x.0, x.1.now)) result }
{
    match bytes {
        [value, rest @ ..] => Some((*value, rest)),
        [] => None,
    }
}

/// The number in the two bytes at the front (a `u2` of JVMS 4), and what follows them. `None`
/// where there are fewer.
#[inline]
pub fn half_at(bytes: &[u8]) -> Option<(u16, &[u8])>
    ensures { Finds half bytes.now (λ x. (x.0, x.1.now)) result }
{
    match bytes {
        [_, _, rest @ ..] => Some((BigEndian::read_u16(bytes), rest)),
        _ => None,
    }
}

/// The number in the four bytes at the front (a `u4` of JVMS 4), and what follows them. `None`
/// where there are fewer.
#[inline]
pub fn quad_at(bytes: &[u8]) -> Option<(u32, &[u8])>
    ensures { Finds quad bytes.now (λ x. (x.0, x.1.now)) result }
{
    match bytes {
        [_, _, _, _, rest @ ..] => Some((BigEndian::read_u32(bytes), rest)),
        _ => None,
    }
}

/// This many bytes, and what follows them. `None` where there are fewer.
#[inline]
pub fn bytes_at(count: usize, bytes: &[u8]) -> Option<(&[u8], &[u8])>
    ensures { Finds (bytes_of count) bytes.now (λ x. (x.0.now, x.1.now)) result }
{
    if bytes.len() < count {
        return None;
    }
    Some(bytes.split_at(count))
}

/// The bytes behind their number, a `u2` at the front, and what follows them. `None` where there
/// are fewer.
#[tactic(auto, using(crate::proofs::Laws::both_is))]
pub fn text_at(bytes: &[u8]) -> Option<(&[u8], &[u8])>
    ensures { Finds text bytes.now (λ x. (x.0.now, x.1.now)) result }
{
    let (length, rest) = half_at(bytes)?;
    bytes_at(usize::from(length), rest)
}
