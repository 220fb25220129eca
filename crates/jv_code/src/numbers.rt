//! Signed numbers at the front of bytes, the high byte first (JVMS 6.5).

ghost use Rattle.jv_format.specs.Format.{Finds};
ghost use Rattle.jv_code.specs.Numbers.{signed8, signed16, signed32};

use jv_format::{byte_at, half_at, quad_at};

/// The number in the byte at the front, and what follows it.
#[inline]
pub(crate) fn signed8_at(bytes: &[u8]) -> Option<(i8, &[u8])>
    ensures { Finds signed8 bytes.now (λ x. (x.0, x.1.now)) result }
{
    let Some((value, rest)) = byte_at(bytes) else {
        return None;
    };
    Some((value.cast_signed(), rest))
}

/// The number in the two bytes at the front, and what follows them.
#[inline]
pub(crate) fn signed16_at(bytes: &[u8]) -> Option<(i16, &[u8])>
    ensures { Finds signed16 bytes.now (λ x. (x.0, x.1.now)) result }
{
    let Some((value, rest)) = half_at(bytes) else {
        return None;
    };
    Some((value.cast_signed(), rest))
}

/// The number in the four bytes at the front, and what follows them.
#[inline]
pub(crate) fn signed32_at(bytes: &[u8]) -> Option<(i32, &[u8])>
    ensures { Finds signed32 bytes.now (λ x. (x.0, x.1.now)) result }
{
    let Some((value, rest)) = quad_at(bytes) else {
        return None;
    };
    Some((value.cast_signed(), rest))
}
