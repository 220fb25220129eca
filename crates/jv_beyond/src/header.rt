//! Where the constant pool of a class file begins (JVMS 4.1).

ghost use Rattle.jv_format.specs.Format.{Finds};
ghost use Rattle.jv_class.specs.Inside.Reading.{header, magic_number};

use jv_format::{half_at, quad_at};

/// What follows the magic number.
fn magic_at(bytes: &[u8]) -> Option<&[u8]>
    ensures { Finds magic_number bytes.now (λ rest. (3405691582, rest.now)) result }
{
    let Some((found, rest)) = quad_at(bytes) else {
        return None;
    };
    if found == 0xcafe_babe {
        Some(rest)
    } else {
        None
    }
}

/// The minor and the major version behind the magic number, and what follows.
pub(crate) fn version_at(bytes: &[u8]) -> Option<((u16, u16), &[u8])>
    ensures { Finds header bytes.now (λ x. ((3405691582, (x.0.0, x.0.1)), x.1.now)) result }
{
    let Some(rest) = magic_at(bytes) else {
        return None;
    };
    let Some((minor, rest)) = half_at(rest) else {
        return None;
    };
    let Some((major, rest)) = half_at(rest) else {
        return None;
    };
    Some(((minor, major), rest))
}
