//! Instructions outside the profile (JVMS 6.5, 7).

ghost use Rattle.std.specs.Prelude.{◌≡◌, ◌↔◌, IfNone, IfSome, IsTrue, is_some};
ghost use Rattle.jv_code.specs.Inside.Shapes.{shape_at, is_outside};
ghost use Rattle.jv_code.specs.Unsupported.{is_unsupported, makes_floats, is_wide_float, front_unsupported, IsUnsupported, IsUnsupportedAt};

use crate::code::behind_insn;
use crate::shapes::shape_of;

fn is_of_profile(opcode: u8) -> bool
    ensures { result ≡ is_some (shape_at opcode) }
{
    shape_of(opcode).is_some()
}

fn is_outside(opcode: u8) -> bool
    ensures { result ≡ is_outside opcode }
{
    11 <= opcode && opcode <= 195 && opcode != 168 && opcode != 169 && !is_of_profile(opcode)
}

fn is_unsupported(opcode: u8) -> bool
    ensures { result ≡ is_unsupported opcode }
{
    is_outside(opcode)
}

fn makes_floats(opcode: u8, code: u8) -> bool
    ensures { result ≡ makes_floats opcode code }
{
    opcode == 188 && (code == 6 || code == 7)
}

fn is_wide_float(opcode: u8, next: u8) -> bool
    ensures { result ≡ is_wide_float opcode next }
{
    opcode == 196 && (next == 23 || next == 24 || next == 56 || next == 57)
}

fn front_unsupported(bytes: &[u8]) -> bool
    ensures { result ≡ front_unsupported bytes.now }
{
    match bytes {
        [] => false,
        [opcode] => is_unsupported(*opcode),
        [opcode, next, ..] => {
            is_unsupported(*opcode) || makes_floats(*opcode, *next) || is_wide_float(*opcode, *next)
        }
    }
}

/// Where the first instruction stands that the profile leaves out, behind instructions of the profile alone: an opcode of float,
/// double, `invokedynamic` or monitors, `newarray` of float or double, or `wide` before such a local; `None` where there is none. It
/// goes over the bytes once.
pub fn unsupported_at(bytes: &[u8]) -> Option<usize>
    ensures found { IfSome result (IsUnsupportedAt bytes.now) }
    ensures none { IfNone result (IsUnsupported bytes.now → ⊥) }
{
    let mut rest = bytes;
    while let Some(after) = behind_insn(bytes.len() - rest.len(), rest) {
        rest = after;
    }
    if front_unsupported(rest) {
        Some(bytes.len() - rest.len())
    } else {
        None
    }
}

/// Whether the bytes begin with instructions of the profile, followed by one outside it.
pub fn unsupported(bytes: &[u8]) -> bool
    ensures { IsTrue result ↔ IsUnsupported bytes.now }
{
    unsupported_at(bytes).is_some()
}
