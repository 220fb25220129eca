//! Modified UTF-8 (JVMS 4.4.7).

ghost use Rattle.std.specs.Prelude.{◌≡◌, ◌≢◌, ◌<◌, ◌≤◌, ◌+◌, ◌^◌, ◌++◌, ◌∷◌, [], ◌↔◌, ℕ, List, IfSome, IfNone, IfOk, IsTrue, Err};
ghost use Rattle.jv_text.specs.Text.{unit_bytes, Spells, IsText};
ghost use Rattle.jv_text.specs.declared.text.TextFault.TheVariants.{OutOfMemory, BadText};

use std::alloc::{AllocFailed, Global};
use thiserror::Error;

/// Why there are no units.
#[derive(Clone, Copy, Debug, Error)]
pub enum TextFault {
    /// The bytes spell no units.
    #[error("no text")]
    BadText,
    /// No memory was left for the units.
    #[error("out of memory")]
    OutOfMemory,
}

impl<T: Drop> From<AllocFailed<T>> for TextFault {
    ghost from_gives = { λ _ e. e ≡ OutOfMemory };

    fn from(_e: AllocFailed<T>) -> TextFault {
        TextFault::OutOfMemory
    }
}

/// The place of a byte among those from one to before another.
fn place_of(byte: u8, from: u8, to: u8) -> Option<u16>
    ensures found { IfSome result (λ place. from + place ≡ byte) }
    ensures below { IfSome result (λ place. from + place < to) }
    ensures none { IfNone result (from ≤ byte → to ≤ byte) }
{
    if from <= byte && byte < to {
        Some(u16::from(byte - from))
    } else {
        None
    }
}

/// The unit that two bytes spell, where it has no shorter form.
fn two_byte_unit(a: u8, b: u8) -> Option<u16>
    ensures fits { IfSome result (λ unit. unit < 2 ^ 16) }
    ensures found { IfSome result (λ unit. unit_bytes unit ≡ a ∷ b ∷ []) }
    ensures none { IfNone result ((unit : ℕ) → unit < 2 ^ 16 → unit_bytes unit ≢ a ∷ b ∷ []) }
{
    let Some(high) = place_of(a, 192, 224) else {
        return None;
    };
    let Some(low) = place_of(b, 128, 192) else {
        return None;
    };
    let unit = high * 64 + low;
    if 0 < unit && unit < 128 {
        return None;
    }
    Some(unit)
}

/// The unit that three bytes spell, where it has no shorter form.
fn three_byte_unit(a: u8, b: u8, c: u8) -> Option<u16>
    ensures fits { IfSome result (λ unit. unit < 2 ^ 16) }
    ensures found { IfSome result (λ unit. unit_bytes unit ≡ a ∷ b ∷ c ∷ []) }
    ensures none { IfNone result ((unit : ℕ) → unit < 2 ^ 16 → unit_bytes unit ≢ a ∷ b ∷ c ∷ []) }
{
    let Some(high) = place_of(a, 224, 240) else {
        return None;
    };
    let Some(middle) = place_of(b, 128, 192) else {
        return None;
    };
    let Some(low) = place_of(c, 128, 192) else {
        return None;
    };
    let unit = high * 4096 + middle * 64 + low;
    if unit < 2048 {
        return None;
    }
    Some(unit)
}

/// Reads the unit at the front, in its shortest form alone, and gives what follows it.
fn unit_at(bytes: &[u8]) -> Option<(u16, &[u8])>
    ensures fits { IfSome result (λ x. x.0 < 2 ^ 16) }
    ensures found { IfSome result (λ x. bytes.now ≡ unit_bytes x.0 ++ x.1.now) }
    ensures none { IfNone result ((unit : ℕ) (rest : List ℕ) → unit < 2 ^ 16
        → bytes.now ≢ unit_bytes unit ++ rest) }
{
    match bytes {
        [a, rest @ ..] if 0 < *a && *a < 128 => Some((u16::from(*a), rest)),
        [a, b, rest @ ..] if *a < 224 => match two_byte_unit(*a, *b) {
            Some(unit) => Some((unit, rest)),
            None => None,
        },
        [a, b, c, rest @ ..] => match three_byte_unit(*a, *b, *c) {
            Some(unit) => Some((unit, rest)),
            None => None,
        },
        _ => None,
    }
}

/// The UTF-16 units that the bytes spell.
///
/// `BadText` where they spell none, also where a unit is not in its shortest form; a lone surrogate
/// is a unit like others. `OutOfMemory` comes where a growth was refused, and then at once.
pub fn decode(alloc: Global, bytes: &[u8]) -> Result<Vec<u16>, TextFault>
    ensures ok { IfOk result (λ units. Spells units.items bytes.now) }
    ensures bad { result ≡ Err BadText → IsText bytes.now → ⊥ }
{
    let mut units = Vec::new(alloc);
    let mut rest = bytes;
    while !rest.is_empty() {
        let Some((unit, after)) = unit_at(rest) else {
            return Err(TextFault::BadText);
        };
        units.push(unit)?;
        rest = after;
    }
    Ok(units)
}

/// Whether the bytes are modified UTF-8.
pub fn is_text(bytes: &[u8]) -> bool
    ensures { IsTrue result ↔ IsText bytes.now }
{
    let mut rest = bytes;
    while !rest.is_empty() {
        let Some((_unit, after)) = unit_at(rest) else {
            return false;
        };
        rest = after;
    }
    true
}
