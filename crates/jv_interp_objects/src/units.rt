//! The units of texts, read without memory (JVMS 4.4.7).

ghost use Rattle.std.specs.Prelude.{◌≡◌, ◌+◌, ◌<◌, ◌≤◌, count_by, length};
ghost use Rattle.jv_interp_objects.specs.Units.{begins_unit, HasUnits, IsSomeText, BeginsWithUnit};
ghost use Rattle.jv_interp_objects.specs.TextBlocks.{CanFill, Fills};

use jv_store::Store;

/// The first word of an array of chars.
pub const CHARS: u32 = 2_147_483_649;

/// How many bytes begin a unit.
fn begun(text: &[u8]) -> usize
    ensures { result ≡ count_by begins_unit text.now }
{
    text.iter()
        .filter(|byte| **byte < 128 || 192 <= **byte)
        .count()
}

/// How many units the bytes of a text have: as many as bytes that begin one.
pub fn count_units(text: &[u8]) -> usize
    ensures counts { HasUnits text.now result }
    ensures few { result ≤ length text.now }
{
    begun(text)
}

/// The unit at the front of a text, and what follows it.
fn front_unit(text: &[u8]) -> (u32, &[u8])
    requires { IsSomeText text.now }
    ensures { BeginsWithUnit text.now result.0 result.1.now }
{
    let first = u32::from(text[0]);
    if first < 128 {
        return (first, &text[1..]);
    }
    let second = u32::from(text[1]);
    if first < 224 {
        return ((first - 192) * 64 + (second - 128), &text[2..]);
    }
    let third = u32::from(text[2]);
    (
        (first - 224) * 4096 + (second - 128) * 64 + (third - 128),
        &text[3..],
    )
}

/// Writes the units of a text into the newest block, an array of as many chars.
pub fn fill<S: Store>(store: &mut S, address: u32, text: &[u8])
    requires few { length text.now < 2147483648 }
    requires can { CanFill text.now (S.content store.old) address }
    ensures fills { Fills text.now (S.content store.old) (S.content store.new) address }
    ensures room { S.room_left store.new ≡ S.room_left store.old }
{
    let mut rest = text;
    let mut place = 2;
    while !rest.is_empty() {
        let (unit, behind) = front_unit(rest);
        store.set(address, place, unit);
        place += 1;
        rest = behind;
    }
}
