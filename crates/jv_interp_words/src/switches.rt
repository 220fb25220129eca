//! Switches (JVMS 6.5).

ghost use Rattle.std.specs.Prelude.{◌≡◌, ◌≤ℤ◌, ◌-ℤ◌, nat_abs, IsTrue};
ghost use Rattle.jv_code.specs.Switches.{pairs_in, keys_rise};
ghost use Rattle.jv_code.specs.declared.insn.Insn.TheVariants.{TableSwitch as TableSwitchInsn, LookupSwitch as LookupSwitchInsn};
ghost use Rattle.jv_meaning_machine.specs.Arithmetic.{table_distance, key_distance};
ghost use Rattle.jv_interp_words.specs.Going.{CanWork, GoesOn, StaysIn};

use crate::branches::target;
use crate::operands::top_int;
use crate::registers::Registers;
use jv_code::{distance_at, distance_for};

/// The place of a number among those from the lowest on, which it is not below.
#[inline(always)]
fn place_of(number: i32, low: i32) -> usize
    requires { low ≤ℤ number }
    ensures { result ≡ nat_abs (number -ℤ low) }
{
    (i64::from(number) - i64::from(low)) as usize
}

/// The distance of a number from the lowest to the highest, and else the default one.
fn table_distance(default: i32, low: i32, high: i32, distances: &[u8], number: i32) -> i32
    ensures { result ≡ table_distance default low high distances.now number }
{
    if number < low || high < number {
        return default;
    }
    match distance_at(distances, place_of(number, low)) {
        Some(distance) => distance,
        None => default,
    }
}

/// The distance of a key, and else the default one.
fn key_distance(default: i32, pairs: &[u8], number: i32) -> i32
    requires { IsTrue (keys_rise (pairs_in pairs.now)) }
    ensures { result ≡ key_distance default pairs.now number }
{
    match distance_for(pairs, number) {
        Some(distance) => distance,
        None => default,
    }
}

/// `tableswitch`: the default distance, the lowest and the highest number with a distance of its own, and the bytes of these.
pub fn table_switch<'l>(
    words: &[u32],
    at: &mut Registers<'l>,
    next: u32,
    padding: &[u8],
    default: i32,
    low: i32,
    high: i32,
    distances: &[u8],
)
    requires { CanWork (TableSwitchInsn padding.now default low high distances.now) next at.old words.now }
    ensures went { GoesOn (TableSwitchInsn padding.now default low high distances.now) next at.old words.now at.new words.now }
    ensures stays { StaysIn at.old at.new words.now }
{
    // Only the clauses speak of these.
    let _next = next;
    let _padding = padding;
    let number = top_int(words, at.top);
    let distance = table_distance(default, low, high, distances, number);
    at.pc = target(at.pc, distance);
    at.top = at.top - 1;
}

/// `lookupswitch`: the default distance, and the bytes of the pairs of a key and its distance.
pub fn lookup_switch<'l>(
    words: &[u32],
    at: &mut Registers<'l>,
    next: u32,
    padding: &[u8],
    default: i32,
    pairs: &[u8],
)
    requires can { CanWork (LookupSwitchInsn padding.now default pairs.now) next at.old words.now }
    requires rise { IsTrue (keys_rise (pairs_in pairs.now)) }
    ensures went { GoesOn (LookupSwitchInsn padding.now default pairs.now) next at.old words.now at.new words.now }
    ensures stays { StaysIn at.old at.new words.now }
{
    // Only the clauses speak of these.
    let _next = next;
    let _padding = padding;
    let number = top_int(words, at.top);
    let distance = key_distance(default, pairs, number);
    at.pc = target(at.pc, distance);
    at.top = at.top - 1;
}
