//! Switches: padding, distances and keys (JVMS 6.5, tableswitch and lookupswitch).

ghost use Rattle.std.specs.Prelude.{◌≡◌, ◌∷◌, [], ◌↔◌, ◌-ℤ◌, ◌<ℤ◌, ◌<◌, length, slice_get, IfSome, IfNone, IsTrue, None};
ghost use Rattle.std.specs.Option.{option_map};
ghost use Rattle.jv_format.specs.Format.{Finds};
ghost use Rattle.jv_format.specs.Readers.{paired};
ghost use Rattle.jv_code.specs.Switches.{distances_in, pair, pairs_in, keys_rise, pairs_keep_rules, pair_distance, distance_for, distance_of_place};
ghost use Rattle.jv_code.specs.Inside.SwitchReading.{padding, distance_bytes, bounds, distance_bytes_between, pairs_of, pairs, known_pairs};
ghost use Rattle.jv_code.specs.Inside.Reading.{table_switch_read, lookup_switch_read, known_lookup_switch_read, Reads};

use crate::insn::Insn;
use crate::numbers::signed32_at;
use jv_format::{bytes_at, quad_at};

fn front_pair(bytes: &[u8]) -> Option<((i32, i32), &[u8])>
    ensures { Finds pair bytes.now (λ x. ((x.0.0, x.0.1), x.1.now)) result }
{
    let Some((key, rest)) = signed32_at(bytes) else {
        return None;
    };
    let Some((distance, rest)) = signed32_at(rest) else {
        return None;
    };
    Some(((key, distance), rest))
}

/// The distance at the front of a tableswitch's distances, and those behind it; `None` where
/// there is none.
pub fn first_distance(bytes: &[u8]) -> Option<(i32, &[u8])>
    ensures some { IfSome result (λ x. distances_in bytes.now ≡ x.0 ∷ distances_in x.1.now) }
    ensures none { IfNone result (distances_in bytes.now ≡ []) }
    ensures shorter { IfSome result (λ x. length x.1.now < length bytes.now) }
{
    let Some(found) = signed32_at(bytes) else {
        return None;
    };
    Some(found)
}

fn first_of_distances(bytes: &[u8]) -> Option<i32>
    ensures { result ≡ slice_get (distances_in bytes.now) 0 }
{
    let Some((distance, _rest)) = first_distance(bytes) else {
        return None;
    };
    Some(distance)
}

/// The distance at a place, from 0, of a tableswitch's distances; `None` where there are no more.
#[inline]
#[tactic(auto, using(crate::proofs::Distances::none_past))]
pub fn distance_at(bytes: &[u8], place: usize) -> Option<i32>
    ensures { result ≡ slice_get (distances_in bytes.now) place }
{
    if bytes.len() / 4 <= place {
        return None;
    }
    let (_, rest) = bytes.split_at(4 * place);
    first_of_distances(rest)
}

/// The pair of a key and its distance at the front of a lookupswitch's pairs, and those behind
/// it; `None` where there is none.
pub fn first_pair(bytes: &[u8]) -> Option<((i32, i32), &[u8])>
    ensures some { IfSome result (λ x. pairs_in bytes.now ≡ (x.0.0, x.0.1) ∷ pairs_in x.1.now) }
    ensures none { IfNone result (pairs_in bytes.now ≡ []) }
    ensures shorter { IfSome result (λ x. length x.1.now < length bytes.now) }
{
    let Some((pair, rest)) = front_pair(bytes) else {
        return None;
    };
    Some((pair, rest))
}

/// The pair of a key and its distance at a place, from 0, of a lookupswitch's pairs; `None` where
/// there are no more.
#[inline]
#[tactic(auto, using(crate::proofs::Pairs::no_pair_past))]
pub fn pair_at(bytes: &[u8], place: usize) -> Option<(i32, i32)>
    ensures { result ≡ slice_get (pairs_in bytes.now) place }
{
    if bytes.len() / 8 <= place {
        return None;
    }
    let (_, rest) = bytes.split_at(8 * place);
    first_of_pairs(rest)
}

fn first_of_pairs(bytes: &[u8]) -> Option<(i32, i32)>
    ensures { result ≡ slice_get (pairs_in bytes.now) 0 }
{
    let Some((pair, _rest)) = first_pair(bytes) else {
        return None;
    };
    Some(pair)
}

pub(crate) fn distance_of_pair_at(pairs: &[u8], place: usize) -> Option<i32>
    ensures { result ≡ option_map pair_distance (slice_get (pairs_in pairs.now) place) }
{
    pair_at(pairs, place).map(|pair| pair.1)
}

fn is_below(pair: (i32, i32), key: i32) -> bool
    ensures { IsTrue result ↔ (pair.0 <ℤ key) }
{
    pair.0 < key
}

fn is_above(pair: (i32, i32), key: i32) -> bool
    ensures { IsTrue result ↔ (key <ℤ pair.0) }
{
    key < pair.0
}

/// The place of the pair with a key.
fn place_of_key(pairs: &[u8], key: i32) -> Option<usize>
    requires { IsTrue (keys_rise (pairs_in pairs.now)) }
    ensures found { IfSome result (λ place. distance_of_place pairs.now place ≡ distance_for key (pairs_in pairs.now)) }
    ensures none { IfNone result (distance_for key (pairs_in pairs.now) ≡ None) }
{
    let mut low = 0;
    let mut high = pairs.len() / 8;
    while low < high {
        let middle = low + (high - low) / 2;
        let Some(pair) = pair_at(pairs, middle) else {
            unreachable!();
        };
        if is_below(pair, key) {
            low = middle + 1;
        } else if is_above(pair, key) {
            high = middle;
        } else {
            return Some(middle);
        }
    }
    None
}

/// The distance of a key among a lookupswitch's pairs, whose keys rise; `None` where no pair has
/// it. It halves what is left at each step.
pub fn distance_for(pairs: &[u8], key: i32) -> Option<i32>
    requires { IsTrue (keys_rise (pairs_in pairs.now)) }
    ensures { result ≡ distance_for key (pairs_in pairs.now) }
{
    match place_of_key(pairs, key) {
        Some(place) => distance_of_pair_at(pairs, place),
        None => None,
    }
}

/// Whether each key is above the one before.
pub(crate) fn keys_rise(bytes: &[u8]) -> bool
    ensures { result ≡ keys_rise (pairs_in bytes.now) }
{
    let Some(((mut key, _), mut rest)) = first_pair(bytes) else {
        return true;
    };
    while let Some(((next, _), after)) = first_pair(rest) {
        if next <= key {
            return false;
        }
        key = next;
        rest = after;
    }
    true
}

/// The distances of a tableswitch, four bytes for each number from low to high.
fn distance_bytes_at(low: i32, high: i32, bytes: &[u8]) -> Option<(&[u8], &[u8])>
    ensures { Finds (distance_bytes (high -ℤ low)) bytes.now (λ x. (x.0.now, x.1.now)) result }
{
    if high < low {
        return None;
    }
    let count = (i64::from(high) - i64::from(low)) as usize;
    bytes_at(4 * (count + 1), bytes)
}

fn bounds_at(bytes: &[u8]) -> Option<((i32, i32, i32), &[u8])>
    ensures { Finds bounds bytes.now (λ x. ((x.0.0, (x.0.1, x.0.2)), x.1.now)) result }
{
    let Some((default, rest)) = signed32_at(bytes) else {
        return None;
    };
    let Some((low, rest)) = signed32_at(rest) else {
        return None;
    };
    let Some((high, rest)) = signed32_at(rest) else {
        return None;
    };
    Some(((default, low, high), rest))
}

fn distances_at(bytes: &[u8]) -> Option<((i32, i32, i32, &[u8]), &[u8])>
    ensures { Finds (paired bounds distance_bytes_between) bytes.now (λ x. (((x.0.0, (x.0.1, x.0.2)), x.0.3.now), x.1.now)) result }
{
    let Some(((default, low, high), rest)) = bounds_at(bytes) else {
        return None;
    };
    let Some((distances, rest)) = distance_bytes_at(low, high, rest) else {
        return None;
    };
    Some(((default, low, high, distances), rest))
}

/// The padding behind the opcode of a switch at an offset of the code.
fn padding_at(at: usize, bytes: &[u8]) -> Option<(&[u8], &[u8])>
    ensures { Finds (padding at) bytes.now (λ x. (x.0.now, x.1.now)) result }
{
    bytes_at(3 - at % 4, bytes)
}

/// What follows the opcode of a tableswitch at an offset.
pub(crate) fn table_switch_at(at: usize, bytes: &[u8]) -> Option<(Insn<&[u8]>, &[u8])>
    ensures { Reads (table_switch_read at bytes.now) result }
{
    let Some((padding, rest)) = padding_at(at, bytes) else {
        return None;
    };
    let Some(((default, low, high, distances), rest)) = distances_at(rest) else {
        return None;
    };
    Some((
        Insn::TableSwitch(padding, default, low, high, distances),
        rest,
    ))
}

fn pairs_keep_rules(count: u32, bytes: &[u8]) -> bool
    ensures { result ≡ pairs_keep_rules count bytes.now }
{
    count < 2147483648 && keys_rise(bytes)
}

fn pairs_of(count: u32, bytes: &[u8]) -> Option<(&[u8], &[u8])>
    ensures { Finds (pairs_of count) bytes.now (λ x. (x.0.now, x.1.now)) result }
{
    let Some((pairs, rest)) = bytes_at(8 * (count as usize), bytes) else {
        return None;
    };
    if !pairs_keep_rules(count, pairs) {
        return None;
    }
    Some((pairs, rest))
}

fn pairs_at(bytes: &[u8]) -> Option<(&[u8], &[u8])>
    ensures { Finds pairs bytes.now (λ x. (x.0.now, x.1.now)) result }
{
    let Some((count, rest)) = quad_at(bytes) else {
        return None;
    };
    pairs_of(count, rest)
}

/// What follows the opcode of a lookupswitch at an offset.
pub(crate) fn lookup_switch_at(at: usize, bytes: &[u8]) -> Option<(Insn<&[u8]>, &[u8])>
    ensures { Reads (lookup_switch_read at bytes.now) result }
{
    let Some((padding, rest)) = padding_at(at, bytes) else {
        return None;
    };
    let Some((default, rest)) = signed32_at(rest) else {
        return None;
    };
    let Some((pairs, rest)) = pairs_at(rest) else {
        return None;
    };
    Some((Insn::LookupSwitch(padding, default, pairs), rest))
}

fn known_pairs_at(bytes: &[u8]) -> Option<(&[u8], &[u8])>
    ensures { Finds known_pairs bytes.now (λ x. (x.0.now, x.1.now)) result }
{
    let Some((count, rest)) = quad_at(bytes) else {
        return None;
    };
    bytes_at(8 * (count as usize), rest)
}

/// What follows the opcode of a lookupswitch at an offset, where one is known to stand: its keys
/// are not looked at again.
pub(crate) fn known_lookup_switch_at(at: usize, bytes: &[u8]) -> Option<(Insn<&[u8]>, &[u8])>
    ensures { Reads (known_lookup_switch_read at bytes.now) result }
{
    let Some((padding, rest)) = padding_at(at, bytes) else {
        return None;
    };
    let Some((default, rest)) = signed32_at(rest) else {
        return None;
    };
    let Some((pairs, rest)) = known_pairs_at(rest) else {
        return None;
    };
    Some((Insn::LookupSwitch(padding, default, pairs), rest))
}
