//! New arrays of arrays.

ghost use Rattle.std.specs.Prelude.{◌≡◌, ◌+◌, ◌*◌, ◌<◌, ◌≤◌, drop, take, min, length, IfOk, IsOk, IsTrue, OnOk, OnErr};
ghost use Rattle.std.specs.List.{list_any};
ghost use Rattle.jv_interp_words.specs.Going.{StaysIn};
ghost use Rattle.jv_interp_held.specs.Executing.{IsUnmoved, place};
ghost use Rattle.jv_interp_objects.specs.NestedBlocks.{nested_cost, outer_slots as slots_of_outer, inner_size as size_of_inner};
ghost use Rattle.jv_interp_objects.specs.NestedArrays.{AreCounts, AreWords, is_negative_word, PaysNested, CanMakeArrays, MakesArrays};

use crate::nested::{inner_counts, inner_size, make_nested, outer_slots};
use jv_interp_heap::NEGATIVE_SIZE;
use jv_interp_held::{Effect, Held, pay_if_made};
use jv_interp_words::Registers;
use jv_store::{OutOfMemory, Store};

/// More cells than any guest has.
const TOO_MANY: u64 = 4_294_967_296;

/// A number, or the least that is too many.
fn at_most(cells: u64) -> u64
    ensures { result ≡ min cells TOO_MANY }
{
    if cells < TOO_MANY { cells } else { TOO_MANY }
}

/// What arrays of arrays with these counts cost, or the least that is too many.
fn nested_cells(counts: &[u32], slots: u32) -> u64
    requires slots { slots ≤ 2 }
    requires some { 1 ≤ length counts.now }
    requires counts { AreCounts counts.now }
    ensures { result ≡ min (nested_cost slots counts.now) TOO_MANY }
{
    let outer = u64::from(counts[0]) * u64::from(outer_slots(counts, slots)) + 2;
    let size = inner_size(counts);
    if size == 0 {
        return at_most(outer);
    }
    let inner = nested_cells(inner_counts(counts), slots);
    at_most(u64::from(size) * inner + outer)
}

/// Makes arrays of arrays with these counts, where their cells are left, and answers the outer one's address. The cells are taken from the
/// store's room.
///
/// # Errors
///
/// Where the host had no memory for them; all is then as it was.
pub fn pay_nested<S: Store>(
    store: &mut S,
    cells: &mut u32,
    word: u32,
    counts: &[u32],
    slots: u32,
) -> Result<Option<u32>, OutOfMemory>
    requires slots { slots ≤ 2 }
    requires some { 1 ≤ length counts.now }
    requires counts { AreCounts counts.now }
    requires word { 65536 * length counts.now ≤ word + 65536 }
    requires cells { cells.old ≤ S.room_left store.old }
    ensures paid { IfOk result (PaysNested slots counts.now word cells.old cells.new (S.content store.old) (S.content store.new)) }
    ensures room { OnOk result (S.room_left store.old + cells.new ≡ S.room_left store.new + cells.old) }
    ensures refused_cells { OnErr result (cells.new ≡ cells.old) }
    ensures refused { OnErr result (S.content store.new ≡ S.content store.old) }
    ensures refused_room { OnErr result (S.room_left store.new ≡ S.room_left store.old) }
    ensures sure { IsTrue S.SURE → IsOk result }
{
    let cost = nested_cells(counts, slots);
    if u64::from(*cells) < cost {
        return Ok(None);
    }
    let made = make_nested(store, word, counts, slots);
    pay_if_made(cells, cost as u32, &made);
    Ok(Some(made?))
}

/// Whether one of the counts is negative.
fn has_negative(counts: &[u32]) -> bool
    ensures negative { result ≡ list_any is_negative_word counts.now }
    ensures words { AreWords counts.now }
{
    counts.iter().any(|count| *count > 2_147_483_647)
}

/// The words from one place on, up to another.
fn words_between(words: &[u32], first: usize, top: usize) -> &[u32]
    requires first { first ≤ top }
    requires top { top ≤ length words.now }
    ensures { result.now ≡ drop first (take top words.now) }
{
    &words[first..top]
}

/// New arrays of arrays, with as many counts as dimensions, come to stand in place of their counts: a reference to the outer one, whose
/// first word is this one (`multianewarray`). Each component of the innermost has so many words.
///
/// # Errors
///
/// Where the host had no memory for them; all is then as it was.
pub fn new_nested_array<'l, S: Store>(
    store: &mut S,
    held: &mut Held,
    words: &mut [u32],
    at: &mut Registers<'l>,
    next: u32,
    word: u32,
    slots: u32,
    dimensions: usize,
) -> Result<Effect, OutOfMemory>
    requires can { CanMakeArrays word slots dimensions next at.old words.old held.old (S.content store.old) }
    requires cells { held.old.cells ≤ S.room_left store.old }
    ensures makes { IfOk result (MakesArrays word slots dimensions next at.old words.old held.old (S.content store.old)
        at.new words.new held.new (S.content store.new)) }
    ensures stays { StaysIn at.old at.new words.new }
    ensures unmoved { IfOk result (λ effect. IsUnmoved effect (place at.old words.old held.old (S.content store.old))
        (place at.new words.new held.new (S.content store.new))) }
    ensures room { OnOk result (S.room_left store.old + held.new.cells ≡ S.room_left store.new + held.old.cells) }
    ensures refused_at { OnErr result (at.new ≡ at.old) }
    ensures refused_words { OnErr result (words.new ≡ words.old) }
    ensures refused_held { OnErr result (held.new ≡ held.old) }
    ensures refused { OnErr result (S.content store.new ≡ S.content store.old) }
    ensures refused_room { OnErr result (S.room_left store.new ≡ S.room_left store.old) }
    ensures sure { IsTrue S.SURE → IsOk result }
{
    let first = at.top - dimensions;
    let counts = words_between(words, first, at.top);
    if has_negative(counts) {
        return Ok(Effect::Raises {
            class: NEGATIVE_SIZE,
        });
    }
    let made = pay_nested(store, &mut held.cells, word, counts, slots)?;
    match made {
        Some(address) => {
            words[first] = address;
            at.pc = next;
            at.top = first + 1;
            Ok(Effect::Goes)
        }
        None => Ok(Effect::Throws {
            address: held.out_of_memory,
        }),
    }
}
