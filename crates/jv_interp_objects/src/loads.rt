//! What arrays hold.

ghost use Rattle.jv_interp_words.specs.Going.{StaysIn};
ghost use Rattle.jv_interp_held.specs.Executing.{IsUnmoved, place};
ghost use Rattle.jv_interp_objects.specs.Loads.{CanMeasure, Measures, CanLoad, Loads};

use jv_interp_heap::{ARRAY_INDEX, NULL_POINTER};
use jv_interp_held::{Effect, Held};
use jv_interp_words::Registers;
use jv_store::Store;

/// The length of the array on top comes to stand in its place.
#[inline(always)]
pub fn array_length<'l, S: Store>(
    store: &S,
    held: &Held,
    words: &mut [u32],
    at: &mut Registers<'l>,
    next: u32,
) -> Effect
    requires { CanMeasure next at.old words.old held.now (S.content store.now) }
    ensures measures { Measures next at.old words.old held.now (S.content store.now) at.new words.new result }
    ensures stays { StaysIn at.old at.new words.new }
    ensures unmoved { IsUnmoved result (place at.old words.old held.now (S.content store.now))
        (place at.new words.new held.now (S.content store.now)) }
{
    // Only the clauses speak of it.
    let _held = held;
    let array = words[at.top - 1];
    if array == 0 {
        return Effect::Raises {
            class: NULL_POINTER,
        };
    }
    words[at.top - 1] = store.get(array, 1);
    at.pc = next;
    Effect::Goes
}

/// What stands at the index on top in the array below it comes to stand in place of both: a component of one word.
#[inline(always)]
pub fn load<'l, S: Store>(
    store: &S,
    held: &Held,
    words: &mut [u32],
    at: &mut Registers<'l>,
    next: u32,
) -> Effect
    requires { CanLoad 1 next at.old words.old held.now (S.content store.now) }
    ensures loads { Loads 1 next at.old words.old held.now (S.content store.now) at.new words.new result }
    ensures stays { StaysIn at.old at.new words.new }
    ensures unmoved { IsUnmoved result (place at.old words.old held.now (S.content store.now))
        (place at.new words.new held.now (S.content store.now)) }
{
    // Only the clauses speak of it.
    let _held = held;
    let array = words[at.top - 2];
    let index = words[at.top - 1];
    if array == 0 {
        return Effect::Raises {
            class: NULL_POINTER,
        };
    }
    if store.get(array, 1) <= index {
        return Effect::Raises { class: ARRAY_INDEX };
    }
    words[at.top - 2] = store.get(array, index + 2);
    at.pc = next;
    at.top = at.top - 1;
    Effect::Goes
}

/// The same of a long, which has two words.
#[inline(always)]
pub fn load_long<'l, S: Store>(
    store: &S,
    held: &Held,
    words: &mut [u32],
    at: &mut Registers<'l>,
    next: u32,
) -> Effect
    requires { CanLoad 2 next at.old words.old held.now (S.content store.now) }
    ensures loads { Loads 2 next at.old words.old held.now (S.content store.now) at.new words.new result }
    ensures stays { StaysIn at.old at.new words.new }
    ensures unmoved { IsUnmoved result (place at.old words.old held.now (S.content store.now))
        (place at.new words.new held.now (S.content store.now)) }
{
    // Only the clauses speak of it.
    let _held = held;
    let array = words[at.top - 2];
    let index = words[at.top - 1];
    if array == 0 {
        return Effect::Raises {
            class: NULL_POINTER,
        };
    }
    if store.get(array, 1) <= index {
        return Effect::Raises { class: ARRAY_INDEX };
    }
    words[at.top - 2] = store.get(array, index * 2 + 2);
    words[at.top - 1] = store.get(array, index * 2 + 3);
    at.pc = next;
    Effect::Goes
}
