//! Stores of numbers into arrays.

ghost use Rattle.std.specs.Prelude.{◌≡◌};
ghost use Rattle.jv_interp_words.specs.Going.{StaysIn};
ghost use Rattle.jv_interp_heap.specs.declared.narrowing.Narrowing.TheVariants.{Whole};
ghost use Rattle.jv_interp_held.specs.Executing.{IsUnmoved, place};
ghost use Rattle.jv_interp_objects.specs.Stores.{CanStore, Stores, CanStoreByte, StoresByte, NarrowsByte};

use jv_interp_heap::{ARRAY_INDEX, NULL_POINTER, Narrowing, narrowed};
use jv_interp_held::{Effect, Held};
use jv_interp_words::Registers;
use jv_store::Store;

/// The first word of an array of booleans.
const BOOLEANS: u32 = 2_147_483_655;

/// The int on top is stored at the index below it, in the array below both, as it is narrowed (`iastore`, `castore` and `sastore`).
#[inline(always)]
pub fn store_int<'l, S: Store>(
    store: &mut S,
    held: &Held,
    words: &[u32],
    at: &mut Registers<'l>,
    next: u32,
    how: Narrowing,
) -> Effect
    requires { CanStore 1 how next at.old words.now held.now (S.content store.old) }
    ensures stores { Stores 1 how next words.now held.now at.old (S.content store.old) at.new (S.content store.new) result }
    ensures stays { StaysIn at.old at.new words.now }
    ensures unmoved { IsUnmoved result (place at.old words.now held.now (S.content store.old))
        (place at.new words.now held.now (S.content store.new)) }
    ensures room { S.room_left store.new ≡ S.room_left store.old }
{
    // Only the clauses speak of it.
    let _held = held;
    let array = words[at.top - 3];
    let index = words[at.top - 2];
    if array == 0 {
        return Effect::Raises {
            class: NULL_POINTER,
        };
    }
    if store.get(array, 1) <= index {
        return Effect::Raises { class: ARRAY_INDEX };
    }
    let value = narrowed(how, words[at.top - 1]);
    store.set(array, index + 2, value);
    at.pc = next;
    at.top = at.top - 3;
    Effect::Goes
}

/// The same of a long, which has two words (`lastore`).
#[inline(always)]
pub fn store_long<'l, S: Store>(
    store: &mut S,
    held: &Held,
    words: &[u32],
    at: &mut Registers<'l>,
    next: u32,
) -> Effect
    requires { CanStore 2 Whole next at.old words.now held.now (S.content store.old) }
    ensures stores { Stores 2 Whole next words.now held.now at.old (S.content store.old) at.new (S.content store.new) result }
    ensures stays { StaysIn at.old at.new words.now }
    ensures unmoved { IsUnmoved result (place at.old words.now held.now (S.content store.old))
        (place at.new words.now held.now (S.content store.new)) }
    ensures room { S.room_left store.new ≡ S.room_left store.old }
{
    // Only the clauses speak of it.
    let _held = held;
    let array = words[at.top - 4];
    let index = words[at.top - 3];
    if array == 0 {
        return Effect::Raises {
            class: NULL_POINTER,
        };
    }
    if store.get(array, 1) <= index {
        return Effect::Raises { class: ARRAY_INDEX };
    }
    store.set(array, index * 2 + 2, words[at.top - 2]);
    store.set(array, index * 2 + 3, words[at.top - 1]);
    at.pc = next;
    at.top = at.top - 4;
    Effect::Goes
}

/// How an array of bytes or booleans narrows what is stored, by its first word.
fn byte_narrowing(word: u32) -> Narrowing
    ensures { NarrowsByte word result }
{
    if word == BOOLEANS {
        Narrowing::Boolean
    } else {
        Narrowing::Byte
    }
}

/// The int on top is stored at the index below it, in the array of bytes or booleans below both (`bastore`).
#[inline(always)]
pub fn store_byte<'l, S: Store>(
    store: &mut S,
    held: &Held,
    words: &[u32],
    at: &mut Registers<'l>,
    next: u32,
) -> Effect
    requires { CanStoreByte next at.old words.now held.now (S.content store.old) }
    ensures stores { StoresByte next words.now held.now at.old (S.content store.old) at.new (S.content store.new) result }
    ensures stays { StaysIn at.old at.new words.now }
    ensures unmoved { IsUnmoved result (place at.old words.now held.now (S.content store.old))
        (place at.new words.now held.now (S.content store.new)) }
    ensures room { S.room_left store.new ≡ S.room_left store.old }
{
    let array = words[at.top - 3];
    if array == 0 {
        return Effect::Raises {
            class: NULL_POINTER,
        };
    }
    let how = byte_narrowing(store.get(array, 0));
    store_int(store, held, words, at, next, how)
}
