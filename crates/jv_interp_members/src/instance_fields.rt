//! Fields of objects.

ghost use Rattle.std.specs.Prelude.{◌≡◌, ◌<◌};
ghost use Rattle.jv_interp_words.specs.Going.{StaysIn};
ghost use Rattle.jv_interp_heap.specs.declared.narrowing.Narrowing.TheVariants.{Whole};
ghost use Rattle.jv_interp_held.specs.Executing.{IsUnmoved, place};
ghost use Rattle.jv_interp_members.specs.Fields.{CanGetField, GetsField, CanPutField, PutsField};

use jv_interp_heap::{NULL_POINTER, Narrowing, narrowed};
use jv_interp_held::{Effect, Held};
use jv_interp_words::Registers;
use jv_store::Store;

/// The value of a field of the object on top comes to stand in the object's place: it has one word, and stands at this word of the
/// object's fields.
#[inline(always)]
pub fn get_field<'l, S: Store>(
    store: &S,
    held: &Held,
    words: &mut [u32],
    at: &mut Registers<'l>,
    next: u32,
    word: u32,
) -> Effect
    requires few { word < 1073741824 }
    requires can { CanGetField word 1 next at.old words.old held.now (S.content store.now) }
    ensures gets { GetsField word 1 next at.old words.old held.now (S.content store.now) at.new words.new result }
    ensures stays { StaysIn at.old at.new words.new }
    ensures unmoved { IsUnmoved result (place at.old words.old held.now (S.content store.now))
        (place at.new words.new held.now (S.content store.now)) }
{
    // Only the clauses speak of it.
    let _held = held;
    let reference = words[at.top - 1];
    if reference == 0 {
        return Effect::Raises {
            class: NULL_POINTER,
        };
    }
    words[at.top - 1] = store.get(reference, word + 1);
    at.pc = next;
    Effect::Goes
}

/// The same of a long, which has two words.
#[inline(always)]
pub fn get_long_field<'l, S: Store>(
    store: &S,
    held: &Held,
    words: &mut [u32],
    at: &mut Registers<'l>,
    next: u32,
    word: u32,
) -> Effect
    requires few { word < 1073741824 }
    requires can { CanGetField word 2 next at.old words.old held.now (S.content store.now) }
    ensures gets { GetsField word 2 next at.old words.old held.now (S.content store.now) at.new words.new result }
    ensures stays { StaysIn at.old at.new words.new }
    ensures unmoved { IsUnmoved result (place at.old words.old held.now (S.content store.now))
        (place at.new words.new held.now (S.content store.now)) }
{
    // Only the clauses speak of it.
    let _held = held;
    let reference = words[at.top - 1];
    if reference == 0 {
        return Effect::Raises {
            class: NULL_POINTER,
        };
    }
    words[at.top - 1] = store.get(reference, word + 1);
    words[at.top] = store.get(reference, word + 2);
    at.pc = next;
    at.top = at.top + 1;
    Effect::Goes
}

/// The value on top is stored in a field of the object below it, as the field's type narrows it: it has one word, and stands at this
/// word of the object's fields.
#[inline(always)]
pub fn put_field<'l, S: Store>(
    store: &mut S,
    held: &Held,
    words: &[u32],
    at: &mut Registers<'l>,
    next: u32,
    word: u32,
    how: Narrowing,
) -> Effect
    requires few { word < 1073741824 }
    requires can { CanPutField word 1 how next at.old words.now held.now (S.content store.old) }
    ensures puts { PutsField word 1 how next words.now held.now at.old (S.content store.old) at.new (S.content store.new) result }
    ensures stays { StaysIn at.old at.new words.now }
    ensures room { S.room_left store.new ≡ S.room_left store.old }
    ensures unmoved { IsUnmoved result (place at.old words.now held.now (S.content store.old))
        (place at.new words.now held.now (S.content store.new)) }
{
    // Only the clauses speak of it.
    let _held = held;
    let reference = words[at.top - 2];
    if reference == 0 {
        return Effect::Raises {
            class: NULL_POINTER,
        };
    }
    let value = narrowed(how, words[at.top - 1]);
    store.set(reference, word + 1, value);
    at.pc = next;
    at.top = at.top - 2;
    Effect::Goes
}

/// The same of a long, which has two words.
#[inline(always)]
pub fn put_long_field<'l, S: Store>(
    store: &mut S,
    held: &Held,
    words: &[u32],
    at: &mut Registers<'l>,
    next: u32,
    word: u32,
) -> Effect
    requires few { word < 1073741824 }
    requires can { CanPutField word 2 Whole next at.old words.now held.now (S.content store.old) }
    ensures puts { PutsField word 2 Whole next words.now held.now at.old (S.content store.old) at.new (S.content store.new) result }
    ensures stays { StaysIn at.old at.new words.now }
    ensures room { S.room_left store.new ≡ S.room_left store.old }
    ensures unmoved { IsUnmoved result (place at.old words.now held.now (S.content store.old))
        (place at.new words.now held.now (S.content store.new)) }
{
    // Only the clauses speak of it.
    let _held = held;
    let reference = words[at.top - 3];
    if reference == 0 {
        return Effect::Raises {
            class: NULL_POINTER,
        };
    }
    store.set(reference, word + 1, words[at.top - 2]);
    store.set(reference, word + 2, words[at.top - 1]);
    at.pc = next;
    at.top = at.top - 3;
    Effect::Goes
}
