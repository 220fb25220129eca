//! New arrays.

ghost use Rattle.std.specs.Prelude.{◌≡◌, ◌+◌, ◌<◌, ◌≤◌, IfOk, IsOk, IsTrue, OnOk, OnErr};
ghost use Rattle.jv_interp_words.specs.Going.{StaysIn};
ghost use Rattle.jv_interp_held.specs.Executing.{IsUnmoved, place};
ghost use Rattle.jv_interp_objects.specs.Arrays.{CanMakeArray, MakesArray, CanMakeBaseArray, MakesBaseArray};

use crate::blocks::pay_array;
use jv_interp_heap::NEGATIVE_SIZE;
use jv_interp_held::{Effect, Held};
use jv_interp_words::Registers;
use jv_store::{OutOfMemory, Store};

/// A new array, of as many components as the int on top says, comes to stand in its place: its first word is this one, and each
/// component has so many words (`anewarray`).
///
/// # Errors
///
/// Where the host had no memory for it; all is then as it was.
pub fn new_array<'l, S: Store>(
    store: &mut S,
    held: &mut Held,
    words: &mut [u32],
    at: &mut Registers<'l>,
    next: u32,
    word: u32,
    slots: u32,
) -> Result<Effect, OutOfMemory>
    requires can { CanMakeArray word slots next at.old words.old held.old (S.content store.old) }
    requires cells { held.old.cells ≤ S.room_left store.old }
    ensures makes { IfOk result (MakesArray word slots next at.old words.old held.old (S.content store.old) at.new
        words.new held.new (S.content store.new)) }
    ensures stays { StaysIn at.old at.new words.new }
    ensures unmoved { IfOk result (λ effect. IsUnmoved effect (place at.old words.old held.old (S.content store.old))
        (place at.new words.new held.new (S.content store.new))) }
    ensures room { OnOk result (S.room_left store.old + held.new.cells ≡ S.room_left store.new + held.old.cells) }
    ensures refused_at { OnErr result (at.new ≡ at.old) }
    ensures refused_words { OnErr result (words.new ≡ words.old) }
    ensures refused_held { OnErr result (held.new ≡ held.old) }
    ensures refused { OnErr result (S.content store.new ≡ S.content store.old) }
    ensures refused_room { OnErr result (S.room_left store.new ≡ S.room_left store.old) }
    ensures sure { IsTrue S.SURE → IsOk result }
{
    let count = words[at.top - 1];
    if count > 2_147_483_647 {
        return Ok(Effect::Raises {
            class: NEGATIVE_SIZE,
        });
    }
    let made = pay_array(store, &mut held.cells, word, count, slots)?;
    match made {
        Some(address) => {
            words[at.top - 1] = address;
            at.pc = next;
            Ok(Effect::Goes)
        }
        None => Ok(Effect::Throws {
            address: held.out_of_memory,
        }),
    }
}

/// The same of components of a base type (`newarray`).
///
/// # Errors
///
/// Where the host had no memory for it; all is then as it was.
pub fn new_base_array<'l, S: Store>(
    store: &mut S,
    held: &mut Held,
    words: &mut [u32],
    at: &mut Registers<'l>,
    next: u32,
    word: u32,
    slots: u32,
) -> Result<Effect, OutOfMemory>
    requires can { CanMakeBaseArray word slots next at.old words.old held.old (S.content store.old) }
    requires cells { held.old.cells ≤ S.room_left store.old }
    ensures makes { IfOk result (MakesBaseArray word slots next at.old words.old held.old (S.content store.old) at.new
        words.new held.new (S.content store.new)) }
    ensures stays { StaysIn at.old at.new words.new }
    ensures unmoved { IfOk result (λ effect. IsUnmoved effect (place at.old words.old held.old (S.content store.old))
        (place at.new words.new held.new (S.content store.new))) }
    ensures room { OnOk result (S.room_left store.old + held.new.cells ≡ S.room_left store.new + held.old.cells) }
    ensures refused_at { OnErr result (at.new ≡ at.old) }
    ensures refused_words { OnErr result (words.new ≡ words.old) }
    ensures refused_held { OnErr result (held.new ≡ held.old) }
    ensures refused { OnErr result (S.content store.new ≡ S.content store.old) }
    ensures refused_room { OnErr result (S.room_left store.new ≡ S.room_left store.old) }
    ensures sure { IsTrue S.SURE → IsOk result }
{
    new_array(store, held, words, at, next, word, slots)
}
