//! The methods of host/Io that are given objects (own): `className(Object, int)` and `arrayLike(Object[], int)`.

ghost use Rattle.std.specs.Prelude.{◌≡◌, ◌+◌, ◌<◌, ◌≤◌, IfOk, IsOk, IsTrue, OnOk, OnErr, length};
ghost use Rattle.std.specs.Int.{w32, cast_signed};
ghost use Rattle.jv_meaning_world.specs.World.{World};
ghost use Rattle.jv_meaning_world.specs.Numbers.{HoldsAtNumber};
ghost use Rattle.jv_meaning_machine.specs.Calls.{array_like, byte_in, class_name};
ghost use Rattle.jv_interp_words.specs.Going.{StaysIn};
ghost use Rattle.jv_interp_held.specs.Executing.{IsUnmoved, place};
ghost use Rattle.jv_interp_objects.specs.HostObjects.{CanRunOnTwo, NamesClass, MakesLike};

use crate::blocks::pay_array;
use jv_interp_heap::{NEGATIVE_SIZE, NULL_POINTER};
use jv_interp_held::{Effect, Held};
use jv_interp_words::Registers;
use jv_loader::Classes;
use jv_store::{OutOfMemory, Store};

/// The byte of a name at the place that an int is, or -1 where there is none.
fn byte_at(name: &[u8], place: u32) -> u32
    ensures { cast_signed w32 result ≡ byte_in name.now (cast_signed w32 place) }
{
    if place < 0x8000_0000 && (place as usize) < name.len() {
        return name[place as usize] as u32;
    }
    0xffff_ffff
}

/// The byte at a place of the name of an object's class, which the first word of its block tells, or -1 where there is none; an array has
/// no name.
fn name_byte(classes: &Classes<'_>, word: u32, place: u32) -> u32
    requires there { word < 2147483648 → word < length classes.now.world }
    ensures named { word < 2147483648 → HoldsAtNumber classes.now.world word
        (λ l. cast_signed w32 result ≡ byte_in l.class.name (cast_signed w32 place)) }
    ensures nameless { 2147483648 ≤ word → result ≡ 4294967295 }
{
    if word < 0x8000_0000 {
        return byte_at(classes.table().classes()[word as usize].name(), place);
    }
    0xffff_ffff
}

/// `className`: the byte of the name of the class of the object below the int on top, at the place that this is, comes to stand in place
/// of both, or -1 where there is none. An array has no name.
pub fn class_name<'a, 'l, S: Store>(
    classes: &Classes<'a>,
    store: &S,
    held: &Held,
    words: &mut [u32],
    at: &mut Registers<'l>,
    next: u32,
) -> Effect
    requires { CanRunOnTwo class_name classes.now.world next at.old words.old held.now (S.content store.now) }
    ensures names { NamesClass classes.now.world next at.old words.old held.now (S.content store.now) at.new words.new result }
    ensures stays { StaysIn at.old at.new words.new }
    ensures unmoved { IsUnmoved result (place at.old words.old held.now (S.content store.now))
        (place at.new words.new held.now (S.content store.now)) }
{
    // Only the clauses speak of it.
    let _held = held;
    let object = words[at.top - 2];
    if object == 0 {
        return Effect::Raises {
            class: NULL_POINTER,
        };
    }
    let word = store.get(object, 0);
    let place = words[at.top - 1];
    words[at.top - 2] = name_byte(classes, word, place);
    at.pc = next;
    at.top = at.top - 1;
    Effect::Goes
}

/// `arrayLike`: a new array of as many components as the int on top says, of the type of those of the array below it, comes to stand in
/// place of both.
///
/// # Errors
///
/// Where the host had no memory for it; all is then as it was.
pub fn array_like<'l, S: Store>(
    store: &mut S,
    held: &mut Held,
    words: &mut [u32],
    at: &mut Registers<'l>,
    next: u32,
) -> Result<Effect, OutOfMemory>
    requires can { (world : World) × CanRunOnTwo array_like world next at.old words.old held.old (S.content store.old) }
    requires cells { held.old.cells ≤ S.room_left store.old }
    ensures makes { IfOk result (MakesLike next at.old words.old held.old (S.content store.old) at.new words.new held.new
        (S.content store.new)) }
    ensures stays { StaysIn at.old at.new words.new }
    ensures unmoved { IfOk result (λ effect. IsUnmoved effect (place at.old words.old held.old (S.content store.old))
        (place at.new words.new held.new (S.content store.new))) }
    ensures room { OnOk result (S.room_left store.old + held.new.cells ≡ S.room_left store.new + held.old.cells) }
    ensures refused_at { OnErr result (at.new ≡ at.old) }
    ensures refused_words { OnErr result (words.new ≡ words.old) }
    ensures refused_held { OnErr result (held.new ≡ held.old) }
    ensures refused { OnErr result (S.content store.new ≡ S.content store.old) }
    ensures refused_room { OnErr result (S.room_left store.new ≡ S.room_left store.old) }
    ensures sure { IsTrue S.SURE → IsOk result }
{
    let like = words[at.top - 2];
    if like == 0 {
        return Ok(Effect::Raises {
            class: NULL_POINTER,
        });
    }
    let count = words[at.top - 1];
    if count > 2_147_483_647 {
        return Ok(Effect::Raises {
            class: NEGATIVE_SIZE,
        });
    }
    let word = store.get(like, 0);
    let made = pay_array(store, &mut held.cells, word, count, 1)?;
    match made {
        Some(address) => {
            words[at.top - 2] = address;
            at.pc = next;
            at.top = at.top - 1;
            Ok(Effect::Goes)
        }
        None => Ok(Effect::Throws {
            address: held.out_of_memory,
        }),
    }
}
