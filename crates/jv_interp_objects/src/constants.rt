//! Constants that are pushed.

ghost use Rattle.std.specs.Prelude.{◌≡◌, ◌+◌, ◌<◌, ◌≤◌, length, IfOk, IsOk, IsTrue, OnOk, OnErr};
ghost use Rattle.jv_interp_words.specs.Going.{StaysIn};
ghost use Rattle.jv_interp_heap.specs.ObjectsInBlocks.{Blocks};
ghost use Rattle.jv_interp_held.specs.Executing.{IsUnmoved, place};
ghost use Rattle.jv_interp_held.specs.declared.held.Held.{Held};
ghost use Rattle.jv_interp_objects.specs.Units.{HasUnits};
ghost use Rattle.jv_interp_objects.specs.Constants.{CanPushInt, PushesInt, CanPushLong, PushesLong, CanPushString, PushesString};

use crate::literals::literal;
use jv_interp_held::{Effect, Held};
use jv_interp_words::Registers;
use jv_store::{OutOfMemory, Store};

/// An int comes to stand on top, whose word this is (`ldc`).
#[inline(always)]
pub fn push_int<'l>(words: &mut [u32], at: &mut Registers<'l>, next: u32, bits: u32) -> Effect
    requires { CanPushInt bits next at.old words.old }
    ensures pushes { PushesInt bits next at.old words.old at.new words.new result }
    ensures stays { StaysIn at.old at.new words.new }
    ensures unmoved { (held : Held) (blocks : Blocks) → IsUnmoved result (place at.old words.old held blocks)
        (place at.new words.new held blocks) }
{
    words[at.top] = bits;
    at.pc = next;
    at.top = at.top + 1;
    Effect::Goes
}

/// A long comes to stand on top, whose words these are (`ldc2_w`).
#[inline(always)]
pub fn push_long<'l>(
    words: &mut [u32],
    at: &mut Registers<'l>,
    next: u32,
    low: u32,
    high: u32,
) -> Effect
    requires { CanPushLong low high next at.old words.old }
    ensures pushes { PushesLong low high next at.old words.old at.new words.new result }
    ensures stays { StaysIn at.old at.new words.new }
    ensures unmoved { (held : Held) (blocks : Blocks) → IsUnmoved result (place at.old words.old held blocks)
        (place at.new words.new held blocks) }
{
    words[at.top] = low;
    words[at.top + 1] = high;
    at.pc = next;
    at.top = at.top + 2;
    Effect::Goes
}

/// The String of the text with a number comes to stand on top: the one that the text has, or one that is made now (`ldc`).
///
/// # Errors
///
/// Where the host had no memory for it; all is then as it was.
pub fn push_string<'l, S: Store>(
    store: &mut S,
    held: &mut Held,
    words: &mut [u32],
    at: &mut Registers<'l>,
    next: u32,
    number: usize,
    text: &[u8],
    count: u32,
) -> Result<Effect, OutOfMemory>
    requires few { length text.now < 2147483648 }
    requires count { HasUnits text.now count }
    requires can { CanPushString number text.now next at.old words.old held.old (S.content store.old) }
    requires cells { held.old.cells ≤ S.room_left store.old }
    ensures pushes { IfOk result (PushesString number text.now next at.old words.old held.old (S.content store.old) at.new
        words.new held.new (S.content store.new)) }
    ensures stays { StaysIn at.old at.new words.new }
    ensures unmoved { IfOk result (λ effect. IsUnmoved effect (place at.old words.old held.old (S.content store.old))
        (place at.new words.new held.new (S.content store.new))) }
    ensures room { OnOk result (S.room_left store.old + held.new.cells ≡ S.room_left store.new + held.old.cells) }
    ensures refused_at { OnErr result (at.new ≡ at.old) }
    ensures refused_words { OnErr result (words.new ≡ words.old) }
    ensures refused_held { OnErr result (held.new ≡ held.old) }
    ensures refused { OnErr result (S.content store.new ≡ S.content store.old) }
    ensures refused_room { OnErr result (S.room_left store.new ≡ S.room_left store.old) }
    ensures sure { IsTrue S.SURE → IsOk result }
{
    let found = literal(store, held, number, text, count)?;
    match found {
        Some(address) => {
            words[at.top] = address;
            at.pc = next;
            at.top = at.top + 1;
            Ok(Effect::Goes)
        }
        None => Ok(Effect::Throws {
            address: held.out_of_memory,
        }),
    }
}
