//! New objects.

ghost use Rattle.std.specs.Prelude.{◌≡◌, ◌+◌, ◌<◌, ◌≤◌, IfOk, IsOk, IsTrue, OnOk, OnErr};
ghost use Rattle.jv_interp_words.specs.Going.{StaysIn};
ghost use Rattle.jv_interp_held.specs.Executing.{IsUnmoved, place};
ghost use Rattle.jv_interp_objects.specs.Objects.{CanCreate, Creates};

use crate::blocks::pay_object;
use jv_interp_held::{Effect, Held};
use jv_interp_words::Registers;
use jv_store::{OutOfMemory, Store};

/// A new object of the class with a number, which is initialized or being initialized and whose objects have so many words, comes to
/// stand on top (`new`).
///
/// # Errors
///
/// Where the host had no memory for it; all is then as it was.
pub fn new_object<'l, S: Store>(
    store: &mut S,
    held: &mut Held,
    words: &mut [u32],
    at: &mut Registers<'l>,
    next: u32,
    class: u32,
    size: u32,
) -> Result<Effect, OutOfMemory>
    requires few { class < 2147483648 }
    requires can { CanCreate class size next at.old words.old held.old (S.content store.old) }
    requires cells { held.old.cells ≤ S.room_left store.old }
    ensures creates { IfOk result (Creates class size next at.old words.old held.old (S.content store.old) at.new words.new held.new
        (S.content store.new)) }
    ensures stays { StaysIn at.old at.new words.new }
    ensures unmoved { IfOk result (λ effect. IsUnmoved effect (place at.old words.old held.old (S.content store.old))
        (place at.new words.new held.new (S.content store.new))) }
    ensures room { OnOk result (S.room_left store.old + held.new.cells ≡ S.room_left store.new + held.old.cells) }
    ensures refused_at { OnErr result (at.new ≡ at.old) }
    ensures refused_words { OnErr result (words.new ≡ words.old) }
    ensures refused_held { OnErr result (held.new ≡ held.old) }
    ensures refused { OnErr result (S.content store.new ≡ S.content store.old) }
    ensures refused_room { OnErr result (S.room_left store.new ≡ S.room_left store.old) }
    ensures sure { IsTrue S.SURE → IsOk result }
{
    let made = pay_object(store, &mut held.cells, class, size)?;
    match made {
        Some(address) => {
            words[at.top] = address;
            at.pc = next;
            at.top = at.top + 1;
            Ok(Effect::Goes)
        }
        None => Ok(Effect::Throws {
            address: held.out_of_memory,
        }),
    }
}
