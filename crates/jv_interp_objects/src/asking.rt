//! Instructions that ask whether an object is of a type.

ghost use Rattle.std.specs.Prelude.{◌≡◌, if◌then◌else◌};
ghost use Rattle.jv_link_cache.specs.Linked.{IsLinked};
ghost use Rattle.jv_meaning_machine.specs.Instructions.{check_cast, instance_of};
ghost use Rattle.jv_interp_words.specs.Going.{StaysIn};
ghost use Rattle.jv_interp_held.specs.Executing.{IsUnmoved, place};
ghost use Rattle.jv_interp_members.specs.Known.{known_at};
ghost use Rattle.jv_interp_objects.specs.Asking.{CanAsk, Asks};

use crate::naming::named;
use crate::types::is_instance;
use jv_interp_heap::CLASS_CAST;
use jv_interp_held::{Effect, Held};
use jv_interp_members::Current;
use jv_interp_words::Registers;
use jv_link_cache::Linked;
use jv_store::Store;

/// The int of a boolean (JVMS 2.3.4).
#[inline(always)]
fn int_of(test: bool) -> u32
    ensures { result ≡ (if test then 1 else 0) }
{
    if test { 1 } else { 0 }
}

/// instanceof: in place of the reference on top stands whether it is to an object of the type that the constant at an index names.
pub fn instanceof<'a, 'l, S: Store>(
    current: Current<'_, 'a>,
    linked: &mut Linked<'a>,
    store: &S,
    held: &Held,
    words: &mut [u32],
    at: &mut Registers<'l>,
    index: u16,
) -> Effect
    requires { CanAsk (λ c. instance_of c index) current.next (known_at current linked.old) at.old words.old held.now
        (S.content store.now) }
    ensures asks { Asks (λ c. instance_of c index) current.entry.next (known_at current.entry linked.old) held.now (S.content store.now)
        at.old words.old at.new words.new result }
    ensures stays { StaysIn at.old at.new words.new }
    ensures unmoved { IsUnmoved result (place at.old words.old held.now (S.content store.now))
        (place at.new words.new held.now (S.content store.now)) }
    ensures linked { IsLinked current.entry.classes.now.world linked.new }
{
    // Only the clauses speak of it.
    let _held = held;
    let object = words[at.top - 1];
    if object == 0 {
        at.pc = current.next;
        return Effect::Goes;
    }
    let type_named = match named(current.classes, linked, current.site, index) {
        Ok(type_named) => type_named,
        Err(class) => return Effect::Raises { class },
    };
    let word = store.get(object, 0);
    words[at.top - 1] = int_of(is_instance(current.classes, word, type_named));
    at.pc = current.next;
    Effect::Goes
}

/// checkcast: the reference on top stays, where it is null or to an object of the type that the constant at an index names.
pub fn checkcast<'a, 'l, S: Store>(
    current: Current<'_, 'a>,
    linked: &mut Linked<'a>,
    store: &S,
    held: &Held,
    words: &[u32],
    at: &mut Registers<'l>,
    index: u16,
) -> Effect
    requires { CanAsk (λ c. check_cast c index) current.next (known_at current linked.old) at.old words.now held.now
        (S.content store.now) }
    ensures asks { Asks (λ c. check_cast c index) current.entry.next (known_at current.entry linked.old) held.now (S.content store.now)
        at.old words.now at.new words.now result }
    ensures stays { StaysIn at.old at.new words.now }
    ensures unmoved { IsUnmoved result (place at.old words.now held.now (S.content store.now))
        (place at.new words.now held.now (S.content store.now)) }
    ensures linked { IsLinked current.entry.classes.now.world linked.new }
{
    // Only the clauses speak of it.
    let _held = held;
    let object = words[at.top - 1];
    if object == 0 {
        at.pc = current.next;
        return Effect::Goes;
    }
    let type_named = match named(current.classes, linked, current.site, index) {
        Ok(type_named) => type_named,
        Err(class) => return Effect::Raises { class },
    };
    let word = store.get(object, 0);
    if !is_instance(current.classes, word, type_named) {
        return Effect::Raises { class: CLASS_CAST };
    }
    at.pc = current.next;
    Effect::Goes
}
