//! Objects and arrays that are made of what a constant names.

ghost use Rattle.std.specs.Prelude.{◌≡◌, ◌+◌, ◌<◌, ◌≤◌, IfOk, IsOk, IsTrue, OnOk, OnErr};
ghost use Rattle.jv_link_cache.specs.Linked.{IsLinked};
ghost use Rattle.jv_interp_words.specs.Going.{StaysIn};
ghost use Rattle.jv_interp_members.specs.Known.{known_at};
ghost use Rattle.jv_interp_held.specs.Executing.{IsUnmoved, place};
ghost use Rattle.jv_interp_objects.specs.Making.{CanMakeObject, MakesObject, CanMakeArray, MakesArray, CanMakeArrays, MakesArrays};
ghost use Rattle.jv_interp_objects.specs.Inside.Slots.{IsSlots};

use crate::arrays::new_array;
use crate::multiple::new_nested_array;
use crate::naming::{class_named_new, named};
use crate::objects::new_object;
use crate::types::{NumberedType, array_word};
use jv_interp_held::{Effect, Held};
use jv_interp_members::{Current, is_ready};
use jv_interp_words::Registers;
use jv_link_cache::Linked;
use jv_store::{OutOfMemory, Store};
use jv_text::types_agree;

/// The number of long as an element.
const LONG: u32 = 5;

/// new: a new object of the class that the constant at an index names comes to stand on top, once the class is initialized or being
/// initialized.
///
/// # Errors
///
/// Where the host had no memory for it; all is then as it was, but for what linking has found.
pub fn create<'a, 'l, S: Store>(
    current: Current<'_, 'a>,
    linked: &mut Linked<'a>,
    store: &mut S,
    held: &mut Held,
    words: &mut [u32],
    at: &mut Registers<'l>,
    index: u16,
) -> Result<Effect, OutOfMemory>
    requires can { CanMakeObject index current.next (known_at current linked.old) current.states.now at.old words.old held.old
        (S.content store.old) }
    requires cells { held.old.cells ≤ S.room_left store.old }
    ensures makes { IfOk result (MakesObject index current.entry.next (known_at current.entry linked.old) current.entry.states.now
        (place at.old words.old held.old (S.content store.old)) (place at.new words.new held.new (S.content store.new))) }
    ensures stays { StaysIn at.old at.new words.new }
    ensures unmoved { IfOk result (λ effect. IsUnmoved effect (place at.old words.old held.old (S.content store.old))
        (place at.new words.new held.new (S.content store.new))) }
    ensures room { OnOk result (S.room_left store.old + held.new.cells ≡ S.room_left store.new + held.old.cells) }
    ensures refused_at { OnErr result (at.new ≡ at.old) }
    ensures refused_words { OnErr result (words.new ≡ words.old) }
    ensures refused_held { OnErr result (held.new ≡ held.old) }
    ensures refused { OnErr result (S.content store.new ≡ S.content store.old) }
    ensures refused_room { OnErr result (S.room_left store.new ≡ S.room_left store.old) }
    ensures sure { IsTrue S.SURE → IsOk result }
    ensures linked { IsLinked current.entry.classes.now.world linked.new }
{
    let class = match class_named_new(current.classes, linked, current.site, index) {
        Ok(class) => class,
        Err(class) => return Ok(Effect::Raises { class }),
    };
    if !is_ready(current.states, class) {
        return Ok(Effect::Begins {
            class: class as u32,
        });
    }
    let size = linked.object_words(class);
    if size >= held.cells as usize {
        return Ok(Effect::Throws {
            address: held.out_of_memory,
        });
    }
    new_object(
        store,
        held,
        words,
        at,
        current.next,
        class as u32,
        size as u32,
    )
}

/// anewarray: a new array of what the constant at an index names, of as many components as the int on top says, comes to stand in its
/// place.
///
/// # Errors
///
/// Where the host had no memory for it; all is then as it was, but for what linking has found.
pub fn anewarray<'a, 'l, S: Store>(
    current: Current<'_, 'a>,
    linked: &mut Linked<'a>,
    store: &mut S,
    held: &mut Held,
    words: &mut [u32],
    at: &mut Registers<'l>,
    index: u16,
) -> Result<Effect, OutOfMemory>
    requires can { CanMakeArray index current.next (known_at current linked.old) at.old words.old held.old (S.content store.old) }
    requires cells { held.old.cells ≤ S.room_left store.old }
    ensures makes { IfOk result (MakesArray index current.entry.next (known_at current.entry linked.old)
        (place at.old words.old held.old (S.content store.old)) (place at.new words.new held.new (S.content store.new))) }
    ensures stays { StaysIn at.old at.new words.new }
    ensures unmoved { IfOk result (λ effect. IsUnmoved effect (place at.old words.old held.old (S.content store.old))
        (place at.new words.new held.new (S.content store.new))) }
    ensures room { OnOk result (S.room_left store.old + held.new.cells ≡ S.room_left store.new + held.old.cells) }
    ensures refused_at { OnErr result (at.new ≡ at.old) }
    ensures refused_words { OnErr result (words.new ≡ words.old) }
    ensures refused_held { OnErr result (held.new ≡ held.old) }
    ensures refused { OnErr result (S.content store.new ≡ S.content store.old) }
    ensures refused_room { OnErr result (S.room_left store.new ≡ S.room_left store.old) }
    ensures sure { IsTrue S.SURE → IsOk result }
    ensures linked { IsLinked current.entry.classes.now.world linked.new }
{
    let components = match named(current.classes, linked, current.site, index) {
        Ok(components) => components,
        Err(class) => return Ok(Effect::Raises { class }),
    };
    let word = array_word(components);
    new_array(store, held, words, at, current.next, word, 1)
}

/// How many words each component of the innermost arrays has, where arrays of a type are made in so many of its dimensions.
fn inner_slots(array: NumberedType, dimensions: u32) -> u32
    ensures { IsSlots array dimensions result }
{
    if array.dimensions == dimensions && array.element == LONG {
        2
    } else {
        1
    }
}

/// multianewarray: new arrays of the type that the constant at an index names, in so many dimensions, come to stand in place of their
/// counts: a reference to the outer one.
///
/// # Errors
///
/// Where the host had no memory for them; all is then as it was, but for what linking has found.
pub fn multianewarray<'a, 'l, S: Store>(
    current: Current<'_, 'a>,
    linked: &mut Linked<'a>,
    store: &mut S,
    held: &mut Held,
    words: &mut [u32],
    at: &mut Registers<'l>,
    index: u16,
    dimensions: u8,
) -> Result<Effect, OutOfMemory>
    requires some { 1 ≤ dimensions }
    requires can { CanMakeArrays index dimensions current.next (known_at current linked.old) at.old words.old held.old
        (S.content store.old) }
    requires cells { held.old.cells ≤ S.room_left store.old }
    ensures makes { IfOk result (MakesArrays index dimensions current.entry.next (known_at current.entry linked.old)
        (place at.old words.old held.old (S.content store.old)) (place at.new words.new held.new (S.content store.new))) }
    ensures stays { StaysIn at.old at.new words.new }
    ensures unmoved { IfOk result (λ effect. IsUnmoved effect (place at.old words.old held.old (S.content store.old))
        (place at.new words.new held.new (S.content store.new))) }
    ensures room { OnOk result (S.room_left store.old + held.new.cells ≡ S.room_left store.new + held.old.cells) }
    ensures refused_at { OnErr result (at.new ≡ at.old) }
    ensures refused_words { OnErr result (words.new ≡ words.old) }
    ensures refused_held { OnErr result (held.new ≡ held.old) }
    ensures refused { OnErr result (S.content store.new ≡ S.content store.old) }
    ensures refused_room { OnErr result (S.room_left store.new ≡ S.room_left store.old) }
    ensures sure { IsTrue S.SURE → IsOk result }
    ensures linked { IsLinked current.entry.classes.now.world linked.new }
{
    types_agree();
    let array = match named(current.classes, linked, current.site, index) {
        Ok(array) => array,
        Err(class) => return Ok(Effect::Raises { class }),
    };
    let slots = inner_slots(array, dimensions as u32);
    let word = array_word(NumberedType {
        dimensions: array.dimensions - 1,
        element: array.element,
    });
    new_nested_array(
        store,
        held,
        words,
        at,
        current.next,
        word,
        slots,
        dimensions as usize,
    )
}
