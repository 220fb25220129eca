//! References that are stored in arrays.

ghost use Rattle.std.specs.Prelude.{◌≡◌, ℕ, List};
ghost use Rattle.jv_text.specs.declared.descriptor.FieldTypeOf.{FieldTypeOf};
ghost use Rattle.jv_interp_words.specs.Going.{StaysIn};
ghost use Rattle.jv_interp_heap.specs.SystemNumbers.{IsGuestsWorld};
ghost use Rattle.jv_interp_held.specs.Executing.{IsUnmoved, place};
ghost use Rattle.jv_interp_objects.specs.Types.{IsOfType};
ghost use Rattle.jv_interp_objects.specs.Storing.{CanStore, Stores};
ghost use Rattle.jv_interp_objects.specs.Inside.Standing.{IsReference, TellsStanding};

use crate::types::{NumberedType, component_type, is_instance};
use jv_interp_heap::{ARRAY_INDEX, ARRAY_STORE, NULL_POINTER, store_reference};
use jv_interp_held::{Effect, Held};
use jv_interp_words::Registers;
use jv_loader::Classes;
use jv_store::Store;

/// Whether a reference can stand in an array with components of a type.
#[inline(always)]
fn can_stand<S: Store>(
    classes: &Classes<'_>,
    store: &S,
    value: u32,
    components: NumberedType,
) -> bool
    requires guests { IsGuestsWorld classes.now.world }
    requires value { IsReference classes.now.world (S.content store.now) value }
    requires components { (type : FieldTypeOf (List ℕ)) × IsOfType classes.now.world type components }
    ensures { TellsStanding classes.now.world (S.content store.now) value components result }
{
    if value == 0 {
        return true;
    }
    is_instance(classes, store.get(value, 0), components)
}

/// aastore: the reference on top is stored at the index below it, in the array below both. Of the blocks, only the array's is written.
pub fn aastore<'l, S: Store>(
    classes: &Classes<'_>,
    store: &mut S,
    held: &Held,
    words: &[u32],
    at: &mut Registers<'l>,
    next: u32,
) -> Effect
    requires { CanStore classes.now.world next at.old words.now held.now (S.content store.old) }
    ensures stores { Stores classes.now.world next words.now held.now at.old (S.content store.old) at.new (S.content store.new) result }
    ensures stays { StaysIn at.old at.new words.now }
    ensures unmoved { IsUnmoved result (place at.old words.now held.now (S.content store.old))
        (place at.new words.now held.now (S.content store.new)) }
    ensures room { S.room_left store.new ≡ S.room_left store.old }
{
    // Only the clauses speak of it.
    let _held = held;
    let array = words[at.top - 3];
    let index = words[at.top - 2];
    let value = words[at.top - 1];
    if array == 0 {
        return Effect::Raises {
            class: NULL_POINTER,
        };
    }
    let length = store.get(array, 1);
    if length <= index {
        return Effect::Raises { class: ARRAY_INDEX };
    }
    let word = store.get(array, 0);
    let components = component_type(word);
    let stands = can_stand(classes, store, value, components);
    if !store_reference(store, array, index + 2, value, stands) {
        return Effect::Raises { class: ARRAY_STORE };
    }
    at.pc = next;
    at.top = at.top - 3;
    Effect::Goes
}
