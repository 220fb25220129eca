//! New arrays of base types.

ghost use Rattle.std.specs.Prelude.{◌≡◌, ◌+◌, ◌≤◌, ℕ, List, IfOk, IsOk, IsTrue, OnOk, OnErr};
ghost use Rattle.jv_code.specs.declared.insn.Insn.TheVariants.{NewArray as NewArrayInsn};
ghost use Rattle.jv_stackmap.specs.Types.{value_type, width};
ghost use Rattle.jv_meaning_machine.specs.Arrays.{base_of, base_components};
ghost use Rattle.jv_meaning_world.specs.World.{World};
ghost use Rattle.jv_interp_heap.specs.ObjectsInBlocks.{IsArrayWord};
ghost use Rattle.jv_interp_members.specs.Known.{Known};
ghost use Rattle.jv_interp_words.specs.Going.{StaysIn};
ghost use Rattle.jv_interp_held.specs.Executing.{IsUnmoved, place};
ghost use Rattle.jv_interp_instructions.specs.InGuest.{CanExecute, Executed};

use jv_code::ElementType;
use jv_interp_held::{Effect, Held};
use jv_interp_objects::new_base_array;
use jv_interp_words::Registers;
use jv_meaning_machine::execution_keeps;
use jv_store::{OutOfMemory, Store};

/// The first word of an array of elements of a base type.
fn array_word(element: ElementType) -> u32
    ensures { (world : World) → IsArrayWord world (base_components (base_of element)) result }
{
    match element {
        ElementType::Byte => 2_147_483_648,
        ElementType::Char => 2_147_483_649,
        ElementType::Int => 2_147_483_652,
        ElementType::Long => 2_147_483_653,
        ElementType::Short => 2_147_483_654,
        ElementType::Boolean => 2_147_483_655,
    }
}

/// How many words each of them has.
fn element_words(element: ElementType) -> u32
    ensures { width (value_type (base_components (base_of element))) ≡ result }
{
    match element {
        ElementType::Byte => 1,
        ElementType::Char => 1,
        ElementType::Int => 1,
        ElementType::Long => 2,
        ElementType::Short => 1,
        ElementType::Boolean => 1,
    }
}

/// `newarray`.
///
/// # Errors
///
/// Where the host had no memory for it; all is then as it was.
pub(crate) fn execute_new_array<'l, S: Store>(
    store: &mut S,
    held: &mut Held,
    words: &mut [u32],
    at: &mut Registers<'l>,
    next: u32,
    element: ElementType,
) -> Result<Effect, OutOfMemory>
    requires can { (k : Known) × (texts : List (List ℕ)) × CanExecute (NewArrayInsn element) next k texts at.old words.old held.old
        (S.content store.old) }
    requires cells { held.old.cells ≤ S.room_left store.old }
    ensures done { IfOk result (λ effect. (k : Known) (texts : List (List ℕ)) → Executed (NewArrayInsn element) next k texts
        (place at.old words.old held.old (S.content store.old)) (place at.new words.new held.new (S.content store.new)) effect) }
    ensures stays { StaysIn at.old at.new words.new }
    ensures unmoved { IfOk result (λ effect. IsUnmoved effect (place at.old words.old held.old (S.content store.old))
        (place at.new words.new held.new (S.content store.new))) }
    ensures room { OnOk result (S.room_left store.old + held.new.cells ≡ S.room_left store.new + held.old.cells) }
    ensures refused_at { OnErr result (at.new ≡ at.old) }
    ensures refused_words { OnErr result (words.new ≡ words.old) }
    ensures refused_held { OnErr result (held.new ≡ held.old) }
    ensures refused { OnErr result (S.content store.new ≡ S.content store.old) }
    ensures refused_room { OnErr result (S.room_left store.new ≡ S.room_left store.old) }
    ensures sure { IsTrue S.SURE → IsOk result }
{
    execution_keeps();
    let word = array_word(element);
    let slots = element_words(element);
    new_base_array(store, held, words, at, next, word, slots)
}
