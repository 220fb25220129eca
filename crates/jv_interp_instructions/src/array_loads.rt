//! Lengths of arrays, and loads from them.

ghost use Rattle.std.specs.Prelude.{◌≡◌, ℕ, List, if◌then◌else◌};
ghost use Rattle.jv_code.specs.declared.insn.Insn.TheVariants.{ArrayLength as ArrayLengthInsn, ArrayLoad as ArrayLoadInsn, ReferenceArrayLoad as ReferenceArrayLoadInsn};
ghost use Rattle.jv_interp_members.specs.Known.{Known};
ghost use Rattle.jv_interp_words.specs.Going.{StaysIn};
ghost use Rattle.jv_interp_instructions.specs.Components.{number_words};
ghost use Rattle.jv_interp_held.specs.Executing.{IsUnmoved, place};
ghost use Rattle.jv_interp_instructions.specs.InGuest.{CanExecute, Executed};

use jv_code::NumberElement;
use jv_interp_held::{Effect, Held};
use jv_interp_objects::{array_length, load, load_long};
use jv_interp_words::Registers;
use jv_meaning_machine::execution_keeps;
use jv_store::Store;

/// `arraylength`.
#[inline(always)]
pub(crate) fn execute_array_length<'l, S: Store>(
    store: &S,
    held: &Held,
    words: &mut [u32],
    at: &mut Registers<'l>,
    next: u32,
) -> Effect
    requires { (k : Known) × (texts : List (List ℕ)) × CanExecute ArrayLengthInsn next k texts at.old words.old held.now
        (S.content store.now) }
    ensures done { (k : Known) (texts : List (List ℕ)) → Executed ArrayLengthInsn next k texts
        (place at.old words.old held.now (S.content store.now)) (place at.new words.new held.now (S.content store.now)) result }
    ensures stays { StaysIn at.old at.new words.new }
    ensures unmoved { IsUnmoved result (place at.old words.old held.now (S.content store.now))
        (place at.new words.new held.now (S.content store.now)) }
{
    execution_keeps();
    array_length(store, held, words, at, next)
}

/// Whether such numbers are longs.
#[inline(always)]
fn is_long(kind: NumberElement) -> bool
    ensures { number_words kind ≡ (if result then 2 else 1) }
{
    matches!(kind, NumberElement::Long)
}

/// `iaload` and its kin.
#[inline(always)]
pub(crate) fn execute_array_load<'l, S: Store>(
    store: &S,
    held: &Held,
    words: &mut [u32],
    at: &mut Registers<'l>,
    next: u32,
    kind: NumberElement,
) -> Effect
    requires { (k : Known) × (texts : List (List ℕ)) × CanExecute (ArrayLoadInsn kind) next k texts at.old words.old held.now
        (S.content store.now) }
    ensures done { (k : Known) (texts : List (List ℕ)) → Executed (ArrayLoadInsn kind) next k texts
        (place at.old words.old held.now (S.content store.now)) (place at.new words.new held.now (S.content store.now)) result }
    ensures stays { StaysIn at.old at.new words.new }
    ensures unmoved { IsUnmoved result (place at.old words.old held.now (S.content store.now))
        (place at.new words.new held.now (S.content store.now)) }
{
    execution_keeps();
    if is_long(kind) {
        load_long(store, held, words, at, next)
    } else {
        load(store, held, words, at, next)
    }
}

/// `aaload`.
#[inline(always)]
pub(crate) fn execute_reference_array_load<'l, S: Store>(
    store: &S,
    held: &Held,
    words: &mut [u32],
    at: &mut Registers<'l>,
    next: u32,
) -> Effect
    requires { (k : Known) × (texts : List (List ℕ)) × CanExecute ReferenceArrayLoadInsn next k texts at.old words.old held.now
        (S.content store.now) }
    ensures done { (k : Known) (texts : List (List ℕ)) → Executed ReferenceArrayLoadInsn next k texts
        (place at.old words.old held.now (S.content store.now)) (place at.new words.new held.now (S.content store.now)) result }
    ensures stays { StaysIn at.old at.new words.new }
    ensures unmoved { IsUnmoved result (place at.old words.old held.now (S.content store.now))
        (place at.new words.new held.now (S.content store.now)) }
{
    execution_keeps();
    load(store, held, words, at, next)
}
