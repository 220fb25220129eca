//! Stores of numbers into arrays.

ghost use Rattle.std.specs.Prelude.{◌≡◌, ℕ, List};
ghost use Rattle.jv_code.specs.declared.insn.Insn.TheVariants.{ArrayStore as ArrayStoreInsn};
ghost use Rattle.jv_interp_members.specs.Known.{Known};
ghost use Rattle.jv_interp_words.specs.Going.{StaysIn};
ghost use Rattle.jv_interp_held.specs.Executing.{IsUnmoved, place};
ghost use Rattle.jv_interp_instructions.specs.InGuest.{CanExecute, Executed};

use jv_code::NumberElement;
use jv_interp_heap::Narrowing;
use jv_interp_held::{Effect, Held};
use jv_interp_objects::{store_byte, store_int, store_long};
use jv_interp_words::Registers;
use jv_store::Store;

/// `iastore` and its kin.
#[inline(always)]
pub(crate) fn execute_array_store<'l, S: Store>(
    store: &mut S,
    held: &Held,
    words: &[u32],
    at: &mut Registers<'l>,
    next: u32,
    kind: NumberElement,
) -> Effect
    requires { (k : Known) × (texts : List (List ℕ)) × CanExecute (ArrayStoreInsn kind) next k texts at.old words.now held.now
        (S.content store.old) }
    ensures done { (k : Known) (texts : List (List ℕ)) → Executed (ArrayStoreInsn kind) next k texts
        (place at.old words.now held.now (S.content store.old)) (place at.new words.now held.now (S.content store.new)) result }
    ensures stays { StaysIn at.old at.new words.now }
    ensures unmoved { IsUnmoved result (place at.old words.now held.now (S.content store.old))
        (place at.new words.now held.now (S.content store.new)) }
    ensures room { S.room_left store.new ≡ S.room_left store.old }
{
    match kind {
        NumberElement::Int => store_int(store, held, words, at, next, Narrowing::Whole),
        NumberElement::Long => store_long(store, held, words, at, next),
        NumberElement::ByteOrBoolean => store_byte(store, held, words, at, next),
        NumberElement::Char => store_int(store, held, words, at, next, Narrowing::Char),
        NumberElement::Short => store_int(store, held, words, at, next, Narrowing::Short),
    }
}
