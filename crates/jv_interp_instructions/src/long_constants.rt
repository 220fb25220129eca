//! Longs of a class's pool that are pushed.

ghost use Rattle.std.specs.Prelude.{◌≡◌, ◌<◌, ℕ, List, length};
ghost use Rattle.jv_code.specs.declared.insn.Insn.TheVariants.{PoolLongConstant as PoolLongConstantInsn};
ghost use Rattle.jv_interp_members.specs.Known.{Known};
ghost use Rattle.jv_interp_words.specs.Going.{StaysIn};
ghost use Rattle.jv_interp_words.specs.ValuesInWords.{long_of};
ghost use Rattle.jv_interp_held.specs.Executing.{IsUnmoved, place};
ghost use Rattle.jv_interp_instructions.specs.InGuest.{CanExecute, Executed};
ghost use Rattle.jv_interp_instructions.specs.PoolConstants.{IsLongOf, IsOfSite};

use jv_interp_held::{Effect, Held};
use jv_interp_members::Current;
use jv_interp_objects::push_long;
use jv_interp_words::Registers;
use jv_link::class_at;
use jv_loader::Classes;
use jv_meaning_machine::execution_keeps;
use jv_pool::Constant;
use jv_store::Store;

/// The halves of the long at an index of the class with a number, where one is there.
#[inline(always)]
fn long_constant<'a>(classes: &Classes<'a>, class: usize, index: u16) -> Option<(u32, u32)>
    requires { class < length classes.now.world }
    ensures { IsLongOf classes.now.world class index result }
{
    let Some(file) = class_at(classes.table(), class).file() else {
        return None;
    };
    match file.pool().constant(index) {
        Some(Constant::Long(high, low)) => Some((low, high)),
        _ => None,
    }
}

/// `ldc2_w`.
#[inline(always)]
pub(crate) fn execute_pool_long_constant<'a, 'l, S: Store>(
    current: Current<'_, 'a>,
    store: &S,
    held: &Held,
    words: &mut [u32],
    at: &mut Registers<'l>,
    index: u16,
) -> Effect
    requires { (k : Known) × IsOfSite current.classes.now.world current.site k × (texts : List (List ℕ)) × CanExecute
        (PoolLongConstantInsn index) current.next k
        texts at.old words.old held.now (S.content store.now) }
    ensures done { (k : Known) (texts : List (List ℕ)) → IsOfSite current.entry.classes.now.world current.entry.site k → Executed
        (PoolLongConstantInsn index) current.entry.next
        k texts (place at.old words.old held.now (S.content store.now)) (place at.new words.new held.now (S.content store.now)) result }
    ensures stays { StaysIn at.old at.new words.new }
    ensures unmoved { IsUnmoved result (place at.old words.old held.now (S.content store.now))
        (place at.new words.new held.now (S.content store.now)) }
{
    execution_keeps();
    // Only the clauses speak of these.
    let _store = store;
    let _held = held;
    let Some((low, high)) = long_constant(current.classes, current.site.class, index) else {
        unreachable!()
    };
    push_long(words, at, current.next, low, high)
}
