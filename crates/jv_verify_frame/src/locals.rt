//! Stores to local variables (JVMS 4.10.1.9, modifyLocalVariable in 4.10.1.7).

ghost use Rattle.std.specs.Prelude.{◌≡◌, ◌<◌, ◌+◌, ℕ, [], ◌∷◌, length, set};
ghost use Rattle.std.specs.List.{All};
ghost use Rattle.jv_stackmap.specs.declared.verification.VerificationTypeOf.TheVariants as types;
ghost use Rattle.jv_verify_types.specs.Typed.{typed};
ghost use Rattle.jv_verify_frame.specs.Inside.Before.{IsBefore};
ghost use Rattle.jv_verify_frame.specs.Inside.Cut.{is_long, cut_at};
ghost use Rattle.jv_verify_frame.specs.Inside.Noted.{BringsNone, KeepsObjects};
ghost use Rattle.jv_verify_frame.specs.Inside.Tops.{AreTops};
ghost use Rattle.jv_verify_types.specs.Numbered.{StoresAny, words_of_item};

use jv_stackmap::VerificationTypeOf;
use jv_verify_types::Item;

#[inline(always)]
fn is_long(item: Item) -> bool
    ensures { result ≡ is_long item }
{
    matches!(item, VerificationTypeOf::Long)
}

/// Makes the local variable before an index top where a long begins there, which ends at the index.
#[inline]
fn cut_before(locals: &mut [Item], index: usize)
    requires { index < length locals.old }
    ensures cut { locals.new ≡ cut_at index locals.old }
    ensures same { length locals.new ≡ length locals.old }
    ensures before { (end : ℕ) → All (IsBefore end) locals.old → All (IsBefore end) locals.new }
    ensures tops { (used : ℕ) → AreTops used locals.old → AreTops used locals.new }
    ensures objects { BringsNone locals.old locals.new }
{
    if index == 0 {
        return;
    }
    if is_long(locals[index - 1]) {
        locals[index - 1] = VerificationTypeOf::Top;
    }
}

/// Stores an item of one word, if there is a local variable with the index.
#[inline]
fn store_item(locals: &mut [Item], index: usize, item: Item) -> bool
    ensures stored { StoresAny result (λ names. typed names item ∷ []) index locals.old locals.new }
    ensures same { length locals.new ≡ length locals.old }
    ensures before { (end : ℕ) → IsBefore end item → All (IsBefore end) locals.old → All (IsBefore end) locals.new }
    ensures tops { (used : ℕ) → index < used → AreTops used locals.old → AreTops used locals.new }
    ensures objects { KeepsObjects index item locals.old locals.new }
{
    if index >= locals.len() {
        return false;
    }
    cut_before(locals, index);
    locals[index] = item;
    true
}

/// Stores a long in a local variable and the next one, if there are these two.
fn store_long(locals: &mut [Item], index: usize) -> bool
    ensures stored { StoresAny result (λ names. types.Long ∷ types.Top ∷ []) index locals.old locals.new }
    ensures same { length locals.new ≡ length locals.old }
    ensures before { (end : ℕ) → All (IsBefore end) locals.old → All (IsBefore end) locals.new }
    ensures tops { (used : ℕ) → index < used → AreTops used locals.old → AreTops used locals.new }
    ensures objects { BringsNone locals.old locals.new }
{
    if index >= locals.len() || index + 1 >= locals.len() {
        return false;
    }
    cut_before(locals, index);
    locals[index] = VerificationTypeOf::Long;
    locals[index + 1] = VerificationTypeOf::Top;
    true
}

/// Stores an item in local variables, a long in two, if there are as many.
#[inline]
pub(crate) fn store(locals: &mut [Item], index: usize, item: Item) -> bool
    ensures stored { StoresAny result (words_of_item item) index locals.old locals.new }
    ensures same { length locals.new ≡ length locals.old }
    ensures before { (end : ℕ) → IsBefore end item → All (IsBefore end) locals.old → All (IsBefore end) locals.new }
    ensures tops { (used : ℕ) → index < used → AreTops used locals.old → AreTops used locals.new }
    ensures objects { KeepsObjects index item locals.old locals.new }
{
    match item {
        VerificationTypeOf::Long => store_long(locals, index),
        _ => store_item(locals, index, item),
    }
}

/// Puts a type at a place, where there is one, and leaves what is beside it.
#[tactic(auto, using(std::proofs::lemmas::List::set_past))]
pub(crate) fn put(locals: &mut [Item], place: usize, item: Item)
    ensures items { locals.new ≡ set locals.old place item }
    ensures same { length locals.new ≡ length locals.old }
    ensures before { (end : ℕ) → IsBefore end item → All (IsBefore end) locals.old → All (IsBefore end) locals.new }
    ensures tops { (used : ℕ) → place < used → AreTops used locals.old → AreTops used locals.new }
    ensures objects { KeepsObjects place item locals.old locals.new }
{
    if place < locals.len() {
        locals[place] = item;
    }
}
