//! Which texts are names of classes (JVMS 4.4.1).

ghost use Rattle.std.specs.Prelude.{◌≡◌, ℕ, true, length, set, IfOk};
ghost use Rattle.jv_pool.specs.Constants.{pool_count};
ghost use Rattle.jv_verify_types.specs.Inside.KeptTexts.{AreMarkedBelow};

use jv_pool::{Constant, Pool};
use std::alloc::{AllocError, Global};

/// Marks an index, where there is a mark for it.
#[tactic(auto, using(std::proofs::lemmas::List::set_past))]
fn mark(marks: &mut [bool], index: u16)
    ensures { marks.new ≡ set marks.old index true }
{
    let place = usize::from(index);
    if place < marks.len() {
        marks[place] = true;
    }
}

/// For each index, whether a Class constant names the constant there.
pub(crate) fn named_by_classes(alloc: Global, pool: &Pool<'_>) -> Result<Vec<bool>, AllocError>
    ensures count { IfOk result (λ marks. length marks.items ≡ pool_count pool.now) }
    ensures marked { IfOk result (λ marks. (count : ℕ) → AreMarkedBelow count pool.now marks.items) }
{
    let mut marks = vec![in alloc; false; usize::from(pool.count())]?;
    for index in 0..pool.count() {
        if let Some(Constant::Class(name)) = pool.constant(index) {
            mark(&mut marks, name);
        }
    }
    Ok(marks)
}
