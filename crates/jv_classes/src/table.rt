//! Who is above whom.

ghost use Rattle.std.specs.Prelude.{◌≡◌, ◌↔◌, ◌<◌, ℕ, [], IsTrue, IfOk, length, map, get_or};
ghost use Rattle.std.specs.List.{list_any};
ghost use Rattle.jv_classes.specs.Ways.{related, is_there};
ghost use Rattle.jv_meaning_world.specs.Numbers.{IsNumbered};
ghost use Rattle.jv_meaning_world.specs.Laws.Above.{stands_itself, SystemStandsAlone};
ghost use Rattle.jv_meaning_world.specs.Verdicts.{is_loadable};
ghost use Rattle.jv_classes.specs.Inside.Direct.{IsToSuperclass};
ghost use Rattle.jv_classes.specs.Inside.Told.{TellsAbove, TellsSuperclasses, IsChain, AreChains, AreAllMarked};
ghost use Rattle.jv_classes.specs.Inside.Rows.{numbers_of, all_direct_numbers, all_superclass_numbers, AreAllBelow};
ghost use Rattle.jv_meaning_world.specs.Above.{superclasses};

use crate::law::short_ways;
use crate::list::ClassList;
use crate::loaded_class::LoadedClass;
use crate::relation::Relation;
use crate::short::short_number;
use crate::supers::{stands_itself, superclass_of, supers_of};
use jv_meaning_world::loadable_by_all;
use std::alloc::{AllocError, Global};

/// The numbers of the direct supers of each class.
pub(crate) fn all_supers(
    alloc: Global,
    list: &ClassList<'_>,
) -> Result<Vec<Vec<Option<usize>>>, AllocError>
    ensures { IfOk result (λ all. numbers_of all.items ≡ all_direct_numbers list.now) }
{
    let mut all = Vec::new(alloc);
    for class in list.classes() {
        all.push(supers_of(alloc, list, class)?)?;
    }
    Ok(all)
}

/// The number of the superclass of each class, where it has one and that is there.
pub(crate) fn direct_superclasses(
    alloc: Global,
    classes: &[LoadedClass<'_>],
    rows: &[Vec<Option<usize>>],
) -> Result<Vec<Option<usize>>, AllocError>
    requires { numbers_of rows.now ≡ all_direct_numbers classes.now }
    ensures { IfOk result (λ direct. direct.items ≡ all_superclass_numbers classes.now) }
{
    let mut direct = Vec::new(alloc);
    for from in 0..classes.len() {
        direct.push(superclass_of(&classes[from], &rows[from]))?;
    }
    Ok(direct)
}

/// The numbers of the superclasses of a class that are there, the direct one first. A chain that ends in a circle is followed as
/// often as there are classes. There is no memory for a number that has no room in two bytes.
fn chain_of(
    alloc: Global,
    classes: &[LoadedClass<'_>],
    direct: &[Option<usize>],
    number: usize,
) -> Result<Vec<u16>, AllocError>
    requires number { number < length classes.now }
    requires direct { direct.now ≡ all_superclass_numbers classes.now }
    ensures { IfOk result (λ chain. IsChain classes.now number chain.items) }
{
    let mut chain = Vec::new(alloc);
    let mut next = direct[number];
    for _ in 0..classes.len() {
        let Some(superclass) = next else {
            return Ok(chain);
        };
        chain.push(short_number(superclass)?)?;
        next = direct[superclass];
    }
    Ok(chain)
}

/// The numbers of the superclasses of each class, in two bytes each, with no more room than there are of them.
pub(crate) fn all_chains(
    alloc: Global,
    classes: &[LoadedClass<'_>],
    direct: &[Option<usize>],
) -> Result<Vec<Vec<u16>>, AllocError>
    requires { direct.now ≡ all_superclass_numbers classes.now }
    ensures { IfOk result (λ chains. AreChains classes.now (length classes.now) chains.items) }
{
    let mut chains = Vec::new(alloc);
    for number in 0..classes.len() {
        let mut chain = chain_of(alloc, classes, direct, number)?;
        chain.shrink_to_fit();
        chains.push(chain)?;
    }
    Ok(chains)
}

/// The relation of each number to those in its row.
fn related_to(alloc: Global, rows: &[Vec<Option<usize>>]) -> Result<Relation, AllocError>
    requires { AreAllBelow (length rows.now) (numbers_of rows.now) }
    ensures size { IfOk result (λ r. length r ≡ length rows.now) }
    ensures related { IfOk result (λ r. (a b : ℕ) → related r a b ≡ list_any (is_there b) (get_or (numbers_of rows.now) a [])) }
{
    let mut relation = Relation::new(alloc, rows.len())?;
    for from in 0..rows.len() {
        relation.relate_each(from, &rows[from]);
    }
    Ok(relation)
}

/// The relation of each class to its superclass.
fn related_to_superclasses(
    alloc: Global,
    classes: &[LoadedClass<'_>],
    rows: &[Vec<Option<usize>>],
) -> Result<Relation, AllocError>
    requires rows { numbers_of rows.now ≡ all_direct_numbers classes.now }
    requires numbered { IsNumbered classes.now }
    ensures size { IfOk result (λ r. length r ≡ length classes.now) }
    ensures related { IfOk result (λ r. IsToSuperclass classes.now r) }
{
    let mut relation = Relation::new(alloc, classes.len())?;
    for from in 0..classes.len() {
        relation.relate_if(from, superclass_of(&classes[from], &rows[from]));
    }
    Ok(relation)
}

/// Whether each class stands itself, where it is known who is above whom.
pub(crate) fn all_stand(
    alloc: Global,
    classes: &[LoadedClass<'_>],
    rows: &[Vec<Option<usize>>],
    above: &Relation,
) -> Result<Vec<bool>, AllocError>
    requires rows { numbers_of rows.now ≡ all_direct_numbers classes.now }
    requires size { length above.now ≡ length classes.now }
    requires above { TellsAbove classes.now above.now }
    ensures { IfOk result (λ stand. stand.items ≡ map (stands_itself classes.now) classes.now) }
{
    let mut stand = Vec::new(alloc);
    for from in 0..classes.len() {
        let class = &classes[from];
        stand.push(stands_itself(classes, class, &rows[from], above.holds(from, from)))?;
    }
    Ok(stand)
}

/// Which class is above which (JVMS 5.3.5).
pub(crate) fn above_of(
    alloc: Global,
    classes: &[LoadedClass<'_>],
    rows: &[Vec<Option<usize>>],
) -> Result<Relation, AllocError>
    requires rows { numbers_of rows.now ≡ all_direct_numbers classes.now }
    requires numbered { IsNumbered classes.now }
    ensures size { IfOk result (λ r. length r ≡ length classes.now) }
    ensures above { IfOk result (TellsAbove classes.now) }
{
    let mut above = related_to(alloc, rows)?;
    above.close(alloc)?;
    Ok(above)
}

/// Which class is a superclass of which.
pub(crate) fn superclasses_of(
    alloc: Global,
    classes: &[LoadedClass<'_>],
    rows: &[Vec<Option<usize>>],
) -> Result<Relation, AllocError>
    requires rows { numbers_of rows.now ≡ all_direct_numbers classes.now }
    requires numbered { IsNumbered classes.now }
    ensures size { IfOk result (λ r. length r ≡ length classes.now) }
    ensures superclasses { IfOk result (TellsSuperclasses classes.now) }
{
    short_ways();
    let mut superclasses = related_to_superclasses(alloc, classes, rows)?;
    superclasses.is_square();
    superclasses.close(alloc)?;
    Ok(superclasses)
}

/// Whether each class can be loaded, where it is known which of them stand themselves.
pub(crate) fn all_loadable(
    alloc: Global,
    classes: &[LoadedClass<'_>],
    above: &Relation,
    stand: &[bool],
) -> Result<Vec<bool>, AllocError>
    requires numbered { IsNumbered classes.now }
    requires alone { SystemStandsAlone classes.now }
    requires size { length above.now ≡ length classes.now }
    requires above { TellsAbove classes.now above.now }
    requires stand { stand.now ≡ map (stands_itself classes.now) classes.now }
    ensures { IfOk result (λ loadable. loadable.items ≡ map (is_loadable classes.now) classes.now) }
{
    loadable_by_all();
    above.is_square();
    let mut loadable = Vec::new(alloc);
    for number in 0..classes.len() {
        loadable.push(all_marked(above, stand, number))?;
    }
    Ok(loadable)
}

/// Whether a number is marked, and all that are related to it.
fn all_marked(relation: &Relation, marks: &[bool], number: usize) -> bool
    requires number { number < length relation.now }
    requires size { length marks.now ≡ length relation.now }
    ensures { IsTrue result ↔ AreAllMarked relation.now marks.now number }
{
    marks[number] && relation.has_only(number, marks)
}
