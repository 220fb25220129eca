//! The verdicts on a guest's files before their methods are looked at.

ghost use Rattle.std.specs.Prelude.{◌≡◌, ◌<◌, ◌≤◌, false, IfOk, length, map};
ghost use Rattle.jv_meaning_world.specs.Above.{is_circular, superclasses};
ghost use Rattle.jv_meaning_world.specs.Verdicts.{verdict_of_class, breaks_final};
ghost use Rattle.jv_meaning_world.specs.Numbers.{HoldsAtNumber};
ghost use Rattle.std.specs.List.{All};
ghost use Rattle.jv_loader.specs.Inside.Files.{verdict_of_entry, IsPlace};
ghost use Rattle.jv_loader.specs.FirstVerdicts.{AreVerdictsOnFirst};
ghost use Rattle.jv_loader.specs.Inside.Finals.{AreTold, breaks_final_above};

use crate::entry::Entry;
use jv_classes::ClassTable;
use jv_lookups::{FinalKeys, Marks, breaks_final, final_declarers, final_keys, package_numbers};
use jv_meaning_world::LoadVerdict;
use std::alloc::{AllocError, Global};
use std::hash::RandomState;

/// What is known of finals and packages.
#[derive(Drop)]
struct Finals {
    declarers: Vec<bool>,
    keys: FinalKeys,
    packages: Vec<usize>,
    marks: Marks,
    asked: Marks,
}

/// What is known of the finals and the packages of a table's classes.
fn finals_of(
    alloc: Global,
    state: RandomState,
    table: &ClassTable<'_>,
) -> Result<Finals, AllocError>
    ensures { IfOk result (AreTold table.now) }
{
    let classes = table.classes();
    let declarers = final_declarers(alloc, classes)?;
    let keys = final_keys(alloc, state, classes)?;
    let packages = package_numbers(alloc, state, classes)?;
    let marks = Marks::new(alloc, 2 * classes.len())?;
    let asked = Marks::new(alloc, 2 * classes.len())?;
    Ok(Finals {
        declarers,
        keys,
        packages,
        marks,
        asked,
    })
}

/// Whether a class that is not circular overrides a final method of a superclass (JVMS 4.10).
fn overrides_final(table: &ClassTable<'_>, finals: &mut Finals, number: usize) -> bool
    requires number { number < length table.now }
    requires finals { AreTold table.now finals.now }
    requires circular { HoldsAtNumber table.now number (λ l. is_circular table.now l.class ≡ false) }
    ensures found { HoldsAtNumber table.now number (λ l. result ≡ breaks_final_above table.now l) }
    ensures finals { AreTold table.now finals.new }
{
    table.is_numbered();
    breaks_final(
        table.classes(),
        &finals.declarers,
        &finals.keys,
        &finals.packages,
        &mut finals.marks,
        &mut finals.asked,
        number,
        table.superclasses(number),
    )
}

/// What is wrong with a class before its methods are looked at.
fn verdict_of(table: &ClassTable<'_>, finals: &mut Finals, number: usize) -> Option<LoadVerdict>
    requires number { number < length table.now }
    requires finals { AreTold table.now finals.now }
    ensures verdict { HoldsAtNumber table.now number (λ l. result ≡ verdict_of_class table.now l) }
    ensures finals { AreTold table.now finals.new }
{
    if let Some(verdict) = table.fault_of_supers(number) {
        return Some(verdict);
    }
    if table.has_final_super(number) || overrides_final(table, finals, number) {
        return Some(LoadVerdict::FinalBroken);
    }
    None
}

/// What is wrong with a class before its methods are looked at.
pub(crate) fn verdict_on(
    alloc: Global,
    state: RandomState,
    table: &ClassTable<'_>,
    number: usize,
) -> Result<Option<LoadVerdict>, AllocError>
    requires { number < length table.now }
    ensures { IfOk result (λ verdict. HoldsAtNumber table.now number (λ l. verdict ≡ verdict_of_class table.now l)) }
{
    let mut finals = finals_of(alloc, state, table)?;
    Ok(verdict_of(table, &mut finals, number))
}

/// What is wrong with each of the first classes, so many, before their methods are looked at.
pub(crate) fn first_verdicts(
    alloc: Global,
    state: RandomState,
    table: &ClassTable<'_>,
    count: usize,
) -> Result<Vec<Option<LoadVerdict>>, AllocError>
    requires { count ≤ length table.now }
    ensures { IfOk result (λ verdicts. AreVerdictsOnFirst table.now count verdicts.items) }
{
    let mut finals = finals_of(alloc, state, table)?;
    let mut verdicts = Vec::new(alloc);
    for number in 0..count {
        verdicts.push(verdict_of(table, &mut finals, number))?;
    }
    Ok(verdicts)
}

/// The verdict on a file, where its entry is known.
fn verdict_of_entry(
    table: &ClassTable<'_>,
    finals: &mut Finals,
    entry: Entry,
) -> Option<LoadVerdict>
    requires place { IsPlace table.now entry }
    requires finals { AreTold table.now finals.now }
    ensures verdict { result ≡ verdict_of_entry table.now entry }
    ensures finals { AreTold table.now finals.new }
{
    match entry {
        Ok(number) => verdict_of(table, finals, number),
        Err(verdict) => Some(verdict),
    }
}

/// The verdicts on files, where their entries are known.
pub(crate) fn verdicts_of(
    alloc: Global,
    state: RandomState,
    table: &ClassTable<'_>,
    entries: &[Entry],
) -> Result<Vec<Option<LoadVerdict>>, AllocError>
    requires { All (IsPlace table.now) entries.now }
    ensures { IfOk result (λ verdicts. verdicts.items ≡ map (verdict_of_entry table.now) entries.now) }
{
    let mut finals = finals_of(alloc, state, table)?;
    let mut verdicts = Vec::new(alloc);
    for entry in entries {
        verdicts.push(verdict_of_entry(table, &mut finals, *entry))?;
    }
    Ok(verdicts)
}
