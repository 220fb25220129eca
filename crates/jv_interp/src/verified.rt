//! Which classes were accepted with all that is above them.

ghost use Rattle.std.specs.Prelude.{◌≡◌, ◌<◌, Bool, Some, IfOk, IsTrue, length, slice_get};
ghost use Rattle.std.specs.List.{list_all};
ghost use Rattle.jv_meaning_world.specs.World.{Loaded};
ghost use Rattle.jv_meaning_world.specs.Above.{above};
ghost use Rattle.jv_meaning_world.specs.Numbers.{HoldsAtNumber, HoldsAtBoth, IsNumbered};
ghost use Rattle.jv_interp.specs.VerifiedClasses.{TellsEach, AreToldBefore, TellWithAbove, AreVerifiedClasses, holds_if_above};

use crate::accepted::accepted_classes;
use jv_loader::ClassTable;
use jv_verify::Verified;
use std::alloc::{AllocError, Global};

/// What flags tell of the class with a number.
fn is_told(flags: &[bool], class: usize) -> bool
    ensures { (told : Bool) → slice_get flags.now class ≡ Some told → result ≡ told }
{
    class < flags.len() && flags[class]
}

/// Whether flags tell true of each class.
fn are_all_told(table: &ClassTable<'_>, flags: &[bool]) -> bool
    ensures { IsTrue result → AreToldBefore flags.now (length table.now) }
{
    for class in 0..table.count() {
        if !is_told(flags, class) {
            return false;
        }
    }
    true
}

/// Whether another class is not above a class, or flags tell true of it.
fn is_told_if_above(table: &ClassTable<'_>, flags: &[bool], class: usize, other: usize) -> bool
    requires class { class < length table.now }
    requires other { other < length table.now }
    ensures { (test : Loaded → Bool) → TellsEach table.now flags.now test
        → HoldsAtBoth table.now class other (λ l to. result ≡ holds_if_above table.now test l to) }
{
    !table.is_above(other, class) || is_told(flags, other)
}

/// Whether flags tell true of each class that is above another one, where it may be sure that they do of each.
fn are_told_above(table: &ClassTable<'_>, flags: &[bool], class: usize, sure: bool) -> bool
    requires class { class < length table.now }
    requires sure { IsTrue sure → AreToldBefore flags.now (length table.now) }
    ensures { (test : Loaded → Bool) → TellsEach table.now flags.now test
        → HoldsAtNumber table.now class (λ l. result ≡ list_all test (above table.now l.class)) }
{
    table.is_numbered();
    if sure {
        return true;
    }
    for other in 0..table.count() {
        if !is_told_if_above(table, flags, class, other) {
            return false;
        }
    }
    true
}

/// Of each class, which is the one of its name, whether flags tell true of it and of all above it.
fn told_with_above(
    alloc: Global,
    table: &ClassTable<'_>,
    flags: &[bool],
) -> Result<Vec<bool>, AllocError>
    ensures numbered { IsNumbered table.now }
    ensures told { IfOk result (λ all. TellWithAbove table.now flags.now all.items) }
{
    table.is_numbered();
    let sure = are_all_told(table, flags);
    let mut all = Vec::with_capacity(alloc, table.count())?;
    for class in 0..table.count() {
        all.push(is_told(flags, class) && are_told_above(table, flags, class, sure))?;
    }
    Ok(all)
}

/// Of each class of a guest, by its number, whether it and all classes and interfaces above it were accepted (JVMS 4.10, 5.4.1).
///
/// # Errors
///
/// Where the host had no memory for it.
pub fn verified_classes(alloc: Global, verified: &Verified<'_>) -> Result<Vec<bool>, AllocError>
    ensures { IfOk result (λ all. AreVerifiedClasses verified.now all.items) }
{
    let flags = accepted_classes(alloc, verified)?;
    let all = told_with_above(alloc, verified.classes().table(), &flags)?;
    Ok(all)
}
