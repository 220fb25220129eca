//! What Methodref and InterfaceMethodref constants resolve to (JVMS 5.4.3.3, 5.4.3.4), once they were asked.

ghost use Rattle.std.specs.Prelude.{◌≡◌, ◌<◌, IsSome, IfOk, IfSome, length};
ghost use Rattle.jv_meaning_world.specs.World.{World};
ghost use Rattle.jv_meaning_world.specs.Numbers.{HoldsAtNumber};
ghost use Rattle.jv_meaning_typing.specs.Operands.{method_operand};
ghost use Rattle.jv_link.specs.Seen.{IsSite};
ghost use Rattle.jv_link.specs.Answers.{IsMethodResolved};
ghost use Rattle.jv_link.specs.UseRules.{AnswersCallable};
ghost use Rattle.jv_link_cache.specs.MethodUses.{IsMethodUse, used_target};
ghost use Rattle.jv_link_cache.specs.Inside.Methods.{IsFound, IsEntry};
ghost use Rattle.jv_link_cache.specs.Inside.Rows.{AreRows};

use crate::method_use::{MethodUse, method_called};
use crate::rows::{Row, entry_in, keep};
use jv_link::{LinkError, Site, Use, callable_with, constants_method};
use jv_loader::{ClassTable, Classes};

/// What a Methodref or InterfaceMethodref constant resolves to, where it was asked.
pub(crate) type MethodEntry = Option<Result<MethodUse, LinkError>>;

/// What a constant resolves to, where that is known.
#[inline(always)]
fn known(
    rows: &[Row<MethodEntry>],
    class: usize,
    index: u16,
) -> Option<Result<MethodUse, LinkError>>
    ensures { (world : World) → AreRows (IsEntry world) rows.now → IfSome result (IsFound world class index) }
{
    match entry_in(rows, class, usize::from(index)) {
        Some(entry) => *entry,
        None => None,
    }
}

/// What a constant resolves to, by its names.
fn found_anew(
    table: &ClassTable<'_>,
    classes: &Classes<'_>,
    class: usize,
    index: u16,
) -> Result<MethodUse, LinkError>
    requires same { classes.now.world ≡ table.now }
    requires class { class < length table.now }
    requires index { HoldsAtNumber table.now class (λ l. IsSome (method_operand l.class index)) }
    ensures { IsFound table.now class index result }
{
    match constants_method(classes, class, index) {
        Ok(target) => Ok(method_called(table, target)),
        Err(error) => Err(error),
    }
}

/// What a constant resolves to, by its names; its entry keeps it.
#[cold]
#[inline(never)]
fn found_and_kept(
    rows: &mut [Row<MethodEntry>],
    table: &ClassTable<'_>,
    classes: &Classes<'_>,
    class: usize,
    index: u16,
) -> Result<MethodUse, LinkError>
    requires same { classes.now.world ≡ table.now }
    requires rows { AreRows (IsEntry table.now) rows.old }
    requires class { class < length table.now }
    requires index { HoldsAtNumber table.now class (λ l. IsSome (method_operand l.class index)) }
    ensures found { IsFound table.now class index result }
    ensures rows { AreRows (IsEntry table.now) rows.new }
{
    let found = found_anew(table, classes, class, index);
    keep(rows, class, usize::from(index), None, Some(found));
    found
}

/// The same, with room of its own for the answer, which is then not made where an entry is there.
#[inline(always)]
fn found_apart(
    rows: &mut [Row<MethodEntry>],
    table: &ClassTable<'_>,
    classes: &Classes<'_>,
    class: usize,
    index: u16,
) -> Result<MethodUse, LinkError>
    requires same { classes.now.world ≡ table.now }
    requires rows { AreRows (IsEntry table.now) rows.old }
    requires class { class < length table.now }
    requires index { HoldsAtNumber table.now class (λ l. IsSome (method_operand l.class index)) }
    ensures found { IsFound table.now class index result }
    ensures rows { AreRows (IsEntry table.now) rows.new }
{
    found_and_kept(rows, table, classes, class, index)
}

/// What a constant resolves to, by its entry, where that is there.
#[inline(always)]
pub(crate) fn method_by(
    rows: &mut [Row<MethodEntry>],
    table: &ClassTable<'_>,
    classes: &Classes<'_>,
    class: usize,
    index: u16,
) -> Result<MethodUse, LinkError>
    requires same { classes.now.world ≡ table.now }
    requires rows { AreRows (IsEntry table.now) rows.old }
    requires class { class < length table.now }
    requires index { HoldsAtNumber table.now class (λ l. IsSome (method_operand l.class index)) }
    ensures found { IsFound table.now class index result }
    ensures rows { AreRows (IsEntry table.now) rows.new }
{
    if let Some(found) = known(rows, class, index) {
        return found;
    }
    found_apart(rows, table, classes, class, index)
}

/// A method, where an instruction can call it.
#[inline(always)]
fn called_by(table: &ClassTable<'_>, how: Use, called: MethodUse) -> Result<MethodUse, LinkError>
    requires { IsMethodUse table.now called }
    ensures found { AnswersCallable table.now called.target how (used_target result) }
    ensures called { IfOk result (IsMethodUse table.now) }
{
    match callable_with(
        table,
        how,
        called.target,
        called.access_flags,
        called.is_init,
    ) {
        Ok(_) => Ok(called),
        Err(error) => Err(error),
    }
}

/// What was found, as an instruction at a site calls it.
#[inline(always)]
pub(crate) fn called_method(
    table: &ClassTable<'_>,
    site: Site,
    how: Use,
    index: u16,
    found: Result<MethodUse, LinkError>,
) -> Result<MethodUse, LinkError>
    requires site { IsSite table.now site }
    requires found { IsFound table.now site.class index found }
    ensures found { IsMethodResolved table.now site how index (used_target result) }
    ensures called { IfOk result (IsMethodUse table.now) }
{
    // Only the clauses speak of it.
    let _index = index;
    match found {
        Ok(called) => called_by(table, how, called),
        Err(error) => Err(error),
    }
}
