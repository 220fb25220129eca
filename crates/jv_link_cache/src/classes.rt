//! What Class constants resolve to (JVMS 5.4.3.1), once they were asked.

ghost use Rattle.std.specs.Prelude.{◌≡◌, ◌<◌, IsSome, IfSome, length};
ghost use Rattle.jv_meaning_world.specs.World.{World};
ghost use Rattle.jv_meaning_world.specs.Numbers.{HoldsAtNumber};
ghost use Rattle.jv_meaning_typing.specs.Operands.{class_operand};
ghost use Rattle.jv_link.specs.Seen.{IsSite};
ghost use Rattle.jv_link.specs.Answers.{IsClassUsed};
ghost use Rattle.jv_link_cache.specs.Inside.Classes.{IsFound, IsEntry};
ghost use Rattle.jv_link_cache.specs.Inside.Rows.{AreRows};

use crate::class_use::{ClassUse, class_used};
use crate::rows::{Row, entry_in, keep};
use jv_link::{ClassRef, LinkError, Site, Use, constants_class, created};
use jv_loader::{ClassTable, Classes};

/// What a Class constant resolves to, where it was asked.
pub(crate) type ClassEntry<'a> = Option<Result<ClassUse<'a>, LinkError>>;

/// What a constant resolves to, where that is known.
#[inline(always)]
fn known<'a>(
    rows: &[Row<ClassEntry<'a>>],
    class: usize,
    index: u16,
) -> Option<Result<ClassUse<'a>, LinkError>>
    ensures { (world : World) → AreRows (IsEntry world) rows.now → IfSome result (IsFound world class index) }
{
    match entry_in(rows, class, usize::from(index)) {
        Some(entry) => *entry,
        None => None,
    }
}

/// What a constant resolves to, by its name.
fn found_anew<'a>(
    table: &ClassTable<'a>,
    classes: &Classes<'a>,
    class: usize,
    index: u16,
) -> Result<ClassUse<'a>, LinkError>
    requires same { classes.now.world ≡ table.now }
    requires class { class < length table.now }
    requires index { HoldsAtNumber table.now class (λ l. IsSome (class_operand l.class index)) }
    ensures { IsFound table.now class index result }
{
    match constants_class(classes, class, index) {
        Ok(found) => Ok(class_used(table, found)),
        Err(error) => Err(error),
    }
}

/// The same; its entry keeps it.
#[cold]
#[inline(never)]
fn found_and_kept<'a>(
    rows: &mut [Row<ClassEntry<'a>>],
    table: &ClassTable<'a>,
    classes: &Classes<'a>,
    class: usize,
    index: u16,
) -> Result<ClassUse<'a>, LinkError>
    requires same { classes.now.world ≡ table.now }
    requires rows { AreRows (IsEntry table.now) rows.old }
    requires class { class < length table.now }
    requires index { HoldsAtNumber table.now class (λ l. IsSome (class_operand l.class index)) }
    ensures found { IsFound table.now class index result }
    ensures rows { AreRows (IsEntry table.now) rows.new }
{
    let found = found_anew(table, classes, class, index);
    keep(rows, class, usize::from(index), None, Some(found));
    found
}

/// What a constant resolves to, by its entry, where that is there.
#[inline(always)]
pub(crate) fn class_by<'a>(
    rows: &mut [Row<ClassEntry<'a>>],
    table: &ClassTable<'a>,
    classes: &Classes<'a>,
    class: usize,
    index: u16,
) -> Result<ClassUse<'a>, LinkError>
    requires same { classes.now.world ≡ table.now }
    requires rows { AreRows (IsEntry table.now) rows.old }
    requires class { class < length table.now }
    requires index { HoldsAtNumber table.now class (λ l. IsSome (class_operand l.class index)) }
    ensures found { IsFound table.now class index result }
    ensures rows { AreRows (IsEntry table.now) rows.new }
{
    if let Some(found) = known(rows, class, index) {
        return found;
    }
    found_and_kept(rows, table, classes, class, index)
}

/// What was found, as an instruction at a site uses it.
#[inline(always)]
pub(crate) fn used_class<'a>(
    table: &ClassTable<'_>,
    site: Site,
    how: Option<Use>,
    index: u16,
    found: Result<ClassUse<'a>, LinkError>,
) -> Result<ClassRef<'a>, LinkError>
    requires site { IsSite table.now site }
    requires found { IsFound table.now site.class index found }
    ensures { IsClassUsed table.now site how index result }
{
    let _at = (site, index);
    let found = match found {
        Ok(used) => Ok(used.found),
        Err(error) => Err(error),
    };
    match how {
        Some(Use::New) => created(table, found),
        _ => found,
    }
}
