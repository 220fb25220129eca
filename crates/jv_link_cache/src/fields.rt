//! What Fieldref constants resolve to (JVMS 5.4.3.2), once they were asked.

ghost use Rattle.std.specs.Prelude.{◌≡◌, ◌<◌, IsSome, IsTrue, IfOk, IfSome, length, true};
ghost use Rattle.jv_class.specs.Class.{Field};
ghost use Rattle.jv_meaning_world.specs.World.{World};
ghost use Rattle.jv_meaning_world.specs.LookUps.{DeclaredField};
ghost use Rattle.jv_meaning_typing.specs.Uses.{Site as SiteOfNames};
ghost use Rattle.jv_meaning_typing.specs.Kind.{has_field_kind, can_use_final};
ghost use Rattle.jv_meaning_world.specs.Numbers.{HoldsAtNumber};
ghost use Rattle.jv_meaning_typing.specs.Operands.{field_operand};
ghost use Rattle.jv_link.specs.Seen.{seen_use, IsSite};
ghost use Rattle.jv_link.specs.Answers.{IsFieldResolved};
ghost use Rattle.jv_link.specs.UseRules.{AnswersUsable};
ghost use Rattle.jv_link_cache.specs.FieldUses.{IsFieldUse, used_place};
ghost use Rattle.jv_link_cache.specs.Inside.Words.{AreWords};
ghost use Rattle.jv_link_cache.specs.Inside.Fields.{IsFound, IsEntry, IsUsedAtOnce};
ghost use Rattle.jv_link_cache.specs.Inside.Rows.{AreRows};

use crate::field_use::{FieldUse, field_used};
use crate::rows::{Row, entry_in, keep};
use crate::words::ClassWords;
use bitflags::Flags;
use jv_class_structure::FieldFlags;
use jv_link::{LinkError, Site, Use, constants_field, usable_with};
use jv_loader::{ClassTable, Classes};

/// What a Fieldref constant resolves to, where it was asked.
pub(crate) type FieldEntry = Option<Result<FieldUse, LinkError>>;

/// Whether an instruction uses fields of this kind, static or not.
#[inline(always)]
fn is_used_so(how: Use, flags: u16) -> bool
    ensures { (f : Field) → flags ≡ f.access_flags → result ≡ has_field_kind (seen_use how) f }
{
    match how {
        Use::Getstatic | Use::Putstatic => FieldFlags(flags).intersects(FieldFlags::STATIC),
        Use::Getfield | Use::Putfield => !FieldFlags(flags).intersects(FieldFlags::STATIC),
        _ => true,
    }
}

/// Whether no instruction of this kind asks which method sets a field.
#[inline(always)]
fn is_settable(how: Use, flags: u16) -> bool
    ensures { (s : SiteOfNames) (d : DeclaredField) → flags ≡ d.field.access_flags → IsTrue result
        → can_use_final (seen_use how) s d ≡ true }
{
    match how {
        Use::Putstatic | Use::Putfield => !FieldFlags(flags).intersects(FieldFlags::FINAL),
        _ => true,
    }
}

/// What a constant resolves to, where that is known.
#[inline(always)]
fn known(rows: &[Row<FieldEntry>], class: usize, index: u16) -> Option<Result<FieldUse, LinkError>>
    ensures { (world : World) → AreRows (IsEntry world) rows.now → IfSome result (IsFound world class index) }
{
    match entry_in(rows, class, usize::from(index)) {
        Some(entry) => *entry,
        None => None,
    }
}

/// The field that a constant resolves to, where that is known and an instruction can use it in every method of the class.
#[inline(always)]
pub(crate) fn usable_at_once(
    rows: &[Row<FieldEntry>],
    class: usize,
    index: u16,
    how: Use,
) -> Option<FieldUse>
    ensures { (world : World) → AreRows (IsEntry world) rows.now → IfSome result (λ used. IsUsedAtOnce world class index how used) }
{
    if let Some(Ok(used)) = known(rows, class, index)
        && is_used_so(how, used.access_flags)
        && is_settable(how, used.access_flags)
    {
        return Some(used);
    }
    None
}

/// What a constant resolves to, by its names.
fn found_anew(
    table: &ClassTable<'_>,
    classes: &Classes<'_>,
    words: &[ClassWords],
    class: usize,
    index: u16,
) -> Result<FieldUse, LinkError>
    requires same { classes.now.world ≡ table.now }
    requires words { AreWords table.now words.now }
    requires class { class < length table.now }
    requires index { HoldsAtNumber table.now class (λ l. IsSome (field_operand l.class index)) }
    ensures { IsFound table.now class index result }
{
    match constants_field(classes, class, index) {
        Ok(place) => Ok(field_used(table, words, place)),
        Err(error) => Err(error),
    }
}

/// What a constant resolves to, by its names; its entry keeps it.
fn found_and_kept(
    rows: &mut [Row<FieldEntry>],
    table: &ClassTable<'_>,
    classes: &Classes<'_>,
    words: &[ClassWords],
    class: usize,
    index: u16,
) -> Result<FieldUse, LinkError>
    requires same { classes.now.world ≡ table.now }
    requires rows { AreRows (IsEntry table.now) rows.old }
    requires words { AreWords table.now words.now }
    requires class { class < length table.now }
    requires index { HoldsAtNumber table.now class (λ l. IsSome (field_operand l.class index)) }
    ensures found { IsFound table.now class index result }
    ensures rows { AreRows (IsEntry table.now) rows.new }
{
    let found = found_anew(table, classes, words, class, index);
    keep(rows, class, usize::from(index), None, Some(found));
    found
}

/// What a constant resolves to, by its entry, where that is there.
pub(crate) fn field_by(
    rows: &mut [Row<FieldEntry>],
    table: &ClassTable<'_>,
    classes: &Classes<'_>,
    words: &[ClassWords],
    class: usize,
    index: u16,
) -> Result<FieldUse, LinkError>
    requires same { classes.now.world ≡ table.now }
    requires rows { AreRows (IsEntry table.now) rows.old }
    requires words { AreWords table.now words.now }
    requires class { class < length table.now }
    requires index { HoldsAtNumber table.now class (λ l. IsSome (field_operand l.class index)) }
    ensures found { IsFound table.now class index result }
    ensures rows { AreRows (IsEntry table.now) rows.new }
{
    if let Some(found) = known(rows, class, index) {
        return found;
    }
    found_and_kept(rows, table, classes, words, class, index)
}

/// A field, where an instruction at a site can use it.
#[inline(always)]
fn used_at(
    table: &ClassTable<'_>,
    site: Site,
    how: Use,
    used: FieldUse,
) -> Result<FieldUse, LinkError>
    requires site { IsSite table.now site }
    requires used { IsFieldUse table.now used }
    ensures found { AnswersUsable table.now site how used.place (used_place result) }
    ensures used { IfOk result (IsFieldUse table.now) }
{
    match usable_with(table, site, how, used.place, used.access_flags) {
        Ok(_) => Ok(used),
        Err(error) => Err(error),
    }
}

/// What was found, as an instruction at a site uses it.
#[inline(always)]
pub(crate) fn used_field(
    table: &ClassTable<'_>,
    site: Site,
    how: Use,
    index: u16,
    found: Result<FieldUse, LinkError>,
) -> Result<FieldUse, LinkError>
    requires site { IsSite table.now site }
    requires found { IsFound table.now site.class index found }
    ensures found { IsFieldResolved table.now site how index (used_place result) }
    ensures used { IfOk result (IsFieldUse table.now) }
{
    // Only the clauses speak of it.
    let _index = index;
    match found {
        Ok(used) => used_at(table, site, how, used),
        Err(error) => Err(error),
    }
}
