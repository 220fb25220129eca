//! Resolution of fields (JVMS 5.4.3.2).

ghost use Rattle.std.specs.Prelude.{◌≡◌, ◌<◌, Some, IsSome, IfOk, length};
ghost use Rattle.jv_pool.specs.Seen.{seen_member};
ghost use Rattle.jv_meaning_world.specs.Numbers.{HoldsAtNumber, HoldsAtBoth};
ghost use Rattle.jv_lookups.specs.Places.{field_at, IsFieldPlace};
ghost use Rattle.jv_meaning_typing.specs.Operands.{field_operand};
ghost use Rattle.jv_meaning_typing.specs.FieldResolution.{found_field, field_from, resolved_field, resolve_field};
ghost use Rattle.jv_link.specs.Seen.{IsSite};
ghost use Rattle.jv_link.specs.Inside.Steps.{accessible_field, AnswersAccessibleField, field_by};
ghost use Rattle.jv_link.specs.Answers.{AnswersField, IsConstantsField, IsFieldResolved, AnswersFieldOf};

use crate::access::can_access;
use crate::class::named_class;
use crate::error::LinkError;
use crate::kind::usable_field;
use crate::member::field_at;
use crate::reference::field_name;
use crate::site::{Site, Use};
use jv_loader::{ClassTable, Classes, Place};
use jv_pool::MemberName;

/// The field that is looked up from the class that is named.
fn found_field(
    classes: &Classes<'_>,
    named: usize,
    reference: &MemberName<'_>,
) -> Result<Place, LinkError>
    requires { named < length classes.now.world }
    ensures found { AnswersFieldOf classes.now.world named result (λ n. found_field classes.now.world n (seen_member reference.now)) }
    ensures place { IfOk result (IsFieldPlace classes.now.world) }
{
    match classes.lookup_field(named, reference.name, reference.descriptor) {
        Some(place) => Ok(place),
        None => Err(LinkError::NoSuchFieldError),
    }
}

/// A field, where the current class can access it (JVMS 5.4.4).
fn accessible_field(
    table: &ClassTable<'_>,
    current: usize,
    named: usize,
    place: Place,
) -> Result<Place, LinkError>
    requires current { current < length table.now }
    requires named { named < length table.now }
    requires place { IsFieldPlace table.now place }
    ensures found { AnswersAccessibleField table.now current named place result }
    ensures place { IfOk result (IsFieldPlace table.now) }
{
    let flags = field_at(table, place).access_flags;
    if can_access(table, current, named, place.class, flags) {
        Ok(place)
    } else {
        Err(LinkError::IllegalAccessError)
    }
}

/// The field that is looked up from the class that is named, where the current class can access it.
fn field_from(
    table: &ClassTable<'_>,
    classes: &Classes<'_>,
    current: usize,
    named: usize,
    reference: &MemberName<'_>,
) -> Result<Place, LinkError>
    requires same { classes.now.world ≡ table.now }
    requires current { current < length table.now }
    requires named { named < length table.now }
    ensures found { HoldsAtBoth table.now current named (λ c n. AnswersField table.now result (field_by table.now reference.now c n)) }
    ensures place { IfOk result (IsFieldPlace table.now) }
{
    match found_field(classes, named, reference) {
        Ok(place) => accessible_field(table, current, named, place),
        Err(error) => Err(error),
    }
}

/// The field that a reference resolves to.
fn resolved_field(
    table: &ClassTable<'_>,
    classes: &Classes<'_>,
    current: usize,
    reference: &MemberName<'_>,
) -> Result<Place, LinkError>
    requires same { classes.now.world ≡ table.now }
    requires current { current < length table.now }
    ensures found { AnswersFieldOf table.now current result (λ c. resolved_field table.now c (seen_member reference.now)) }
    ensures place { IfOk result (IsFieldPlace table.now) }
{
    match named_class(table, current, reference.class, LinkError::NoSuchFieldError) {
        Ok(named) => field_from(table, classes, current, named, reference),
        Err(error) => Err(error),
    }
}

/// The field that a constant of a class resolves to.
fn resolved_in(
    table: &ClassTable<'_>,
    classes: &Classes<'_>,
    class: usize,
    index: u16,
) -> Result<Place, LinkError>
    requires same { classes.now.world ≡ table.now }
    requires class { class < length table.now }
    requires index { HoldsAtNumber table.now class (λ l. IsSome (field_operand l.class index)) }
    ensures found { IsConstantsField table.now class index result }
    ensures place { IfOk result (IsFieldPlace table.now) }
{
    let reference = field_name(table, class, index);
    resolved_field(table, classes, class, &reference)
}

/// The field that an instruction uses, by its constant's index.
fn resolve_in(
    table: &ClassTable<'_>,
    classes: &Classes<'_>,
    site: Site,
    how: Use,
    index: u16,
) -> Result<Place, LinkError>
    requires same { classes.now.world ≡ table.now }
    requires site { IsSite table.now site }
    requires index { HoldsAtNumber table.now site.class (λ l. IsSome (field_operand l.class index)) }
    ensures found { IsFieldResolved table.now site how index result }
    ensures place { IfOk result (IsFieldPlace table.now) }
{
    match resolved_in(table, classes, site.class, index) {
        Ok(place) => usable_field(table, site, how, place),
        Err(error) => Err(error),
    }
}

/// The field that the Fieldref constant at an index of a class resolves to, whatever instruction uses it (JVMS
/// 5.4.3.2, 5.4.4): it is the same for all methods of the class. It costs as much as [`resolve_field`].
///
/// # Errors
///
/// As JVMS 5.4.3.2 has them.
pub fn constants_field(classes: &Classes<'_>, class: usize, index: u16) -> Result<Place, LinkError>
    requires class { class < length classes.now.world }
    requires index { HoldsAtNumber classes.now.world class (λ l. IsSome (field_operand l.class index)) }
    ensures found { IsConstantsField classes.now.world class index result }
    ensures place { IfOk result (IsFieldPlace classes.now.world) }
{
    resolved_in(classes.table(), classes, class, index)
}

/// The field that the Fieldref constant at an index resolves to at a site, for an instruction (JVMS
/// 5.4.3.2, 5.4.4, 6.5): errors of its class come first, then a field that is not there, access, kind, and
/// a final field that the instruction can't set. It costs one hash of a name, and one for each class that
/// the search for the field meets.
///
/// # Errors
///
/// As JVMS 5.4.3.2 and 6.5 have them.
pub fn resolve_field(
    classes: &Classes<'_>,
    site: Site,
    how: Use,
    index: u16,
) -> Result<Place, LinkError>
    requires site { IsSite classes.now.world site }
    requires index { HoldsAtNumber classes.now.world site.class (λ l. IsSome (field_operand l.class index)) }
    ensures found { IsFieldResolved classes.now.world site how index result }
    ensures place { IfOk result (IsFieldPlace classes.now.world) }
{
    resolve_in(classes.table(), classes, site, how, index)
}
