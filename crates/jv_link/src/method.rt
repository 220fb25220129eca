//! Resolution of methods (JVMS 5.4.3.3, 5.4.3.4).

ghost use Rattle.std.specs.Prelude.{◌≡◌, ◌<◌, Some, IsSome, IfOk, length};
ghost use Rattle.jv_pool.specs.Seen.{seen_member};
ghost use Rattle.jv_meaning_world.specs.Numbers.{HoldsAtNumber};
ghost use Rattle.jv_lookups.specs.Places.{method_at, IsMethodPlace};
ghost use Rattle.jv_meaning_typing.specs.Operands.{method_operand};
ghost use Rattle.jv_meaning_typing.specs.MethodResolution.{names_its_kind, method_from, resolved_method, resolve_method};
ghost use Rattle.jv_link.specs.Seen.{IsSite, IsMethodTarget};
ghost use Rattle.jv_link.specs.Inside.References.{constant_of, reference_of};
ghost use Rattle.jv_link.specs.Inside.Steps.{looked_up, accessible_method, AnswersAccessibleMethod, AnswersMethodFrom};
ghost use Rattle.jv_link.specs.Answers.{IsConstantsMethod, IsMethodResolved, AnswersMethodOf, AnswersTargetOf};

use crate::access::can_access;
use crate::class::named_class;
use crate::error::LinkError;
use crate::kind::callable_method;
use crate::member::{class_at, method_at};
use crate::reference::{MethodName, method_name};
use crate::site::{Site, Use};
use crate::target::MethodTarget;
use jv_loader::{ClassTable, Classes, Place};
use jv_pool::MemberName;

/// Whether a constant names a class of its kind: an InterfaceMethodref an interface, a Methodref none.
fn names_its_kind(table: &ClassTable<'_>, of_interface: bool, named: usize) -> bool
    requires { named < length table.now }
    ensures { HoldsAtNumber table.now named (λ n. result ≡ names_its_kind (constant_of of_interface) n) }
{
    let is_interface = class_at(table, named).is_interface();
    if of_interface {
        is_interface
    } else {
        !is_interface
    }
}

/// The method that is looked up from the class or the interface that is named.
fn found_method(
    classes: &Classes<'_>,
    named: usize,
    reference: &MemberName<'_>,
) -> Result<Place, LinkError>
    requires { named < length classes.now.world }
    ensures found { AnswersMethodOf classes.now.world named result (λ n. looked_up classes.now.world n (seen_member reference.now)) }
    ensures place { IfOk result (IsMethodPlace classes.now.world) }
{
    match classes.lookup_method(named, reference.name, reference.descriptor) {
        Some(place) => Ok(place),
        None => Err(LinkError::NoSuchMethodError),
    }
}

/// A method, where the current class can access it (JVMS 5.4.4).
fn accessible_method(
    table: &ClassTable<'_>,
    current: usize,
    named: usize,
    place: Place,
) -> Result<MethodTarget, LinkError>
    requires current { current < length table.now }
    requires named { named < length table.now }
    requires place { IsMethodPlace table.now place }
    ensures found { AnswersAccessibleMethod table.now current named place result }
    ensures target { IfOk result (IsMethodTarget table.now) }
{
    let flags = method_at(table, place).access_flags;
    if can_access(table, current, named, place.class, flags) {
        Ok(MethodTarget {
            named,
            declared: place,
        })
    } else {
        Err(LinkError::IllegalAccessError)
    }
}

/// The method that is looked up from the class that is named, where the constant is of its kind and the
/// current class can access the method.
fn method_from(
    table: &ClassTable<'_>,
    classes: &Classes<'_>,
    current: usize,
    named: usize,
    reference: &MethodName<'_>,
) -> Result<MethodTarget, LinkError>
    requires same { classes.now.world ≡ table.now }
    requires current { current < length table.now }
    requires named { named < length table.now }
    ensures found { AnswersMethodFrom table.now current named reference.now result }
    ensures target { IfOk result (IsMethodTarget table.now) }
{
    if !names_its_kind(table, reference.of_interface, named) {
        return Err(LinkError::IncompatibleClassChangeError);
    }
    match found_method(classes, named, &reference.member) {
        Ok(place) => accessible_method(table, current, named, place),
        Err(error) => Err(error),
    }
}

/// The method that a reference resolves to.
fn resolved_method(
    table: &ClassTable<'_>,
    classes: &Classes<'_>,
    current: usize,
    reference: &MethodName<'_>,
) -> Result<MethodTarget, LinkError>
    requires same { classes.now.world ≡ table.now }
    requires current { current < length table.now }
    ensures found { AnswersTargetOf table.now current result (λ c. resolved_method table.now c (reference_of reference.now)) }
    ensures target { IfOk result (IsMethodTarget table.now) }
{
    match named_class(
        table,
        current,
        reference.member.class,
        LinkError::NoSuchMethodError,
    ) {
        Ok(named) => method_from(table, classes, current, named, reference),
        Err(error) => Err(error),
    }
}

/// The method that a constant of a class resolves to.
fn resolved_in(
    table: &ClassTable<'_>,
    classes: &Classes<'_>,
    class: usize,
    index: u16,
) -> Result<MethodTarget, LinkError>
    requires same { classes.now.world ≡ table.now }
    requires class { class < length table.now }
    requires index { HoldsAtNumber table.now class (λ l. IsSome (method_operand l.class index)) }
    ensures found { IsConstantsMethod table.now class index result }
    ensures target { IfOk result (IsMethodTarget table.now) }
{
    let reference = method_name(table, class, index);
    resolved_method(table, classes, class, &reference)
}

/// The method that an instruction calls, by its constant's index.
fn resolve_in(
    table: &ClassTable<'_>,
    classes: &Classes<'_>,
    site: Site,
    how: Use,
    index: u16,
) -> Result<MethodTarget, LinkError>
    requires same { classes.now.world ≡ table.now }
    requires site { IsSite table.now site }
    requires index { HoldsAtNumber table.now site.class (λ l. IsSome (method_operand l.class index)) }
    ensures found { IsMethodResolved table.now site how index result }
    ensures target { IfOk result (IsMethodTarget table.now) }
{
    match resolved_in(table, classes, site.class, index) {
        Ok(target) => callable_method(table, how, target),
        Err(error) => Err(error),
    }
}

/// The method that the Methodref or InterfaceMethodref constant at an index of a class resolves to, whatever
/// instruction calls it (JVMS 5.4.3.3, 5.4.3.4, 5.4.4): it is the same for all methods of the class. It costs as
/// much as [`resolve_method`].
///
/// # Errors
///
/// As JVMS 5.4.3.3 and 5.4.3.4 have them.
pub fn constants_method(
    classes: &Classes<'_>,
    class: usize,
    index: u16,
) -> Result<MethodTarget, LinkError>
    requires class { class < length classes.now.world }
    requires index { HoldsAtNumber classes.now.world class (λ l. IsSome (method_operand l.class index)) }
    ensures found { IsConstantsMethod classes.now.world class index result }
    ensures target { IfOk result (IsMethodTarget classes.now.world) }
{
    resolved_in(classes.table(), classes, class, index)
}

/// The method that the Methodref or InterfaceMethodref constant at an index resolves to at a site, for an
/// instruction (JVMS 5.4.3.3, 5.4.3.4, 5.4.4, 6.5): errors of its class come first, then a constant of the
/// other kind, a method that is not there, access, an `<init>` of another class, and kind. It takes no
/// memory.
///
/// # Errors
///
/// As JVMS 5.4.3.3, 5.4.3.4 and 6.5 have them.
pub fn resolve_method(
    classes: &Classes<'_>,
    site: Site,
    how: Use,
    index: u16,
) -> Result<MethodTarget, LinkError>
    requires site { IsSite classes.now.world site }
    requires index { HoldsAtNumber classes.now.world site.class (λ l. IsSome (method_operand l.class index)) }
    ensures found { IsMethodResolved classes.now.world site how index result }
    ensures target { IfOk result (IsMethodTarget classes.now.world) }
{
    resolve_in(classes.table(), classes, site, how, index)
}
