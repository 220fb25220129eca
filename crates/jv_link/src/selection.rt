//! Which method a call runs (JVMS 6.5).

ghost use Rattle.std.specs.Prelude.{◌≡◌, ◌<◌, Some, IfOk, length, slice_get};
ghost use Rattle.jv_meaning_world.specs.Numbers.{HoldsAtNumber};
ghost use Rattle.jv_lookups.specs.Places.{IsMethodPlace, HoldsAtCall};
ghost use Rattle.jv_loader.specs.Straight.{AreStraight, IsStraight};
ghost use Rattle.jv_meaning_typing.specs.Selection.{object_class, implements, select_virtual, select_interface, selected, select};
ghost use Rattle.jv_link.specs.Seen.{answer_at, IsSite, IsMethodTarget};
ghost use Rattle.jv_link.specs.Objects.{object_class_at, IsObject};
ghost use Rattle.jv_link.specs.Inside.Called.{virtual_of, interface_of, AnswersInterface, AnswersCall, AnswersVirtual};
ghost use Rattle.jv_link.specs.Answers.{AnswersMethod, IsSelected};

use crate::chain::first_alike;
use crate::climbing::first_overriding;
use crate::ending::{found_or_default, public_or_default};
use crate::error::LinkError;
use crate::member::class_at;
use crate::site::{Site, Use};
use crate::special::select_special;
use crate::target::MethodTarget;
use jv_loader::{ClassTable, Classes, Place};

/// The class whose methods an object has: its own, or java/lang/Object for an array.
fn object_class(table: &ClassTable<'_>, object: Option<usize>) -> Result<usize, LinkError>
    requires straight { AreStraight table.now }
    requires object { IsObject table.now object }
    ensures found { answer_at (slice_get table.now) result ≡ Some (object_class table.now (object_class_at table.now object)) }
    ensures within { IfOk result (λ class. class < length table.now) }
    ensures straight { IfOk result (λ class. HoldsAtNumber table.now class (IsStraight table.now)) }
{
    match object {
        Some(class) => Ok(class),
        None => match table.find(b"java/lang/Object") {
            Some(class) => Ok(class),
            None => Err(LinkError::AbstractMethodError),
        },
    }
}

/// What invokevirtual runs on an object of a class.
fn select_virtual(
    table: &ClassTable<'_>,
    classes: &Classes<'_>,
    class: usize,
    called: Place,
) -> Result<Place, LinkError>
    requires same { classes.now.world ≡ table.now }
    requires class { class < length table.now }
    requires straight { HoldsAtNumber table.now class (IsStraight table.now) }
    requires called { IsMethodPlace table.now called }
    ensures found { HoldsAtCall table.now called class (λ l e. AnswersMethod table.now result (select_virtual table.now e l)) }
    ensures place { IfOk result (IsMethodPlace table.now) }
{
    let found = first_overriding(table, class, called);
    found_or_default(table, classes, class, called, found)
}

/// What invokeinterface runs on an object of a class that implements the interface.
fn select_interface(
    table: &ClassTable<'_>,
    classes: &Classes<'_>,
    class: usize,
    called: Place,
) -> Result<Place, LinkError>
    requires same { classes.now.world ≡ table.now }
    requires class { class < length table.now }
    requires called { IsMethodPlace table.now called }
    ensures found { HoldsAtCall table.now called class (λ l e. AnswersMethod table.now result (select_interface table.now e.method l)) }
    ensures place { IfOk result (IsMethodPlace table.now) }
{
    let found = first_alike(table, class, called);
    public_or_default(table, classes, class, called, found)
}

/// Whether an object implements an interface: arrays implement two.
fn implements(table: &ClassTable<'_>, object: Option<usize>, interface: usize) -> bool
    requires object { IsObject table.now object }
    requires interface { interface < length table.now }
    ensures { HoldsAtNumber table.now interface (λ i. result ≡ implements table.now (object_class_at table.now object) i) }
{
    match object {
        Some(class) => table.is_above(interface, class),
        None => {
            let name = class_at(table, interface).name();
            name == b"java/lang/Cloneable".as_slice() || name == b"java/io/Serializable".as_slice()
        }
    }
}

/// What invokevirtual runs.
fn virtual_of(
    table: &ClassTable<'_>,
    classes: &Classes<'_>,
    object: Option<usize>,
    called: Place,
) -> Result<Place, LinkError>
    requires same { classes.now.world ≡ table.now }
    requires straight { AreStraight table.now }
    requires object { IsObject table.now object }
    requires called { IsMethodPlace table.now called }
    ensures found { AnswersVirtual table.now called object result }
    ensures place { IfOk result (IsMethodPlace table.now) }
{
    match object_class(table, object) {
        Ok(class) => select_virtual(table, classes, class, called),
        Err(error) => Err(error),
    }
}

/// What invokeinterface runs.
fn interface_of(
    table: &ClassTable<'_>,
    classes: &Classes<'_>,
    object: Option<usize>,
    target: &MethodTarget,
) -> Result<Place, LinkError>
    requires same { classes.now.world ≡ table.now }
    requires straight { AreStraight table.now }
    requires object { IsObject table.now object }
    requires target { IsMethodTarget table.now target.now }
    ensures found { AnswersInterface table.now target.now object result }
    ensures place { IfOk result (IsMethodPlace table.now) }
{
    if !implements(table, object, target.named) {
        return Err(LinkError::IncompatibleClassChangeError);
    }
    match object_class(table, object) {
        Ok(class) => select_interface(table, classes, class, target.declared),
        Err(error) => Err(error),
    }
}

/// The method that a call runs.
fn selected(
    table: &ClassTable<'_>,
    classes: &Classes<'_>,
    current: usize,
    how: Use,
    target: &MethodTarget,
    object: Option<usize>,
) -> Result<Place, LinkError>
    requires same { classes.now.world ≡ table.now }
    requires straight { AreStraight table.now }
    requires current { current < length table.now }
    requires target { IsMethodTarget table.now target.now }
    requires object { IsObject table.now object }
    ensures found { AnswersCall table.now current how target.now object result }
    ensures place { IfOk result (IsMethodPlace table.now) }
{
    match how {
        Use::Invokevirtual => virtual_of(table, classes, object, target.declared),
        Use::Invokeinterface => interface_of(table, classes, object, target),
        Use::Invokespecial => select_special(table, classes, current, target),
        _ => Ok(target.declared),
    }
}

/// The same with the class that the constant names.
fn select_in(
    table: &ClassTable<'_>,
    classes: &Classes<'_>,
    site: Site,
    how: Use,
    target: &MethodTarget,
    object: Option<usize>,
) -> Result<MethodTarget, LinkError>
    requires same { classes.now.world ≡ table.now }
    requires straight { AreStraight table.now }
    requires site { IsSite table.now site }
    requires target { IsMethodTarget table.now target.now }
    requires object { IsObject table.now object }
    ensures found { IsSelected table.now site how target.now object result }
    ensures target { IfOk result (IsMethodTarget table.now) }
{
    match selected(table, classes, site.class, how, target, object) {
        Ok(declared) => Ok(MethodTarget {
            named: target.named,
            declared,
        }),
        Err(error) => Err(error),
    }
}

/// The method that a call at a site runs (JVMS 6.5), of the target that was resolved for the same
/// instruction, and the number of the class of the object, which is loadable, `None` for an array's; the
/// object is known not to be null. invokespecial doesn't look at the object, and invokestatic has none. The
/// class that the constant names is handed on.
///
/// # Errors
///
/// As JVMS 6.5 has them.
pub fn select(
    classes: &Classes<'_>,
    site: Site,
    how: Use,
    target: &MethodTarget,
    object: Option<usize>,
) -> Result<MethodTarget, LinkError>
    requires site { IsSite classes.now.world site }
    requires target { IsMethodTarget classes.now.world target.now }
    requires object { IsObject classes.now.world object }
    ensures found { IsSelected classes.now.world site how target.now object result }
    ensures target { IfOk result (IsMethodTarget classes.now.world) }
{
    classes.are_straight();
    select_in(classes.table(), classes, site, how, target, object)
}
