//! What invokespecial runs (JVMS 6.5).

ghost use Rattle.std.specs.Prelude.{◌≡◌, ◌<◌, Some, IfOk, IfSome, length, slice_get};
ghost use Rattle.jv_meaning_world.specs.Numbers.{HoldsAtNumber, HoldsAtBoth};
ghost use Rattle.jv_lookups.specs.Places.{method_at, IsMethodPlace, HoldsAtCall, IsMethodFound};
ghost use Rattle.jv_meaning_typing.specs.Selection.{begins_above, special_start, interface_first, special_first, select_from, select_special};
ghost use Rattle.jv_link.specs.Seen.{IsMethodTarget};
ghost use Rattle.jv_link.specs.Answers.{AnswersMethod};
ghost use Rattle.jv_link.specs.Inside.Called.{AnswersSpecial};

use crate::alike::alike_in;
use crate::chain::first_alike;
use crate::ending::found_or_default;
use crate::error::LinkError;
use crate::member::{class_at, method_at};
use crate::target::MethodTarget;
use jv_loader::{ClassTable, Classes, Place};
use jv_lookups::method_of_object;
use jv_text::is_init;

/// Whether the search begins at the direct superclass of the current class: the named class is a superclass
/// of it.
fn begins_above(table: &ClassTable<'_>, current: usize, named: usize) -> bool
    requires current { current < length table.now }
    requires named { named < length table.now }
    ensures { HoldsAtNumber table.now current (λ c. HoldsAtNumber table.now named (λ n. result ≡ begins_above table.now c n)) }
{
    !class_at(table, named).is_interface() && table.is_superclass(named, current)
}

/// Where the search begins.
fn special_start(table: &ClassTable<'_>, current: usize, named: usize) -> usize
    requires current { current < length table.now }
    requires named { named < length table.now }
    ensures start { HoldsAtBoth table.now current named (λ c n. slice_get table.now result ≡ Some (special_start table.now c n)) }
    ensures within { result < length table.now }
{
    if !begins_above(table, current, named) {
        return named;
    }
    match table.super_of(current) {
        Some(superclass) => superclass,
        None => named,
    }
}

/// The first method from an interface: its own, or else a public one of java/lang/Object.
fn interface_first(table: &ClassTable<'_>, start: usize, called: Place) -> Option<Place>
    requires start { start < length table.now }
    requires called { IsMethodPlace table.now called }
    ensures found { HoldsAtCall table.now called start (λ l e. IsMethodFound table.now result (interface_first table.now e.method l)) }
    ensures place { IfSome result (IsMethodPlace table.now) }
{
    if let Some(place) = alike_in(table, start, called) {
        return Some(place);
    }
    let called = method_at(table, called);
    method_of_object(table, called.name, called.descriptor)
}

/// The first method from a class or an interface.
fn special_first(table: &ClassTable<'_>, start: usize, called: Place) -> Option<Place>
    requires start { start < length table.now }
    requires called { IsMethodPlace table.now called }
    ensures found { HoldsAtCall table.now called start (λ l e. IsMethodFound table.now result (special_first table.now e.method l)) }
    ensures place { IfSome result (IsMethodPlace table.now) }
{
    if class_at(table, start).is_interface() {
        interface_first(table, start, called)
    } else {
        first_alike(table, start, called)
    }
}

/// What is run from a class or an interface on.
fn select_from(
    table: &ClassTable<'_>,
    classes: &Classes<'_>,
    start: usize,
    called: Place,
) -> Result<Place, LinkError>
    requires same { classes.now.world ≡ table.now }
    requires start { start < length table.now }
    requires called { IsMethodPlace table.now called }
    ensures found { HoldsAtCall table.now called start (λ l e. AnswersMethod table.now result (select_from table.now e.method l)) }
    ensures place { IfOk result (IsMethodPlace table.now) }
{
    let found = special_first(table, start, called);
    found_or_default(table, classes, start, called, found)
}

/// What invokespecial runs: an `<init>` itself, and of other methods what is found from where the search
/// begins.
pub(crate) fn select_special(
    table: &ClassTable<'_>,
    classes: &Classes<'_>,
    current: usize,
    target: &MethodTarget,
) -> Result<Place, LinkError>
    requires same { classes.now.world ≡ table.now }
    requires current { current < length table.now }
    requires target { IsMethodTarget table.now target.now }
    ensures found { AnswersSpecial table.now current target.now result }
    ensures place { IfOk result (IsMethodPlace table.now) }
{
    if is_init(method_at(table, target.declared).name) {
        return Ok(target.declared);
    }
    let start = special_start(table, current, target.named);
    select_from(table, classes, start, target.declared)
}
