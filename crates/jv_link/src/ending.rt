//! What a call runs where a method was found, or none.

ghost use Rattle.std.specs.Prelude.{◌≡◌, ◌<◌, Some, IfOk, IfSome, length};
ghost use Rattle.jv_meaning_world.specs.Overriding.{Declared};
ghost use Rattle.jv_lookups.specs.Places.{method_at, IsMethodPlace};
ghost use Rattle.jv_meaning_typing.specs.Selection.{superinterface_default, not_abstract, found_or_default, public_or_default};
ghost use Rattle.jv_link.specs.Seen.{answer_at};
ghost use Rattle.jv_link.specs.Inside.Called.{public_one, RunsFound, RunsPublic, RunsDefault};

use crate::alike::{is_concrete, is_public};
use crate::error::LinkError;
use crate::member::method_at;
use jv_loader::{ClassTable, Classes, Defaults, Place};

/// A method that is not abstract.
fn not_abstract(table: &ClassTable<'_>, place: Place) -> Result<Place, LinkError>
    requires { IsMethodPlace table.now place }
    ensures found { (d : Declared) → method_at table.now place ≡ Some d → answer_at (method_at table.now) result ≡ Some (not_abstract d) }
    ensures place { IfOk result (IsMethodPlace table.now) }
{
    if is_concrete(table, place) {
        Ok(place)
    } else {
        Err(LinkError::AbstractMethodError)
    }
}

/// A method that is public and, which is asked then, not abstract.
fn public_one(table: &ClassTable<'_>, place: Place) -> Result<Place, LinkError>
    requires { IsMethodPlace table.now place }
    ensures found { (d : Declared) → method_at table.now place ≡ Some d → answer_at (method_at table.now) result ≡ Some (public_one d) }
    ensures place { IfOk result (IsMethodPlace table.now) }
{
    if !is_public(table, place) {
        return Err(LinkError::IllegalAccessError);
    }
    not_abstract(table, place)
}

/// The one default of a class's superinterfaces with the name and the descriptor of a method.
fn superinterface_default(
    table: &ClassTable<'_>,
    classes: &Classes<'_>,
    class: usize,
    called: Place,
) -> Result<Place, LinkError>
    requires same { classes.now.world ≡ table.now }
    requires class { class < length table.now }
    requires called { IsMethodPlace table.now called }
    ensures found { RunsDefault table.now called class result }
    ensures place { IfOk result (IsMethodPlace table.now) }
{
    let called = method_at(table, called);
    match classes.superinterface_defaults(class, called.name, called.descriptor) {
        Defaults::Absent => Err(LinkError::AbstractMethodError),
        Defaults::One(place) => Ok(place),
        Defaults::Several => Err(LinkError::IncompatibleClassChangeError),
    }
}

/// What was found, where it is not abstract, or else the one default.
pub(crate) fn found_or_default(
    table: &ClassTable<'_>,
    classes: &Classes<'_>,
    class: usize,
    called: Place,
    found: Option<Place>,
) -> Result<Place, LinkError>
    requires same { classes.now.world ≡ table.now }
    requires class { class < length table.now }
    requires called { IsMethodPlace table.now called }
    requires found { IfSome found (IsMethodPlace table.now) }
    ensures found { RunsFound table.now called class found result }
    ensures place { IfOk result (IsMethodPlace table.now) }
{
    match found {
        Some(place) => not_abstract(table, place),
        None => superinterface_default(table, classes, class, called),
    }
}

/// What was found, where it is public and not abstract, or else the one default.
pub(crate) fn public_or_default(
    table: &ClassTable<'_>,
    classes: &Classes<'_>,
    class: usize,
    called: Place,
    found: Option<Place>,
) -> Result<Place, LinkError>
    requires same { classes.now.world ≡ table.now }
    requires class { class < length table.now }
    requires called { IsMethodPlace table.now called }
    requires found { IfSome found (IsMethodPlace table.now) }
    ensures found { RunsPublic table.now called class found result }
    ensures place { IfOk result (IsMethodPlace table.now) }
{
    match found {
        Some(place) => public_one(table, place),
        None => superinterface_default(table, classes, class, called),
    }
}
