//! The first method of a name and a descriptor, upward from a class.

ghost use Rattle.std.specs.Prelude.{◌<◌, Some, IfSome, length};
ghost use Rattle.jv_meaning_world.specs.Overriding.{alike_in};
ghost use Rattle.jv_lookups.specs.Places.{IsMethodPlace, HoldsAtCall, IsMethodFound};
ghost use Rattle.jv_meaning_typing.specs.Selection.{first_alike};
ghost use Rattle.jv_link.specs.Inside.Called.{IsAlikeAbove};

use crate::alike::{alike_in, marked_alike, marks_as};
use jv_loader::{ClassTable, Place};

/// The first such method that a superclass of a class declares.
fn superclass_alike(table: &ClassTable<'_>, from: usize, called: Place) -> Option<Place>
    requires from { from < length table.now }
    requires called { IsMethodPlace table.now called }
    ensures found { IsAlikeAbove table.now called from result }
    ensures place { IfSome result (IsMethodPlace table.now) }
{
    let marks = marks_as(table, called);
    for superclass in table.superclasses(from) {
        if let Some(place) = marked_alike(table, &marks, *superclass as usize, called) {
            return Some(place);
        }
    }
    None
}

/// The first instance method upward from a class with the name and the descriptor of another.
pub(crate) fn first_alike(table: &ClassTable<'_>, from: usize, called: Place) -> Option<Place>
    requires from { from < length table.now }
    requires called { IsMethodPlace table.now called }
    ensures found { HoldsAtCall table.now called from (λ l e. IsMethodFound table.now result (first_alike table.now e.method l)) }
    ensures place { IfSome result (IsMethodPlace table.now) }
{
    if let Some(place) = alike_in(table, from, called) {
        return Some(place);
    }
    superclass_alike(table, from, called)
}
