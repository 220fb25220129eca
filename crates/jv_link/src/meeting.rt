//! What a class on the way up has for a call.

ghost use Rattle.std.specs.Prelude.{◌≡◌, ◌<◌, Some, length};
ghost use Rattle.jv_meaning_world.specs.Overriding.{Declared};
ghost use Rattle.jv_lookups.specs.Places.{method_at, IsMethodPlace, HoldsAtCall};
ghost use Rattle.jv_meaning_typing.specs.Inside.Upward.{is_near};
ghost use Rattle.jv_link.specs.Inside.Called.{AreMarksAs};
ghost use Rattle.jv_link.specs.Inside.Climbing.{met_below, meets, IsMet, IsMetPlace, IsMetBelow};

use crate::access::same_package;
use crate::alike::{alike_in, is_open, is_private};
use crate::class::same_class;
use jv_classes::KeyRow;
use jv_loader::{ClassTable, Place};

/// What a class on the way up has of the name and the descriptor of the method that is called (JVMS 5.4.5):
/// nothing that overrides it; a method that overrides it only where another further up overrides it and is
/// open; one that overrides it, or that method itself; or one that overrides it from its own package and is
/// open.
#[derive(Clone, Copy)]
pub(crate) enum Met {
    Nothing,
    Far(Place),
    Sure(Place),
    Opens(Place),
}

/// Whether a method is in the package of another that is not private.
fn is_near(table: &ClassTable<'_>, called: Place, place: Place) -> bool
    requires called { IsMethodPlace table.now called }
    requires place { IsMethodPlace table.now place }
    ensures { (e d : Declared) → method_at table.now called ≡ Some e → method_at table.now place ≡ Some d → result ≡ is_near e d }
{
    !is_private(table, called) && same_package(table, place.class, called.class)
}

/// What a method is for a call of a method of a class above.
fn met_below(table: &ClassTable<'_>, called: Place, place: Place) -> Met
    requires called { IsMethodPlace table.now called }
    requires place { IsMethodPlace table.now place }
    ensures met { IsMetBelow table.now called place result }
    ensures place { IsMetPlace table.now result }
{
    if is_private(table, place) {
        return Met::Nothing;
    }
    let is_near = is_near(table, called, place);
    if is_near && is_open(table, place) {
        return Met::Opens(place);
    }
    if is_near || is_open(table, called) {
        return Met::Sure(place);
    }
    Met::Far(place)
}

/// What a class has for a call, by the name and the descriptor.
fn meets_by_name(table: &ClassTable<'_>, class: usize, called: Place) -> Met
    requires class { class < length table.now }
    requires called { IsMethodPlace table.now called }
    ensures met { HoldsAtCall table.now called class (λ l e. IsMet table.now result (meets table.now e l)) }
    ensures place { IsMetPlace table.now result }
{
    let Some(place) = alike_in(table, class, called) else {
        return Met::Nothing;
    };
    if table.is_above(called.class, class) {
        return met_below(table, called, place);
    }
    if same_class(table, called.class, class) {
        return Met::Sure(place);
    }
    Met::Nothing
}

/// What a class has for a call; one that is not marked is not looked at.
#[inline(always)]
pub(crate) fn meets(table: &ClassTable<'_>, marks: &KeyRow<'_>, class: usize, called: Place) -> Met
    requires class { class < length table.now }
    requires called { IsMethodPlace table.now called }
    requires marks { AreMarksAs table.now called marks.now }
    ensures met { HoldsAtCall table.now called class (λ l e. IsMet table.now result (meets table.now e l)) }
    ensures place { IsMetPlace table.now result }
{
    if !marks.is_marked(class) {
        return Met::Nothing;
    }
    meets_by_name(table, class, called)
}
