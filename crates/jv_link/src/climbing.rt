//! The first method upward from a class that overrides another (JVMS 5.4.5).

ghost use Rattle.std.specs.Prelude.{◌≡◌, ◌<◌, Some, None, IfSome, length};
ghost use Rattle.jv_classes.specs.Ways.{IsBelowSize};
ghost use Rattle.jv_meaning_world.specs.World.{World};
ghost use Rattle.jv_meaning_world.specs.Numbers.{HoldsAtNumber};
ghost use Rattle.jv_lookups.specs.Places.{IsMethodPlace, HoldsAtCall, IsMethodFound};
ghost use Rattle.jv_loader.specs.Straight.{IsStraight};
ghost use Rattle.jv_meaning_typing.specs.Selection.{first_overriding};
ghost use Rattle.jv_link.specs.Inside.Called.{AreMarksAs};
ghost use Rattle.jv_link.specs.Inside.Climbing.{met_upward, run_of, is_opening, sure_behind, IsMet, IsMetPlace, Meeting, IsStraightAt, IsSureBehind, IsRunBehind};

use crate::alike::{is_instance, marks_as};
use crate::meeting::{Met, meets};
use jv_classes::KeyRow;
use jv_loader::{ClassTable, Place};
use jv_meaning_typing::overriding_upward;
use jv_meaning_world::{above_by_ways, above_is_transitive};

/// Whether what is met opens the methods further down.
fn is_opening(met: Met) -> bool
    ensures { (world : World) (m : Meeting) → IsMet world met m → result ≡ is_opening m }
{
    matches!(met, Met::Opens(_))
}

/// What is sure, where that is known, or else what was met now.
fn sure_behind(table: &ClassTable<'_>, sure: Option<Place>, met: Met) -> Option<Place>
    requires sure { IfSome sure (IsMethodPlace table.now) }
    requires met { IsMetPlace table.now met }
    ensures found { IsSureBehind table.now met sure result }
    ensures place { IfSome result (IsMethodPlace table.now) }
{
    // Only the clauses speak of it.
    let _table = table;
    match (sure, met) {
        (None, Met::Sure(place)) => Some(place),
        _ => sure,
    }
}

/// What is run where a method waits for another further up that opens it.
fn settle(
    table: &ClassTable<'_>,
    marks: &KeyRow<'_>,
    first: Option<usize>,
    called: Place,
    waits: Place,
) -> Option<Place>
    requires first { IsBelowSize (length table.now) first }
    requires straight { IsStraightAt table.now first }
    requires called { IsMethodPlace table.now called }
    requires waits { IsMethodPlace table.now waits }
    requires marks { AreMarksAs table.now called marks.now }
    ensures found { IsRunBehind table.now called waits first result }
    ensures place { IfSome result (IsMethodPlace table.now) }
{
    above_by_ways();
    above_is_transitive();
    let mut sure = None;
    let mut next = first;
    while let Some(class) = next {
        let met = meets(table, marks, class, called);
        if is_opening(met) {
            return Some(waits);
        }
        sure = sure_behind(table, sure, met);
        next = table.super_of(class);
    }
    sure
}

/// What is run of what is met on the way up from a class.
fn climb(table: &ClassTable<'_>, from: usize, called: Place) -> Option<Place>
    requires from { from < length table.now }
    requires straight { HoldsAtNumber table.now from (IsStraight table.now) }
    requires called { IsMethodPlace table.now called }
    ensures found { HoldsAtCall table.now called from (λ l e. IsMethodFound table.now result (run_of (met_upward table.now e (Some l)))) }
    ensures place { IfSome result (IsMethodPlace table.now) }
{
    above_by_ways();
    above_is_transitive();
    let marks = marks_as(table, called);
    let mut next = Some(from);
    while let Some(class) = next {
        match meets(table, &marks, class, called) {
            Met::Nothing => {}
            Met::Far(place) => {
                return settle(table, &marks, table.super_of(class), called, place);
            }
            Met::Sure(place) => return Some(place),
            Met::Opens(place) => return Some(place),
        }
        next = table.super_of(class);
    }
    None
}

/// The first method upward from a class that overrides another, or that method itself (JVMS 5.4.5). It
/// costs a mark for each class on the way, and a look at those that may declare such a method.
pub(crate) fn first_overriding(table: &ClassTable<'_>, from: usize, called: Place) -> Option<Place>
    requires from { from < length table.now }
    requires straight { HoldsAtNumber table.now from (IsStraight table.now) }
    requires called { IsMethodPlace table.now called }
    ensures found { HoldsAtCall table.now called from (λ l e. IsMethodFound table.now result (first_overriding table.now e l)) }
    ensures place { IfSome result (IsMethodPlace table.now) }
{
    above_by_ways();
    above_is_transitive();
    overriding_upward();
    if !is_instance(table, called) {
        return None;
    }
    climb(table, from, called)
}
