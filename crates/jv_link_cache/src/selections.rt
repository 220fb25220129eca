//! Which methods calls run (JVMS 6.5), once they were asked.

ghost use Rattle.std.specs.Prelude.{◌≡◌, true, IfOk};
ghost use Rattle.jv_link.specs.Seen.{IsSite, IsMethodTarget};
ghost use Rattle.jv_link.specs.Objects.{IsObject};
ghost use Rattle.jv_link.specs.Answers.{IsSelected};
ghost use Rattle.jv_link_cache.specs.Inside.Selections.{Knows, Keeps, IsFor, AreSelections};

use crate::places::SELECTIONS_IN_ROW;
use crate::rows::{Row, entry_in, keep};
use jv_link::{LinkError, MethodTarget, Site, Use, select};
use jv_loader::{Classes, Place};

/// A call of a target on an object, by the number of its class, `None` for an array, and the method that it runs. Where an
/// instruction asks it, the number of the current class; else any.
#[derive(Clone, Copy)]
pub(crate) struct Selection {
    pub(crate) class: usize,
    pub(crate) target: MethodTarget,
    pub(crate) object: Option<usize>,
    pub(crate) found: Result<MethodTarget, LinkError>,
}

/// Whether two places are one.
#[inline(always)]
fn is_same_place(one: Place, other: Place) -> bool
    ensures { result ≡ true → one ≡ other }
{
    one.class == other.class && one.member == other.member
}

/// Whether two targets are one.
#[inline(always)]
fn is_same_target(one: &MethodTarget, other: &MethodTarget) -> bool
    ensures { result ≡ true → one.now ≡ other.now }
{
    one.named == other.named && is_same_place(one.declared, other.declared)
}

/// Whether two objects are of one class.
#[inline(always)]
fn is_same_object(one: Option<usize>, other: Option<usize>) -> bool
    ensures { result ≡ true → one ≡ other }
{
    match (one, other) {
        (Some(one), Some(other)) => one == other,
        (None, None) => true,
        _ => false,
    }
}

/// The number of the entry of a call, of so many: first by the class that declares the method and that of the object, then by the method.
#[inline(always)]
fn number_of(count: usize, target: &MethodTarget, object: Option<usize>) -> usize {
    let object = match object {
        Some(class) => class,
        None => 0,
    };
    let declared = target.declared.class.wrapping_mul(0x1_0001);
    let class = object.wrapping_mul(0x1f);
    declared
        .wrapping_add(class)
        .wrapping_add(target.declared.member)
        & count.wrapping_sub(1)
}

/// The same, among rows.
#[inline(always)]
fn number_in(
    rows: &[Row<Option<Selection>>],
    target: &MethodTarget,
    object: Option<usize>,
) -> usize {
    number_of(rows.len().wrapping_mul(SELECTIONS_IN_ROW), target, object)
}

/// What a call runs, where that is known.
#[inline(always)]
fn known(
    rows: &[Row<Option<Selection>>],
    class: usize,
    target: &MethodTarget,
    object: Option<usize>,
) -> Option<Result<MethodTarget, LinkError>>
    ensures { Knows rows.now class target.now object result }
{
    let number = number_in(rows, target, object);
    if let Some(entry) = entry_in(rows, number / SELECTIONS_IN_ROW, number % SELECTIONS_IN_ROW)
        && let Some(entry) = entry
        && entry.class == class
        && is_same_object(entry.object, object)
        && is_same_target(&entry.target, target)
    {
        return Some(entry.found);
    }
    None
}

/// Keeps what a call runs.
fn keep_selection(rows: &mut [Row<Option<Selection>>], entry: Selection)
    ensures { Keeps rows.old entry rows.new }
{
    let number = number_in(rows, &entry.target, entry.object);
    keep(
        rows,
        number / SELECTIONS_IN_ROW,
        number % SELECTIONS_IN_ROW,
        None,
        Some(entry),
    );
}

/// What a call at a site runs; its entry keeps it.
#[cold]
#[inline(never)]
fn selected_and_kept(
    rows: &mut [Row<Option<Selection>>],
    classes: &Classes<'_>,
    class: usize,
    site: Site,
    how: Use,
    target: &MethodTarget,
    object: Option<usize>,
) -> Result<MethodTarget, LinkError>
    requires rows { AreSelections classes.now.world how rows.old }
    requires class { IsFor how class site }
    requires site { IsSite classes.now.world site }
    requires target { IsMethodTarget classes.now.world target.now }
    requires object { IsObject classes.now.world object }
    ensures found { IsSelected classes.now.world site how target.now object result }
    ensures target { IfOk result (IsMethodTarget classes.now.world) }
    ensures rows { AreSelections classes.now.world how rows.new }
{
    let found = select(classes, site, how, target, object);
    keep_selection(
        rows,
        Selection {
            class,
            target: *target,
            object,
            found,
        },
    );
    found
}

/// The same, with room of its own for the answer, which is then not made where an entry is there.
#[inline(always)]
fn selected_apart(
    rows: &mut [Row<Option<Selection>>],
    classes: &Classes<'_>,
    class: usize,
    site: Site,
    how: Use,
    target: &MethodTarget,
    object: Option<usize>,
) -> Result<MethodTarget, LinkError>
    requires rows { AreSelections classes.now.world how rows.old }
    requires class { IsFor how class site }
    requires site { IsSite classes.now.world site }
    requires target { IsMethodTarget classes.now.world target.now }
    requires object { IsObject classes.now.world object }
    ensures found { IsSelected classes.now.world site how target.now object result }
    ensures target { IfOk result (IsMethodTarget classes.now.world) }
    ensures rows { AreSelections classes.now.world how rows.new }
{
    let own = *target;
    selected_and_kept(rows, classes, class, site, how, &own, object)
}

/// What a call at a site runs, by its entry, where that is there.
#[inline(always)]
pub(crate) fn selection_by(
    rows: &mut [Row<Option<Selection>>],
    classes: &Classes<'_>,
    class: usize,
    site: Site,
    how: Use,
    target: &MethodTarget,
    object: Option<usize>,
) -> Result<MethodTarget, LinkError>
    requires rows { AreSelections classes.now.world how rows.old }
    requires class { IsFor how class site }
    requires site { IsSite classes.now.world site }
    requires target { IsMethodTarget classes.now.world target.now }
    requires object { IsObject classes.now.world object }
    ensures found { IsSelected classes.now.world site how target.now object result }
    ensures target { IfOk result (IsMethodTarget classes.now.world) }
    ensures rows { AreSelections classes.now.world how rows.new }
{
    if let Some(found) = known(rows, class, target, object) {
        return found;
    }
    selected_apart(rows, classes, class, site, how, target, object)
}
