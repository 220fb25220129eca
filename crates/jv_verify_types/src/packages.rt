//! Which classes are in the run-time package of the current one (JVMS 5.3), kept while the constants of its class file are gone through:
//! the names of two packages are compared once.

ghost use Rattle.std.specs.Prelude.{◌≡◌, ◌<◌, ℕ, length, IfOk, IfSome, OnOk};
ghost use Rattle.jv_meaning_world.specs.World.{World};
ghost use Rattle.jv_verify_types.specs.Inside.Answered.{IsNeighbour, AreNeighbours};

use jv_link::same_package;
use jv_loader::ClassTable;
use std::alloc::AllocError;

/// Whether a class is in the package, where that is kept.
fn known(packages: &[Option<bool>], by: usize) -> Option<bool>
    ensures { (world : World) (current : ℕ) → AreNeighbours world current packages.now
        → IfSome result (IsNeighbour world current by) }
{
    if by < packages.len() {
        packages[by]
    } else {
        None
    }
}

/// Keeps whether a class is in the package. The first one takes the memory for all.
fn keep(
    packages: &mut Vec<Option<bool>>,
    count: usize,
    by: usize,
    is_same: bool,
) -> Result<(), AllocError>
    ensures { (world : World) (current : ℕ) → AreNeighbours world current packages.old.items → IsNeighbour world current by is_same
        → OnOk result (AreNeighbours world current packages.new.items) }
{
    packages.resize(count, None)?;
    if by < packages.len() {
        packages[by] = Some(is_same);
    }
    Ok(())
}

/// Whether a class is in the run-time package of the current one. It costs a comparison of names at the first time alone.
pub(crate) fn same_package_once(
    packages: &mut Vec<Option<bool>>,
    table: &ClassTable<'_>,
    current: usize,
    by: usize,
) -> Result<bool, AllocError>
    requires current { current < length table.now }
    requires by { by < length table.now }
    requires packages { AreNeighbours table.now current packages.old.items }
    ensures same { IfOk result (IsNeighbour table.now current by) }
    ensures packages { OnOk result (AreNeighbours table.now current packages.new.items) }
{
    if let Some(is_same) = known(packages, by) {
        return Ok(is_same);
    }
    let is_same = same_package(table, current, by);
    keep(packages, table.count(), by, is_same)?;
    Ok(is_same)
}
