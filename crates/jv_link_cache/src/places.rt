//! How many entries there are. Nothing that is answered rests on these numbers.

ghost use Rattle.std.specs.Prelude.{IfOk};
ghost use Rattle.std.specs.List.{All};
ghost use Rattle.jv_link_cache.specs.Inside.Rows.{IsEmptyRow};

use crate::rows::{FEW_ENTRIES, Row, row_of};
use jv_loader::{ClassTable, LoadedClass};
use jv_pool::{Kind, Pool};
use std::alloc::{AllocError, Global};

/// How many constants of a guest have entries of a kind from the start at most.
const MOST_CONSTANTS: usize = 0x4_0000;

/// How many calls of a kind may have entries: a power of two.
const MOST_SELECTIONS: usize = 0x1000;

/// How many may have them in a guest of few methods, those of the system among them; else a power of two, half as many as methods or more.
const FEW_SELECTIONS: usize = 0x100;

/// How many calls' entries a row has: neighbours are the methods that one class declares, called on objects of another.
pub(crate) const SELECTIONS_IN_ROW: usize = 0x10;

/// Which constants have entries in a table.
#[derive(Clone, Copy)]
pub(crate) enum Named {
    /// Those that name classes.
    Classes,
    /// Those that name fields.
    Fields,
    /// Those that name methods, of classes and of interfaces.
    Methods,
}

/// Whether the constant at an index has an entry.
fn has_entry(pool: &Pool<'_>, index: u16, named: Named) -> bool {
    match pool.kind(index) {
        Some(Kind::Class) => matches!(named, Named::Classes),
        Some(Kind::Fieldref) => matches!(named, Named::Fields),
        Some(Kind::Methodref | Kind::InterfaceMethodref) => matches!(named, Named::Methods),
        _ => false,
    }
}

/// How many constants a pool has up to the last one with an entry, the one at 0 among them.
fn linked_count(pool: &Pool<'_>, named: Named) -> u16 {
    let mut count = pool.count();
    while count > 0 && !has_entry(pool, count - 1, named) {
        count -= 1;
    }
    count
}

/// How many constants of a class have entries from the start: those of a class that has more than a row gets while guests run.
fn constant_count(class: &LoadedClass<'_>, named: Named) -> usize {
    match class.file() {
        Some(file) if usize::from(file.pool().count()) > FEW_ENTRIES => {
            usize::from(linked_count(file.pool(), named))
        }
        _ => 0,
    }
}

/// A row for each class, for its constants that name something, by their indices.
pub(crate) fn constant_rows<E: Copy>(
    alloc: Global,
    table: &ClassTable<'_>,
    named: Named,
    empty: E,
) -> Result<Vec<Row<E>>, AllocError>
    ensures { IfOk result (λ rows. All (IsEmptyRow empty) rows.items) }
{
    let mut rows = Vec::with_capacity(alloc, table.count())?;
    let mut left = MOST_CONSTANTS;
    for class in table.classes() {
        let count = constant_count(class, named).min(left);
        left -= count;
        let row = row_of(alloc, count, empty)?;
        rows.push(row)?;
    }
    Ok(rows)
}

/// How many entries calls of a kind may have.
fn selection_count(table: &ClassTable<'_>) -> usize {
    let mut methods = 0usize;
    for class in table.classes() {
        methods = methods.wrapping_add(class.method_count());
    }
    (methods / 2)
        .clamp(FEW_SELECTIONS, MOST_SELECTIONS)
        .next_power_of_two()
}

/// Rows for calls of a kind.
pub(crate) fn selection_rows<E: Copy>(
    alloc: Global,
    table: &ClassTable<'_>,
    empty: E,
) -> Result<Vec<Row<E>>, AllocError>
    ensures { IfOk result (λ rows. All (IsEmptyRow empty) rows.items) }
{
    let count = selection_count(table) / SELECTIONS_IN_ROW;
    let mut rows = Vec::with_capacity(alloc, count)?;
    for _ in 0..count {
        let row = row_of(alloc, 0, empty)?;
        rows.push(row)?;
    }
    Ok(rows)
}
