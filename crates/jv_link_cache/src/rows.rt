//! Entries in rows, each with its own memory, which a row gets as entries are kept in it.

ghost use Rattle.std.specs.Prelude.{◌≡◌, Some, IfOk, IfSome};
ghost use Rattle.std.specs.List.{All};
ghost use Rattle.jv_link_cache.specs.Inside.Rows.{entry_at, IsEmptyRow, IsReached, IsKeptIn, IsKept};

use std::alloc::{AllocError, Global};

/// How many entries a row gets at most while guests run, so that a step fills no more.
pub(crate) const FEW_ENTRIES: usize = 0x100;

/// A row of entries, up to the last one that is in use.
#[derive(Drop)]
pub(crate) struct Row<E> {
    pub(crate) entries: Vec<E>,
}

/// A row of so many entries, all of them empty.
pub(crate) fn row_of<E: Copy>(alloc: Global, count: usize, empty: E) -> Result<Row<E>, AllocError>
    ensures { IfOk result (IsEmptyRow empty) }
{
    let mut entries = Vec::with_capacity(alloc, count)?;
    for _ in 0..count {
        entries.push(empty)?;
    }
    Ok(Row { entries })
}

/// The entry at a place of a row, where it is there.
#[inline(always)]
pub(crate) fn entry_in<E>(rows: &[Row<E>], row: usize, place: usize) -> Option<&E>
    ensures { IfSome result (λ entry. entry_at rows.now row place ≡ Some entry.now) }
{
    if row < rows.len() {
        rows[row].entries.get(place)
    } else {
        None
    }
}

/// Adds entries up to a place, where they are few.
fn reach<E: Copy>(row: &mut Row<E>, place: usize, empty: E) -> Result<(), AllocError>
    ensures { IsReached empty row.old row.new }
{
    if place >= FEW_ENTRIES {
        return Ok(());
    }
    while row.entries.len() <= place {
        row.entries.push(empty)?;
    }
    Ok(())
}

/// Keeps an entry at a place of a row; none where the row doesn't reach there, and there is no memory for more.
fn keep_in<E: Copy>(row: &mut Row<E>, place: usize, empty: E, entry: E)
    ensures { IsKeptIn empty place entry row.old row.new }
{
    let _reached = reach(row, place, empty);
    if place < row.entries.len() {
        row.entries[place] = entry;
    }
}

/// The same in one of some rows.
pub(crate) fn keep<E: Copy>(rows: &mut [Row<E>], row: usize, place: usize, empty: E, entry: E)
    ensures { IsKept empty row place entry rows.old rows.new }
{
    if row < rows.len() {
        keep_in(&mut rows[row], place, empty, entry);
    }
}
