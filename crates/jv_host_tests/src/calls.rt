use crate::twin::Twin;
use jv_store::{OutOfMemory, Store};
use std::alloc::Global;
use std::process::Abort;

/// A call that changes a store. A block is named by its number among those that are held, from 0.
#[derive(Clone, Copy)]
pub enum Call {
    Reserve(u32),
    Release(u32),
    Alloc(u32),
    Set(usize, u32, u32),
    TakeBack,
}

/// A call, and behind it the room, the total, and the words of each block.
pub type Row = (Call, u64, u64, &'static [&'static [u32]]);

/// Few calls, on a store that is empty.
pub static FEW_CALLS: [Row; 11] = [
    (Call::Reserve(6), 6, 6, &[]),
    (Call::Alloc(2), 4, 6, &[&[0, 0]]),
    (Call::Set(0, 1, 7), 4, 6, &[&[0, 7]]),
    (Call::Alloc(3), 1, 6, &[&[0, 7], &[0, 0, 0]]),
    (Call::Set(1, 0, 8), 1, 6, &[&[0, 7], &[8, 0, 0]]),
    (Call::Set(1, 2, 9), 1, 6, &[&[0, 7], &[8, 0, 9]]),
    (Call::TakeBack, 4, 6, &[&[0, 7]]),
    (Call::Alloc(4), 0, 6, &[&[0, 7], &[0, 0, 0, 0]]),
    (Call::TakeBack, 4, 6, &[&[0, 7]]),
    (Call::TakeBack, 6, 6, &[]),
    (Call::Release(5), 1, 1, &[]),
];

/// The words of a block of 25 words, of which one was written.
const LAST_IS_3: &[u32] = &[
    0, 0, 0, 0, 0, 0, 0, 0, 0, 0, 0, 0, 0, 0, 0, 0, 0, 0, 0, 0, 0, 0, 0, 0, 3,
];

/// Calls that the contract allows, one after another, on a store that is empty.
pub static CALLS: [Row; 24] = [
    (Call::Reserve(0), 0, 0, &[]),
    (Call::Reserve(9), 9, 9, &[]),
    (Call::Alloc(2), 7, 9, &[&[0, 0]]),
    (Call::Set(0, 1, 7), 7, 9, &[&[0, 7]]),
    (Call::Alloc(1), 6, 9, &[&[0, 7], &[0]]),
    (
        Call::Set(1, 0, 4_294_967_295),
        6,
        9,
        &[&[0, 7], &[4_294_967_295]],
    ),
    (
        Call::Alloc(3),
        3,
        9,
        &[&[0, 7], &[4_294_967_295], &[0, 0, 0]],
    ),
    (
        Call::Set(2, 0, 8),
        3,
        9,
        &[&[0, 7], &[4_294_967_295], &[8, 0, 0]],
    ),
    (
        Call::Set(2, 2, 9),
        3,
        9,
        &[&[0, 7], &[4_294_967_295], &[8, 0, 9]],
    ),
    (
        Call::Set(0, 0, 6),
        3,
        9,
        &[&[6, 7], &[4_294_967_295], &[8, 0, 9]],
    ),
    (Call::Set(1, 0, 5), 3, 9, &[&[6, 7], &[5], &[8, 0, 9]]),
    (Call::TakeBack, 6, 9, &[&[6, 7], &[5]]),
    (Call::Release(2), 4, 7, &[&[6, 7], &[5]]),
    (Call::Alloc(4), 0, 7, &[&[6, 7], &[5], &[0, 0, 0, 0]]),
    (Call::Set(2, 3, 1), 0, 7, &[&[6, 7], &[5], &[0, 0, 0, 1]]),
    (Call::TakeBack, 4, 7, &[&[6, 7], &[5]]),
    (Call::TakeBack, 5, 7, &[&[6, 7]]),
    (Call::Reserve(20), 25, 27, &[&[6, 7]]),
    (Call::Alloc(25), 0, 27, &[&[6, 7], &[0; 25]]),
    (Call::Set(1, 24, 3), 0, 27, &[&[6, 7], LAST_IS_3]),
    (Call::Set(0, 1, 2), 0, 27, &[&[6, 2], LAST_IS_3]),
    (Call::TakeBack, 25, 27, &[&[6, 2]]),
    (Call::TakeBack, 27, 27, &[]),
    (Call::Release(27), 0, 0, &[]),
];

/// Makes the call of a row on a store and on plain lists, and compares the two behind it, also where it is
/// refused for want of memory.
fn play_row<S: Store, R: Abort>(
    rt: &R,
    twin: &mut Twin<S>,
    number: usize,
    row: &Row,
) -> Result<(), OutOfMemory> {
    let outcome = twin.step(rt, row.0);
    twin.compare(rt);
    outcome?;
    assert!(rt; twin.shows(row.1, row.2, row.3), "row {number}");
    Ok(())
}

/// Plays rows up to the first whose call is refused for want of memory.
fn play_rows<S: Store, R: Abort>(
    rt: &R,
    twin: &mut Twin<S>,
    rows: &[Row],
) -> Result<(), OutOfMemory> {
    twin.compare(rt);
    for (number, row) in rows.iter().enumerate() {
        play_row(rt, twin, number, row)?;
    }
    Ok(())
}

/// Plays a table on an empty store, and says whether no memory was wanting.
fn play<S: Store, R: Abort>(rt: &R, alloc: Global, rows: &[Row]) -> bool {
    let mut twin: Twin<S> = Twin::new(alloc);
    play_rows(rt, &mut twin, rows).is_ok()
}

/// Whether no memory was wanting for either table.
pub fn play_all<S: Store, R: Abort>(rt: &R, alloc: Global) -> bool {
    play::<S, R>(rt, alloc, &FEW_CALLS) && play::<S, R>(rt, alloc, &CALLS)
}
