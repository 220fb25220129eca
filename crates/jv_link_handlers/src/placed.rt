//! Reaches with their places, and choices among them.

ghost use Rattle.std.specs.Prelude.{◌≡◌, ◌&&◌, ◌<◌, ◌≤◌, not, IfOk, length, nat_le, nat_lt};
ghost use Rattle.std.specs.List.{filter};
ghost use Rattle.jv_link_handlers.specs.Inside.Choices.{is_full, is_part, is_below, is_above};
ghost use Rattle.jv_link_handlers.specs.Inside.Finding.{placed_from};

use crate::reach::Reach;
use std::alloc::{AllocError, Global};

/// A reach, and its place among all.
#[derive(Clone, Copy)]
pub(crate) struct Placed {
    pub(crate) reach: Reach,
    pub(crate) place: u16,
}

/// The reaches with their places.
pub(crate) fn placed_of(alloc: Global, reaches: &[Reach]) -> Result<Vec<Placed>, AllocError>
    requires { length reaches.now ≤ 65535 }
    ensures { IfOk result (λ placed. placed.items ≡ placed_from 0 reaches.now) }
{
    let mut placed = Vec::with_capacity(alloc, reaches.len())?;
    for k in 0..reaches.len() {
        placed.push(Placed {
            reach: reaches[k],
            place: k as u16,
        })?;
    }
    Ok(placed)
}

/// Those that hold all ranks from one up to another.
pub(crate) fn full_of(
    alloc: Global,
    placed: &[Placed],
    low: u16,
    high: u16,
) -> Result<Vec<Placed>, AllocError>
    ensures { IfOk result (λ full. full.items ≡ filter (is_full low high) placed.now) }
{
    placed
        .iter()
        .copied()
        .filter(|p| p.reach.low <= low && high <= p.reach.high)
        .collect(alloc)
}

/// Those that hold some of these ranks, and not all.
pub(crate) fn parts_of(
    alloc: Global,
    placed: &[Placed],
    low: u16,
    high: u16,
) -> Result<Vec<Placed>, AllocError>
    ensures { IfOk result (λ parts. parts.items ≡ filter (is_part low high) placed.now) }
{
    placed
        .iter()
        .copied()
        .filter(|p| {
            !(p.reach.low <= low && high <= p.reach.high)
                && p.reach.low < high
                && low < p.reach.high
        })
        .collect(alloc)
}

/// Those that hold a rank below one.
pub(crate) fn below_of(
    alloc: Global,
    placed: &[Placed],
    middle: u16,
) -> Result<Vec<Placed>, AllocError>
    ensures { IfOk result (λ below. below.items ≡ filter (is_below middle) placed.now) }
{
    placed
        .iter()
        .copied()
        .filter(|p| p.reach.low < middle)
        .collect(alloc)
}

/// Those that hold it, or one above it.
pub(crate) fn above_of(
    alloc: Global,
    placed: &[Placed],
    middle: u16,
) -> Result<Vec<Placed>, AllocError>
    ensures { IfOk result (λ above. above.items ≡ filter (is_above middle) placed.now) }
{
    placed
        .iter()
        .copied()
        .filter(|p| middle < p.reach.high)
        .collect(alloc)
}
