//! Functions from offsets and ranks to places.

ghost use Rattle.std.specs.Prelude.{◌≡◌, ℕ, ◌+◌, ◌<◌, ◌≤◌, IfOk, OnOk, length};
ghost use Rattle.jv_link_handlers.specs.Inside.Finding.{least, holds, holds_offset};
ghost use Rattle.jv_link_handlers.specs.Inside.Choices.{is_full};
ghost use Rattle.jv_link_handlers.specs.Inside.Pieces.{place_in, Rise};
ghost use Rattle.jv_link_handlers.specs.Inside.Nodes.{found, found_to, Rises, Lengthens};
ghost use Rattle.std.specs.List.{filter};

use crate::pieces::{NONE, Piece, pieces_of, place_at};
use crate::placed::{Placed, above_of, below_of, full_of, parts_of};
use std::alloc::{AllocError, Global};

/// A node of a tree, whose nodes stand in a row: the places of offsets that hold for all ranks that come here. More is found for the ranks
/// from the middle one on at the node before this one, and for those below it at the last of so many of the first nodes; where there is
/// none, nothing more.
#[derive(Drop)]
pub(crate) struct Node {
    pieces: Vec<Piece>,
    middle: u16,
    below: usize,
}

/// The least places of those that hold all ranks from one up to another.
fn full_pieces(
    alloc: Global,
    placed: &[Placed],
    low: u16,
    high: u16,
) -> Result<Vec<Piece>, AllocError>
    ensures place { IfOk result (λ pieces. (x : ℕ)
        → place_in pieces.items x ≡ least (holds_offset x) (filter (is_full low high) placed.now)) }
    ensures rise { IfOk result (λ pieces. Rise pieces.items) }
{
    let full = full_of(alloc, placed, low, high)?;
    pieces_of(alloc, &full)
}

/// A rank strictly between two: the middle one of the ranks there at which one of these begins or ends, so that on either side at most
/// half of them are left.
fn middle_of(alloc: Global, placed: &[Placed], low: u16, high: u16) -> Result<u16, AllocError>
    requires { low + 2 ≤ high }
    ensures above { IfOk result (λ middle. low < middle) }
    ensures below { IfOk result (λ middle. middle < high) }
{
    let mut ends = Vec::new(alloc);
    for p in placed {
        if low < p.reach.low && p.reach.low < high {
            ends.push(p.reach.low)?;
        }
        if low < p.reach.high && p.reach.high < high {
            ends.push(p.reach.high)?;
        }
    }
    ends.sort_unstable();
    let middle = if ends.is_empty() {
        low
    } else {
        ends[ends.len() / 2]
    };
    Ok(middle.max(low + 1).min(high - 1))
}

/// Adds a tree of the least places of reaches, for the ranks from one up to another.
pub(crate) fn grow(
    alloc: Global,
    nodes: &mut Vec<Node>,
    placed: &[Placed],
    low: u16,
    high: u16,
) -> Result<(), AllocError>
    requires { low < high }
    ensures found { OnOk result ((offset rank : ℕ) → low ≤ rank → rank < high
        → found nodes.new.items offset rank ≡ least (holds offset rank) placed.now) }
    ensures longer { OnOk result (Lengthens nodes.old.items nodes.new.items) }
    ensures rise { OnOk result (Rises nodes.old.items → Rises nodes.new.items) }
{
    let pieces = full_pieces(alloc, placed, low, high)?;
    let parts = parts_of(alloc, placed, low, high)?;
    if high - low < 2 || parts.is_empty() {
        nodes.push(Node {
            pieces,
            middle: high,
            below: 0,
        })?;
        return Ok(());
    }
    let middle = middle_of(alloc, &parts, low, high)?;
    let lesser = below_of(alloc, &parts, middle)?;
    grow(alloc, nodes, &lesser, low, middle)?;
    let below = nodes.len();
    let greater = above_of(alloc, &parts, middle)?;
    grow(alloc, nodes, &greater, middle, high)?;
    nodes.push(Node {
        pieces,
        middle,
        below,
    })?;
    Ok(())
}

/// The place of an offset and a rank, by the last node.
pub(crate) fn found(nodes: &[Node], offset: u16, rank: u16) -> u16
    ensures { Rises nodes.now → result ≡ found nodes.now offset rank }
{
    let mut place = NONE;
    let mut left = nodes.len();
    while left > 0 {
        let node = &nodes[left - 1];
        place = place.min(place_at(&node.pieces, offset));
        left = if rank < node.middle {
            node.below.min(left - 1)
        } else {
            left - 1
        };
    }
    place
}
