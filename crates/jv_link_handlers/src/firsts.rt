//! Which of a list of reaches holds an offset and a rank first.

ghost use Rattle.std.specs.Prelude.{◌≡◌, ◌<◌, ◌≤◌, List, IfOk, length};
ghost use Rattle.std.specs.List.{position};
ghost use Rattle.jv_link_handlers.specs.declared.reach.Reach.{Reach};
ghost use Rattle.jv_link_handlers.specs.Firsts.{reaches_to, AreFirsts};

use crate::pieces::NONE;
use crate::placed::placed_of;
use crate::reach::Reach;
use crate::tree::{Node, found, grow};
use std::alloc::{AllocError, Global};

/// Which reach of a list holds an offset and a rank first, for each of these.
#[derive(Drop)]
pub struct Firsts {
    nodes: Vec<Node>,
}

/// Finds for each offset and each rank which of the reaches holds both first.
///
/// # Errors
///
/// Where the host had no memory for it; nothing is then kept.
pub fn firsts_of(alloc: Global, reaches: &[Reach]) -> Result<Firsts, AllocError>
    requires { length reaches.now ≤ 65535 }
    ensures { IfOk result (AreFirsts reaches.now) }
{
    let placed = placed_of(alloc, reaches)?;
    let mut nodes = Vec::new(alloc);
    grow(alloc, &mut nodes, &placed, 0, 65_535)?;
    Ok(Firsts { nodes })
}

/// Which of the reaches that these are the firsts of holds an offset and a rank first.
pub fn first_at(firsts: &Firsts, offset: u16, rank: u16) -> Option<u16>
    requires { rank < 65535 }
    ensures { (reaches : List Reach) → AreFirsts reaches firsts.now → result ≡ position (reaches_to offset rank) reaches }
{
    let place = found(&firsts.nodes, offset, rank);
    if place < NONE { Some(place) } else { None }
}
