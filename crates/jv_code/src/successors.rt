//! Where control goes from an instruction (JVMS 6.5).

ghost use Rattle.std.specs.Prelude.{◌≡◌, ◌∷◌, map, slice_get};
ghost use Rattle.jv_code.specs.Insns.{instruction_of};
ghost use Rattle.jv_code.specs.Switches.{distances_in, pairs_in, pair_distance};
ghost use Rattle.jv_code.specs.Successors.{falls_through, jump_distances};

use crate::insn::Insn;
use crate::switches::{distance_at, distance_of_pair_at};

/// Whether the next instruction can follow: not behind `goto`, a switch, a return or `athrow`.
#[inline]
pub fn falls_through(insn: &Insn<&[u8]>) -> bool
    ensures { result ≡ falls_through (instruction_of insn.now) }
{
    match insn {
        Insn::Goto(..)
        | Insn::TableSwitch(..)
        | Insn::LookupSwitch(..)
        | Insn::ReturnValue(_)
        | Insn::Return
        | Insn::Throw => false,
        _ => true,
    }
}

fn table_distance(default: i32, distances: &[u8], place: usize) -> Option<i32>
    ensures { result ≡ slice_get (default ∷ distances_in distances.now) place }
{
    if place == 0 {
        return Some(default);
    }
    distance_at(distances, place - 1)
}

fn lookup_distance(default: i32, pairs: &[u8], place: usize) -> Option<i32>
    ensures { result ≡ slice_get (default ∷ map pair_distance (pairs_in pairs.now)) place }
{
    if place == 0 {
        return Some(default);
    }
    distance_of_pair_at(pairs, place - 1)
}

/// The distance at a place, from 0, of those that an instruction can jump, from its own offset: of
/// a switch the default one first. `None` where there are no more.
pub fn jump_distance(insn: &Insn<&[u8]>, place: usize) -> Option<i32>
    ensures { result ≡ slice_get (jump_distances (instruction_of insn.now)) place }
{
    let only = match *insn {
        Insn::Branch(_, distance) => i32::from(distance),
        Insn::Goto(distance, _) => distance,
        Insn::TableSwitch(_, default, _, _, distances) => {
            return table_distance(default, distances, place);
        }
        Insn::LookupSwitch(_, default, pairs) => return lookup_distance(default, pairs, place),
        _ => return None,
    };
    if place == 0 { Some(only) } else { None }
}
