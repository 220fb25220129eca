//! Where jumps go (JVMS 4.10.1.9).

ghost use Rattle.std.specs.Prelude.{ℕ, map};
ghost use Rattle.std.specs.List.{list_all};
ghost use Rattle.jv_code.specs.Insns.{instruction_of};
ghost use Rattle.jv_code.specs.Switches.{distances_in, pairs_in};
ghost use Rattle.jv_code.specs.Targets.{target_of};
ghost use Rattle.jv_meaning_typing.specs.Typing.{flows_into, frame_at};
ghost use Rattle.jv_verify_pass.specs.Inside.Walk.{distance_holds, pair_holds, table_holds, all_hold, distances_of};
ghost use Rattle.jv_verify_pass.specs.Inside.Seen.{IsSeen, StaysSeen};
ghost use Rattle.jv_verify_pass.specs.Pass.{Tests};

use crate::merging::flows_by_stack;
use crate::pass::Pass;
use crate::seen::Seen;
use jv_code::{Insn, first_distance, first_pair, target_of};
use jv_verify_frame::TypeFrame;

/// Whether a frame flows to that of the map at an offset; not where none is there.
pub(crate) fn flows_into(
    pass: &Pass<'_, '_, '_, '_, '_>,
    seen: &mut Seen,
    frame: &TypeFrame,
    offset: u32,
) -> bool
    requires seen { (at : ℕ) × IsSeen pass.now seen.old at frame.now }
    ensures flows { Tests pass.now (λ env maps f. flows_into env f (frame_at maps offset)) frame.now result }
    ensures seen { StaysSeen pass.now frame.now seen.old seen.new }
{
    // Reads a field, so that the invariant is known.
    let _types = &pass.types;
    match pass.map_at(offset) {
        Some((place, map)) => {
            let stack = seen.stacks.flows(pass, frame, place, &map);
            flows_by_stack(pass, seen, frame, place, &map, stack)
        }
        None => false,
    }
}

/// Whether it flows to that at a distance from an instruction.
#[inline(never)]
fn distance_holds(
    pass: &Pass<'_, '_, '_, '_, '_>,
    seen: &mut Seen,
    frame: &TypeFrame,
    offset: u32,
    distance: i32,
) -> bool
    requires seen { (at : ℕ) × IsSeen pass.now seen.old at frame.now }
    ensures flows { Tests pass.now (λ env maps f. distance_holds env maps f offset distance) frame.now result }
    ensures seen { StaysSeen pass.now frame.now seen.old seen.new }
{
    match target_of(offset, distance) {
        Some(target) => flows_into(pass, seen, frame, target),
        None => false,
    }
}

/// Whether it flows to those at the distances of a tableswitch.
fn distances_hold(
    pass: &Pass<'_, '_, '_, '_, '_>,
    seen: &mut Seen,
    frame: &TypeFrame,
    offset: u32,
    distances: &[u8],
) -> bool
    requires seen { (at : ℕ) × IsSeen pass.now seen.old at frame.now }
    ensures flows { Tests pass.now (λ env maps f. list_all (distance_holds env maps f offset) (distances_in distances.now))
        frame.now result }
    ensures seen { StaysSeen pass.now frame.now seen.old seen.new }
{
    let mut left = distances;
    while let Some((distance, more)) = first_distance(left) {
        if !distance_holds(pass, seen, frame, offset, distance) {
            return false;
        }
        left = more;
    }
    true
}

/// Whether it flows to those at the distances of a lookupswitch's pairs.
fn pairs_hold(
    pass: &Pass<'_, '_, '_, '_, '_>,
    seen: &mut Seen,
    frame: &TypeFrame,
    offset: u32,
    pairs: &[u8],
) -> bool
    requires seen { (at : ℕ) × IsSeen pass.now seen.old at frame.now }
    ensures flows { Tests pass.now (λ env maps f. list_all (pair_holds env maps f offset) (pairs_in pairs.now)) frame.now result }
    ensures seen { StaysSeen pass.now frame.now seen.old seen.new }
{
    let mut left = pairs;
    while let Some(((_key, distance), more)) = first_pair(left) {
        if !distance_holds(pass, seen, frame, offset, distance) {
            return false;
        }
        left = more;
    }
    true
}

/// Whether it flows to those of a tableswitch.
fn table_holds(
    pass: &Pass<'_, '_, '_, '_, '_>,
    seen: &mut Seen,
    frame: &TypeFrame,
    offset: u32,
    default: i32,
    distances: &[u8],
) -> bool
    requires seen { (at : ℕ) × IsSeen pass.now seen.old at frame.now }
    ensures flows { Tests pass.now (λ env maps f. table_holds env maps f offset default (distances_in distances.now)) frame.now result }
    ensures seen { StaysSeen pass.now frame.now seen.old seen.new }
{
    distance_holds(pass, seen, frame, offset, default)
        && distances_hold(pass, seen, frame, offset, distances)
}

/// Whether it flows to those of a lookupswitch.
fn lookup_holds(
    pass: &Pass<'_, '_, '_, '_, '_>,
    seen: &mut Seen,
    frame: &TypeFrame,
    offset: u32,
    default: i32,
    pairs: &[u8],
) -> bool
    requires seen { (at : ℕ) × IsSeen pass.now seen.old at frame.now }
    ensures flows { Tests pass.now (λ env maps f. table_holds env maps f offset default (distances_of pairs.now)) frame.now result }
    ensures seen { StaysSeen pass.now frame.now seen.old seen.new }
{
    distance_holds(pass, seen, frame, offset, default)
        && pairs_hold(pass, seen, frame, offset, pairs)
}

/// Whether what an instruction leaves flows to a frame of the map at each of its targets.
#[inline(always)]
pub(crate) fn targets_hold(
    pass: &Pass<'_, '_, '_, '_, '_>,
    seen: &mut Seen,
    frame: &TypeFrame,
    offset: u32,
    insn: &Insn<&[u8]>,
) -> bool
    requires seen { (at : ℕ) × IsSeen pass.now seen.old at frame.now }
    ensures flows { Tests pass.now (λ env maps f. all_hold env maps f offset (instruction_of insn.now)) frame.now result }
    ensures seen { StaysSeen pass.now frame.now seen.old seen.new }
{
    match *insn {
        Insn::Branch(_, distance) => distance_holds(pass, seen, frame, offset, i32::from(distance)),
        Insn::Goto(distance, _) => distance_holds(pass, seen, frame, offset, distance),
        Insn::TableSwitch(_, default, _, _, distances) => {
            table_holds(pass, seen, frame, offset, default, distances)
        }
        Insn::LookupSwitch(_, default, pairs) => {
            lookup_holds(pass, seen, frame, offset, default, pairs)
        }
        _ => true,
    }
}
