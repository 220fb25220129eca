//! What flows into a frame of the stack map, and what is made one (JVMS 4.10.1.4, 4.10.1.6).

ghost use Rattle.std.specs.Prelude.{◌≡◌, ℕ, Some, slice_get, OnOk};
ghost use Rattle.jv_verify_types.specs.Numbered.{frame_of, with_stack};
ghost use Rattle.jv_verify_types.specs.Mapped.{flows_to_map, frame_by_types, stack_flows_to, stack_of, types_of_entries};
ghost use Rattle.jv_verify_pass.specs.Pass.{HasRoom, names_in};
ghost use Rattle.jv_verify_pass.specs.Inside.Seen.{IsSeen, StaysSeen};

use crate::pass::Pass;
use crate::seen::Seen;
use crate::setting::push_items;
use jv_stackmap::MapFrame;
use jv_verify_flow::stack_flows;
use jv_verify_frame::TypeFrame;
use jv_verify_types::EntryTypes;
use std::alloc::AllocError;

/// Whether a frame flows into the frame of the map at a place, where it is known whether its stack does.
pub(crate) fn flows_by_stack(
    pass: &Pass<'_, '_, '_, '_, '_>,
    seen: &mut Seen,
    frame: &TypeFrame,
    place: usize,
    map: &MapFrame<'_>,
    stack: bool,
) -> bool
    requires at { slice_get pass.now.frames place ≡ Some map.now }
    requires stack { stack ≡ stack_flows_to pass.now.types (stack_of pass.now.types frame.now) map.now }
    requires seen { (offset : ℕ) × IsSeen pass.now seen.old offset frame.now }
    ensures flows { result ≡ flows_to_map pass.now.types frame.now map.now }
    ensures seen { StaysSeen pass.now frame.now seen.old seen.new }
{
    if !stack {
        return false;
    }
    if !seen.known.flag_flows(frame, place) {
        return false;
    }
    seen.known.locals_flow(pass.types, frame, place)
}

/// Whether a frame flows into the frame of the map at a place.
pub(crate) fn flows_to_map(
    pass: &Pass<'_, '_, '_, '_, '_>,
    seen: &mut Seen,
    frame: &TypeFrame,
    place: usize,
    map: &MapFrame<'_>,
) -> bool
    requires at { slice_get pass.now.frames place ≡ Some map.now }
    requires seen { (offset : ℕ) × IsSeen pass.now seen.old offset frame.now }
    ensures flows { result ≡ flows_to_map pass.now.types frame.now map.now }
    ensures seen { StaysSeen pass.now frame.now seen.old seen.new }
{
    let stack = stack_flows(pass.types, frame, map);
    flows_by_stack(pass, seen, frame, place, map, stack)
}

/// Gives a frame the stack of a frame of the map.
fn set_stack(
    types: &EntryTypes<'_, '_, '_>,
    frame: &mut TypeFrame,
    map: &MapFrame<'_>,
) -> Result<(), AllocError>
    ensures stack { OnOk result (stack_of types.now frame.new ≡ types_of_entries types.now map.now.stack) }
    ensures same { frame.new ≡ with_stack frame.new.stack frame.old }
{
    frame.clear_stack();
    push_items(types, frame, map)?;
    frame.turn_stack();
    Ok(())
}

/// Makes a frame the frame of the map at a place.
///
/// # Errors
///
/// Where the host had no memory for its stack; the frame is then of no more use.
pub(crate) fn set_frame(
    pass: &Pass<'_, '_, '_, '_, '_>,
    seen: &mut Seen,
    frame: &mut TypeFrame,
    place: usize,
    map: &MapFrame<'_>,
) -> Result<(), AllocError>
    requires at { slice_get pass.now.frames place ≡ Some map.now }
    requires room { HasRoom pass.now.types pass.now.max_locals map.now }
    requires seen { (offset : ℕ) × IsSeen pass.now seen.old offset frame.old }
    ensures ok { OnOk result (frame_of (names_in pass.now) frame.new ≡ frame_by_types pass.now.types pass.now.max_locals map.now) }
    ensures seen { OnOk result ((offset : ℕ) → IsSeen pass.now seen.old offset frame.old → IsSeen pass.now seen.new offset frame.new) }
{
    seen.stacks.clear();
    seen.known
        .set_locals(pass.types, frame, place, pass.max_locals);
    frame.set_flag(seen.known.words().has_this(place));
    set_stack(pass.types, frame, map)
}
