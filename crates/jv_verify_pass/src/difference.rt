//! The first place at which a frame doesn't flow into another one (JVMS 4.10.1.2, 4.10.1.4).

ghost use Rattle.std.specs.Prelude.{◌≡◌, length, not, ◌&&◌};
ghost use Rattle.std.specs.Option.{option_map};
ghost use Rattle.jv_meaning_world.specs.Flow.{flows};
ghost use Rattle.jv_meaning_world.specs.FrameFlow.{item_flows};
ghost use Rattle.jv_verify_types.specs.Numbered.{frame_of};
ghost use Rattle.jv_verify_types.specs.Typed.{typed, typed_all};
ghost use Rattle.jv_verify_pass.specs.Inside.Unlike.{both_flow};
ghost use Rattle.jv_verify_pass.specs.Onward.{first_difference, first_unlike, flag_difference};

use jv_verify_frame::TypeFrame;
use jv_verify_types::{Item, TypeNames};

/// Where a frame doesn't flow into another one.
#[derive(Clone, Copy)]
pub enum Difference {
    /// A local variable, by its index.
    Local(u16),
    /// An item of the stack, by how many are above it.
    Item(usize),
    /// `this` may not be initialized, in the first one alone.
    Flag,
}

/// Whether there are two local variables, of which the one flows to the other.
fn locals_flow(names: &TypeNames<'_, '_>, from: Option<Item>, to: Option<Item>) -> bool
    ensures { result ≡ both_flow (flows names.now.world) (option_map (typed names.now.names) from) (option_map (typed names.now.names) to) }
{
    match (from, to) {
        (Some(from), Some(to)) => names.flows(from, to),
        _ => false,
    }
}

/// Whether there are two items, of which the one flows to the other.
fn items_flow(names: &TypeNames<'_, '_>, from: Option<Item>, to: Option<Item>) -> bool
    ensures { result
        ≡ both_flow (item_flows names.now.world) (option_map (typed names.now.names) from) (option_map (typed names.now.names) to) }
{
    match (from, to) {
        (Some(from), Some(to)) => names.item_flows(from, to),
        _ => false,
    }
}

/// The first local variable that doesn't flow to that of another frame, where both have so many.
fn first_local(
    names: &TypeNames<'_, '_>,
    frame: &TypeFrame,
    map: &TypeFrame,
    count: u16,
) -> Option<u16>
    requires frame { length frame.now.locals ≡ count }
    requires map { length map.now.locals ≡ count }
    ensures { result ≡ first_unlike (flows names.now.world) (typed_all names.now.names frame.now.locals)
        (typed_all names.now.names map.now.locals) }
{
    for index in 0..count {
        if !locals_flow(names, frame.local(index), map.local(index)) {
            return Some(index);
        }
    }
    None
}

/// The first item of a stack that doesn't flow to that of another frame, by how many are above it.
fn first_item(names: &TypeNames<'_, '_>, frame: &TypeFrame, map: &TypeFrame) -> Option<usize>
    ensures { result ≡ first_unlike (item_flows names.now.world) (typed_all names.now.names frame.now.stack)
        (typed_all names.now.names map.now.stack) }
{
    let height = frame.height().max(map.height());
    for depth in 0..height {
        if !items_flow(names, frame.item(depth), map.item(depth)) {
            return Some(depth);
        }
    }
    None
}

/// That the flag is set in the first frame alone, where it is.
fn flag_difference(frame: bool, map: bool) -> Option<Difference>
    ensures { result ≡ flag_difference (frame && not map) }
{
    if frame && !map {
        Some(Difference::Flag)
    } else {
        None
    }
}

/// The first place at which a frame doesn't flow into another one, where both have so many local variables.
pub(crate) fn first_difference(
    names: &TypeNames<'_, '_>,
    frame: &TypeFrame,
    map: &TypeFrame,
    count: u16,
) -> Option<Difference>
    requires frame { length frame.now.locals ≡ count }
    requires map { length map.now.locals ≡ count }
    ensures { result ≡ first_difference names.now.world (frame_of names.now.names frame.now) (frame_of names.now.names map.now) }
{
    if let Some(index) = first_local(names, frame, map, count) {
        return Some(Difference::Local(index));
    }
    if let Some(depth) = first_item(names, frame, map) {
        return Some(Difference::Item(depth));
    }
    flag_difference(frame.flag_this_uninit(), map.flag_this_uninit())
}
