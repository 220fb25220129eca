//! Local variables that flow to the words of a frame of the stack map (JVMS 4.10.1.2, 4.10.1.4).

ghost use Rattle.std.specs.Prelude.{◌≡◌, ◌≤◌, ◌<◌, ◌*◌, ◌-◌, false, get_or, length, IsTrue};
ghost use Rattle.jv_stackmap.specs.declared.entry.FrameEntry.TheVariants as entries;
ghost use Rattle.jv_meaning_world.specs.Flow.{flows};
ghost use Rattle.jv_verify_types.specs.Typed.{typed};
ghost use Rattle.jv_verify_types.specs.Mapped.{names_of_types, type_of_entry, world_of_types};
ghost use Rattle.jv_verify_maps.specs.Words.{words_at};
ghost use Rattle.jv_verify_known.specs.Inside.Flowing.{FlowBetween, FlowToStretch, FlowWhereWritten, OneFlowsNot, OneFlowsNotToStretch};

use crate::blocks::{BLOCK, blocks_of, range_of};
use crate::writes::Writes;
use jv_stackmap::{FrameEntry, VerificationTypeOf};
use jv_verify_frame::TypeFrame;
use jv_verify_maps::MapWords;
use jv_verify_types::{EntryTypes, Item};

/// Whether two types are known to be one.
pub(crate) fn is_same(one: Item, other: Item) -> bool
    ensures { IsTrue result → one ≡ other }
{
    match (one, other) {
        (VerificationTypeOf::Top, VerificationTypeOf::Top) => true,
        (VerificationTypeOf::Int, VerificationTypeOf::Int) => true,
        (VerificationTypeOf::Long, VerificationTypeOf::Long) => true,
        (VerificationTypeOf::Null, VerificationTypeOf::Null) => true,
        (VerificationTypeOf::Class(one), VerificationTypeOf::Class(other)) => one == other,
        (VerificationTypeOf::Uninitialized(one), VerificationTypeOf::Uninitialized(other)) => {
            one == other
        }
        (VerificationTypeOf::UninitializedThis, VerificationTypeOf::UninitializedThis) => true,
        _ => false,
    }
}

/// Whether a type flows to another: where the two are known to be one, no table is asked.
#[inline(never)]
fn type_flows(types: &EntryTypes<'_, '_, '_>, from: Item, to: Item) -> bool
    ensures { result ≡ flows (world_of_types types.now) (typed (names_of_types types.now) from) (typed (names_of_types types.now) to) }
{
    if is_same(from, to) {
        return true;
    }
    types.names().flows(from, to)
}

/// Whether a type flows to that of an entry: to top and of an int to an int, as most do, without a call.
#[inline(always)]
fn entry_flows(types: &EntryTypes<'_, '_, '_>, from: Item, entry: FrameEntry) -> bool
    ensures { result ≡ flows (world_of_types types.now) (typed (names_of_types types.now) from) (type_of_entry types.now entry) }
{
    match (from, entry) {
        (_, FrameEntry::Top) => true,
        (VerificationTypeOf::Int, FrameEntry::Int) => true,
        _ => type_flows(types, from, types.item(entry)),
    }
}

/// The entry of a stretch of words before one, which has the last first.
#[inline(always)]
pub(crate) fn entry_at(stretch: &[FrameEntry], to: u16, at: u16) -> FrameEntry
    requires { at < to }
    ensures { result ≡ get_or stretch.now (to - 1 - at) entries.Top }
{
    match stretch.get(usize::from(to - 1 - at)) {
        Some(entry) => *entry,
        None => FrameEntry::Top,
    }
}

/// Whether local variables from one on, before another, flow to the entries of a stretch of words, which has the last first.
fn stretch_flows(
    types: &EntryTypes<'_, '_, '_>,
    frame: &TypeFrame,
    stretch: &[FrameEntry],
    from: u16,
    to: u16,
) -> bool
    requires from { from ≤ to }
    requires room { to ≤ length frame.now.locals }
    ensures all { IsTrue result → FlowToStretch types.now frame.now.locals stretch.now from to }
    ensures one { result ≡ false → OneFlowsNotToStretch types.now frame.now.locals stretch.now from to }
{
    let mut at = to;
    while at > from {
        at -= 1;
        let Some(local) = frame.local(at) else {
            return false;
        };
        if !entry_flows(types, local, entry_at(stretch, to, at)) {
            return false;
        }
    }
    true
}

/// Whether local variables from one on, before another, flow to their words of the frame at a place.
pub(crate) fn words_flow(
    words: &MapWords,
    types: &EntryTypes<'_, '_, '_>,
    frame: &TypeFrame,
    place: usize,
    from: u16,
    to: u16,
) -> bool
    requires place { place < length words.now.frames }
    requires words { to ≤ length (words_at words.now place) }
    requires room { to ≤ length frame.now.locals }
    ensures all { IsTrue result → FlowBetween types.now words.now frame.now.locals place from to }
    ensures one { result ≡ false → OneFlowsNot types.now words.now frame.now.locals place }
{
    let mut at = to;
    while at > from {
        let (first, stretch) = words.stretch(place, at);
        let end = first.max(from);
        if !stretch_flows(types, frame, stretch, end, at) {
            return false;
        }
        at = end;
    }
    true
}

/// Whether those flow that are in blocks that were written since a number.
pub(crate) fn written_flow(
    words: &MapWords,
    writes: &Writes,
    types: &EntryTypes<'_, '_, '_>,
    frame: &TypeFrame,
    place: usize,
    since: u32,
    from: u16,
    to: u16,
) -> bool
    requires place { place < length words.now.frames }
    requires words { to ≤ length (words_at words.now place) }
    requires room { to ≤ length frame.now.locals }
    requires blocks { length frame.now.locals ≤ length writes.now.numbers * 16 }
    ensures all { IsTrue result → FlowWhereWritten types.now words.now writes.now frame.now.locals place since from to }
    ensures one { result ≡ false → OneFlowsNot types.now words.now frame.now.locals place }
{
    let end = blocks_of(to);
    let mut block = usize::from(from / BLOCK);
    while let Some(found) = writes.written(block, end, since) {
        let (first, last) = range_of(found, from, to);
        if !words_flow(words, types, frame, place, first, last) {
            return false;
        }
        block = found + 1;
    }
    true
}
