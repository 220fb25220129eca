//! The frames of a method (JVMS 4.7.4).

ghost use Rattle.std.specs.Prelude.{◌≡◌, ◌≢◌, ◌<◌, List, [], length, map, slice_get, Some, IfOk, IfSome, IfNone, Err};
ghost use Rattle.std.specs.List.{All};
ghost use Rattle.std.specs.Option.{option_map};
ghost use Rattle.jv_stackmap.specs.declared.fault.FrameFault.TheVariants.{BadFrames};
ghost use Rattle.jv_stackmap.specs.Types.{FrameType};
ghost use Rattle.jv_stackmap.specs.Frames.{PlacedFrame, Maps};
ghost use Rattle.jv_stackmap.specs.Entries.{frames_placed, HaveWidths, HoldsKnown, HasItsWords, offset_of, SharesBelow};
ghost use Rattle.jv_stackmap.specs.Inside.Nodes.{frame_in, AreRising};

use crate::entries::MapFrame;
use crate::fault::FrameFault;
use crate::limits::Limits;
use crate::nodes::{KeptFrame, Nodes};
use crate::reading::read_table;
use crate::width::Width;
use jv_pool::{Pool, kinds_name};
use jv_text::types_agree;
use std::alloc::Global;
use std::marker::Model;

/// The frames of a method, by place, in the order of their offsets.
///
/// They take 16 bytes a frame and 4 a local entry or stack item that the stack map has, and 8 more
/// at most twice a frame, where entries are laid on some that were read long before; what
/// frames share is kept once. Room for one entry a byte of the stack map is reserved.
#[derive(Drop)]
pub struct MapFrames {
    nodes: Nodes,
    frames: Vec<KeptFrame>,
}

impl Model for MapFrames {
    ghost use Rattle.std.specs.Prelude.{List, map};
    ghost use Rattle.jv_stackmap.specs.Entries.{ReadFrame};

    ghost Value = { List ReadFrame };

    ghost use Rattle.jv_stackmap.specs.Inside.Nodes.{frame_in, AreRising};

    ghost view = { λ f. map (frame_in f.nodes) f.frames.items };

    ghost invariant = { λ f. AreRising f.frames.items };
}

/// The frames that the contents of a StackMapTable attribute have behind initial local entries of
/// these widths, each within the limits.
///
/// Which types the initial local entries have makes no difference here, and an Object's class is
/// left as its index. The offset of a frame can be past every instruction; that it is an
/// instruction's is not asked, nor that the offset of an uninitialized type is that of a `new`.
///
/// # Errors
///
/// `BadFrames` where the bytes have no such frames; `OutOfMemory` where the host had none for them,
/// where they have more than 4,294,967,295 entries, or where there are more than 65,536 initial
/// ones.
pub fn read_frames(
    alloc: Global,
    bytes: &[u8],
    pool: &Pool<'_>,
    widths: &[Width],
    limits: Limits,
) -> Result<MapFrames, FrameFault>
    ensures ok { (types : List FrameType) → HaveWidths types widths.now
        → IfOk result (λ frames. Maps pool.now limits types bytes.now (frames_placed pool.now types limits.max_locals frames)) }
    ensures known { IfOk result (λ frames. All (HoldsKnown pool.now widths.now) frames) }
    ensures words { IfOk result (λ frames. All (HasItsWords widths.now) frames) }
    ensures bad { result ≡ Err BadFrames
        → (types : List FrameType) → HaveWidths types widths.now → (frames : List PlacedFrame)
        → Maps pool.now limits types bytes.now frames → ⊥ }
{
    pool.keeps_rules();
    kinds_name();
    types_agree();
    let table = read_table(alloc, bytes, pool, widths, limits)?;
    Ok(table.frames())
}

/// The frames of a method that has no StackMapTable attribute: none.
pub fn no_frames(alloc: Global) -> MapFrames
    ensures { result ≡ [] }
{
    MapFrames {
        nodes: Nodes::none(alloc),
        frames: Vec::new(alloc),
    }
}

impl MapFrames {
    /// The frames that were kept, with their entries among the nodes.
    pub(crate) fn of(nodes: Nodes, frames: Vec<KeptFrame>) -> MapFrames
        requires { AreRising frames.items }
        ensures { result ≡ map (frame_in nodes) frames.items }
    {
        MapFrames { nodes, frames }
    }

    /// How many frames there are.
    pub fn count(&self) -> usize
        ensures { result ≡ length self.now }
    {
        self.frames.len()
    }

    /// The frame at a place, which counts from 0.
    pub fn frame_at(&self, place: usize) -> MapFrame<'_>
        requires { place < length self.now }
        ensures { slice_get self.now place ≡ Some result }
    {
        MapFrame::of(&self.nodes, self.frames[place])
    }

    /// How many local entries two frames have, from the last on, above those that they are known to share, where these are at most so
    /// many in all.
    pub fn above_shared(&self, place: usize, other: usize, most: usize) -> Option<(usize, usize)>
        requires place { place < length self.now }
        requires other { other < length self.now }
        ensures { IfSome result (λ above. SharesBelow above (slice_get self.now place) (slice_get self.now other)) }
    {
        self.nodes
            .above_shared(self.frames[place].locals, self.frames[other].locals, most)
    }

    /// The place of the frame at an offset in the code, in bytes; `None` where none stands there.
    pub fn place_of(&self, offset: u32) -> Option<usize>
        ensures found { IfSome result (λ place. option_map offset_of (slice_get self.now place) ≡ Some offset) }
        ensures none { IfNone result (All (λ f. f.offset ≢ offset) self.now) }
    {
        self.frames
            .binary_search_by_key(&offset, |frame| frame.offset)
            .ok()
    }
}
