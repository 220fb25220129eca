//! Frames of a stack map that are open: handlers begin at them that cover an instruction.

ghost use Rattle.std.specs.Prelude.{◌≡◌, ◌≤◌, ◌<◌, ◌+◌, ◌*◌, ◌/◌, ◌↔◌, ℕ, List, false, true, get_or, length, max, replicate, set, IsTrue, IfOk, OnOk};
ghost use Rattle.jv_stackmap.specs.declared.verification.VerificationTypeOf.TheVariants as variants;
ghost use Rattle.jv_verify_types.specs.Typed.{typed};
ghost use Rattle.jv_verify_types.specs.Mapped.{names_of_types, EntryTypes};
ghost use Rattle.jv_verify_maps.specs.Words.{words_at, MapWords};
ghost use Rattle.jv_verify_known.specs.Known.{local_at};
ghost use Rattle.jv_verify_open.specs.Open.{end_of, holds, settled, AllFlow, AreOpenAsBefore, AreWanting, FlowsToOpen, HaveFlowed, HaveRoom, TopFlowsWhere};
ghost use Rattle.jv_verify_open.specs.Inside.Finding.{AreFoundOf, BlockFlows};

use crate::wanting::{At, Stretch, want_words};
use jv_stackmap::VerificationTypeOf;
use jv_verify_frame::TypeFrame;
use jv_verify_known::{BLOCK, Known};
use jv_verify_peaks::Peaks;
use jv_verify_types::Item;
use jv_verify_wants::Wants;
use std::alloc::{AllocError, Global};
use std::marker::Model;

/// For each frame of a stack map the offset before which handlers that begin at it cover, 0 where none does, and how many frames had been
/// opened when it was last, 0 where it never was; how many were; for each block of local variables how many had been when what they want of
/// it was found; what they want; and the number of the last write when the local variables flowed to all.
pub struct OpenFrames {
    ends: Peaks,
    opened: Peaks,
    opens: u32,
    found: Vec<u32>,
    wants: Wants,
    handled: u32,
}

impl Model for OpenFrames {
    ghost use Rattle.std.specs.Prelude.{◌≡◌, ◌≤◌, ℕ, get_or, length};
    ghost use Rattle.jv_verify_open.specs.Open.{OpenFrames};

    ghost Value = { OpenFrames };

    ghost view = { λ o. record {
      ends = o.ends;
      opened = o.opened;
      opens = o.opens;
      found = o.found.items;
      wants = o.wants;
      handled = o.handled;
    } };

    ghost invariant = { λ o. record {
      many : length o.opened ≡ length o.ends;
      opened : (place : ℕ) → get_or o.opened place 0 ≤ o.opens;
      found : (block : ℕ) → get_or o.found.items block 0 ≤ o.opens;
    } };
}

impl Drop for OpenFrames {
    fn drop(self) {
        let OpenFrames {
            ends: _,
            opened: _,
            opens: _,
            found: _,
            wants: _,
            handled: _,
        } = self;
    }
}

/// Sees to it that there is a number of a block: 0 where there was none.
fn make_room(found: &mut Vec<u32>, block: usize) -> Result<(), AllocError>
    requires { block < 4096 }
    ensures there { OnOk result (block < length found.new.items) }
    ensures same { (k : ℕ) → get_or found.new.items k 0 ≡ get_or found.old.items k 0 }
{
    if found.len() <= block {
        found.resize(block + 1, 0)?;
    }
    Ok(())
}

/// Whether a local variable holds an object that is not initialized.
fn holds(frame: &TypeFrame, local: u16, object: Item) -> bool
    ensures { (names : List (List ℕ)) → result ≡ holds names object frame.now.locals local }
{
    match (object, frame.local(local)) {
        (VerificationTypeOf::UninitializedThis, Some(VerificationTypeOf::UninitializedThis)) =>
            true,
        (VerificationTypeOf::Uninitialized(one), Some(VerificationTypeOf::Uninitialized(other))) =>
            one == other,
        _ => false,
    }
}

impl OpenFrames {
    /// So many frames of a stack map, of which none is open.
    ///
    /// # Errors
    ///
    /// Where the host had no memory for them.
    pub fn new(alloc: Global, frames: usize) -> Result<OpenFrames, AllocError>
        ensures ends { IfOk result (λ made. made.ends ≡ replicate frames 0) }
        ensures opens { IfOk result (λ made. made.opens ≡ 0) }
        ensures handled { IfOk result (λ made. made.handled ≡ 0) }
        ensures wanting { IfOk result (λ made. (types : EntryTypes) (words : MapWords) (offset : ℕ) → AreWanting types words made offset) }
    {
        Ok(OpenFrames {
            ends: Peaks::new(alloc, frames, 0)?,
            opened: Peaks::new(alloc, frames, 0)?,
            opens: 0,
            found: Vec::new(alloc),
            wants: Wants::new(alloc),
            handled: 0,
        })
    }

    /// The offset before which handlers cover that begin at the frame at a place.
    pub fn end(&self, place: usize) -> u32
        requires { place < length self.now.ends }
        ensures { result ≡ end_of self.now place }
    {
        self.ends.get(place)
    }

    /// A handler that begins at the frame at a place covers before an offset.
    pub fn open(&mut self, place: usize, end: u32)
        requires place { place < length self.old.ends }
        requires opens { self.old.opens < 4294967295 }
        ensures ends { self.new.ends ≡ set self.old.ends place (max (end_of self.old place) end) }
        ensures opens { self.new.opens ≡ self.old.opens + 1 }
        ensures wanting { (types : EntryTypes) (words : MapWords) (offset : ℕ)
            → AreWanting types words self.old offset → AreWanting types words self.new offset }
    {
        self.opens += 1;
        self.opened.raise(place, self.opens);
        self.ends.raise(place, end);
    }

    /// What the frame at a place, and those around it that have its words of a block, want of this. The place behind the last of them.
    fn want_block(
        &mut self,
        at: At<'_, '_, '_, '_>,
        place: usize,
        block: usize,
    ) -> Result<usize, AllocError>
        requires place { place < length at.words.now.frames }
        requires many { length self.old.ends ≡ length at.words.now.frames }
        requires block { block < 4096 }
        requires some { block * 16 < length (words_at at.words.now place) }
        ensures found { IfOk result (λ behind. AreFoundOf at.entry.types.now at.entry.words.now at.entry.offset place behind block
            self.old self.new.wants) }
        ensures same { AreOpenAsBefore self.old self.new }
        ensures blocks { self.new.found ≡ self.old.found }
    {
        // held for a proof: a place and one more is a number of frames
        let _count = at.words.len();
        let from = block as u16 * BLOCK;
        let to = from.saturating_add(BLOCK);
        let (first, last) = at.words.alike(place, to);
        let stretch = Stretch {
            place,
            from,
            to: to.min(at.words.count(place)),
            until: self.ends.greatest(first, last + 1),
        };
        want_words(&mut self.wants, at, stretch)?;
        Ok(last + 1)
    }

    /// The place of the first frame from one on that has words of a block, or behind the last of them all.
    fn next_place(at: At<'_, '_, '_, '_>, place: usize, block: usize) -> usize
        requires place { place < length at.words.now.frames }
        requires block { block < 4096 }
        requires none { length (words_at at.words.now place) ≤ block * 16 }
        ensures more { place < result }
        ensures within { result ≤ length at.entry.words.now.frames }
        ensures few { (k : ℕ) → place ≤ k → k < result → length (words_at at.entry.words.now k) ≤ block * 16 }
    {
        match at.words.with_more(place, block as u16 * BLOCK) {
            Some(more) => more,
            None => at.words.len(),
        }
    }

    /// Finds what is wanted of a block of local variables by frames that were opened since that was found last.
    fn find(&mut self, at: At<'_, '_, '_, '_>, block: usize) -> Result<(), AllocError>
        requires many { length self.old.ends ≡ length at.words.now.frames }
        requires wanting { AreWanting at.types.now at.words.now self.old at.offset }
        requires block { block < 4096 }
        ensures wanting { OnOk result (AreWanting at.entry.types.now at.entry.words.now self.new at.entry.offset) }
        ensures found { OnOk result (get_or self.new.found block 0 ≡ self.new.opens) }
        ensures same { AreOpenAsBefore self.old self.new }
    {
        make_room(&mut self.found, block)?;
        let since = self.found[block];
        if since == self.opens {
            return Ok(());
        }
        let mut place = 0;
        while let Some(opened) = self.opened.next(place, at.words.len(), since) {
            if at.words.count(opened) > block as u16 * BLOCK {
                place = self.want_block(at, opened, block)?;
            } else {
                place = OpenFrames::next_place(at, opened, block);
            }
        }
        self.found[block] = self.opens;
        Ok(())
    }

    /// Whether a type may stand in a local variable: it flows to what each frame that is open has there.
    fn allow(&mut self, at: At<'_, '_, '_, '_>, local: u16, item: Item) -> Result<bool, AllocError>
        requires many { length self.old.ends ≡ length at.words.now.frames }
        requires wanting { AreWanting at.types.now at.words.now self.old at.offset }
        requires local { local < 65535 }
        ensures flows { IfOk result (λ allowed. IsTrue allowed
            ↔ FlowsToOpen at.entry.types.now at.entry.words.now self.old at.entry.offset local
            (typed (names_of_types at.entry.types.now) item)) }
        ensures wanting { OnOk result (AreWanting at.entry.types.now at.entry.words.now self.new at.entry.offset) }
        ensures same { AreOpenAsBefore self.old self.new }
    {
        self.find(at, usize::from(local / BLOCK))?;
        self.wants.allow(at.types.names(), local, item, at.offset)
    }

    /// Whether a local variable, where there is one, flows to its word in each frame that is open.
    fn local_flows(
        &mut self,
        at: At<'_, '_, '_, '_>,
        frame: &TypeFrame,
        local: u16,
    ) -> Result<bool, AllocError>
        requires many { length self.old.ends ≡ length at.words.now.frames }
        requires wanting { AreWanting at.types.now at.words.now self.old at.offset }
        requires local { local < 65535 }
        ensures flows { IfOk result (λ flows. IsTrue flows ↔ (local < length frame.now.locals
            → FlowsToOpen at.entry.types.now at.entry.words.now self.old at.entry.offset local
            (local_at at.entry.types.now frame.now.locals local))) }
        ensures wanting { OnOk result (AreWanting at.entry.types.now at.entry.words.now self.new at.entry.offset) }
        ensures same { AreOpenAsBefore self.old self.new }
    {
        match frame.local(local) {
            Some(item) => self.allow(at, local, item),
            None => Ok(true),
        }
    }

    /// Whether each local variable of a block flows to its word in each frame that is open.
    fn block_flows(
        &mut self,
        at: At<'_, '_, '_, '_>,
        frame: &TypeFrame,
        block: usize,
    ) -> Result<bool, AllocError>
        requires many { length self.old.ends ≡ length at.words.now.frames }
        requires wanting { AreWanting at.types.now at.words.now self.old at.offset }
        requires few { length frame.now.locals ≤ 65535 }
        requires block { block < 4096 }
        ensures all { IfOk result (λ flow. IsTrue flow
            → BlockFlows at.entry.types.now at.entry.words.now self.old at.entry.offset frame.now.locals block) }
        ensures one { IfOk result (λ flow. flow ≡ false
            → ¬ AllFlow at.entry.types.now at.entry.words.now self.old at.entry.offset frame.now.locals) }
        ensures wanting { OnOk result (AreWanting at.entry.types.now at.entry.words.now self.new at.entry.offset) }
        ensures same { AreOpenAsBefore self.old self.new }
    {
        let from = block as u16 * BLOCK;
        let mut local = from;
        while local < from.saturating_add(BLOCK) {
            if !self.local_flows(at, frame, local)? {
                return Ok(false);
            }
            local += 1;
        }
        Ok(true)
    }

    /// Whether each local variable flows to its word in each frame that is open.
    ///
    /// # Errors
    ///
    /// Where the host had no memory for what is wanted of them; what is open is then of no more use.
    pub fn locals_flow(
        &mut self,
        at: At<'_, '_, '_, '_>,
        known: &Known,
        frame: &TypeFrame,
    ) -> Result<bool, AllocError>
        requires many { length self.old.ends ≡ length at.words.now.frames }
        requires wanting { AreWanting at.types.now at.words.now self.old at.offset }
        requires words { known.now.words ≡ at.words.now }
        requires flowed { HaveFlowed at.types.now known.now self.old at.offset frame.now.locals }
        requires room { HaveRoom at.words.now (length frame.now.locals) }
        requires few { length frame.now.locals ≤ 65535 }
        ensures flow { IfOk result (λ flow. IsTrue flow
            ↔ AllFlow at.entry.types.now at.entry.words.now self.old at.entry.offset frame.now.locals) }
        ensures wanting { OnOk result (AreWanting at.entry.types.now at.entry.words.now self.new at.entry.offset) }
        ensures same { AreOpenAsBefore self.old self.new }
    {
        let mut block = 0;
        while let Some(written) = known.written(block, known.blocks(), self.handled) {
            if !self.block_flows(at, frame, written)? {
                return Ok(false);
            }
            block = written + 1;
        }
        Ok(true)
    }

    /// Whether top flows to what each frame that is open has at a place, if the local variable there holds an object that is not
    /// initialized.
    fn object_flows_at(
        &mut self,
        at: At<'_, '_, '_, '_>,
        frame: &TypeFrame,
        object: Item,
        place: u16,
    ) -> Result<bool, AllocError>
        requires many { length self.old.ends ≡ length at.words.now.frames }
        requires wanting { AreWanting at.types.now at.words.now self.old at.offset }
        requires few { length frame.now.locals ≤ 65535 }
        ensures flows { IfOk result (λ flows. IsTrue flows ↔ (holds (names_of_types at.entry.types.now) object frame.now.locals place ≡ true
            → FlowsToOpen at.entry.types.now at.entry.words.now self.old at.entry.offset place variants.Top)) }
        ensures wanting { OnOk result (AreWanting at.entry.types.now at.entry.words.now self.new at.entry.offset) }
        ensures same { AreOpenAsBefore self.old self.new }
    {
        if holds(frame, place, object) {
            self.allow(at, place, VerificationTypeOf::Top)
        } else {
            Ok(true)
        }
    }

    /// Whether top flows to what each frame that is open has where a local variable holds an object that is not initialized.
    ///
    /// # Errors
    ///
    /// Where the host had no memory for what is wanted of them; what is open is then of no more use.
    pub fn object_flows(
        &mut self,
        alloc: Global,
        at: At<'_, '_, '_, '_>,
        frame: &TypeFrame,
        object: Item,
    ) -> Result<bool, AllocError>
        requires many { length self.old.ends ≡ length at.words.now.frames }
        requires wanting { AreWanting at.types.now at.words.now self.old at.offset }
        requires few { length frame.now.locals ≤ 65535 }
        ensures flows { IfOk result (λ flows. IsTrue flows ↔ TopFlowsWhere at.entry.types.now at.entry.words.now self.old at.entry.offset
            (λ k. holds (names_of_types at.entry.types.now) object frame.now.locals k ≡ true)) }
        ensures wanting { OnOk result (AreWanting at.entry.types.now at.entry.words.now self.new at.entry.offset) }
        ensures same { AreOpenAsBefore self.old self.new }
    {
        let places = frame.copies_in_locals(alloc, object)?;
        for k in 0..places.len() {
            if !self.object_flows_at(at, frame, object, places[k])? {
                return Ok(false);
            }
        }
        Ok(true)
    }

    /// The local variables flow to all that are open where this number is that of the last write.
    pub fn settle(&mut self, number: u32)
        ensures { self.new ≡ settled number self.old }
    {
        self.handled = number;
    }
}
