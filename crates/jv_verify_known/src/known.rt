//! What is known of the local variables: into which frames of the stack map they flowed, and what of them was written since
//! (JVMS 4.10.1.4).

ghost use Rattle.std.specs.Prelude.{◌≡◌, ◌≤◌, ◌<◌, ◌*◌, ℕ, List, None, false, get_or, length, not, slice_get, ◌||◌, ◌⊎◌, IfOk, IfSome, IfNone, IsTrue};
ghost use Rattle.jv_stackmap.specs.Entries.{ReadFrame};
ghost use Rattle.jv_verify_types.specs.Numbered.{with_locals, Item};
ghost use Rattle.jv_verify_types.specs.Mapped.{expanded_entries, has_uninitialized_this, locals_flow_to, locals_of, EntryTypes, HaveWords};
ghost use Rattle.jv_verify_peaks.specs.Stretches.{AreAtMost, IsFirstAbove};
ghost use Rattle.jv_verify_maps.specs.Words.{map_by_words, words_at};
ghost use Rattle.jv_verify_known.specs.Known.{local_at, number_at, word_at, with_next, with_writes, written_at, AreNoted, AreTopsFrom, FlowsAt, IsFrameAt, IsKnown, IsMade, StaysBesideWrites, StaysKnown};
ghost use Rattle.jv_verify_known.specs.Inside.Flowing.{FlowBetween, OneFlowsNot};

use crate::blocks::{BLOCK, blocks_of};
use crate::flowing::{words_flow, written_flow};
use crate::setting::{set_between, set_written};
use crate::writes::Writes;
use jv_stackmap::MapFrames;
use jv_verify_frame::TypeFrame;
use jv_verify_maps::{MapWords, map_words};
use jv_verify_peaks::Peaks;
use jv_verify_types::EntryTypes;
use std::alloc::{AllocError, Global};
use std::marker::Model;

/// How many words a frame of the map has at most that is compared whole: so few are as soon compared as looked up.
const FEW: u16 = 32;

/// The number of the last write to each block of local variables, and, for each frame of the map, the number of the last write before they
/// flowed into it; and the frame of the map that they were made last, with the number of the last write before that. Where they were made
/// none yet, they were tops.
#[derive(Drop)]
pub struct Known {
    words: MapWords,
    writes: Writes,
    stamps: Peaks,
    origin: Option<usize>,
    merged: u32,
}

impl Model for Known {
    ghost use Rattle.std.specs.Prelude.{◌≡◌, ◌<◌, ℕ, get_or, length, IfSome};
    ghost use Rattle.jv_verify_known.specs.Known.{KnownLocals};

    ghost Value = { KnownLocals };

    ghost view = { λ k. record {
      words = k.words;
      writes = k.writes;
      stamps = k.stamps;
      origin = k.origin;
      merged = k.merged;
    } };

    ghost invariant = { λ k. record {
      many : length k.stamps ≡ length k.words.frames;
      asked : (place : ℕ) → get_or k.stamps place 0 < k.writes.next;
      made : k.merged < k.writes.next;
      within : IfSome k.origin (λ place. place < length k.words.frames);
    } };
}

/// Whether a flag that `this` may not be initialized goes to another.
fn flag_goes(from: bool, to: bool) -> bool
    ensures { result ≡ (not from || to) }
{
    !from || to
}

/// The words of the frames before a place that two of them share, where there is a second one.
fn shared(words: &MapWords, place: usize, other: Option<usize>) -> u16
    requires place { place < length words.now.frames }
    requires other { IfSome other (λ place. place < length words.now.frames) }
{
    match other {
        Some(other) => words.agree(place, other),
        None => 0,
    }
}

impl Known {
    /// Nothing is known of local variables but that those are tops behind so many, the first ones.
    ///
    /// # Errors
    ///
    /// Where the host had no memory for it, or the frames have 4,294,967,296 words of their own.
    pub fn new(
        alloc: Global,
        types: &EntryTypes<'_, '_, '_>,
        frames: &MapFrames,
        max_locals: u16,
        initial: u16,
    ) -> Result<Known, AllocError>
        requires { HaveWords types.now frames.now }
        ensures words { IfOk result (λ known. known.words ≡ map_by_words types.now frames.now) }
        ensures next { IfOk result (λ known. 0 < known.writes.next) }
        ensures known { IfOk result (λ known. (locals : List Item) → length locals ≡ max_locals
            → AreTopsFrom types.now initial locals → IsKnown types.now known locals) }
    {
        let words = map_words(alloc, types, frames)?;
        let stamps = Peaks::new(alloc, words.len(), 0)?;
        let mut writes = Writes::new(alloc, max_locals)?;
        for block in 0..blocks_of(initial) {
            writes.write_block(block);
        }
        Ok(Known {
            words,
            writes,
            stamps,
            origin: None,
            merged: 1,
        })
    }

    /// The frames of the stack map by words.
    pub fn words(&self) -> &MapWords
        ensures { result.now ≡ self.now.words }
    {
        &self.words
    }

    /// How many blocks there are.
    pub fn blocks(&self) -> usize
        ensures many { result ≡ length self.now.writes.numbers }
        ensures few { result ≤ 4096 }
    {
        self.writes.blocks()
    }

    /// The number of the last write so far, 0 where there is no number left; the next one gets another.
    pub fn ask(&mut self) -> u32
        ensures last { result < self.new.writes.next }
        ensures more { self.old.writes.next ≤ self.new.writes.next }
        ensures same { self.new ≡ with_writes (with_next self.new.writes.next self.old.writes) self.old }
        ensures known { StaysKnown self.old self.new }
    {
        self.writes.ask()
    }

    /// The next write may be to a local variable, where there is one.
    pub fn write(&mut self, place: u16)
        ensures same { self.new ≡ with_writes (written_at place self.old.writes) self.old }
        ensures known { StaysKnown self.old self.new }
    {
        self.writes.write(place);
    }

    /// What is known stays known where local variables change only where the next write may be. The call does nothing.
    pub fn stays_beside_writes(&self)
        ensures { StaysBesideWrites self.now }
    {
        // Reads a field, so that the invariant is known.
        let _words = &self.words;
    }

    /// The first block from one on, before another, that was written since a number.
    pub fn written(&self, from: usize, to: usize, since: u32) -> Option<usize>
        requires { to ≤ length self.now.writes.numbers }
        ensures some { IfSome result (λ block. IsFirstAbove since from to block self.now.writes.numbers) }
        ensures none { IfNone result (AreAtMost since from to self.now.writes.numbers) }
    {
        self.writes.written(from, to, since)
    }

    /// A number since which the local variables below one flow to the words of the frame at a place where they were not written, and one of
    /// them below which it may be better to ask of another frame.
    fn piece(&self, place: usize, to: u16) -> (u32, u16)
        requires place { place < length self.now.words.frames }
        requires some { 0 < to }
        requires blocks { to ≤ length self.now.writes.numbers * 16 }
        ensures below { result.1 < to }
        ensures flowed { (types : EntryTypes) (locals : List Item) → IsKnown types self.now locals
            → (k : ℕ) → k < to → number_at self.now.writes k ≤ result.0 → FlowsAt types self.now.words locals place k }
    {
        self.writes.are_written();
        let count = self.words.len();
        let (first, last) = self.words.alike(place, to);
        let since = self.stamps.greatest(first, last + 1);
        let Some(block) = self.writes.written(0, blocks_of(to), since) else {
            return (since, 0);
        };
        let before = shared(&self.words, place, self.stamps.last(first, since));
        let behind = shared(&self.words, place, self.stamps.next(last + 1, count, since));
        let from = before.max(behind);
        if since > 0 && usize::from(from) <= block * usize::from(BLOCK) {
            return (since, 0);
        }
        (since, from.min(to - 1))
    }

    /// Whether local variables below one flow to their words of the frame at a place: what was not written since they flowed into one with
    /// the same words is not compared.
    fn pieces_flow(
        &self,
        types: &EntryTypes<'_, '_, '_>,
        frame: &TypeFrame,
        place: usize,
        count: u16,
    ) -> bool
        requires known { IsKnown types.now self.now frame.now.locals }
        requires place { place < length self.now.words.frames }
        requires words { count ≤ length (words_at self.now.words place) }
        requires room { count ≤ length frame.now.locals }
        ensures all { IsTrue result → FlowBetween types.now self.now.words frame.now.locals place 0 count }
        ensures one { result ≡ false → OneFlowsNot types.now self.now.words frame.now.locals place }
    {
        let mut to = count;
        while to > 0 {
            let (since, from) = self.piece(place, to);
            if !written_flow(
                &self.words,
                &self.writes,
                types,
                frame,
                place,
                since,
                from,
                to,
            ) {
                return false;
            }
            to = from;
        }
        true
    }

    /// Whether the local variables flow to those of the frame of the map at a place.
    pub fn locals_flow(
        &mut self,
        types: &EntryTypes<'_, '_, '_>,
        frame: &TypeFrame,
        place: usize,
    ) -> bool
        requires known { IsKnown types.now self.old frame.now.locals }
        requires place { place < length self.old.words.frames }
        ensures flows { (map : ReadFrame) → IsFrameAt types.now self.old.words place map
            → result ≡ locals_flow_to types.now frame.now None map }
        ensures each { IsTrue result → (k : ℕ) → FlowsAt types.now self.old.words frame.now.locals place k }
        ensures known { IsKnown types.now self.new frame.now.locals }
        ensures words { self.new.words ≡ self.old.words }
        ensures writes { self.new.writes ≡ with_next self.new.writes.next self.old.writes }
        ensures more { self.old.writes.next ≤ self.new.writes.next }
    {
        let count = self.words.count(place);
        if usize::from(count) > frame.local_count() {
            return false;
        }
        if count <= FEW {
            return words_flow(&self.words, types, frame, place, 0, count);
        }
        if !self.pieces_flow(types, frame, place, count) {
            return false;
        }
        let stamp = self.ask();
        self.stamps.raise(place, stamp);
        true
    }

    /// The words, from one on, before another, in which the frame at a place can differ from that which the local variables were made.
    fn made_apart(&self, place: usize) -> (u16, u16)
        requires { place < length self.now.words.frames }
        ensures { (types : EntryTypes) (locals : List Item) (k : ℕ) → IsMade types self.now.words locals self.now.origin k
            → (k < result.0) ⊎ (result.1 ≤ k) → local_at types locals k ≡ word_at types self.now.words place k }
    {
        let count = self.words.count(place);
        match self.origin {
            Some(origin) => (
                self.words.agree(origin, place),
                count.max(self.words.count(origin)),
            ),
            None => (0, count),
        }
    }

    /// Makes the local variables those of the frame of the map at a place.
    pub fn set_locals(
        &mut self,
        types: &EntryTypes<'_, '_, '_>,
        frame: &mut TypeFrame,
        place: usize,
        max_locals: u16,
    )
        requires known { IsKnown types.now self.old frame.old.locals }
        requires place { place < length self.old.words.frames }
        requires locals { length frame.old.locals ≡ max_locals }
        requires room { length (words_at self.old.words place) ≤ max_locals }
        ensures locals { (map : ReadFrame) → IsFrameAt types.now self.old.words place map
            → locals_of types.now frame.new ≡ expanded_entries types.now max_locals map.locals }
        ensures same { frame.new ≡ with_locals frame.new.locals frame.old }
        ensures known { IsKnown types.now self.new frame.new.locals }
        ensures words { self.new.words ≡ self.old.words }
        ensures noted { AreNoted types.now self.old.writes self.new.writes frame.old.locals frame.new.locals }
        ensures more { self.old.writes.next ≤ self.new.writes.next }
    {
        let (from, to) = self.made_apart(place);
        set_written(
            &self.words,
            &mut self.writes,
            types,
            frame,
            place,
            self.merged,
            max_locals,
        );
        set_between(&self.words, &mut self.writes, types, frame, place, from, to);
        self.merged = self.ask();
        self.origin = Some(place);
    }

    /// Whether the flag of a frame flows to that of the frame of the map at a place.
    pub fn flag_flows(&self, frame: &TypeFrame, place: usize) -> bool
        requires { place < length self.now.words.frames }
        ensures { (types : EntryTypes) (map : ReadFrame) → IsFrameAt types self.now.words place map
            → result ≡ (not frame.now.flag_this_uninit || has_uninitialized_this types map) }
    {
        flag_goes(frame.flag_this_uninit(), self.words.has_this(place))
    }
}
