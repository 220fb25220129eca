//! The frames of a stack map by words.

ghost use Rattle.std.specs.Prelude.{◌≡◌, ◌≤◌, ◌<◌, ◌+◌, ◌-◌, ℕ, [], drop, false, get_or, length, map, reverse, take, IfOk, IfSome, IfNone};
ghost use Rattle.jv_verify_peaks.specs.Stretches.{AreAtMost, IsFirstAbove};
ghost use Rattle.jv_verify_maps.specs.Words.{Agree, words_at};
ghost use Rattle.jv_verify_maps.specs.Inside.Kept.{apart_of, blank, count_of, has_this, words_from, FitFrom, IsOwner};

use jv_stackmap::FrameEntry;
use jv_verify_peaks::Peaks;
use std::alloc::{AllocError, Global};
use std::marker::Model;

/// What is kept of a frame: where its own words stand, which the frame before it doesn't have, the last first; how many words it has; how
/// many, the first ones, it shares with the frame before it; and the first word that is `this`, not initialized: at least as many as it has
/// where none is.
#[derive(Clone, Copy)]
pub(crate) struct WordsOf {
    pub(crate) start: u32,
    pub(crate) count: u16,
    pub(crate) shared: u16,
    pub(crate) this: u16,
}

/// The local variables of each frame of a stack map by words, up to the last local entry. They take 4 bytes for each word that a frame
/// doesn't share with the one before it, and 22 for each frame.
#[derive(Drop)]
pub struct MapWords {
    words: Vec<FrameEntry>,
    frames: Vec<WordsOf>,
    counts: Peaks,
    /// How many words fewer than 65,535 a frame shares with the one before it.
    apart: Peaks,
}

impl Model for MapWords {
    ghost use Rattle.std.specs.Prelude.{◌≡◌, [], map};
    ghost use Rattle.jv_verify_maps.specs.Words.{MapWords};
    ghost use Rattle.jv_verify_maps.specs.Inside.Kept.{apart_of, count_of, has_this, words_from, FitFrom};

    ghost Value = { MapWords };

    ghost view = { λ m. record {
      frames = words_from m.words.items [] m.frames.items;
      with_this = map has_this m.frames.items;
    } };

    ghost invariant = { λ m. record {
      fit : FitFrom m.words.items [] m.frames.items;
      counts : m.counts ≡ map count_of m.frames.items;
      apart : m.apart ≡ map apart_of m.frames.items;
    } };
}

/// How many words each frame has.
fn counts_of(alloc: Global, frames: &[WordsOf]) -> Result<Vec<u32>, AllocError>
    ensures { IfOk result (λ counts. counts.items ≡ map count_of frames.now) }
{
    frames
        .iter()
        .map(|frame| u32::from(frame.count))
        .collect(alloc)
}

/// How many words fewer than 65,535 each frame shares with the one before it.
fn apart_of(alloc: Global, frames: &[WordsOf]) -> Result<Vec<u32>, AllocError>
    ensures { IfOk result (λ apart. apart.items ≡ map apart_of frames.now) }
{
    frames
        .iter()
        .map(|frame| 65_535 - u32::from(frame.shared))
        .collect(alloc)
}

/// The last frame up to one at a place among whose own words that with an index is.
fn owner(frames: &[WordsOf], apart: &Peaks, place: usize, index: u16) -> usize
    requires place { place < length frames.now }
    requires index { index < 65535 }
    requires apart { apart.now ≡ map apart_of frames.now }
    requires first { (get_or frames.now 0 blank).shared ≡ 0 }
    ensures { IsOwner frames.now place index result }
{
    if frames[place].shared <= index {
        return place;
    }
    match apart.last(place, 65_534 - u32::from(index)) {
        Some(found) => found,
        None => 0,
    }
}

impl MapWords {
    /// Frames of which this is kept.
    pub(crate) fn of(
        alloc: Global,
        words: Vec<FrameEntry>,
        frames: Vec<WordsOf>,
    ) -> Result<MapWords, AllocError>
        requires { FitFrom words.items [] frames.items }
        ensures kept { IfOk result (λ m. m.frames ≡ words_from words.items [] frames.items) }
        ensures with_this { IfOk result (λ m. m.with_this ≡ map has_this frames.items) }
    {
        let counts = Peaks::of(alloc, &counts_of(alloc, &frames)?)?;
        let apart = Peaks::of(alloc, &apart_of(alloc, &frames)?)?;
        Ok(MapWords {
            words,
            frames,
            counts,
            apart,
        })
    }

    /// How many frames there are.
    pub fn len(&self) -> usize
        ensures { result ≡ length self.now.frames }
    {
        self.frames.len()
    }

    /// How many words the frame at a place has.
    pub fn count(&self, place: usize) -> u16
        requires { place < length self.now.frames }
        ensures { result ≡ length (words_at self.now place) }
    {
        self.frames[place].count
    }

    /// Whether `this`, not initialized, is among the words of the frame at a place.
    pub fn has_this(&self, place: usize) -> bool
        requires { place < length self.now.frames }
        ensures { result ≡ get_or self.now.with_this place false }
    {
        let frame = self.frames[place];
        frame.this < frame.count
    }

    /// Some words of the frame at a place, from one on up to another, the last first: those of them that stand beside each other here.
    pub fn stretch(&self, place: usize, to: u16) -> (u16, &[FrameEntry])
        requires place { place < length self.now.frames }
        requires some { 0 < to }
        requires to { to ≤ length (words_at self.now place) }
        ensures some { result.0 < to }
        ensures words { reverse result.1.now ≡ drop result.0 (take to (words_at self.now place)) }
    {
        let frame = self.frames[owner(&self.frames, &self.apart, place, to - 1)];
        let start = frame.start as usize;
        let from = start + usize::from(frame.count - to);
        (
            frame.shared,
            &self.words[from..start + usize::from(frame.count - frame.shared)],
        )
    }

    /// The first and the last of frames around the one at a place that all share so many words, the first ones.
    pub fn alike(&self, place: usize, words: u16) -> (usize, usize)
        requires { place < length self.now.frames }
        ensures first { result.0 ≤ place }
        ensures last { place ≤ result.1 }
        ensures within { result.1 < length self.now.frames }
        ensures agree { (k : ℕ) → result.0 ≤ k → k ≤ result.1 → Agree self.now k place words }
    {
        let count = self.len();
        let bound = 65_535 - u32::from(words);
        let first = match self.apart.last(place + 1, bound) {
            Some(found) => found,
            None => 0,
        };
        let last = match self.apart.next(place + 1, count, bound) {
            Some(found) => found - 1,
            None => count - 1,
        };
        (first, last)
    }

    /// How many words, the first ones, the frames at two places are known to share.
    pub fn agree(&self, place: usize, other: usize) -> u16
        requires place { place < length self.now.frames }
        requires other { other < length self.now.frames }
        ensures { Agree self.now place other result }
    {
        if place == other {
            return self.count(place);
        }
        // held for a proof: a place and one more is a number of frames
        let _count = self.len();
        let first = place.min(other);
        let last = place.max(other);
        let apart = self.apart.greatest(first + 1, last + 1);
        (65_535 - apart) as u16
    }

    /// The first frame from a place on that has more words than so many.
    pub fn with_more(&self, place: usize, words: u16) -> Option<usize>
        ensures some { IfSome result (λ found. (place ≤ found) × (found < length self.now.frames)) }
        ensures more { IfSome result (λ found. words < length (words_at self.now found)) }
        ensures fewer { IfSome result (λ found. (k : ℕ) → place ≤ k → k < found → length (words_at self.now k) ≤ words) }
        ensures none { IfNone result ((k : ℕ) → place ≤ k → k < length self.now.frames → length (words_at self.now k) ≤ words) }
    {
        self.counts.next(place, self.len(), u32::from(words))
    }
}
