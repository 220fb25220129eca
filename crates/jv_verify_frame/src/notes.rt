//! Notes of where objects that are not initialized stand among types, by a number of each.

ghost use Rattle.std.specs.Prelude.{◌≡◌, ◌<◌, ℕ, Some, true, false, get_or, length, set, slice_get, IfOk, IsTrue, OnOk};
ghost use Rattle.jv_verify_types.specs.Numbered.{Item};
ghost use Rattle.jv_verify_frame.specs.Inside.Tops.{AreTops};
ghost use Rattle.jv_verify_frame.specs.Inside.Noted.{Adds, AreNoted, Holds, IsPlain, Joins, LeavesOut, is_among, key_of};

use crate::objects::is_at;
use crate::tops::least;
use jv_stackmap::VerificationTypeOf;
use jv_verify_types::Item;
use std::alloc::{AllocError, Global};
use std::marker::Model;

/// An object came to a place; and how many notes there were when the one of the same object before it had joined, or 0.
#[derive(Clone, Copy)]
pub(crate) struct Note {
    place: u16,
    key: u32,
    before: u32,
}

/// Where objects came to stand, and how many notes there were when the last of each object had joined, or 0. A note may be of an object
/// that stands there no more; where notes are kept, each that does is in the chain of its object's.
pub(crate) struct Notes {
    alloc: Global,
    kept: bool,
    notes: Vec<Note>,
    ends: Vec<u32>,
}

impl Model for Notes {
    ghost use Rattle.jv_verify_frame.specs.Inside.Noted.{Noted};

    ghost Value = { Noted };

    ghost view = { λ n. record { kept = n.kept; notes = n.notes.items; ends = n.ends.items } };
}

impl Drop for Notes {
    fn drop(self) {
        let Notes {
            alloc: _,
            kept: _,
            notes: _,
            ends: _,
        } = self;
    }
}

/// The number of an object that is not initialized: of `this`, or of what the `new` at an offset made.
#[inline(always)]
pub(crate) fn key_of(item: Item) -> Option<u32>
    ensures { result ≡ key_of item }
{
    match item {
        VerificationTypeOf::UninitializedThis => Some(0),
        VerificationTypeOf::Uninitialized(offset) => Some(u32::from(offset) + 1),
        _ => None,
    }
}

/// How many notes there were when the last of a number had joined.
fn end_at(ends: &[u32], key: u32) -> u32
    ensures { result ≡ get_or ends.now key 0 }
{
    match ends.get(key as usize) {
        Some(end) => *end,
        None => 0,
    }
}

/// Sets that, where there is room for it.
#[tactic(auto, using(std::proofs::lemmas::List::set_past))]
fn set_end(ends: &mut [u32], key: u32, end: u32)
    ensures { ends.new ≡ set ends.old key end }
{
    let place = key as usize;
    if place < ends.len() {
        ends[place] = end;
    }
}

/// No note is any more.
fn clear_ends(ends: &mut [u32], notes: &[Note]) {
    for k in 0..notes.len() {
        set_end(ends, notes[k].key, 0);
    }
}

/// Makes room for a number; the others are as they were.
fn reach(ends: &mut Vec<u32>, key: u32) -> Result<(), AllocError>
    ensures room { OnOk result (key < length ends.new.items) }
    ensures same { (k : ℕ) → get_or ends.new.items k 0 ≡ get_or ends.old.items k 0 }
{
    let place = key as usize;
    if place < ends.len() {
        return Ok(());
    }
    ends.resize(place + place / 2 + 16, 0)?;
    Ok(())
}

/// How many notes there are at most beside so many types: more are made anew.
fn most(count: usize) -> usize {
    count.saturating_add(count).saturating_add(64)
}

/// Puts a place behind others, if a test holds.
fn push_if(places: &mut Vec<u16>, place: u16, test: bool) -> Result<(), AllocError>
    ensures same { OnOk result ((k : ℕ) → is_among places.old.items k ≡ true → is_among places.new.items k ≡ true) }
    ensures place { OnOk result (IsTrue test → is_among places.new.items place ≡ true) }
{
    if test {
        places.push(place)?;
    }
    Ok(())
}

/// The note at a place.
fn note_at(notes: &[Note], place: usize) -> Option<Note>
    ensures { result ≡ slice_get notes.now place }
{
    notes.get(place).copied()
}

/// How many notes there were when the one before a note had joined, which was the last of more; that it says so is tested.
fn before(note: Note, end: usize) -> Result<usize, AllocError>
    ensures { IfOk result (λ left. (left ≡ note.before) × (left < end)) }
{
    let left = note.before as usize;
    if left < end {
        Ok(left)
    } else {
        Err(AllocError)
    }
}

/// The places before another at which an object stands, where none is from there on.
pub(crate) fn places_below(
    alloc: Global,
    items: &[Item],
    object: Item,
    used: usize,
) -> Result<Vec<u16>, AllocError>
    requires { AreTops used items.now }
    ensures { IfOk result (λ places. Holds places.items object items.now) }
{
    let Ok(end) = u16::try_from(least(used, items.len())) else {
        return Err(AllocError);
    };
    let mut places = Vec::new(alloc);
    for place in 0..end {
        push_if(&mut places, place, is_at(items, place, object))?;
    }
    Ok(places)
}

impl Notes {
    /// None is kept.
    pub(crate) fn new(alloc: Global) -> Notes
        ensures { result.kept ≡ false }
    {
        Notes {
            alloc,
            kept: false,
            notes: Vec::new(alloc),
            ends: Vec::new(alloc),
        }
    }

    /// Keeps none any more.
    #[inline]
    pub(crate) fn forget(&mut self)
        ensures { self.new.kept ≡ false }
    {
        self.kept = false;
        if self.notes.is_empty() {
            return;
        }
        clear_ends(&mut self.ends, &self.notes);
        self.notes.clear();
    }

    /// Whether notes are kept.
    #[inline(always)]
    pub(crate) fn are_kept(&self) -> bool
        ensures { result ≡ self.now.kept }
    {
        self.kept
    }

    /// A note joins the others.
    fn join(&mut self, place: u16, key: u32) -> Result<(), AllocError>
        ensures { OnOk result (Joins place key self.old self.new) }
    {
        let Ok(count) = u32::try_from(self.notes.len()) else {
            return Err(AllocError);
        };
        let Some(end) = count.checked_add(1) else {
            return Err(AllocError);
        };
        reach(&mut self.ends, key)?;
        let before = end_at(&self.ends, key);
        self.notes.push(Note { place, key, before })?;
        set_end(&mut self.ends, key, end);
        Ok(())
    }

    /// The object with a number is noted, or none is any more.
    fn add_object(&mut self, place: usize, key: u32, count: usize)
        ensures { (item : Item) → key_of item ≡ Some key → Adds place item self.old self.new }
    {
        if self.notes.len() > most(count) {
            self.forget();
            return;
        }
        let Ok(place) = u16::try_from(place) else {
            self.forget();
            return;
        };
        match self.join(place, key) {
            Ok(()) => {}
            Err(_) => self.forget(),
        }
    }

    /// A type comes to stand at a place, among so many.
    #[inline(always)]
    pub(crate) fn add(&mut self, place: usize, item: Item, count: usize)
        ensures { Adds place item self.old self.new }
    {
        if !self.kept {
            return;
        }
        match key_of(item) {
            Some(key) => self.add_object(place, key, count),
            None => {}
        }
    }

    /// A type may come to stand in the place of others: where it is an object, notes are kept no more.
    pub(crate) fn allow(&mut self, item: Item)
        ensures kept { IsTrue self.new.kept → self.new ≡ self.old }
        ensures none { IsTrue self.new.kept → IsPlain item }
    {
        match key_of(item) {
            Some(_) => self.forget(),
            None => {}
        }
    }

    /// An object stands nowhere any more.
    pub(crate) fn leave(&mut self, object: Item)
        ensures { LeavesOut object self.old self.new }
    {
        match key_of(object) {
            Some(key) => set_end(&mut self.ends, key, 0),
            None => {}
        }
    }

    /// Notes all objects, where none is from a place on.
    pub(crate) fn make(&mut self, items: &[Item], used: usize)
        requires tops { AreTops used items.now }
        requires noted { AreNoted self.old items.now }
        ensures { AreNoted self.new items.now }
    {
        if self.kept {
            return;
        }
        self.kept = true;
        let end = least(used, items.len());
        for place in 0..end {
            self.add(place, items[place], items.len());
        }
    }

    /// The places at which an object stands that has a number.
    pub(crate) fn places(
        &self,
        items: &[Item],
        object: Item,
        key: u32,
    ) -> Result<Vec<u16>, AllocError>
        requires key { key_of object ≡ Some key }
        requires kept { IsTrue self.now.kept }
        requires noted { AreNoted self.now items.now }
        ensures { IfOk result (λ places. Holds places.items object items.now) }
    {
        let mut places = Vec::new(self.alloc);
        let mut left = end_at(&self.ends, key) as usize;
        while left > 0 {
            let Some(note) = note_at(&self.notes, left - 1) else {
                return Err(AllocError);
            };
            push_if(&mut places, note.place, is_at(items, note.place, object))?;
            left = before(note, left)?;
        }
        Ok(places)
    }
}
