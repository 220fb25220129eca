//! Types in order, with what is known of the objects among them.

ghost use Rattle.std.specs.Prelude.{◌≡◌, ◌<◌, ◌≤◌, ◌++◌, ◌∷◌, [], ℕ, length, map, replicate, reverse, set, slice_get, MatchOption, IfOk, IfSome, OnOk, OnErr};
ghost use Rattle.std.specs.List.{list_any};
ghost use Rattle.jv_stackmap.specs.declared.verification.VerificationTypeOf.TheVariants as types;
ghost use Rattle.jv_verify_frame.specs.Inside.Before.{IsBefore, is_past};
ghost use Rattle.jv_verify_frame.specs.Inside.Swapped.{same_object, swapped};
ghost use Rattle.jv_verify_frame.specs.Inside.Tops.{AreTops};
ghost use Rattle.jv_verify_frame.specs.Inside.Noted.{Holds};
ghost use Rattle.jv_verify_types.specs.Numbered.{StoresAny, words_of_item};

use crate::locals::{put, store};
use crate::notes::{Notes, key_of, places_below};
use crate::objects::{has_object, is_at_any, replace_copies};
use crate::tops::make_tops;
use jv_stackmap::VerificationTypeOf;
use jv_verify_types::Item;
use std::alloc::{AllocError, Global};
use std::marker::Model;

/// How many types there are at least of which notes are made: fewer are as soon gone over.
const MANY: usize = 64;

/// Types in order. Each object among them that a `new` made was made before an offset: so an object of a `new` from there on
/// is not looked for; and where notes are kept, each is found by them.
pub(crate) struct Items {
    items: Vec<Item>,
    end: u32,
    notes: Notes,
}

impl Model for Items {
    ghost use Rattle.std.specs.Prelude.{List};
    ghost use Rattle.std.specs.List.{All};
    ghost use Rattle.jv_verify_types.specs.Numbered.{Item};
    ghost use Rattle.jv_verify_frame.specs.Inside.Before.{IsBefore};
    ghost use Rattle.jv_verify_frame.specs.Inside.Noted.{AreNoted};

    ghost Value = { List Item };

    ghost view = { λ i. i.items.items };

    ghost invariant = { λ i. All (IsBefore i.end) i.items.items × AreNoted i.notes i.items.items };
}

impl Drop for Items {
    fn drop(self) {
        let Items {
            items: _,
            end: _,
            notes: _,
        } = self;
    }
}

/// Whether an object was made by a `new` at an offset or behind it.
fn is_past(end: u32, object: Item) -> bool
    ensures { result ≡ is_past end object }
{
    match object {
        VerificationTypeOf::Uninitialized(offset) => end <= u32::from(offset),
        _ => false,
    }
}

/// The least offset from there on that an object's `new` stands before.
#[inline(always)]
fn raised(end: u32, item: Item) -> u32
    ensures least { end ≤ result }
    ensures before { IsBefore result item }
{
    match item {
        VerificationTypeOf::Uninitialized(offset) => {
            let offset = u32::from(offset);
            if offset < end { end } else { offset + 1 }
        }
        _ => end,
    }
}

impl Items {
    /// No types.
    pub(crate) fn new(alloc: Global) -> Items
        ensures { result ≡ [] }
    {
        Items {
            items: Vec::new(alloc),
            end: 0,
            notes: Notes::new(alloc),
        }
    }

    /// So many times top.
    pub(crate) fn tops(alloc: Global, count: usize) -> Result<Items, AllocError>
        ensures { IfOk result (λ items. items ≡ replicate count types.Top) }
    {
        let mut items = Vec::new(alloc);
        items.resize(count, VerificationTypeOf::Top)?;
        Ok(Items {
            items,
            end: 0,
            notes: Notes::new(alloc),
        })
    }

    /// Makes each top, where those from a place on are.
    pub(crate) fn make_tops_below(&mut self, used: usize)
        requires { AreTops used self.old }
        ensures { self.new ≡ replicate (length self.old) types.Top }
    {
        make_tops(&mut self.items, used);
        self.end = 0;
        self.notes.forget();
    }

    /// So many times top, where those from a place on are. It costs those before the place, and as many as there come to be more.
    pub(crate) fn renew(&mut self, used: usize, count: usize) -> Result<(), AllocError>
        requires { AreTops used self.old }
        ensures ok { OnOk result (self.new ≡ replicate count types.Top) }
        ensures refused { OnErr result (self.new ≡ []) }
    {
        self.make_tops_below(used);
        match self.items.resize(count, VerificationTypeOf::Top) {
            Ok(()) => Ok(()),
            Err(fault) => {
                self.clear();
                Err(fault)
            }
        }
    }

    /// Takes all away.
    pub(crate) fn clear(&mut self)
        ensures { self.new ≡ [] }
    {
        self.items.clear();
        self.end = 0;
        self.notes.forget();
    }

    #[inline(always)]
    pub(crate) fn len(&self) -> usize
        ensures { result ≡ length self.now }
    {
        self.items.len()
    }

    /// The type at a place.
    #[inline(always)]
    pub(crate) fn get(&self, place: usize) -> Option<Item>
        ensures { result ≡ slice_get self.now place }
    {
        self.items.get(place).copied()
    }

    /// Puts a type behind the others; nothing has changed where there is no memory for it.
    #[inline(always)]
    pub(crate) fn push(&mut self, item: Item) -> Result<(), AllocError>
        ensures ok { OnOk result (self.new ≡ self.old ++ item ∷ []) }
        ensures refused { OnErr result (self.new ≡ self.old) }
    {
        let place = self.items.len();
        self.items.push(item)?;
        self.end = raised(self.end, item);
        self.notes.add(place, item, place);
        Ok(())
    }

    /// Takes the last one.
    #[inline(always)]
    pub(crate) fn pop(&mut self) -> Option<Item>
        ensures { MatchOption result ((self.new ≡ self.old) × (self.old ≡ [])) (λ item. self.old ≡ self.new ++ item ∷ []) }
    {
        self.items.pop()
    }

    /// Turns them over.
    pub(crate) fn turn(&mut self)
        ensures { self.new ≡ reverse self.old }
    {
        self.notes.forget();
        self.items.reverse();
    }

    /// Stores an item at a place, a long there and at the next, if there are as many.
    #[inline]
    pub(crate) fn store(&mut self, index: usize, item: Item) -> bool
        ensures stored { StoresAny result (words_of_item item) index self.old self.new }
        ensures same { length self.new ≡ length self.old }
        ensures tops { (used : ℕ) → index < used → AreTops used self.old → AreTops used self.new }
    {
        self.end = raised(self.end, item);
        self.notes.add(index, item, self.items.len());
        store(&mut self.items, index, item)
    }

    /// Puts a type at a place, where there is one, and leaves what is beside it.
    pub(crate) fn put(&mut self, place: usize, item: Item)
        ensures items { self.new ≡ set self.old place item }
        ensures tops { (used : ℕ) → place < used → AreTops used self.old → AreTops used self.new }
    {
        self.end = raised(self.end, item);
        self.notes.add(place, item, self.items.len());
        put(&mut self.items, place, item);
    }

    /// Makes notes of the objects among many, where none is from a place on.
    fn make_notes(&mut self, used: usize)
        requires { AreTops used self.old }
        ensures { self.new ≡ self.old }
    {
        if self.items.len() >= MANY {
            self.notes.make(&self.items, used);
        }
    }

    /// The places of an object, where notes say them.
    fn noted(&self, object: Item) -> Option<Vec<u16>>
        ensures { IfSome result (λ places. Holds places.items object self.now) }
    {
        if !self.notes.are_kept() {
            return None;
        }
        let key = key_of(object)?;
        self.notes.places(&self.items, object, key).ok()
    }

    /// Puts a type in the place of each copy of an object, where none is from a place on.
    pub(crate) fn replace(&mut self, object: Item, by: Item, used: usize)
        requires { AreTops used self.old }
        ensures { self.new ≡ map (swapped object by) self.old }
    {
        if is_past(self.end, object) {
            return;
        }
        self.make_notes(used);
        let places = self.noted(object);
        self.end = raised(self.end, by);
        self.notes.allow(by);
        self.notes.leave(object);
        replace_copies(&mut self.items, places.as_deref(), object, by);
    }

    /// Whether an object is among them.
    pub(crate) fn has(&self, object: Item) -> bool
        ensures { result ≡ list_any (same_object object) self.now }
    {
        if is_past(self.end, object) {
            return false;
        }
        match self.noted(object) {
            Some(places) => is_at_any(&self.items, &places, object),
            None => has_object(&self.items, object),
        }
    }

    /// Whether an object is among them, for which notes may be made.
    pub(crate) fn find(&mut self, object: Item) -> bool
        ensures found { result ≡ list_any (same_object object) self.old }
        ensures same { self.new ≡ self.old }
    {
        if is_past(self.end, object) {
            return false;
        }
        let count = self.items.len();
        self.make_notes(count);
        self.has(object)
    }

    /// The places of an object, where none is from a place on.
    pub(crate) fn copies(
        &self,
        alloc: Global,
        object: Item,
        used: usize,
    ) -> Result<Vec<u16>, AllocError>
        requires { AreTops used self.now }
        ensures { IfOk result (λ places. Holds places.items object self.now) }
    {
        if is_past(self.end, object) {
            return Ok(Vec::new(alloc));
        }
        match self.noted(object) {
            Some(places) => Ok(places),
            None => places_below(alloc, &self.items, object, used),
        }
    }
}
