//! Local variables.

ghost use Rattle.std.specs.Prelude.{◌≡◌, ◌<◌, ◌≤◌, length, map, replicate, set, slice_get, IfOk, OnOk};
ghost use Rattle.std.specs.List.{list_any};
ghost use Rattle.jv_stackmap.specs.declared.verification.VerificationTypeOf.TheVariants as types;
ghost use Rattle.jv_verify_frame.specs.Inside.Noted.{Holds};
ghost use Rattle.jv_verify_frame.specs.Inside.Swapped.{same_object, swapped};
ghost use Rattle.jv_verify_types.specs.Numbered.{StoresAny, words_of_item};

use crate::items::Items;
use jv_verify_types::Item;
use std::alloc::{AllocError, Global};
use std::marker::Model;

/// Local variables, of which those from a place on are known to hold nothing.
pub(crate) struct Variables {
    items: Items,
    used: usize,
}

impl Model for Variables {
    ghost use Rattle.std.specs.Prelude.{List};
    ghost use Rattle.jv_verify_types.specs.Numbered.{Item};
    ghost use Rattle.jv_verify_frame.specs.Inside.Tops.{AreTops};

    ghost Value = { List Item };

    ghost view = { λ v. v.items };

    ghost invariant = { λ v. AreTops v.used v.items };
}

impl Drop for Variables {
    fn drop(self) {
        let Variables { items: _, used: _ } = self;
    }
}

/// The place from which on there is nothing, where something is stored at an index.
#[inline(always)]
fn reaching(used: usize, index: usize) -> usize
    requires { index < 65536 }
    ensures least { used ≤ result }
    ensures behind { index < result }
{
    if used <= index { index + 1 } else { used }
}

impl Variables {
    /// So many that hold nothing.
    pub(crate) fn tops(alloc: Global, count: usize) -> Result<Variables, AllocError>
        ensures { IfOk result (λ variables. variables ≡ replicate count types.Top) }
    {
        let items = Items::tops(alloc, count)?;
        Ok(Variables { items, used: 0 })
    }

    /// Takes what they hold, at those places where there can be something.
    pub(crate) fn make_tops(&mut self)
        ensures { self.new ≡ replicate (length self.old) types.Top }
    {
        self.items.make_tops_below(self.used);
        self.used = 0;
    }

    /// So many that hold nothing, in the place of these.
    pub(crate) fn renew(&mut self, count: usize) -> Result<(), AllocError>
        ensures { OnOk result (self.new ≡ replicate count types.Top) }
    {
        let used = self.used;
        self.used = count;
        self.items.renew(used, count)?;
        self.used = 0;
        Ok(())
    }

    #[inline(always)]
    pub(crate) fn len(&self) -> usize
        ensures { result ≡ length self.now }
    {
        self.items.len()
    }

    /// The type at a place.
    #[inline(always)]
    pub(crate) fn get(&self, place: usize) -> Option<Item>
        ensures { result ≡ slice_get self.now place }
    {
        self.items.get(place)
    }

    /// Stores an item at a place, a long there and at the next, if there are as many.
    #[inline]
    pub(crate) fn store(&mut self, index: u16, item: Item) -> bool
        ensures stored { StoresAny result (words_of_item item) index self.old self.new }
        ensures same { length self.new ≡ length self.old }
    {
        let index = usize::from(index);
        self.used = reaching(self.used, index);
        self.items.store(index, item)
    }

    /// Puts a type at a place, where there is one, and leaves what is beside it.
    pub(crate) fn put(&mut self, index: u16, item: Item)
        ensures { self.new ≡ set self.old index item }
    {
        let index = usize::from(index);
        self.used = reaching(self.used, index);
        self.items.put(index, item);
    }

    /// Whether an object is among their types.
    pub(crate) fn has(&self, object: Item) -> bool
        ensures { result ≡ list_any (same_object object) self.now }
    {
        self.items.has(object)
    }

    /// Puts a type in the place of each copy of an object.
    pub(crate) fn replace(&mut self, object: Item, by: Item)
        ensures { self.new ≡ map (swapped object by) self.old }
    {
        self.items.replace(object, by, self.used);
    }

    /// The places of an object.
    pub(crate) fn copies(&self, alloc: Global, object: Item) -> Result<Vec<u16>, AllocError>
        ensures { IfOk result (λ places. Holds places.items object self.now) }
    {
        self.items.copies(alloc, object, self.used)
    }
}
