//! Names in the order in which they came.

ghost use Rattle.std.specs.Prelude.{◌≡◌, ◌<◌, ◌≤◌, ◌+◌, ◌^◌, ◌++◌, ◌∷◌, [], IfOk, OnOk, OnErr, false, length, get_or, set, replicate, not, position};
ghost use Rattle.std.specs.Str.{bytes_eq};
ghost use Rattle.jv_classes.specs.Names.{has_name, with_name};
ghost use Rattle.jv_classes.specs.Texts.{text_hash};
ghost use Rattle.jv_classes.specs.Inside.KeptNames.{texts_of};
ghost use Rattle.jv_classes.specs.Inside.NameLinks.{AreLinkedTo, AreNamesLinked};

use crate::members::slot_of;
use crate::text::{seed_of, text_hash};
use std::alloc::{AllocError, Global};
use std::hash::RandomState;
use std::marker::Model;

/// For so many names there are slots from the first one on.
const LEAST: usize = 64;

/// There is no memory for more names, whose ends are kept in four bytes each.
const MOST: usize = 4_294_967_295;

/// Names, no two equal; each has the number of those that came before it. A look-up costs one hash of the name, however many there
/// are, and goes from a slot of a table through the names that fall into it, fewer than one on average besides the one that is
/// there. A name takes 16 bytes, four for its link to the last one before it in its slot, and four to eight for slots, of which
/// there are as many as names, or more: where a name joins and there is none left for it, twice as many are made, and all names
/// are hashed and linked anew, twice each on average. What falls where is up to hashes that a stranger cannot know.
pub struct Names<'a> {
    alloc: Global,
    seed: u64,
    names: Vec<&'a [u8]>,
    before: Vec<u32>,
    ends: Vec<u32>,
}

impl<'a> Model for Names<'a> {
    ghost use Rattle.std.specs.Prelude.{ℕ, List};
    ghost use Rattle.jv_classes.specs.Inside.KeptNames.{texts_of};
    ghost use Rattle.jv_classes.specs.Inside.NameLinks.{AreNamesLinked};

    ghost Value = { List (List ℕ) };

    ghost view = { λ n. texts_of n.names.items };

    ghost invariant = { λ n. AreNamesLinked n.seed n.names.items n.before.items n.ends.items };
}

impl Drop for Names<'_> {
    fn drop(self) {
        let Names {
            alloc: _,
            seed: _,
            names: _,
            before: _,
            ends: _,
        } = self;
    }
}

/// Links the name at a place, which falls into a slot, behind those before it.
fn link(before: &mut Vec<u32>, ends: &mut Vec<u32>, place: usize, slot: usize)
    requires place { place < length before.old.items }
    requires slot { slot < length ends.old.items }
    requires fits { place + 1 < 2 ^ 32 }
    ensures before { before.new.items ≡ set before.old.items place (get_or ends.old.items slot 0) }
    ensures ends { ends.new.items ≡ set ends.old.items slot (place + 1) }
{
    before[place] = ends[slot];
    ends[slot] = (place + 1) as u32;
}

/// Links all names anew, over slots that have none yet.
fn link_all(seed: u64, names: &[&[u8]], before: &mut Vec<u32>, ends: &mut Vec<u32>)
    requires few { length names.now < 2 ^ 32 }
    requires many { length before.old.items ≡ length names.now }
    requires some { 0 < length ends.old.items }
    requires none { ends.old.items ≡ replicate (length ends.old.items) 0 }
    ensures many { length before.new.items ≡ length names.now }
    ensures linked { AreLinkedTo seed (length ends.old.items) (texts_of names.now) (length names.now) before.new.items ends.new.items }
{
    let size = ends.len();
    for place in 0..names.len() {
        let slot = slot_of(size, text_hash(seed, names[place]));
        link(before, ends, place, slot);
    }
}

/// So many slots, with all names linked in them.
fn slots_of(
    alloc: Global,
    seed: u64,
    names: &[&[u8]],
    before: &mut Vec<u32>,
    size: usize,
) -> Result<Vec<u32>, AllocError>
    requires few { length names.now < 2 ^ 32 }
    requires many { length before.old.items ≡ length names.now }
    requires some { 0 < size }
    ensures many { length before.new.items ≡ length names.now }
    ensures linked { IfOk result (λ ends. AreLinkedTo seed size (texts_of names.now) (length names.now) before.new.items ends.items) }
    ensures refused { OnErr result (before.new ≡ before.old) }
{
    let mut ends = vec![in alloc; 0u32; size]?;
    link_all(seed, names, before, &mut ends);
    Ok(ends)
}

/// Makes sure that there are more slots than names.
fn make_room(
    alloc: Global,
    seed: u64,
    names: &[&[u8]],
    before: &mut Vec<u32>,
    ends: &mut Vec<u32>,
) -> Result<(), AllocError>
    requires few { length names.now < 2 ^ 32 }
    requires linked { AreNamesLinked seed names.now before.old.items ends.old.items }
    ensures linked { AreNamesLinked seed names.now before.new.items ends.new.items }
    ensures room { OnOk result (length names.now < length ends.new.items) }
{
    if names.len() < ends.len() {
        return Ok(());
    }
    let size = (2 * ends.len()).max(LEAST);
    *ends = slots_of(alloc, seed, names, before, size)?;
    Ok(())
}

/// Adds a name that isn't there yet, of which the hash is known.
fn join<'a>(
    alloc: Global,
    seed: u64,
    names: &mut Vec<&'a [u8]>,
    before: &mut Vec<u32>,
    ends: &mut Vec<u32>,
    hash: u64,
    name: &'a [u8],
) -> Result<(), AllocError>
    requires linked { AreNamesLinked seed names.old.items before.old.items ends.old.items }
    requires hash { hash ≡ text_hash seed name.now }
    requires absent { has_name (texts_of names.old.items) name.now ≡ false }
    ensures linked { AreNamesLinked seed names.new.items before.new.items ends.new.items }
    ensures ok { OnOk result (names.new.items ≡ names.old.items ++ name.entry ∷ []) }
    ensures refused { OnErr result (names.new.items ≡ names.old.items) }
{
    let place = names.len();
    if place >= MOST {
        return Err(AllocError);
    }
    make_room(alloc, seed, names, before, ends)?;
    names.reserve(1)?;
    before.reserve(1)?;
    let slot = slot_of(ends.len(), hash);
    names.push_reserved(name);
    before.push_reserved(0);
    link(before, ends, place, slot);
    Ok(())
}

/// The place of a name, of which the hash is known: from the end of its slot through those that fall into it.
fn place_in(
    seed: u64,
    names: &[&[u8]],
    before: &[u32],
    ends: &[u32],
    hash: u64,
    name: &[u8],
) -> Option<usize>
    requires linked { AreNamesLinked seed names.now before.now ends.now }
    requires hash { hash ≡ text_hash seed name.now }
    ensures { result ≡ position (bytes_eq name.now) (texts_of names.now) }
{
    if ends.is_empty() {
        return None;
    }
    let slot = slot_of(ends.len(), hash);
    let mut end = ends[slot] as usize;
    while end > 0 {
        if name == names[end - 1] {
            return Some(end - 1);
        }
        end = before[end - 1] as usize;
    }
    None
}

impl<'a> Names<'a> {
    /// No names; they are hashed with the state.
    pub fn new(alloc: Global, state: RandomState) -> Names<'a>
        ensures { result ≡ [] }
    {
        Names {
            alloc,
            seed: seed_of(state),
            names: Vec::new(alloc),
            before: Vec::new(alloc),
            ends: Vec::new(alloc),
        }
    }

    /// How many names there are.
    #[inline]
    pub fn count(&self) -> usize
        ensures { result ≡ length self.now }
    {
        self.names.len()
    }

    /// Adds a name where it isn't there yet, and says whether it wasn't.
    ///
    /// # Errors
    ///
    /// Where the host had no memory for it; nothing has then changed.
    pub fn add(&mut self, name: &'a [u8]) -> Result<bool, AllocError>
        ensures new { IfOk result (λ new. new ≡ not (has_name self.old name.now)) }
        ensures ok { OnOk result (self.new ≡ with_name self.old name.now) }
        ensures refused { OnErr result (self.new ≡ self.old) }
    {
        let hash = text_hash(self.seed, name);
        let place = place_in(self.seed, &self.names, &self.before, &self.ends, hash, name);
        if place.is_some() {
            return Ok(false);
        }
        join(
            self.alloc,
            self.seed,
            &mut self.names,
            &mut self.before,
            &mut self.ends,
            hash,
            name,
        )?;
        Ok(true)
    }

    /// The number of a name, where it is there.
    pub fn place_of(&self, name: &[u8]) -> Option<usize>
        ensures { result ≡ position (bytes_eq name.now) self.now }
    {
        let hash = text_hash(self.seed, name);
        place_in(self.seed, &self.names, &self.before, &self.ends, hash, name)
    }

    /// The name with a number.
    pub fn name(&self, place: usize) -> &'a [u8]
        requires { place < length self.now }
        ensures { result.now ≡ get_or self.now place [] }
    {
        self.names.as_slice()[place]
    }
}
