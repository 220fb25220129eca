//! What is wanted of one local variable.

ghost use Rattle.std.specs.Prelude.{◌≡◌, ◌<◌, ◌++◌, ◌∷◌, ◌↔◌, [], Some, IfOk, IfSome, OnOk, OnErr, IsTrue, length, set, slice_get};
ghost use Rattle.std.specs.List.{filter, list_all, position};
ghost use Rattle.jv_verify_types.specs.Typed.{TypeWorld};
ghost use Rattle.jv_verify_wants.specs.Inside.Allowed.{allows, is_open, is_open_of, kept_of, raised, Allow, IsAllowed, IsOpenAt, KeepsWants, AddsToWants, FlowsToAll};

use crate::codes::{Code, code, same_item};
use jv_stackmap::VerificationTypeOf;
use jv_verify_types::{Item, TypeNames};
use std::alloc::{AllocError, Global};
use std::collections::BTreeMap;

/// How many types are wanted of a local variable at most that are gone over each time: so few are as soon gone over as looked up.
const FEW: usize = 8;

/// A type that is wanted, and the offset until which it is.
#[derive(Clone, Copy)]
pub(crate) struct Want {
    pub(crate) item: Item,
    pub(crate) until: u32,
}

/// What is wanted of a local variable, that which came last behind the others; how many were left when those that had ended were let go; at
/// which place a type stands; the type that was allowed last, and by how many wants, the first ones; and by how many each other type was.
#[derive(Drop)]
pub(crate) struct Variable {
    pub(crate) wants: Vec<Want>,
    kept: usize,
    places: BTreeMap<Code, u32>,
    last: Item,
    last_allowed: usize,
    allowed: BTreeMap<Code, u32>,
}

/// Whether a type is wanted by a want at an offset.
fn is_open_of(want: Want, item: Item, offset: u32) -> bool
    ensures { result ≡ is_open_of item offset want }
{
    want.until > offset && same_item(want.item, item)
}

/// The first place of a type that is wanted at an offset.
fn place_among(wants: &[Want], item: Item, offset: u32) -> Option<usize>
    ensures { result ≡ position (is_open_of item offset) wants.now }
{
    wants
        .iter()
        .position(|want| is_open_of(*want, item, offset))
}

/// Whether a type flows to each of some wants that has not ended at an offset.
fn flows_to_all(names: &TypeNames<'_, '_>, item: Item, wants: &[Want], offset: u32) -> bool
    ensures { result ≡ list_all (allows names.now offset item) wants.now }
{
    wants.iter().all(|want| want.until <= offset || names.flows(item, want.item))
}

/// Those wants that have not ended at an offset.
fn open_wants(alloc: Global, wants: &[Want], offset: u32) -> Result<Vec<Want>, AllocError>
    ensures { IfOk result (λ left. left.items ≡ filter (is_open offset) wants.now) }
{
    wants
        .iter()
        .copied()
        .filter(|want| want.until > offset)
        .collect(alloc)
}

/// At which place each type stands: a look there tells whether it is still wanted.
fn places_of(alloc: Global, wants: &[Want]) -> Result<BTreeMap<Code, u32>, AllocError> {
    let mut places = BTreeMap::new(alloc);
    for k in 0..wants.len() {
        if let Ok(place) = u32::try_from(k) {
            places.insert(code(wants[k].item), place)?;
        }
    }
    Ok(places)
}

/// Raises the offset until which the want at a place is.
fn raise(wants: &mut [Want], place: usize, until: u32)
    requires { place < length wants.old }
    ensures { (want : _) → slice_get wants.old place ≡ Some want → wants.new ≡ set wants.old place (raised want until) }
{
    wants[place].until = wants[place].until.max(until);
}

impl Variable {
    /// Nothing is wanted.
    pub(crate) fn new(alloc: Global) -> Variable
        ensures wants { result.wants.items ≡ [] }
        ensures allowed { (types : TypeWorld) (offset : _) → IsAllowed types offset (kept_of result) }
    {
        Variable {
            wants: Vec::new(alloc),
            kept: 0,
            places: BTreeMap::new(alloc),
            last: VerificationTypeOf::Top,
            last_allowed: 0,
            allowed: BTreeMap::new(alloc),
        }
    }

    /// The place of a type that is wanted at an offset.
    fn place_of(&self, item: Item, offset: u32) -> Option<usize>
        ensures { IfSome result (λ place. IsOpenAt self.now.wants.items place item offset) }
    {
        if self.wants.len() <= FEW {
            return place_among(&self.wants, item, offset);
        }
        let place = *self.places.get(&code(item))? as usize;
        let want = *self.wants.get(place)?;
        if is_open_of(want, item, offset) {
            Some(place)
        } else {
            None
        }
    }

    /// Lets those go that have ended at an offset, where these are more than the others, and with them what was allowed.
    fn let_go(&mut self, alloc: Global, offset: u32) -> Result<(), AllocError>
        ensures wants { KeepsWants offset self.old.wants.items self.new.wants.items }
        ensures allowed { (types : TypeWorld) → IsAllowed types offset (kept_of self.old) → IsAllowed types offset (kept_of self.new) }
    {
        if self.wants.len() / 2 < self.kept.saturating_add(FEW) {
            return Ok(());
        }
        let left = open_wants(alloc, &self.wants, offset)?;
        self.places = places_of(alloc, &left)?;
        self.kept = left.len();
        self.wants = left;
        self.last_allowed = 0;
        self.allowed = BTreeMap::new(alloc);
        Ok(())
    }

    /// A want more, behind the others.
    fn push(&mut self, item: Item, until: u32) -> Result<(), AllocError>
        ensures ok { OnOk result (self.new.wants.items ≡ self.old.wants.items ++ (record { item = item; until = until }) ∷ []) }
        ensures refused { OnErr result (self.new.wants.items ≡ self.old.wants.items) }
        ensures last { self.new.last ≡ self.old.last }
        ensures last_allowed { self.new.last_allowed ≡ self.old.last_allowed }
        ensures allowed { self.new.allowed ≡ self.old.allowed }
    {
        let count = self.wants.len();
        if count >= FEW
            && let Ok(place) = u32::try_from(count)
        {
            self.places.insert(code(item), place)?;
        }
        self.wants.push(Want { item, until })?;
        Ok(())
    }

    /// A type is wanted until an offset, where another is the current one.
    pub(crate) fn add(
        &mut self,
        alloc: Global,
        item: Item,
        until: u32,
        offset: u32,
    ) -> Result<(), AllocError>
        ensures ok { OnOk result (AddsToWants offset item until self.old.wants.items self.new.wants.items) }
        ensures refused { OnErr result (KeepsWants offset self.old.wants.items self.new.wants.items) }
        ensures allowed { (types : TypeWorld) → IsAllowed types offset (kept_of self.old) → IsAllowed types offset (kept_of self.new) }
    {
        if let Some(place) = self.place_of(item, offset) {
            raise(&mut self.wants, place, until);
            return Ok(());
        }
        self.let_go(alloc, offset)?;
        self.push(item, until)
    }

    /// By how many wants, the first ones, a type is known to be allowed.
    fn allowed_by(&self, item: Item) -> usize
        ensures { (types : TypeWorld) (offset : _) → IsAllowed types offset (kept_of self.now)
            → Allow types offset item self.now.wants.items result }
    {
        if same_item(self.last, item) {
            return self.last_allowed;
        }
        if self.wants.len() <= FEW {
            return 0;
        }
        match self.allowed.get(&code(item)) {
            Some(count) => *count as usize,
            None => 0,
        }
    }

    /// Keeps the type that was allowed last with the others, where it is another one, and there are more than few wants.
    fn keep_last(&mut self, item: Item) -> Result<(), AllocError>
        ensures wants { self.new.wants ≡ self.old.wants }
        ensures allowed { (types : TypeWorld) (offset : _) → IsAllowed types offset (kept_of self.old)
            → IsAllowed types offset (kept_of self.new) }
    {
        if same_item(self.last, item) || self.wants.len() <= FEW || self.last_allowed == 0 {
            return Ok(());
        }
        let Ok(count) = u32::try_from(self.last_allowed) else {
            return Ok(());
        };
        self.allowed.insert(code(self.last), count)?;
        Ok(())
    }

    /// Remembers a type that all wants allow.
    fn remember(&mut self, item: Item) -> Result<(), AllocError>
        ensures wants { self.new.wants ≡ self.old.wants }
        ensures allowed { (types : TypeWorld) (offset : _) → IsAllowed types offset (kept_of self.old)
            → Allow types offset item self.old.wants.items (length self.old.wants.items) → IsAllowed types offset (kept_of self.new) }
    {
        self.keep_last(item)?;
        self.last = item;
        self.last_allowed = self.wants.len();
        Ok(())
    }

    /// Whether a type flows to all that is wanted at an offset.
    pub(crate) fn allow(
        &mut self,
        names: &TypeNames<'_, '_>,
        item: Item,
        offset: u32,
    ) -> Result<bool, AllocError>
        requires { IsAllowed names.now offset (kept_of self.old) }
        ensures ok { IfOk result (λ allowed. IsTrue allowed ↔ FlowsToAll names.now item self.old.wants.items offset) }
        ensures wants { self.new.wants.items ≡ self.old.wants.items }
        ensures allowed { IsAllowed names.now offset (kept_of self.new) }
    {
        if self.wants.is_empty() {
            return Ok(true);
        }
        let known = self.allowed_by(item);
        if !flows_to_all(names, item, &self.wants[known..], offset) {
            return Ok(false);
        }
        self.remember(item)?;
        Ok(true)
    }
}
