//! The host and its calls.

ghost use Rattle.std.specs.Prelude.{◌≡◌, ◌≢◌, ◌↔◌, [], ◌∷◌, ◌++◌, ℕ, Some, None, Err, true, false, OnOk, OnErr, IfOk, IfErr, IsErr, IsTrue, length, slice_get};
ghost use Rattle.jv_interp.specs.Started.{budget_of};
ghost use Rattle.jv_interp.specs.Showing.{observed_of};
ghost use Rattle.jv_host.specs.Files.{guest_of};
ghost use Rattle.jv_host.specs.Host.{after_feed};
ghost use Rattle.jv_host.specs.Calls.{admission, IsTurn, IsCutTurn, IsShown, AreShown, RunsAt, OverAt};
ghost use Rattle.jv_host.specs.Faultless.{NoGuestFaults};
ghost use Rattle.jv_host.specs.Limits.{first_refusal, IsRefused, LibraryStands, feed_refusal, IsFeedRefused};

use crate::admission::{Admitted, begin};
use crate::files::GuestFiles;
use crate::limits::first_refusal;
use jv_interp::{Budget, Observation};
use jv_library::KnownLibrary;
use jv_limits::{AdmitFault, FeedFault, NoGuest, TurnFault};
use jv_meaning_machine::{cells_are_budgeted, one_judged};
use jv_meaning_typing::Verdict;
use jv_sound::{never_faults, no_library_stands};
use jv_store::Store;
use std::alloc::Global;
use std::hash::RandomState;
use std::marker::Model;

/// The number of a guest, which counts from 0 in order of admission.
#[derive(Clone, Copy)]
pub struct GuestId(pub u32);

/// A host of up to 64 guests, whose objects are in one store. What it shows of a guest is what that guest's own files, main class name,
/// input, feeds and budget give on the machine alone, after as many of its own steps.
pub struct Host<'a, S: Store> {
    alloc: Global,
    state: RandomState,
    known: KnownLibrary<'a>,
    store: S,
    guests: Vec<Admitted<'a>>,
}

impl<'a, S: Store> Model for Host<'a, S> {
    ghost use Rattle.std.specs.Prelude.{List, map};
    ghost use Rattle.jv_host.specs.Host.{Admission};
    ghost use Rattle.jv_host.specs.Inside.Holding.{admission_of, AreHeld};

    ghost Value = { List Admission };

    ghost view = { λ h. map admission_of h.guests.items };

    ghost invariant = { λ h. AreHeld h.guests.items (S.room_left h.store) (S.content h.store) };
}

// By hand, so that a drop of a host is one call for those who hold one.
impl<S: Store> Drop for Host<'_, S> {
    fn drop(self) {
        let Host {
            alloc: _,
            state: _,
            known: _,
            store: _,
            guests: _,
        } = self;
    }
}

impl<'a, S: Store> Host<'a, S> {
    /// A host without a guest. Takes no memory. Texts are hashed with the state.
    pub fn new(alloc: Global, state: RandomState) -> Host<'a, S>
        ensures { result ≡ [] }
    {
        Host {
            alloc,
            state,
            known: KnownLibrary::new(),
            store: S::empty(alloc),
            guests: Vec::new(alloc),
        }
    }

    /// What the host knows of the library that its guests brought last, for another host.
    pub fn known(&self) -> &KnownLibrary<'a> {
        &self.known
    }

    /// Takes over what another host knows of a library.
    pub fn know(&mut self, known: KnownLibrary<'a>)
        ensures { self.new ≡ self.old }
    {
        self.known = known;
    }

    /// Admits a guest, at its start, and answers its number.
    ///
    /// # Errors
    ///
    /// The reasons to refuse it come in the order of `AdmitFault`; a refused call leaves the host as it was.
    pub fn admit(&mut self, files: GuestFiles<'a>, budget: Budget) -> Result<GuestId, AdmitFault>
        ensures number { IfOk result (λ id. id.0 ≡ length self.old) }
        ensures admitted { OnOk result (self.new ≡ self.old ++ admission (guest_of files.entry) (budget_of budget) ∷ []) }
        ensures allowed { OnOk result (first_refusal (guest_of files.entry) (budget_of budget) (length self.old) ≡ None) }
        ensures stands { OnOk result (LibraryStands (guest_of files.entry)) }
        ensures refused { IfErr result (IsRefused (guest_of files.entry) (budget_of budget) (length self.old)) }
        ensures memory { result ≡ Err AdmitFault.HostMemory
            → first_refusal (guest_of files.entry) (budget_of budget) (length self.old) ≡ None }
        ensures whole { files.entry.system.now ≡ [] → result ≢ Err AdmitFault.LibraryBroken }
        ensures same { OnErr result (self.new ≡ self.old) }
    {
        let count = self.guests.len();
        if let Some(fault) = first_refusal(&files, budget, count) {
            return Err(fault);
        }
        let Ok(()) = self.guests.reserve(1) else {
            return Err(AdmitFault::HostMemory);
        };
        no_library_stands();
        cells_are_budgeted();
        let admitted = begin(
            self.alloc,
            self.state,
            files,
            budget,
            &mut self.known,
            &mut self.store,
        )?;
        self.guests.push_reserved(admitted);
        Ok(GuestId(count as u32))
    }

    /// Takes at most `n` steps of a guest, and answers how many it took: fewer only where the guest is over, or has taken 2^64 - 1 steps.
    ///
    /// # Errors
    ///
    /// `NoGuest` where no guest has this number, and `HostMemory` where the host had no memory for a step; those before it stand.
    pub fn turn(&mut self, id: GuestId, n: u32) -> Result<u64, TurnFault>
        ensures ok { IfOk result (λ k. IsTurn self.old self.new id.0 n k) }
        ensures no_guest { (result ≡ Err TurnFault.NoGuest) ↔ (slice_get self.old id.0 ≡ None) }
        ensures same { result ≡ Err TurnFault.NoGuest → self.new ≡ self.old }
        ensures memory { (k : ℕ) → result ≡ Err (TurnFault.HostMemory k) → IsCutTurn self.old self.new id.0 n k }
        ensures sure { IsTrue S.SURE → IsErr result → result ≡ Err TurnFault.NoGuest }
    {
        let Some(admitted) = self.guests.get_mut(id.0 as usize) else {
            return Err(TurnFault::NoGuest);
        };
        let taken = admitted.turn(&mut self.store, n);
        if taken.refused {
            return Err(TurnFault::HostMemory(taken.steps));
        }
        Ok(taken.steps)
    }

    /// The bytes come to a guest's input, at its own step.
    ///
    /// # Errors
    ///
    /// The refusals come in the order of `FeedFault`; a refused call leaves the host as it was. No bytes are no feed, and are refused
    /// only where no guest has this number.
    pub fn feed(&mut self, id: GuestId, bytes: &[u8]) -> Result<(), FeedFault>
        ensures fed { OnOk result (self.new ≡ after_feed self.old id.0 bytes.now) }
        ensures allowed { OnOk result (feed_refusal self.old id.0 bytes.now ≡ None) }
        ensures refused { IfErr result (IsFeedRefused self.old id.0 bytes.now) }
        ensures memory { result ≡ Err FeedFault.HostMemory → feed_refusal self.old id.0 bytes.now ≡ None }
        ensures nothing { bytes.now ≡ [] → IsErr result → slice_get self.old id.0 ≡ None }
        ensures same { OnErr result (self.new ≡ self.old) }
    {
        let alloc = self.alloc;
        let Some(admitted) = self.guests.get_mut(id.0 as usize) else {
            return Err(FeedFault::NoGuest);
        };
        admitted.feed(alloc, bytes)
    }

    /// The verdicts on a guest's files, in their order. Takes no memory.
    ///
    /// # Errors
    ///
    /// Where no guest has this number.
    pub fn verdicts(&self, id: GuestId) -> Result<&[Verdict], NoGuest>
        ensures ok { IfOk result (λ verdicts. AreShown self.now id.0 verdicts.now) }
        ensures no_guest { IsErr result ↔ (slice_get self.now id.0 ≡ None) }
    {
        match self.observe(id) {
            Ok(shown) => Ok(shown.verdicts),
            Err(NoGuest) => Err(NoGuest),
        }
    }

    /// What a guest shows. Takes no memory.
    ///
    /// # Errors
    ///
    /// Where no guest has this number.
    pub fn observe(&self, id: GuestId) -> Result<Observation<'_>, NoGuest>
        ensures ok { IfOk result (λ o. IsShown self.now id.0 (observed_of o)) }
        ensures no_guest { IsErr result ↔ (slice_get self.now id.0 ≡ None) }
    {
        match self.guests.get(id.0 as usize) {
            Some(admitted) => Ok(admitted.guest.observe()),
            None => Err(NoGuest),
        }
    }

    /// A law: no guest that was admitted ever meets a fault on the machine, whatever is fed to it, after any number of steps. Does nothing.
    pub fn no_guest_faults(&self)
        ensures { NoGuestFaults self.now }
    {
        never_faults();
        one_judged();
        // Reads a field, so that the invariant is known.
        let _known = &self.guests;
    }

    /// How many guests there are.
    pub(crate) fn count(&self) -> u32
        ensures { result ≡ length self.now }
    {
        self.guests.len() as u32
    }

    /// Whether a guest takes steps.
    pub(crate) fn is_running(&self, id: u32) -> bool
        ensures running { result ≡ true → RunsAt self.now id }
        ensures over { result ≡ false → OverAt self.now id }
    {
        match self.guests.get(id as usize) {
            Some(admitted) => admitted.guest.is_running(),
            None => false,
        }
    }
}
