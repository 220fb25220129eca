//! A guest that was admitted.

ghost use Rattle.std.specs.Prelude.{◌≡◌, ◌≢◌, ◌+◌, ◌-◌, ◌<◌, ◌≤◌, [], Some, None, Err, true, false, length, IfOk, IfErr, IsOk, OnOk, OnErr, IsTrue};
ghost use Rattle.jv_store.specs.Content.{words_held};
ghost use Rattle.jv_interp_heap.specs.ObjectsInBlocks.{Blocks};
ghost use Rattle.jv_interp.specs.Started.{budget_of};
ghost use Rattle.jv_limits.specs.declared.fault.FeedFault.TheVariants.{HostMemory};
ghost use Rattle.jv_host.specs.Files.{guest_of};
ghost use Rattle.jv_host.specs.Host.{stepped, fed_now};
ghost use Rattle.jv_host.specs.Limits.{feed_refusal_of};
ghost use Rattle.jv_host.specs.Calls.{admission, HadTurn, HadCutTurn};
ghost use Rattle.jv_host.specs.Inside.Holding.{admission_of, IsSomeHeld, GoesOn, HasBegun, IsNotBegun, StaysHeld};

use crate::files::GuestFiles;
use crate::limits::INPUT_BYTES;
use jv_interp::{Budget, Guest};
use jv_library::KnownLibrary;
use jv_limits::{AdmitFault, FeedFault};
use jv_meaning_machine::{ended_guest_stays, judged_by_verdicts, one_judged};
use jv_meaning_world::one_content;
use jv_store::Store;
use std::alloc::{AllocError, Global};
use std::hash::RandomState;

/// Bytes that came to a guest's input, after so many of its own steps.
#[derive(Drop)]
pub(crate) struct Fed {
    pub(crate) own_step: u64,
    pub(crate) bytes: Vec<u8>,
}

/// A guest: what it brought, what it may use, what came to its input while it ran, how many bytes came in all, and where it is.
pub(crate) struct Admitted<'a> {
    pub(crate) files: GuestFiles<'a>,
    pub(crate) budget: Budget,
    pub(crate) feeds: Vec<Fed>,
    pub(crate) came: usize,
    pub(crate) guest: Guest<'a>,
}

// By hand, so that a drop of a guest is one call for those who hold one.
impl Drop for Admitted<'_> {
    fn drop(self) {
        let Admitted {
            files: _,
            budget: _,
            feeds: _,
            came: _,
            guest: _,
        } = self;
    }
}

/// Steps that were taken, and whether the host had no memory for the next one.
#[derive(Clone, Copy)]
pub(crate) struct Taken {
    pub(crate) steps: u64,
    pub(crate) refused: bool,
}

/// A copy of bytes.
fn copy_of(alloc: Global, bytes: &[u8]) -> Result<Vec<u8>, AllocError>
    ensures { IfOk result (λ copy. copy.items ≡ bytes.now) }
{
    let mut copy = Vec::new(alloc);
    copy.extend_from_slice(bytes)?;
    Ok(copy)
}

/// Judges the files of a guest, and its library beside them where that isn't known to stand there, and begins it.
///
/// # Errors
///
/// `LibraryBroken` where the library doesn't stand there, and `HostMemory` where the host had no memory for it; nothing has then changed.
pub(crate) fn begin<'a, S: Store>(
    alloc: Global,
    state: RandomState,
    files: GuestFiles<'a>,
    budget: Budget,
    known: &mut KnownLibrary<'a>,
    store: &mut S,
) -> Result<Admitted<'a>, AdmitFault>
    requires library { length files.system.now ≤ 1024 }
    requires few { length files.files.now ≤ 1024 }
    requires input { length files.input.now ≤ 16777216 }
    requires some { 64 ≤ budget.cells }
    requires most { budget.cells ≤ 16777216 }
    requires total { S.room_left store.old + words_held (S.content store.old) + budget.cells ≤ 4294967294 }
    ensures begun { IfOk result (λ a.
        HasBegun (admission (guest_of files.entry) (budget_of budget)) a (S.content store.old) (S.content store.new)) }
    ensures room { IfOk result (λ a. S.room_left store.new ≡ S.room_left store.old + a.guest.held.cells) }
    ensures why { IfErr result (IsNotBegun (guest_of files.entry)) }
    ensures refused { OnErr result (S.content store.new ≡ S.content store.old) }
    ensures refused_room { OnErr result (S.room_left store.new ≡ S.room_left store.old) }
{
    one_content();
    judged_by_verdicts();
    let Ok(judged) = known.verify_files(alloc, state, files.system, files.files) else {
        return Err(AdmitFault::HostMemory);
    };
    let Ok(stands) = known.stands(alloc, state, files.system, &judged) else {
        return Err(AdmitFault::HostMemory);
    };
    if !stands {
        return Err(AdmitFault::LibraryBroken);
    }
    let Ok(guest) = Guest::new(alloc, state, judged, files.main, files.input, budget, store) else {
        return Err(AdmitFault::HostMemory);
    };
    Ok(Admitted {
        files,
        budget,
        feeds: Vec::new(alloc),
        came: files.input.len(),
        guest,
    })
}

/// Whether a turn is cut: steps are left, and the guest takes steps.
fn is_cut(left: u64, running: bool) -> bool
    ensures left { IsTrue result → 0 < left }
    ensures running { IsTrue result → running ≡ true }
    ensures over { result ≡ false → 0 < left → running ≡ false }
{
    left > 0 && running
}

impl Admitted<'_> {
    /// Takes at most so many steps.
    pub(crate) fn turn<S: Store>(&mut self, store: &mut S, n: u32) -> Taken
        requires held { IsSomeHeld self.old (S.content store.old) }
        requires cells { self.old.guest.held.cells ≤ S.room_left store.old }
        ensures goes { GoesOn self.old self.new (S.content store.old) (S.content store.new) }
        ensures after { admission_of self.new ≡ stepped result.steps (admission_of self.old) }
        ensures had { result.refused ≡ false → HadTurn (admission_of self.old) n result.steps }
        ensures cut { IsTrue result.refused → HadCutTurn (admission_of self.old) n result.steps }
        ensures room { S.room_left store.old + self.new.guest.held.cells ≡ S.room_left store.new + self.old.guest.held.cells }
        ensures sure { IsTrue S.SURE → result.refused ≡ false }
    {
        one_judged();
        ended_guest_stays();
        let most = u64::from(n).min(u64::MAX - self.guest.steps());
        let turn = self.guest.turn(store, most);
        Taken {
            steps: most - turn.left,
            refused: is_cut(turn.left, self.guest.is_running()),
        }
    }

    /// The bytes join behind its input.
    ///
    /// # Errors
    ///
    /// Where the host had no memory for them; nothing has then changed.
    fn join(&mut self, alloc: Global, bytes: &[u8]) -> Result<(), AllocError>
        requires held { (blocks : Blocks) × IsSomeHeld self.old blocks }
        requires some { 0 < length bytes.now }
        requires few { self.old.came + length bytes.now ≤ 16777216 }
        ensures fed { OnOk result (admission_of self.new ≡ fed_now bytes.now (admission_of self.old)) }
        ensures held { StaysHeld self.old self.new }
        ensures cells { self.new.guest.held.cells ≡ self.old.guest.held.cells }
        ensures same { OnErr result (admission_of self.new ≡ admission_of self.old) }
    {
        let copy = copy_of(alloc, bytes)?;
        self.feeds.reserve(1)?;
        let own_step = self.guest.steps();
        self.guest.feed(bytes)?;
        self.feeds.push_reserved(Fed {
            own_step,
            bytes: copy,
        });
        self.came += bytes.len();
        Ok(())
    }

    /// The bytes come to its input.
    ///
    /// # Errors
    ///
    /// The refusals come in the order of `FeedFault`; nothing has then changed.
    pub(crate) fn feed(&mut self, alloc: Global, bytes: &[u8]) -> Result<(), FeedFault>
        requires { (blocks : Blocks) × IsSomeHeld self.old blocks }
        ensures fed { OnOk result (admission_of self.new ≡ fed_now bytes.now (admission_of self.old)) }
        ensures allowed { OnOk result (feed_refusal_of (Some (admission_of self.old)) (length bytes.now) ≡ None) }
        ensures refused { IfErr result (λ fault. fault ≢ HostMemory
            → feed_refusal_of (Some (admission_of self.old)) (length bytes.now) ≡ Some fault) }
        ensures memory { result ≡ Err HostMemory → feed_refusal_of (Some (admission_of self.old)) (length bytes.now) ≡ None }
        ensures nothing { bytes.now ≡ [] → IsOk result }
        ensures held { StaysHeld self.old self.new }
        ensures cells { self.new.guest.held.cells ≡ self.old.guest.held.cells }
        ensures same { OnErr result (admission_of self.new ≡ admission_of self.old) }
    {
        if bytes.len() > INPUT_BYTES - self.came {
            return Err(FeedFault::InputTooLong);
        }
        if bytes.is_empty() {
            return Ok(());
        }
        match self.join(alloc, bytes) {
            Ok(()) => Ok(()),
            Err(_) => Err(FeedFault::HostMemory),
        }
    }
}
