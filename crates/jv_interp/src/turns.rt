//! Steps of a guest.

ghost use Rattle.std.specs.Prelude.{◌≡◌, ◌↔◌, ◌+◌, ◌-◌, ◌<◌, ◌≤◌, ◌^◌, IsOk, IsTrue, OnErr, OnOk, false};
ghost use Rattle.jv_interp.specs.Standing.{IsSomeGuest, WentOn};
ghost use Rattle.jv_interp.specs.Showing.{HasEnded, TakesSteps, RanToLast, IsAnswered};

use crate::guest::Guest;
use jv_interp_control::End;
use jv_interp_steps::{Turn, run};
use jv_meaning_machine::{alone_steps_on, end_fits_alone, shows_one_thing};
use jv_sound::{initializations_are_loadable, never_faults, objects_are_loadable};
use jv_store::{OutOfMemory, Store};

impl Guest<'_> {
    /// How many steps it has taken.
    pub fn steps(&self) -> u64
        ensures { result ≡ self.now.steps }
    {
        self.steps
    }

    /// Whether it takes steps: it has not ended.
    pub fn is_running(&self) -> bool
        ensures { IsAnswered self.now result }
    {
        matches!(self.control.end, End::Running)
    }

    /// Takes at most so many steps (JVMS 2.11, 5.5), fewer only where the guest has ended, or where the host had no memory for the next
    /// one: that step is then not taken, and the guest and the store are as they were before it.
    pub fn turn<S: Store>(&mut self, store: &mut S, n: u64) -> Turn
        requires can { IsSomeGuest self.old (S.content store.old) }
        requires cells { self.old.held.cells ≤ S.room_left store.old }
        requires countable { self.old.steps + n < 2 ^ 64 }
        ensures went { WentOn (n - result.left) self.old self.new (S.content store.old) (S.content store.new) }
        ensures running { RanToLast (n - result.left) self.old (S.content store.old) }
        ensures most { result.left ≤ n }
        ensures ended { 0 < result.left → result.refused ≡ false → HasEnded self.new (S.content store.new) }
        ensures some_left { IsTrue result.refused → 0 < result.left }
        ensures fewer { self.new.held.cells ≤ self.old.held.cells }
        ensures room { S.room_left store.old + self.new.held.cells ≡ S.room_left store.new + self.old.held.cells }
        ensures still_content { result.left ≡ n → S.content store.new ≡ S.content store.old }
        ensures still_held { result.left ≡ n → self.new.held ≡ self.old.held }
        ensures sure { IsTrue S.SURE → result.refused ≡ false }
    {
        alone_steps_on();
        end_fits_alone();
        never_faults();
        objects_are_loadable();
        initializations_are_loadable();
        let turn = run(
            self.judged.classes(),
            &mut self.linked,
            &self.methods,
            &self.texts,
            &self.verified,
            &mut self.frames,
            &mut self.control,
            &mut self.held,
            store,
            n,
        );
        self.steps += n - turn.left;
        turn
    }

    /// Takes one step (JVMS 2.11, 5.5); the guest has not ended.
    ///
    /// # Errors
    ///
    /// Where the host had no memory for it: the step is then not taken, and the guest and the store are as they were before it.
    pub fn step<S: Store>(&mut self, store: &mut S) -> Result<(), OutOfMemory>
        requires can { IsSomeGuest self.old (S.content store.old) }
        requires running { TakesSteps self.old (S.content store.old) }
        requires cells { self.old.held.cells ≤ S.room_left store.old }
        requires countable { self.old.steps + 1 < 2 ^ 64 }
        ensures stepped { OnOk result (WentOn 1 self.old self.new (S.content store.old) (S.content store.new)) }
        ensures fewer { self.new.held.cells ≤ self.old.held.cells }
        ensures room { S.room_left store.old + self.new.held.cells ≡ S.room_left store.new + self.old.held.cells }
        ensures refused { OnErr result (WentOn 0 self.old self.new (S.content store.old) (S.content store.new)) }
        ensures refused_content { OnErr result (S.content store.new ≡ S.content store.old) }
        ensures refused_held { OnErr result (self.new.held ≡ self.old.held) }
        ensures sure { IsTrue S.SURE → IsOk result }
    {
        shows_one_thing();
        let turn = self.turn(store, 1);
        if turn.refused {
            return Err(OutOfMemory);
        }
        Ok(())
    }
}
