//! Rounds of turns.

ghost use Rattle.std.specs.Prelude.{◌≡◌, ◌≢◌, ◌≤◌, ℕ, Err, false, OnOk, IfOk, IsOk, IsTrue, length};
ghost use Rattle.jv_host.specs.Calls.{SomeRuns, NoneRuns, IsRound, IsCutRound, IsRun, IsCutRun};

use crate::host::{GuestId, Host};
use crate::watch::{Progress, Unwatched, Watch};
use jv_interp::GuestEnd;
use jv_limits::TurnFault;
use jv_store::Store;

impl<S: Store> Host<'_, S> {
    /// Whether some guest takes steps.
    pub fn any_runs(&self) -> bool
        ensures some { IsTrue result → SomeRuns self.now }
        ensures none { result ≡ false → NoneRuns self.now }
    {
        for id in 0..self.count() {
            if self.is_running(id) {
                return true;
            }
        }
        false
    }

    /// Each guest has a turn of at most `quantum` steps, in order of admission.
    fn round(&mut self, quantum: u32) -> Result<(), TurnFault>
        ensures ok { OnOk result (IsRound quantum self.old self.new) }
        ensures memory { (k : ℕ) → result ≡ Err (TurnFault.HostMemory k) → IsCutRound quantum self.old self.new k }
        ensures known { result ≢ Err TurnFault.NoGuest }
        ensures sure { IsTrue S.SURE → IsOk result }
    {
        for id in 0..self.count() {
            if let Err(fault) = self.turn(GuestId(id), quantum) {
                return Err(fault);
            }
        }
        Ok(())
    }

    /// How far the guests are, after so many rounds.
    fn progress(&self, rounds: u32) -> Progress
        ensures rounds { result.rounds ≡ rounds }
        ensures running { result.running ≤ length self.now }
    {
        let mut steps = 0u64;
        let mut running = 0;
        for id in 0..self.count() {
            if let Ok(seen) = self.observe(GuestId(id)) {
                steps = steps.saturating_add(seen.steps);
                if matches!(seen.end, GuestEnd::Running) {
                    running += 1;
                }
            }
        }
        Progress {
            rounds,
            steps,
            running,
        }
    }

    /// Tells a watch how far the guests are, after so many rounds, where it wants to be told.
    pub fn tell<W: Watch>(&self, rounds: u32, watch: &mut W) {
        if watch.is_due() {
            watch.tell(self.progress(rounds));
        }
    }

    /// Takes at most so many rounds, and answers how many: fewer only where no guest takes steps any more. In a round each guest has a turn
    /// of at most `quantum` steps, in order of admission; one that has ended takes none. A watch sees the rounds.
    ///
    /// # Errors
    ///
    /// `HostMemory` where the host had no memory for a step of a guest; the steps before it stand.
    pub fn run_watched<W: Watch>(
        &mut self,
        quantum: u32,
        rounds: u32,
        watch: &mut W,
    ) -> Result<u32, TurnFault>
        ensures ok { IfOk result (λ m. IsRun quantum rounds self.old self.new m) }
        ensures memory { (k : ℕ) → result ≡ Err (TurnFault.HostMemory k) → IsCutRun quantum rounds self.old self.new k }
        ensures known { result ≢ Err TurnFault.NoGuest }
        ensures sure { IsTrue S.SURE → IsOk result }
    {
        for round in 0..rounds {
            if !self.any_runs() {
                return Ok(round);
            }
            if let Err(fault) = self.round(quantum) {
                return Err(fault);
            }
            self.tell(round + 1, watch);
        }
        Ok(rounds)
    }

    /// Does what `run_watched` does, and nobody watches.
    ///
    /// # Errors
    ///
    /// As `run_watched`.
    pub fn run(&mut self, quantum: u32, rounds: u32) -> Result<u32, TurnFault>
        ensures ok { IfOk result (λ m. IsRun quantum rounds self.old self.new m) }
        ensures memory { (k : ℕ) → result ≡ Err (TurnFault.HostMemory k) → IsCutRun quantum rounds self.old self.new k }
        ensures known { result ≢ Err TurnFault.NoGuest }
        ensures sure { IsTrue S.SURE → IsOk result }
    {
        self.run_watched(quantum, rounds, &mut Unwatched)
    }
}
