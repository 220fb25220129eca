//! How far a run is, for whoever watches it.
ghost use Rattle.std.specs.Prelude.{Some};
ghost use Rattle.jv_host.specs.Progress.{progress_text};

use std::fmt;

/// How far a run is.
#[derive(Clone, Copy)]
pub struct Progress {
    /// The rounds of turns so far.
    pub rounds: u32,
    /// The steps that all guests took.
    pub steps: u64,
    /// The guests that take steps.
    pub running: u32,
}

/// Watches how far a run is. What it does changes nothing of the run.
pub trait Watch {
    /// Whether it wants to be told now; it is asked behind each round.
    fn is_due(&mut self) -> bool;

    /// Is told how far the run is.
    fn tell(&mut self, progress: Progress);

    /// Is told that the run is over.
    fn end(&mut self);
}

/// Nobody watches.
#[derive(Clone, Copy)]
pub struct Unwatched;

impl Watch for Unwatched {
    fn is_due(&mut self) -> bool {
        false
    }

    fn tell(&mut self, _progress: Progress) {}

    fn end(&mut self) {}
}

impl fmt::Display for Progress {
    ghost output = { λ progress. Some (progress_text progress) };

    fn fmt<W: fmt::Write>(&self, f: &mut fmt::Formatter<W>) -> fmt::Result {
        let rounds = self.rounds;
        let steps = self.steps;
        let running = self.running;
        write!(f, "rounds {rounds}, steps {steps}, running {running}")
    }
}
