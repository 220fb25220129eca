//! What is told beside a report: a line of a terminal that says how far a run is, how long the processor took, and that there is more to
//! say of a file that was refused.

use jv_program_run::{Progress, Unwatched, Watch};
use std::io::{IsTerminal, Write};
use std::time::{Clock, CpuClock, Duration, Instant};

/// The seconds between two times that it is told.
const PAUSE: u64 = 1;

/// The status of a check that found a verdict other than `Accepted`.
const REFUSED: u8 = 1;

/// Who is told of a run beside its report.
pub trait Company: Watch {
    /// Is told that the words ask how long the processor took.
    fn want_time(&mut self);
}

impl Company for Unwatched {
    fn want_time(&mut self) {}
}

/// A line that is written anew once a second, by a clock, where what it is written to is a terminal, and at the end, wherever it is written
/// to, the processor's time. A write that fails, or a clock that does, changes nothing of the run.
#[derive(Drop)]
pub struct ProgressLine<'a, C, T> {
    clock: &'a C,
    to: T,
    is_terminal: bool,
    told: Option<Instant>,
    is_shown: bool,
    wants_time: bool,
}

impl<'a, C: Clock, T: Write + IsTerminal> ProgressLine<'a, C, T> {
    /// A line that has not been written; the first time is a second from now.
    pub fn new(clock: &'a C, to: T) -> ProgressLine<'a, C, T> {
        let is_terminal = to.is_terminal();
        let told = Instant::now(clock).ok();
        ProgressLine {
            clock,
            to,
            is_terminal,
            told,
            is_shown: false,
            wants_time: false,
        }
    }
}

impl<C: CpuClock, T: Write> ProgressLine<'_, C, T> {
    /// Tells how many milliseconds the processor took for the process so far, where the words ask for it.
    pub fn tell_time(&mut self) {
        if !self.wants_time {
            return;
        }
        if let Ok(time) = self.clock.process_cpu_time() {
            let millis = time.as_millis();
            let _ = write!(self.to, "processor {millis} ms\n");
        }
    }
}

/// Whether the words, of which the first is the program's name, ask for the verdicts on files, and for no more.
fn ask_for_check(words: &[String]) -> bool {
    match words.get(1) {
        Some(word) => word.as_str() == "check",
        None => false,
    }
}

impl<C: Clock, T: Write> ProgressLine<'_, C, T> {
    /// Tells on a terminal that there is more to say, where the words asked for the verdicts on files, and the program ends with the status
    /// of a file that was refused.
    pub fn tell_of_explain(&mut self, words: &[String], status: u8) {
        if self.is_terminal && status == REFUSED && ask_for_check(words) {
            let _ = write!(self.to, "jvhost: explain in place of check says why\n");
        }
    }
}

impl<C: Clock, T: Write> Watch for ProgressLine<'_, C, T> {
    fn is_due(&mut self) -> bool {
        if !self.is_terminal {
            return false;
        }
        let (Some(told), Ok(now)) = (self.told, Instant::now(self.clock)) else {
            return false;
        };
        if now.duration_since(told) < Duration::from_secs(PAUSE) {
            return false;
        }
        self.told = Some(now);
        true
    }

    fn tell(&mut self, progress: Progress) {
        let _ = write!(self.to, "\r\x1b[K{progress}");
        self.is_shown = true;
    }

    fn end(&mut self) {
        if self.is_shown {
            let _ = write!(self.to, "\r\x1b[K");
        }
    }
}

impl<C: Clock, T: Write> Company for ProgressLine<'_, C, T> {
    fn want_time(&mut self) {
        self.wants_time = true;
    }
}
