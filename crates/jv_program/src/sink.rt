//! What the program writes to.
ghost use Rattle.std.specs.Prelude.{◌<◌, ◌≤◌, ℕ, Bool, List, Option, false, length, take, IfOk, IfSome, IsOk, IsTrue, OnErr, OnOk};
ghost use Rattle.std.specs.Io.KnownBytes.{Appends, Keeps};

use std::fmt;
use std::io::Write;

/// A write failed, or took nothing.
#[derive(Clone, Copy, Debug)]
pub struct Lost;

/// Where texts are written: standard output and standard error, or what stands for them.
pub trait Sink {
    /// What has been written, where that is known.
    ghost contents: { Self → Option (List ℕ) };

    /// Whether no write fails. Nothing that runs can ask for it, so what is done for one that never fails is done for each.
    ghost SURE: { Bool };

    /// Writes some bytes, from the first on, and says how many. Where that fails, it has written none.
    fn write(&mut self, bytes: &[u8]) -> Result<usize, Lost>
        ensures within { IfOk result (λ count. count ≤ length bytes.now) }
        ensures some { IfOk result (λ count. Appends (contents self.old) (contents self.new) (take count bytes.now)) }
        ensures none { OnErr result (Keeps (contents self.old) (contents self.new)) }
        ensures sure { IsTrue SURE → IsOk result }
        ensures goes { IsTrue SURE → 0 < length bytes.now → IfOk result (λ count. 0 < count) };

    /// Writes what is displayed.
    fn tell<D: fmt::Display + Drop>(&mut self, text: D) -> Result<(), Lost>
        ensures whole { OnOk result (IfSome (D.output text) (Appends (contents self.old) (contents self.new))) }
        ensures sure { IsTrue SURE → IsOk result };
}

/// A stream, whose writes may fail.
#[derive(Drop)]
pub struct Stream<W>(pub W);

impl<W: Write> Sink for Stream<W> {
    ghost contents = { λ stream. W.contents stream.0 };

    ghost SURE = { false };

    fn write(&mut self, bytes: &[u8]) -> Result<usize, Lost> {
        match self.0.write(bytes) {
            Ok(count) => Ok(count),
            Err(_) => Err(Lost),
        }
    }

    fn tell<D: fmt::Display + Drop>(&mut self, text: D) -> Result<(), Lost> {
        match write!(self.0, "{text}") {
            Ok(()) => Ok(()),
            Err(_) => Err(Lost),
        }
    }
}
