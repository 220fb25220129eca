//! Writes to local variables by their numbers.

ghost use Rattle.std.specs.Prelude.{◌≡◌, ◌≤◌, ◌<◌, ◌*◌, ℕ, get_or, length, replicate, IfOk, IfSome, IfNone};
ghost use Rattle.jv_verify_peaks.specs.Stretches.{AreAtMost, IsFirstAbove};
ghost use Rattle.jv_verify_known.specs.Known.{block_written, with_next, written_at};

use crate::blocks::{BLOCK, blocks_of};
use jv_verify_peaks::Peaks;
use std::alloc::{AllocError, Global};
use std::marker::Model;

/// The number of the last write to each block of local variables, from 1 on, and that of the next write.
#[derive(Drop)]
pub(crate) struct Writes {
    numbers: Peaks,
    next: u32,
}

impl Model for Writes {
    ghost use Rattle.std.specs.Prelude.{ℕ, ◌<◌, ◌≤◌, get_or, length};
    ghost use Rattle.jv_verify_known.specs.Known.{Writes};

    ghost Value = { Writes };

    ghost view = { λ w. record { numbers = w.numbers; next = w.next } };

    ghost invariant = { λ w. record {
      few : length w.numbers ≤ 4096;
      some : (block : ℕ) → block < length w.numbers → 0 < get_or w.numbers block 0;
      most : (block : ℕ) → get_or w.numbers block 0 ≤ w.next;
    } };
}

impl Writes {
    /// So many local variables were written by the first write alone.
    ///
    /// # Errors
    ///
    /// Where the host had no memory for the numbers.
    pub(crate) fn new(alloc: Global, max_locals: u16) -> Result<Writes, AllocError>
        ensures blocks { IfOk result (λ writes. max_locals ≤ length writes.numbers * 16) }
        ensures first { IfOk result (λ writes. writes.numbers ≡ replicate (length writes.numbers) 1) }
        ensures next { IfOk result (λ writes. writes.next ≡ 2) }
    {
        Ok(Writes {
            numbers: Peaks::new(alloc, blocks_of(max_locals), 1)?,
            next: 2,
        })
    }

    /// How many blocks there are.
    pub(crate) fn blocks(&self) -> usize
        ensures many { result ≡ length self.now.numbers }
        ensures few { result ≤ 4096 }
    {
        self.numbers.len()
    }

    /// Each block was written once at least. The call does nothing.
    pub(crate) fn are_written(&self)
        ensures { (block : ℕ) → block < length self.now.numbers → 0 < get_or self.now.numbers block 0 }
    {
        // Reads a field, so that the invariant is known.
        let _next = self.next;
    }

    /// The number of the last write so far, 0 where there is no number left; the next one gets another.
    pub(crate) fn ask(&mut self) -> u32
        ensures last { result < self.new.next }
        ensures more { self.old.next ≤ self.new.next }
        ensures same { self.new ≡ with_next self.new.next self.old }
    {
        let last = self.next;
        match last.checked_add(1) {
            Some(next) => {
                self.next = next;
                last
            }
            None => 0,
        }
    }

    /// The next write may be to a block of local variables, where there is one.
    pub(crate) fn write_block(&mut self, block: usize)
        ensures { self.new ≡ block_written block self.old }
    {
        if block < self.numbers.len() {
            self.numbers.raise(block, self.next);
        }
    }

    /// The next write may be to a local variable, where there is one.
    pub(crate) fn write(&mut self, place: u16)
        ensures { self.new ≡ written_at place self.old }
    {
        self.write_block(usize::from(place / BLOCK));
    }

    /// The first block from one on, before another, that was written since a number.
    pub(crate) fn written(&self, from: usize, to: usize, since: u32) -> Option<usize>
        requires { to ≤ length self.now.numbers }
        ensures some { IfSome result (λ block. IsFirstAbove since from to block self.now.numbers) }
        ensures none { IfNone result (AreAtMost since from to self.now.numbers) }
    {
        self.numbers.next(from, to, since)
    }
}
