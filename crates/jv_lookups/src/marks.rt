//! Numbers that are marked.

ghost use Rattle.std.specs.Prelude.{◌≡◌, ◌<◌, true, false, IfOk, length, get_or, set, replicate};

use std::alloc::{AllocError, Global};
use std::marker::Model;

/// Which of the numbers below its size are marked. To unmark them all costs the same whatever the
/// size, but once in 2^64 times.
#[derive(Drop)]
pub struct Marks {
    stamps: Vec<u64>,
    stamp: u64,
}

impl Model for Marks {
    ghost use Rattle.std.specs.Prelude.{List, Bool};
    ghost use Rattle.jv_lookups.specs.Inside.Stamps.{marked_by, AreUpTo};

    ghost Value = { List Bool };

    ghost view = { λ m. marked_by m.stamp m.stamps.items };

    ghost invariant = { λ m. AreUpTo m.stamp m.stamps.items };
}

impl Marks {
    /// No number is marked.
    ///
    /// # Errors
    ///
    /// Where the host had no memory for the numbers.
    pub fn new(alloc: Global, size: usize) -> Result<Marks, AllocError>
        ensures { IfOk result (λ m. m ≡ replicate size false) }
    {
        let stamps = vec![in alloc; 0; size]?;
        Ok(Marks { stamps, stamp: 1 })
    }

    /// Unmarks all.
    pub fn clear(&mut self)
        ensures { self.new ≡ replicate (length self.old) false }
    {
        if self.stamp == u64::MAX {
            self.stamps.fill(0);
            self.stamp = 1;
        } else {
            self.stamp += 1;
        }
    }

    /// Marks a number.
    pub fn mark(&mut self, number: usize)
        requires { number < length self.old }
        ensures { self.new ≡ set self.old number true }
    {
        self.stamps[number] = self.stamp;
    }

    /// Whether a number is marked.
    pub fn is_marked(&self, number: usize) -> bool
        requires { number < length self.now }
        ensures { result ≡ get_or self.now number false }
    {
        self.stamps[number] == self.stamp
    }
}
