//! Numbers by place, with the greatest of each 16, of each 256 and of each 4,096 that stand beside each other.

ghost use Rattle.std.specs.Prelude.{◌≡◌, ◌≤◌, ◌<◌, ◌+◌, ℕ, replicate, length, max, get_or, set, IfOk, IfSome, IfNone};
ghost use Rattle.jv_verify_peaks.specs.Stretches.{AreAtMost, IsFirstAbove, IsLastAbove, IsGreatest};
ghost use Rattle.jv_verify_peaks.specs.Inside.Rows.{IsRow};

use std::alloc::{AllocError, Global};
use std::marker::Model;

/// Numbers by place. What is asked of a stretch is found by looks at 1, 16, 256 or 4,096 numbers at once: some hundred for 65,536.
#[derive(Drop)]
pub struct Peaks {
    values: Vec<u32>,
    by_16: Vec<u32>,
    by_256: Vec<u32>,
    by_4096: Vec<u32>,
}

impl Model for Peaks {
    ghost use Rattle.std.specs.Prelude.{ℕ, List};
    ghost use Rattle.jv_verify_peaks.specs.Inside.Rows.{IsRow};

    ghost Value = { List ℕ };

    ghost view = { λ p. p.values.items };

    ghost invariant = { λ p. record {
      row_16 : IsRow 16 p.values.items p.by_16.items;
      row_256 : IsRow 256 p.values.items p.by_256.items;
      row_4096 : IsRow 4096 p.values.items p.by_4096.items;
    } };
}

/// So many numbers, all the same.
fn same(alloc: Global, count: usize, value: u32) -> Result<Vec<u32>, AllocError>
    ensures { IfOk result (λ numbers. numbers.items ≡ replicate count value) }
{
    let numbers = vec![in alloc; value; count]?;
    Ok(numbers)
}

/// Raises the number at a place to a value, where there is one and it is less.
fn raise_at(numbers: &mut [u32], place: usize, value: u32)
    ensures raised { numbers.new ≡ set numbers.old place (max (get_or numbers.old place 0) value) }
    ensures same { length numbers.new ≡ length numbers.old }
{
    if place < numbers.len() {
        numbers[place] = numbers[place].max(value);
    }
}

impl Peaks {
    /// So many numbers, all the same.
    ///
    /// # Errors
    ///
    /// Where the host had no memory for them.
    pub fn new(alloc: Global, count: usize, value: u32) -> Result<Peaks, AllocError>
        ensures { IfOk result (λ peaks. peaks ≡ replicate count value) }
    {
        Ok(Peaks {
            values: same(alloc, count, value)?,
            by_16: same(alloc, count / 16, value)?,
            by_256: same(alloc, count / 256, value)?,
            by_4096: same(alloc, count / 4096, value)?,
        })
    }

    /// These numbers.
    ///
    /// # Errors
    ///
    /// Where the host had no memory for them.
    pub fn of(alloc: Global, values: &[u32]) -> Result<Peaks, AllocError>
        ensures { IfOk result (λ peaks. peaks ≡ values.now) }
    {
        let mut peaks = Peaks::new(alloc, values.len(), 0)?;
        for place in 0..values.len() {
            peaks.raise(place, values[place]);
        }
        Ok(peaks)
    }

    /// How many there are.
    pub fn len(&self) -> usize
        ensures { result ≡ length self.now }
    {
        self.values.len()
    }

    /// The number at a place, which counts from 0.
    pub fn get(&self, place: usize) -> u32
        requires { place < length self.now }
        ensures { result ≡ get_or self.now place 0 }
    {
        self.values[place]
    }

    /// Raises the number at a place to a value, where it is less.
    pub fn raise(&mut self, place: usize, value: u32)
        requires { place < length self.old }
        ensures { self.new ≡ set self.old place (max (get_or self.old place 0) value) }
    {
        raise_at(&mut self.values, place, value);
        raise_at(&mut self.by_16, place / 16, value);
        raise_at(&mut self.by_256, place / 256, value);
        raise_at(&mut self.by_4096, place / 4096, value);
    }

    /// How many numbers from a place on, before another, can be told to be at most a bound by one look: none where the first is not.
    fn low_from(&self, at: usize, to: usize, bound: u32) -> usize
        requires at { at < to }
        requires to { to ≤ length self.now }
        ensures within { at + result ≤ to }
        ensures low { AreAtMost bound at (at + result) self.now }
        ensures first { result ≡ 0 → bound < get_or self.now at 0 }
    {
        if self.values[at] > bound {
            return 0;
        }
        if at % 16 != 0 || to - at < 16 || self.by_16[at / 16] > bound {
            return 1;
        }
        if at % 256 != 0 || to - at < 256 || self.by_256[at / 256] > bound {
            return 16;
        }
        if at % 4096 != 0 || to - at < 4096 || self.by_4096[at / 4096] > bound {
            return 256;
        }
        4096
    }

    /// The first place from one on, before another, whose number is above a bound.
    pub fn next(&self, from: usize, to: usize, bound: u32) -> Option<usize>
        requires { to ≤ length self.now }
        ensures some { IfSome result (λ place. IsFirstAbove bound from to place self.now) }
        ensures none { IfNone result (AreAtMost bound from to self.now) }
    {
        let mut at = from;
        while at < to {
            let low = self.low_from(at, to, bound);
            if low == 0 {
                return Some(at);
            }
            at += low;
        }
        None
    }

    /// How many numbers before a place can be told to be at most a bound by one look: none where the last is not.
    fn low_before(&self, at: usize, bound: u32) -> usize
        requires at { 0 < at }
        requires to { at ≤ length self.now }
        ensures within { result ≤ at }
        ensures low { (from : ℕ) → from + result ≡ at → AreAtMost bound from at self.now }
        ensures last { result ≡ 0 → (place : ℕ) → place + 1 ≡ at → bound < get_or self.now place 0 }
    {
        if self.values[at - 1] > bound {
            return 0;
        }
        if at % 16 != 0 || self.by_16[at / 16 - 1] > bound {
            return 1;
        }
        if at % 256 != 0 || self.by_256[at / 256 - 1] > bound {
            return 16;
        }
        if at % 4096 != 0 || self.by_4096[at / 4096 - 1] > bound {
            return 256;
        }
        4096
    }

    /// The last place before another whose number is above a bound.
    pub fn last(&self, to: usize, bound: u32) -> Option<usize>
        requires { to ≤ length self.now }
        ensures some { IfSome result (λ place. IsLastAbove bound to place self.now) }
        ensures none { IfNone result (AreAtMost bound 0 to self.now) }
    {
        let mut at = to;
        while at > 0 {
            let low = self.low_before(at, bound);
            if low == 0 {
                return Some(at - 1);
            }
            at -= low;
        }
        None
    }

    /// How many numbers from a place on, before another, one look is for, and the greatest of them.
    fn top_from(&self, at: usize, to: usize) -> (usize, u32)
        requires at { at < to }
        requires to { to ≤ length self.now }
        ensures some { 0 < result.0 }
        ensures within { at + result.0 ≤ to }
        ensures greatest { IsGreatest at (at + result.0) self.now result.1 }
    {
        if at % 16 != 0 || to - at < 16 {
            return (1, self.values[at]);
        }
        if at % 256 != 0 || to - at < 256 {
            return (16, self.by_16[at / 16]);
        }
        if at % 4096 != 0 || to - at < 4096 {
            return (256, self.by_256[at / 256]);
        }
        (4096, self.by_4096[at / 4096])
    }

    /// The greatest number from a place on, before another; 0 where there is none.
    pub fn greatest(&self, from: usize, to: usize) -> u32
        requires { to ≤ length self.now }
        ensures { IsGreatest from to self.now result }
    {
        let mut at = from;
        let mut greatest = 0;
        while at < to {
            let (count, top) = self.top_from(at, to);
            greatest = greatest.max(top);
            at += count;
        }
        greatest
    }
}
