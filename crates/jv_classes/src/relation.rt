//! A relation as a table.

ghost use Rattle.std.specs.Prelude.{◌≡◌, ◌↔◌, ◌<◌, ◌||◌, ◌&&◌, ℕ, false, IsTrue, IfOk, OnOk, OnErr, length, get_or, nat_eq};
ghost use Rattle.std.specs.List.{All, list_any};
ghost use Rattle.jv_classes.specs.Ways.{Rows, related, with_pair, empty, IsSquare, Reaches, IsBelowSize, is_there, JoinsWhere};
ghost use Rattle.jv_classes.specs.Inside.Steps.{rows_of};

use std::alloc::{AllocError, Global};
use std::marker::Model;

/// A relation on the numbers below its size.
pub struct Relation {
    rows: Vec<Vec<bool>>,
}

impl Model for Relation {
    ghost use Rattle.jv_classes.specs.Ways.{Rows, IsSquare};
    ghost use Rattle.jv_classes.specs.Inside.Steps.{rows_of};

    ghost Value = { Rows };

    ghost view = { λ r. rows_of r.rows.items };

    ghost invariant = { λ r. IsSquare (rows_of r.rows.items) };
}

impl Drop for Relation {
    fn drop(self) {
        let Relation { rows: _ } = self;
    }
}

/// Also true where the other row is.
fn join(row: &mut [bool], other: &[bool])
    requires { length row.now ≡ length other.now }
    ensures size { length row.new ≡ length row.old }
    ensures joined { (to : ℕ) → get_or row.new to false ≡ (get_or row.old to false || get_or other.now to false) }
{
    for to in 0..other.len() {
        row[to] = row[to] | other[to];
    }
}

/// A row that has `by` also gets what `by` has.
fn join_row(row: &mut [bool], by: usize, other: &[bool])
    requires by { by < length row.now }
    requires size { length row.now ≡ length other.now }
    ensures size { length row.new ≡ length row.old }
    ensures joined { JoinsWhere by other.now row.old row.new }
{
    if row[by] {
        join(row, other);
    }
}

/// Each row that has `by` also gets what `by` has.
fn join_rows(rows: &mut [Vec<bool>], by: usize, other: &[bool])
    requires by { by < length other.now }
    requires square { All (λ row. length row.items ≡ length other.now) rows.now }
    ensures size { length rows.new ≡ length rows.old }
    ensures square { All (λ row. length row.items ≡ length other.now) rows.new }
    ensures joined { (from to : ℕ) → related (rows_of rows.new) from to
        ≡ (related (rows_of rows.old) from to || (related (rows_of rows.old) from by && get_or other.now to false)) }
{
    for row in rows.iter_mut() {
        join_row(row, by, other);
    }
}

/// Relates each number to all that it reaches; `other` is room for a row.
fn close_rows(rows: &mut [Vec<bool>], other: &mut [bool])
    requires other { length other.now ≡ length rows.now }
    requires square { IsSquare (rows_of rows.now) }
    ensures size { length rows.new ≡ length rows.old }
    ensures square { IsSquare (rows_of rows.new) }
    ensures reached { (from to : ℕ) → (IsTrue (related (rows_of rows.new) from to) ↔ Reaches (rows_of rows.old) from to) }
{
    for by in 0..rows.len() {
        other.copy_from_slice(&rows[by]);
        join_rows(rows, by, other);
    }
}

/// Whether the marks are true where the row is.
fn is_within(row: &[bool], marks: &[bool]) -> bool
    requires { length row.now ≡ length marks.now }
    ensures { IsTrue result ↔ ((to : ℕ) → IsTrue (get_or row.now to false) → IsTrue (get_or marks.now to false)) }
{
    for to in 0..row.len() {
        if row[to] && !marks[to] {
            return false;
        }
    }
    true
}

impl Relation {
    /// No number is related to one.
    ///
    /// # Errors
    ///
    /// Where the host had no memory for the table.
    pub fn new(alloc: Global, size: usize) -> Result<Relation, AllocError>
        ensures { IfOk result (λ r. r ≡ empty size) }
    {
        let mut rows = Vec::new(alloc);
        for _ in 0..size {
            let row = vec![in alloc; false; size]?;
            rows.push(row)?;
        }
        Ok(Relation { rows })
    }

    /// How many numbers there are.
    pub fn size(&self) -> usize
        ensures { result ≡ length self.now }
    {
        self.rows.len()
    }

    /// Relates a number to one.
    pub(crate) fn relate(&mut self, from: usize, to: usize)
        requires from { from < length self.now }
        requires to { to < length self.now }
        ensures { self.new ≡ with_pair self.old from to }
    {
        self.rows[from][to] = true;
    }

    /// Each row is as long as there are rows. The call does nothing.
    pub fn is_square(&self)
        ensures { IsSquare self.now }
    {
        // Reads a field, so that the invariant is known.
        let _rows = &self.rows;
    }

    /// Relates a number to one, where that is there.
    pub fn relate_if(&mut self, from: usize, to: Option<usize>)
        requires from { from < length self.now }
        requires to { IsBelowSize (length self.now) to }
        ensures size { length self.new ≡ length self.old }
        ensures related { (a b : ℕ) → related self.new a b ≡ (related self.old a b || (nat_eq a from && is_there b to)) }
    {
        self.is_square();
        if let Some(number) = to {
            self.relate(from, number);
        }
    }

    /// Relates a number to each that is there.
    pub fn relate_each(&mut self, from: usize, to: &[Option<usize>])
        requires from { from < length self.now }
        requires to { All (IsBelowSize (length self.now)) to.now }
        ensures size { length self.new ≡ length self.old }
        ensures related { (a b : ℕ) → related self.new a b ≡ (related self.old a b || (nat_eq a from && list_any (is_there b) to.now)) }
    {
        for number in to {
            self.relate_if(from, *number);
        }
    }

    /// Whether a number is related to one.
    pub fn holds(&self, from: usize, to: usize) -> bool
        requires from { from < length self.now }
        requires to { to < length self.now }
        ensures { result ≡ related self.now from to }
    {
        self.rows[from][to]
    }

    /// Whether a number is related to marked ones alone.
    pub fn has_only(&self, from: usize, marks: &[bool]) -> bool
        requires from { from < length self.now }
        requires marks { length marks.now ≡ length self.now }
        ensures { IsTrue result ↔ ((to : ℕ) → IsTrue (related self.now from to) → IsTrue (get_or marks.now to false)) }
    {
        is_within(&self.rows[from], marks)
    }

    /// Also marks each number that a number is related to.
    pub fn mark_related(&self, from: usize, marks: &mut [bool])
        requires from { from < length self.now }
        requires marks { length marks.old ≡ length self.now }
        ensures size { length marks.new ≡ length marks.old }
        ensures marked { (to : ℕ) → get_or marks.new to false ≡ (get_or marks.old to false || related self.now from to) }
    {
        join(marks, &self.rows[from]);
    }

    /// Relates each number to all that it reaches in one step or more.
    ///
    /// # Errors
    ///
    /// Where the host had no memory for a row; nothing has then changed.
    pub fn close(&mut self, alloc: Global) -> Result<(), AllocError>
        ensures size { length self.new ≡ length self.old }
        ensures ok { OnOk result ((from to : ℕ) → (IsTrue (related self.new from to) ↔ Reaches self.old from to)) }
        ensures refused { OnErr result (self.new ≡ self.old) }
    {
        let mut other = vec![in alloc; false; self.rows.len()]?;
        close_rows(&mut self.rows, &mut other);
        Ok(())
    }
}
