//! Which classes may declare a member of a key.

ghost use Rattle.std.specs.Prelude.{◌≡◌, ◌<◌, ℕ, true, false, IfOk, length, get_or, set};
ghost use Rattle.jv_classes.specs.Marks.{AreKept, has_print, is_marked, print_of, row_of, with_print};

use crate::key_row::KeyRow;
use std::alloc::{AllocError, Global};
use std::marker::Model;

/// As many rows there are at least, and at most.
const LEAST: usize = 64;

const MOST: usize = 8192;

/// Marks of keys by class: a key has a row, with a byte for each class, and may share it with others. A byte has the print of the
/// keys that were marked there, or says that these have several. Which keys have one row and one print is up to hashes that a
/// stranger cannot know.
pub struct KeyMarks {
    width: usize,
    rows: Vec<Vec<u8>>,
}

impl Model for KeyMarks {
    ghost use Rattle.jv_classes.specs.Marks.{MarkedKeys};
    ghost use Rattle.jv_classes.specs.Inside.Marked.{AreWide, cells_of};

    ghost Value = { MarkedKeys };

    ghost view = { λ m. record { width = m.width; rows = cells_of m.rows.items } };

    ghost invariant = { λ m. AreWide m.width (cells_of m.rows.items) };
}

impl Drop for KeyMarks {
    fn drop(self) {
        let KeyMarks { width: _, rows: _ } = self;
    }
}

/// How many rows there are for so many members of so many classes: four for each member of a class, which is four bytes for each
/// member of all of them, so that few bytes tell of several prints.
fn rows_for(members: usize, classes: usize) -> usize
    ensures { 0 < result }
{
    let wanted = members.saturating_mul(4) / classes.max(1);
    wanted.clamp(LEAST, MOST)
}

/// The print of a key.
fn print_of(key: u64) -> u8
    ensures { result ≡ print_of key }
{
    ((key >> 40) % 254 + 1) as u8
}

/// The row of a key, of so many.
fn row_of(size: usize, key: u64) -> usize
    requires { 0 < size }
    ensures row { result ≡ row_of size key }
    ensures within { result < size }
{
    (key >> 20) as usize % size
}

/// What a byte tells where a print joins it.
fn with_print(cell: u8, print: u8) -> u8
    ensures { result ≡ with_print cell print }
{
    if cell == 0 {
        print
    } else if cell == print {
        cell
    } else {
        255
    }
}

/// Joins a print to the byte of a class.
fn put_print(row: &mut Vec<u8>, class: usize, print: u8)
    requires { class < length row.now.items }
    ensures { row.new.items ≡ set row.old.items class (with_print (get_or row.old.items class 0) print) }
{
    let cell = row[class];
    row[class] = with_print(cell, print);
}

impl KeyMarks {
    /// No marks, with room for so many members of so many classes.
    ///
    /// # Errors
    ///
    /// Where the host had no memory for them.
    pub fn new(alloc: Global, members: usize, classes: usize) -> Result<KeyMarks, AllocError>
        ensures { IfOk result (λ m. m.width ≡ classes) }
    {
        let mut rows = Vec::new(alloc);
        for _ in 0..rows_for(members, classes) {
            let row = vec![in alloc; 0u8; classes]?;
            rows.push(row)?;
        }
        Ok(KeyMarks {
            width: classes,
            rows,
        })
    }

    /// Marks a key for a class.
    pub fn mark(&mut self, key: u64, class: usize)
        requires { class < self.old.width }
        ensures marked { is_marked self.new key class ≡ true }
        ensures kept { AreKept self.old self.new }
    {
        let slot = row_of(self.rows.len(), key);
        put_print(&mut self.rows[slot], class, print_of(key));
    }

    /// The marks of a key, one for each class.
    pub fn row(&self, key: u64) -> KeyRow<'_>
        ensures width { length result ≡ self.now.width }
        ensures marks { (class : ℕ) → get_or result class false ≡ is_marked self.now key class }
    {
        let slot = row_of(self.rows.len(), key);
        KeyRow::of(print_of(key), &self.rows[slot])
    }
}
