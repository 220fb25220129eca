//! Numbers that are kept once each.

ghost use Rattle.std.specs.Prelude.{◌≡◌, ◌++◌, ◌∷◌, [], IfOk, OnOk, OnErr};
ghost use Rattle.std.specs.List.{list_any};
ghost use Rattle.jv_classes.specs.Ways.{IsBelowSize};
ghost use Rattle.jv_classes.specs.Once.{is_same, joined_once};
ghost use Rattle.jv_classes.specs.Inside.Once.{numbers_once};

use std::alloc::{AllocError, Global};
use std::marker::Model;

/// Numbers below a size in the order in which they came first, each once, with a mark for each.
pub(crate) struct Once {
    numbers: Vec<Option<usize>>,
    marks: Vec<bool>,
    missing: bool,
}

impl Model for Once {
    ghost use Rattle.std.specs.Prelude.{length};
    ghost use Rattle.jv_classes.specs.Inside.Once.{NumbersOnce, numbers_once, AreMarkedOnce};

    ghost Value = { NumbersOnce };

    ghost view = { λ o. numbers_once (length o.marks.items) o.numbers.items };

    ghost invariant = { λ o. AreMarkedOnce o.marks.items o.missing o.numbers.items };
}

impl Drop for Once {
    fn drop(self) {
        let Once {
            numbers: _,
            marks: _,
            missing: _,
        } = self;
    }
}

impl Once {
    /// No number yet.
    pub(crate) fn new(alloc: Global, size: usize) -> Result<Once, AllocError>
        ensures { IfOk result (λ o. o ≡ numbers_once size []) }
    {
        let marks = vec![in alloc; false; size]?;
        Ok(Once {
            numbers: Vec::new(alloc),
            marks,
            missing: false,
        })
    }

    /// Whether a number is there, or none.
    fn has(&self, number: Option<usize>) -> bool
        requires { IsBelowSize self.now.size number }
        ensures { result ≡ list_any (is_same number) self.now.numbers }
    {
        match number {
            Some(number) => self.marks[number],
            None => self.missing,
        }
    }

    /// Adds a number, or none, behind the others.
    fn push(&mut self, number: Option<usize>) -> Result<(), AllocError>
        requires { IsBelowSize self.old.size number }
        ensures ok { OnOk result (self.new ≡ numbers_once self.old.size (self.old.numbers ++ number ∷ [])) }
        ensures refused { OnErr result (self.new ≡ self.old) }
    {
        self.numbers.push(number)?;
        match number {
            Some(number) => self.marks[number] = true,
            None => self.missing = true,
        }
        Ok(())
    }

    /// Adds a number, or none, where it is not there yet.
    pub(crate) fn add(&mut self, number: Option<usize>) -> Result<(), AllocError>
        requires { IsBelowSize self.old.size number }
        ensures ok { OnOk result (self.new ≡ numbers_once self.old.size (joined_once self.old.numbers number)) }
        ensures refused { OnErr result (self.new ≡ self.old) }
    {
        if self.has(number) {
            Ok(())
        } else {
            self.push(number)
        }
    }

    /// The numbers.
    pub(crate) fn numbers(self) -> Vec<Option<usize>>
        ensures { result.items ≡ self.numbers }
    {
        let Once {
            numbers,
            marks: _,
            missing: _,
        } = self;
        numbers
    }
}
