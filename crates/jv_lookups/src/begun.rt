//! The classes that a search has begun.

ghost use Rattle.std.specs.Prelude.{◌≡◌, ◌<◌, ◌++◌, ◌∷◌, [], IfOk, OnOk, OnErr, nat_eq, length};
ghost use Rattle.std.specs.List.{All, list_any};
ghost use Rattle.jv_lookups.specs.Inside.Numbers.{numbers_below};

use jv_classes::short_number;
use std::alloc::{AllocError, Global};
use std::marker::Model;

/// Numbers below a size in the order in which they came, in two bytes each, with a mark for each.
pub struct Begun {
    order: Vec<u16>,
    marks: Vec<bool>,
}

impl Model for Begun {
    ghost use Rattle.std.specs.Prelude.{length};
    ghost use Rattle.jv_lookups.specs.Inside.Numbers.{NumbersBelow, numbers_below, AreNumbersMarked};

    ghost Value = { NumbersBelow };

    ghost view = { λ b. numbers_below (length b.marks.items) b.order.items };

    ghost invariant = { λ b. AreNumbersMarked b.marks.items b.order.items };
}

impl Drop for Begun {
    fn drop(self) {
        let Begun { order: _, marks: _ } = self;
    }
}

impl Begun {
    /// No number yet.
    ///
    /// # Errors
    ///
    /// Where the host had no memory for the marks.
    pub fn new(alloc: Global, size: usize) -> Result<Begun, AllocError>
        ensures { IfOk result (λ b. b ≡ numbers_below size []) }
    {
        let marks = vec![in alloc; false; size]?;
        Ok(Begun {
            order: Vec::new(alloc),
            marks,
        })
    }

    /// Whether a number is there.
    pub fn has(&self, number: usize) -> bool
        requires { number < self.now.size }
        ensures { result ≡ list_any (nat_eq number) self.now.numbers }
    {
        self.marks[number]
    }

    /// Adds a number.
    ///
    /// # Errors
    ///
    /// Where the host had no memory for it, as there is none for a number that has no room in two bytes; nothing has then changed.
    pub fn add(&mut self, number: usize) -> Result<(), AllocError>
        requires { number < self.old.size }
        ensures ok { OnOk result (self.new ≡ numbers_below self.old.size (self.old.numbers ++ number ∷ [])) }
        ensures refused { OnErr result (self.new ≡ self.old) }
    {
        self.order.push(short_number(number)?)?;
        self.marks[number] = true;
        Ok(())
    }

    /// The numbers in the order in which they came, with no more room than there are of them.
    pub fn numbers(self) -> Vec<u16>
        ensures { result.items ≡ self.numbers }
    {
        let Begun {
            mut order,
            marks: _,
        } = self;
        order.shrink_to_fit();
        order
    }
}
