//! The first classes of a table.

ghost use Rattle.std.specs.Prelude.{◌≡◌, ◌≤◌, length, take};
ghost use Rattle.jv_meaning_library.specs.Closed.{is_there};

use jv_classes::{ClassTable, LoadedClass};
use std::marker::Model;

/// The first classes of a table, so many.
#[derive(Drop)]
pub(crate) struct FirstClasses<'t, 'a> {
    table: &'t ClassTable<'a>,
    count: usize,
}

impl<'t, 'a> Model for FirstClasses<'t, 'a> {
    ghost use Rattle.std.specs.Prelude.{◌≤◌, length, take};
    ghost use Rattle.jv_meaning_world.specs.World.{World};

    ghost Value = { World };

    ghost view = { λ f. take f.count f.table.now };

    ghost invariant = { λ f. f.count ≤ length f.table.now };
}

impl<'t, 'a> FirstClasses<'t, 'a> {
    pub(crate) fn of(table: &'t ClassTable<'a>, count: usize) -> FirstClasses<'t, 'a>
        requires { count ≤ length table.now }
        ensures { result ≡ take count table.now }
    {
        FirstClasses { table, count }
    }

    /// Whether one of them has the name.
    pub(crate) fn has_class(&self, name: &[u8]) -> bool
        ensures { result ≡ is_there self.now name.now }
    {
        match self.table.find(name) {
            Some(number) => number < self.count,
            None => false,
        }
    }

    /// They themselves, each at its number.
    pub(crate) fn classes(&self) -> &[LoadedClass<'a>]
        ensures { result.now ≡ self.now }
    {
        &self.table.classes()[..self.count]
    }
}
