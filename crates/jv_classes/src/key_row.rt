//! The marks of a key.

ghost use Rattle.std.specs.Prelude.{◌≡◌, ◌<◌, false, length, get_or, map};
ghost use Rattle.jv_classes.specs.Marks.{has_print};

use std::marker::Model;

/// The marks of a key, one for each class. In contracts it is their list.
pub struct KeyRow<'m> {
    print: u8,
    cells: &'m [u8],
}

impl<'m> Model for KeyRow<'m> {
    ghost use Rattle.std.specs.Prelude.{List, Bool, map};
    ghost use Rattle.jv_classes.specs.Marks.{has_print};

    ghost Value = { List Bool };

    ghost view = { λ r. map (has_print r.print) r.cells.now };
}

impl Drop for KeyRow<'_> {
    fn drop(self) {
        let KeyRow { print: _, cells: _ } = self;
    }
}

impl<'m> KeyRow<'m> {
    /// The marks of a print.
    pub(crate) fn of(print: u8, cells: &'m [u8]) -> KeyRow<'m>
        ensures { result ≡ map (has_print print) cells.now }
    {
        KeyRow { print, cells }
    }

    /// Whether a class is marked.
    #[inline(always)]
    pub fn is_marked(&self, class: usize) -> bool
        requires { class < length self.now }
        ensures { result ≡ get_or self.now class false }
    {
        let cell = self.cells[class];
        cell == self.print || cell == 255
    }
}
