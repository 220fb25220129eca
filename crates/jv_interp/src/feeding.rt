//! What comes to a guest's input while it runs.

ghost use Rattle.std.specs.Prelude.{◌≡◌, ◌≤◌, OnOk, OnErr};
ghost use Rattle.jv_interp.specs.Standing.{IsFed, StandsStill};

use crate::guest::Guest;
use jv_meaning_machine::feed_joins;
use std::alloc::AllocError;

impl Guest<'_> {
    /// The bytes join behind the input that waits (own).
    ///
    /// # Errors
    ///
    /// Where the host had no memory for them; nothing has then changed.
    pub fn feed(&mut self, bytes: &[u8]) -> Result<(), AllocError>
        ensures fed { OnOk result (IsFed bytes.now self.old self.new) }
        ensures cells { self.new.held.cells ≡ self.old.held.cells }
        ensures refused { OnErr result (StandsStill self.old self.new) }
    {
        feed_joins();
        match self.held.input.extend_from_slice(bytes) {
            Ok(()) => Ok(()),
            Err(refused) => Err(refused),
        }
    }
}
