//! How many classes a guest has.

ghost use Rattle.std.specs.Prelude.{◌+◌, ◌≤◌, length};

use jv_verify::Verified;

/// A guest has no more classes than its host gives and one of each of its files. The call does nothing.
pub fn classes_are_few(verified: &Verified<'_>)
    ensures { length verified.now.world ≤ verified.now.host + length verified.now.verdicts }
{
    verified.are_typed();
}
