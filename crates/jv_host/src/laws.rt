//! Laws of hosts: what shows of a guest is its own.

ghost use Rattle.jv_host.specs.Worlds.{TwoWorlds};

use jv_meaning_machine::{same_bytes_show_the_same, shows_one_thing};

/// Two hosts, over whichever stores, show the same of two guests that brought the same files, main class name and input, have the same
/// budget, were fed the same bytes at the same own steps and took equally many: whatever other guests are and do there, and in whatever
/// order turns come.
pub fn two_worlds()
    ensures { TwoWorlds }
{
    same_bytes_show_the_same();
    shows_one_thing();
}
