//! Classes that are above others (JVMS 6.5, instanceof), by their numbers.

ghost use Rattle.std.specs.Prelude.{◌≡◌, ◌<◌, length};
ghost use Rattle.jv_meaning_world.specs.Numbers.{HoldsAtBoth};
ghost use Rattle.jv_meaning_machine.specs.Objects.{is_at_or_below as is_at_or_below_named};

use jv_loader::ClassTable;

/// Whether a class is another one, or below it.
pub(crate) fn is_at_or_below(table: &ClassTable<'_>, class: usize, other: usize) -> bool
    requires class { class < length table.now }
    requires other { other < length table.now }
    ensures { HoldsAtBoth table.now class other (λ l to. result ≡ is_at_or_below_named table.now l.class.name to.class.name) }
{
    table.is_numbered();
    class == other || table.is_above(other, class)
}
