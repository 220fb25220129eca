//! Access to fields and methods (JVMS 5.4.4).

ghost use Rattle.std.specs.Prelude.{◌≡◌, ◌<◌, length};
ghost use Rattle.jv_meaning_world.specs.World.{same_package};
ghost use Rattle.jv_meaning_world.specs.Numbers.{HoldsAtNumber, HoldsAtBoth};
ghost use Rattle.jv_meaning_typing.specs.Access.{in_line, is_accessible_below, can_access};
ghost use Rattle.jv_link.specs.Inside.Steps.{IsAccessibleBelow};

use crate::class::same_class;
use crate::member::class_at;
use bitflags::Flags;
use jv_class_structure::MethodFlags;
use jv_loader::ClassTable;

/// Whether two classes are in one run-time package (JVMS 5.3).
pub fn same_package(table: &ClassTable<'_>, one: usize, other: usize) -> bool
    requires one { one < length table.now }
    requires other { other < length table.now }
    ensures { HoldsAtNumber table.now one (λ l. HoldsAtNumber table.now other (λ m. result ≡ same_package l m)) }
{
    class_at(table, one).same_package(class_at(table, other))
}

/// Whether one class is a subclass of the other, or they are the same class.
fn in_line(table: &ClassTable<'_>, one: usize, other: usize) -> bool
    requires one { one < length table.now }
    requires other { other < length table.now }
    ensures { HoldsAtNumber table.now one (λ l. HoldsAtNumber table.now other (λ m. result ≡ in_line table.now l m)) }
{
    table.is_subclass(one, other) || table.is_subclass(other, one)
}

/// Whether a protected member of another package can be accessed.
fn is_accessible_below(
    table: &ClassTable<'_>,
    current: usize,
    named: usize,
    by: usize,
    flags: u16,
) -> bool
    requires current { current < length table.now }
    requires named { named < length table.now }
    requires by { by < length table.now }
    ensures { IsAccessibleBelow table.now current named by flags result }
{
    table.is_subclass(current, by)
        && (MethodFlags(flags).intersects(MethodFlags::STATIC) || in_line(table, named, current))
}

/// Whether the current class can access a member with these flags that a class declares, by way of the
/// class that is named.
pub(crate) fn can_access(
    table: &ClassTable<'_>,
    current: usize,
    named: usize,
    by: usize,
    flags: u16,
) -> bool
    requires current { current < length table.now }
    requires named { named < length table.now }
    requires by { by < length table.now }
    ensures { HoldsAtBoth table.now current named (λ c n. HoldsAtNumber table.now by (λ l. result ≡ can_access table.now c n l flags)) }
{
    if MethodFlags(flags).intersects(MethodFlags::PUBLIC) {
        true
    } else if MethodFlags(flags).intersects(MethodFlags::PRIVATE) {
        same_class(table, current, by)
    } else {
        same_package(table, current, by)
            || (MethodFlags(flags).intersects(MethodFlags::PROTECTED)
                && is_accessible_below(table, current, named, by, flags))
    }
}
