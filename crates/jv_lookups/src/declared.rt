//! The methods that a class declares, and what their flags say.

ghost use Rattle.std.specs.Prelude.{◌≡◌, ◌<◌, Some, length, IfSome};
ghost use Rattle.jv_classes.specs.Marks.{MarksMethod};
ghost use Rattle.jv_meaning_world.specs.Overriding.{Declared};
ghost use Rattle.jv_meaning_world.specs.LookUps.{method_in, is_inheritable, is_concrete, is_public_instance};
ghost use Rattle.jv_meaning_world.specs.Numbers.{HoldsAtNumber};
ghost use Rattle.jv_lookups.specs.Places.{method_at, IsMethodPlace, IsMethodFound};

use crate::place::Place;
use bitflags::Flags;
use jv_class_structure::MethodFlags;
use jv_classes::{ClassTable, KeyRow, Text};

const PRIVATE_OR_STATIC: MethodFlags = MethodFlags(0x000a);

/// The method of a name and a descriptor that a class declares.
pub(crate) fn declared_method(
    table: &ClassTable<'_>,
    class: usize,
    name: &Text<'_>,
    descriptor: &Text<'_>,
) -> Option<Place>
    requires { class < length table.now }
    ensures found { HoldsAtNumber table.now class (λ l. IsMethodFound table.now result (method_in name.now descriptor.now l)) }
    ensures place { IfSome result (IsMethodPlace table.now) }
{
    let member = table.classes()[class].method_of(name, descriptor)?;
    Some(Place { class, member })
}

/// The same, where it is marked which classes may declare such a method: one that is not is not looked at.
pub(crate) fn marked_method(
    table: &ClassTable<'_>,
    marks: &KeyRow<'_>,
    class: usize,
    name: &Text<'_>,
    descriptor: &Text<'_>,
) -> Option<Place>
    requires class { class < length table.now }
    requires marks { MarksMethod table.now name.now descriptor.now marks.now }
    ensures found { HoldsAtNumber table.now class (λ l. IsMethodFound table.now result (method_in name.now descriptor.now l)) }
    ensures place { IfSome result (IsMethodPlace table.now) }
{
    if marks.is_marked(class) {
        declared_method(table, class, name, descriptor)
    } else {
        None
    }
}

/// The access flags of the method at a place (JVMS table 4.6-A).
fn flags_of(table: &ClassTable<'_>, place: Place) -> u16
    requires { IsMethodPlace table.now place }
    ensures { (d : Declared) → method_at table.now place ≡ Some d → result ≡ d.method.access_flags }
{
    table.classes()[place.class]
        .method(place.member)
        .access_flags
}

/// Whether the method at a place is neither private nor static (JVMS 5.4.3.3).
pub(crate) fn is_inheritable(table: &ClassTable<'_>, place: Place) -> bool
    requires { IsMethodPlace table.now place }
    ensures { (d : Declared) → method_at table.now place ≡ Some d → result ≡ is_inheritable d }
{
    !MethodFlags(flags_of(table, place)).intersects(PRIVATE_OR_STATIC)
}

/// Whether the method at a place is not abstract (JVMS 5.4.3.3).
pub(crate) fn is_concrete(table: &ClassTable<'_>, place: Place) -> bool
    requires { IsMethodPlace table.now place }
    ensures { (d : Declared) → method_at table.now place ≡ Some d → result ≡ is_concrete d }
{
    !MethodFlags(flags_of(table, place)).intersects(MethodFlags::ABSTRACT)
}

/// Whether the method at a place is public and not static (JVMS 5.4.3.4).
pub(crate) fn is_public_instance(table: &ClassTable<'_>, place: Place) -> bool
    requires { IsMethodPlace table.now place }
    ensures { (d : Declared) → method_at table.now place ≡ Some d → result ≡ is_public_instance d }
{
    let flags = flags_of(table, place);
    MethodFlags(flags).intersects(MethodFlags::PUBLIC)
        && !MethodFlags(flags).intersects(MethodFlags::STATIC)
}
