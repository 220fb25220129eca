//! Methods of one name and descriptor, and what their flags say.

ghost use Rattle.std.specs.Prelude.{◌≡◌, ◌<◌, Some, IfSome, length};
ghost use Rattle.std.specs.Option.{option_and_then};
ghost use Rattle.jv_class_structure.specs.Flags.{has, acc_public};
ghost use Rattle.jv_meaning_world.specs.Overriding.{Declared, is_instance, alike_in};
ghost use Rattle.jv_meaning_world.specs.LookUps.{is_concrete};
ghost use Rattle.jv_lookups.specs.Places.{method_at, IsMethodPlace, HoldsAtCall};
ghost use Rattle.jv_meaning_typing.specs.Inside.OneWalk.{is_open};
ghost use Rattle.jv_meaning_typing.specs.Inside.Upward.{is_private};
ghost use Rattle.jv_link.specs.Inside.Called.{method_named_as, AreMarksAs};

use crate::member::{class_at, descriptor_of_method, method_at, name_of_method};
use bitflags::Flags;
use jv_class_structure::MethodFlags;
use jv_classes::KeyRow;
use jv_loader::{ClassTable, Place};
use jv_text::is_init;

const PUBLIC_OR_PROTECTED: MethodFlags = MethodFlags(0x0005);

/// Whether a method is an instance method other than `<init>`.
pub(crate) fn is_instance(table: &ClassTable<'_>, place: Place) -> bool
    requires { IsMethodPlace table.now place }
    ensures { (d : Declared) → method_at table.now place ≡ Some d → result ≡ is_instance d.method }
{
    let method = method_at(table, place);
    !MethodFlags(method.access_flags).intersects(MethodFlags::STATIC) && !is_init(method.name)
}

/// Whether a method is public.
pub(crate) fn is_public(table: &ClassTable<'_>, place: Place) -> bool
    requires { IsMethodPlace table.now place }
    ensures { (d : Declared) → method_at table.now place ≡ Some d → result ≡ has d.method.access_flags acc_public }
{
    MethodFlags(method_at(table, place).access_flags).intersects(MethodFlags::PUBLIC)
}

/// Whether a method is private.
pub(crate) fn is_private(table: &ClassTable<'_>, place: Place) -> bool
    requires { IsMethodPlace table.now place }
    ensures { (d : Declared) → method_at table.now place ≡ Some d → result ≡ is_private d }
{
    MethodFlags(method_at(table, place).access_flags).intersects(MethodFlags::PRIVATE)
}

/// Whether a method is public or protected.
pub(crate) fn is_open(table: &ClassTable<'_>, place: Place) -> bool
    requires { IsMethodPlace table.now place }
    ensures { (d : Declared) → method_at table.now place ≡ Some d → result ≡ is_open d }
{
    MethodFlags(method_at(table, place).access_flags).intersects(PUBLIC_OR_PROTECTED)
}

/// Whether a method is not abstract.
pub(crate) fn is_concrete(table: &ClassTable<'_>, place: Place) -> bool
    requires { IsMethodPlace table.now place }
    ensures { (d : Declared) → method_at table.now place ≡ Some d → result ≡ is_concrete d }
{
    !MethodFlags(method_at(table, place).access_flags).intersects(MethodFlags::ABSTRACT)
}

/// The method of a class with the name and the descriptor of another. No text is hashed.
fn named_as(table: &ClassTable<'_>, class: usize, called: Place) -> Option<Place>
    requires class { class < length table.now }
    requires called { IsMethodPlace table.now called }
    ensures found { HoldsAtCall table.now called class (λ l e. option_and_then (method_at table.now) result ≡ method_named_as e l) }
    ensures place { IfSome result (IsMethodPlace table.now) }
{
    let name = name_of_method(table, called);
    let descriptor = descriptor_of_method(table, called);
    let member = class_at(table, class).method_of(&name, &descriptor)?;
    Some(Place { class, member })
}

/// The instance method of a class with the name and the descriptor of another, `<init>` aside.
pub(crate) fn alike_in(table: &ClassTable<'_>, class: usize, called: Place) -> Option<Place>
    requires class { class < length table.now }
    requires called { IsMethodPlace table.now called }
    ensures found { HoldsAtCall table.now called class (λ l e. option_and_then (method_at table.now) result ≡ alike_in l e.method) }
    ensures place { IfSome result (IsMethodPlace table.now) }
{
    let Some(place) = named_as(table, class, called) else {
        return None;
    };
    if !is_instance(table, place) {
        return None;
    }
    Some(place)
}

/// Marks of the classes that may declare a method with the name and the descriptor of another.
pub(crate) fn marks_as<'t>(table: &'t ClassTable<'_>, called: Place) -> KeyRow<'t>
    requires { IsMethodPlace table.now called }
    ensures { AreMarksAs table.now called result }
{
    let name = name_of_method(table, called);
    let descriptor = descriptor_of_method(table, called);
    table.marks_of_method(&name, &descriptor)
}

/// What [`alike_in`] answers; a class that is not marked is not looked at.
pub(crate) fn marked_alike(
    table: &ClassTable<'_>,
    marks: &KeyRow<'_>,
    class: usize,
    called: Place,
) -> Option<Place>
    requires class { class < length table.now }
    requires called { IsMethodPlace table.now called }
    requires marks { AreMarksAs table.now called marks.now }
    ensures found { HoldsAtCall table.now called class (λ l e. option_and_then (method_at table.now) result ≡ alike_in l e.method) }
    ensures place { IfSome result (IsMethodPlace table.now) }
{
    if marks.is_marked(class) {
        alike_in(table, class, called)
    } else {
        None
    }
}
