//! Classes by number, and members by place.

ghost use Rattle.std.specs.Prelude.{◌≡◌, ◌<◌, Some, length};
ghost use Rattle.jv_meaning_world.specs.Overriding.{Declared};
ghost use Rattle.jv_meaning_world.specs.LookUps.{DeclaredField};
ghost use Rattle.jv_classes.specs.Members.{IsField, IsMethod};
ghost use Rattle.jv_meaning_world.specs.Numbers.{HoldsAtNumber};
ghost use Rattle.jv_lookups.specs.Places.{field_at, method_at, IsFieldPlace, IsMethodPlace};

use jv_classes::Text;
use jv_loader::{ClassTable, LoadedClass, Member, Place};

/// The class with a number.
pub fn class_at<'t, 'a>(table: &'t ClassTable<'a>, number: usize) -> &'t LoadedClass<'a>
    requires { number < length table.now }
    ensures { HoldsAtNumber table.now number (λ l. result.now ≡ l) }
{
    &table.classes()[number]
}

/// The field at a place (JVMS 4.5).
pub fn field_at<'a>(table: &ClassTable<'a>, place: Place) -> Member<'a>
    requires { IsFieldPlace table.now place }
    ensures { (d : DeclaredField) → field_at table.now place ≡ Some d → IsField result d.field }
{
    table.classes()[place.class].field(place.member)
}

/// The method at a place (JVMS 4.6).
pub fn method_at<'a>(table: &ClassTable<'a>, place: Place) -> Member<'a>
    requires { IsMethodPlace table.now place }
    ensures { (d : Declared) → method_at table.now place ≡ Some d → IsMethod result d.method }
{
    table.classes()[place.class].method(place.member)
}

/// The name of the method at a place, which knows its hash.
pub(crate) fn name_of_method<'a>(table: &ClassTable<'a>, place: Place) -> Text<'a>
    requires { IsMethodPlace table.now place }
    ensures { (d : Declared) → method_at table.now place ≡ Some d → result ≡ d.method.name }
{
    table.classes()[place.class].method_name(place.member)
}

/// Its descriptor, which knows its hash.
pub(crate) fn descriptor_of_method<'a>(table: &ClassTable<'a>, place: Place) -> Text<'a>
    requires { IsMethodPlace table.now place }
    ensures { (d : Declared) → method_at table.now place ≡ Some d → result ≡ d.method.descriptor }
{
    table.classes()[place.class].method_descriptor(place.member)
}
