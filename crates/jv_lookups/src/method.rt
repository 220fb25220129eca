//! Where a method is found (JVMS 5.4.3.3, 5.4.3.4).

ghost use Rattle.std.specs.Prelude.{◌<◌, length, IfSome};
ghost use Rattle.jv_meaning_world.specs.LookUps.{is_public_instance, lookup_class_method, lookup_interface_method, lookup_method};
ghost use Rattle.jv_meaning_world.specs.Numbers.{AreNumbers};
ghost use Rattle.jv_lookups.specs.Places.{IsMethodPlace, IsMethodFound, IsFirstOfClasses, FindsMethod};
ghost use Rattle.jv_lookups.specs.Inside.Members.{IsFirstAbove, method_of_object};

use crate::declared::{declared_method, is_public_instance, marked_method};
use crate::place::Place;
use crate::superinterface::superinterface_method;
use jv_classes::{ClassTable, Text};

/// The first method that a superclass of a class declares.
fn superclass_method(
    table: &ClassTable<'_>,
    from: usize,
    name: &Text<'_>,
    descriptor: &Text<'_>,
) -> Option<Place>
    requires { from < length table.now }
    ensures found { IsFirstAbove table.now from name.now descriptor.now result }
    ensures place { IfSome result (IsMethodPlace table.now) }
{
    let marks = table.marks_of_method(name, descriptor);
    for superclass in table.superclasses(from) {
        if let Some(place) = marked_method(table, &marks, *superclass as usize, name, descriptor) {
            return Some(place);
        }
    }
    None
}

/// The first method of a name and a descriptor that a class or a superclass of it declares, superinterfaces aside. It costs a
/// mark for each of these, and a look at those that may declare such a method.
pub fn class_method(
    table: &ClassTable<'_>,
    from: usize,
    name: &Text<'_>,
    descriptor: &Text<'_>,
) -> Option<Place>
    requires { from < length table.now }
    ensures found { IsFirstOfClasses table.now from name.now descriptor.now result }
    ensures place { IfSome result (IsMethodPlace table.now) }
{
    if let Some(place) = declared_method(table, from, name, descriptor) {
        return Some(place);
    }
    superclass_method(table, from, name, descriptor)
}

/// Where a method is found from a class: its own, its superclasses', and those of its superinterfaces
/// (JVMS 5.4.3.3).
fn lookup_class_method(
    table: &ClassTable<'_>,
    from: usize,
    searched: &[u16],
    name: &Text<'_>,
    descriptor: &Text<'_>,
) -> Option<Place>
    requires from { from < length table.now }
    requires searched { AreNumbers table.now searched.now }
    ensures found { FindsMethod table.now from searched.now result (λ l. lookup_class_method table.now l name.now descriptor.now) }
    ensures place { IfSome result (IsMethodPlace table.now) }
{
    if let Some(place) = declared_method(table, from, name, descriptor) {
        return Some(place);
    }
    if let Some(place) = superclass_method(table, from, name, descriptor) {
        return Some(place);
    }
    superinterface_method(table, from, searched, name, descriptor)
}

/// The public instance method of a name and a descriptor that java/lang/Object declares (JVMS 5.4.3.4).
fn declared_by_object(
    table: &ClassTable<'_>,
    name: &Text<'_>,
    descriptor: &Text<'_>,
) -> Option<Place>
    ensures found { IsMethodFound table.now result (method_of_object table.now name.now descriptor.now) }
    ensures place { IfSome result (IsMethodPlace table.now) }
{
    let Some(object) = table.find(b"java/lang/Object") else {
        return None;
    };
    let Some(place) = declared_method(table, object, name, descriptor) else {
        return None;
    };
    if !is_public_instance(table, place) {
        return None;
    }
    Some(place)
}

/// The public instance method of a name and a descriptor that java/lang/Object declares (JVMS 5.4.3.4).
pub fn method_of_object(table: &ClassTable<'_>, name: &[u8], descriptor: &[u8]) -> Option<Place>
    ensures found { IsMethodFound table.now result (method_of_object table.now name.now descriptor.now) }
    ensures place { IfSome result (IsMethodPlace table.now) }
{
    let seed = table.seed();
    declared_by_object(table, &Text::new(seed, name), &Text::new(seed, descriptor))
}

/// Where a method is found from an interface: its own, a public instance method of java/lang/Object, and
/// those of its superinterfaces (JVMS 5.4.3.4).
fn lookup_interface_method(
    table: &ClassTable<'_>,
    from: usize,
    searched: &[u16],
    name: &Text<'_>,
    descriptor: &Text<'_>,
) -> Option<Place>
    requires from { from < length table.now }
    requires searched { AreNumbers table.now searched.now }
    ensures found { FindsMethod table.now from searched.now result (λ l. lookup_interface_method table.now l name.now descriptor.now) }
    ensures place { IfSome result (IsMethodPlace table.now) }
{
    if let Some(place) = declared_method(table, from, name, descriptor) {
        return Some(place);
    }
    if let Some(place) = declared_by_object(table, name, descriptor) {
        return Some(place);
    }
    superinterface_method(table, from, searched, name, descriptor)
}

/// Where the method of a name and a descriptor is found from a class or an interface, by what a search
/// from it meets (JVMS 5.4.3.3, 5.4.3.4). It takes no memory.
pub fn lookup_method(
    table: &ClassTable<'_>,
    from: usize,
    searched: &[u16],
    name: &Text<'_>,
    descriptor: &Text<'_>,
) -> Option<Place>
    requires from { from < length table.now }
    requires searched { AreNumbers table.now searched.now }
    ensures found { FindsMethod table.now from searched.now result (λ l. lookup_method table.now l name.now descriptor.now) }
    ensures place { IfSome result (IsMethodPlace table.now) }
{
    if table.classes()[from].is_interface() {
        lookup_interface_method(table, from, searched, name, descriptor)
    } else {
        lookup_class_method(table, from, searched, name, descriptor)
    }
}
