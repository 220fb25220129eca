//! Where a field is found (JVMS 5.4.3.2).

ghost use Rattle.std.specs.Prelude.{◌<◌, length, IfSome};
ghost use Rattle.jv_classes.specs.Marks.{MarksField};
ghost use Rattle.jv_meaning_world.specs.LookUps.{lookup_field};
ghost use Rattle.jv_meaning_world.specs.Numbers.{HoldsAtNumber};
ghost use Rattle.jv_meaning_world.specs.Numbers.{AreNumbers};
ghost use Rattle.jv_lookups.specs.Places.{IsFieldPlace, IsFieldFound};
ghost use Rattle.jv_lookups.specs.Inside.Members.{field_named_in, FindsField};

use crate::place::Place;
use jv_classes::{ClassTable, KeyRow, Text};

/// The field of a name and a descriptor that a class declares.
fn declared_field(
    table: &ClassTable<'_>,
    class: usize,
    name: &Text<'_>,
    descriptor: &Text<'_>,
) -> Option<Place>
    requires { class < length table.now }
    ensures found { HoldsAtNumber table.now class (λ l. IsFieldFound table.now result (field_named_in name.now descriptor.now l)) }
    ensures place { IfSome result (IsFieldPlace table.now) }
{
    let member = table.classes()[class].field_of(name, descriptor)?;
    Some(Place { class, member })
}

/// The same, where it is marked which classes may declare such a field: one that is not is not looked at.
fn marked_field(
    table: &ClassTable<'_>,
    marks: &KeyRow<'_>,
    class: usize,
    name: &Text<'_>,
    descriptor: &Text<'_>,
) -> Option<Place>
    requires class { class < length table.now }
    requires marks { MarksField table.now name.now descriptor.now marks.now }
    ensures found { HoldsAtNumber table.now class (λ l. IsFieldFound table.now result (field_named_in name.now descriptor.now l)) }
    ensures place { IfSome result (IsFieldPlace table.now) }
{
    if marks.is_marked(class) {
        declared_field(table, class, name, descriptor)
    } else {
        None
    }
}

/// Where the field of a name and a descriptor is found from a class, by what a search from it meets
/// (JVMS 5.4.3.2). It costs a mark for each class, and a look at those that may declare such a field.
pub fn lookup_field(
    table: &ClassTable<'_>,
    searched: &[u16],
    name: &Text<'_>,
    descriptor: &Text<'_>,
) -> Option<Place>
    requires { AreNumbers table.now searched.now }
    ensures found { FindsField table.now searched.now name.now descriptor.now result }
    ensures place { IfSome result (IsFieldPlace table.now) }
{
    let marks = table.marks_of_field(name, descriptor);
    for class in searched {
        if let Some(place) = marked_field(table, &marks, *class as usize, name, descriptor) {
            return Some(place);
        }
    }
    None
}
