//! A class as a step uses it.

ghost use Rattle.std.specs.Prelude.{◌≡◌};
ghost use Rattle.jv_text.specs.Seen.{seen_element};
ghost use Rattle.jv_link.specs.UseRules.{IsRefWithin};
ghost use Rattle.jv_link_cache.specs.ClassUses.{class_of_element, class_of_elements, IsClassUse};

use jv_link::ClassRef;
use jv_loader::ClassTable;
use jv_text::Element;

/// A class or an array as a step uses it: what its constant resolves to, and of an array of objects the number of the class that
/// its type names.
#[derive(Clone, Copy)]
pub struct ClassUse<'a> {
    pub found: ClassRef<'a>,
    pub element: Option<usize>,
}

/// The number of the class of an element.
fn class_of_element(table: &ClassTable<'_>, element: Element<&[u8]>) -> Option<usize>
    ensures { result ≡ class_of_element table.now (seen_element element.entry) }
{
    match element {
        Element::Base(_) => None,
        Element::Class(name) => table.find(name),
    }
}

/// That of the elements of an array.
fn class_of_elements(table: &ClassTable<'_>, found: ClassRef<'_>) -> Option<usize>
    ensures { result ≡ class_of_elements table.now found.entry }
{
    match found {
        ClassRef::Class(_) => None,
        ClassRef::Array(array) => class_of_element(table, array.element),
    }
}

/// A class or an array, as a step uses it.
pub(crate) fn class_used<'a>(table: &ClassTable<'a>, found: ClassRef<'a>) -> ClassUse<'a>
    requires { IsRefWithin table.now found }
    ensures used { IsClassUse table.now result }
    ensures found { result.found ≡ found.entry }
{
    let element = class_of_elements(table, found);
    ClassUse { found, element }
}
