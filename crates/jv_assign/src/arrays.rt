//! Arrays, by their components.

ghost use Rattle.std.specs.Prelude.{◌≡◌, ℕ, List};
ghost use Rattle.jv_text.specs.declared.descriptor.Element.{Element};
ghost use Rattle.jv_text.specs.Descriptor.{base_letter};
ghost use Rattle.jv_text.specs.Seen.{seen_element};
ghost use Rattle.jv_meaning_world.specs.World.{World};
ghost use Rattle.jv_meaning_world.specs.Flow.{same_base, is_above_arrays, component_flows};
ghost use Rattle.jv_assign.specs.Inside.Classes.{components_flow};

use crate::classes::class_flows;
use jv_classes::ClassTable;
use jv_text::{Base, Element, FieldType};

/// The letter of a primitive type (JVMS table 4.3-A).
fn letter(base: Base) -> u8
    ensures { result ≡ base_letter base }
{
    match base {
        Base::Byte => b'B',
        Base::Char => b'C',
        Base::Double => b'D',
        Base::Float => b'F',
        Base::Int => b'I',
        Base::Long => b'J',
        Base::Short => b'S',
        Base::Boolean => b'Z',
    }
}

/// Whether two primitive types are one.
fn same_base(one: Base, other: Base) -> bool
    ensures { result ≡ same_base one other }
{
    letter(one) == letter(other)
}

/// Whether every array flows to the class of a name (JVMS 4.10.1.2).
pub(crate) fn is_above_arrays(name: &[u8]) -> bool
    ensures { result ≡ is_above_arrays name.now }
{
    name == b"java/lang/Object".as_slice()
        || name == b"java/lang/Cloneable".as_slice()
        || name == b"java/io/Serializable".as_slice()
}

/// Whether a component that is no array flows to another that is none.
fn element_flows(table: &ClassTable<'_>, from: Element<&[u8]>, to: Element<&[u8]>) -> bool
    ensures { result ≡ component_flows table.now 0 (seen_element from.entry) 0 (seen_element to.entry) }
{
    match (from, to) {
        (Element::Base(one), Element::Base(other)) => same_base(one, other),
        (Element::Class(one), Element::Class(other)) => class_flows(table, one, other),
        _ => false,
    }
}

/// Whether a component that is an array flows to one that is none.
fn array_flows_to(to: Element<&[u8]>) -> bool
    ensures { (world : World) (from : Element (List ℕ)) → result ≡ component_flows world 1 from 0 (seen_element to.entry) }
{
    match to {
        Element::Base(_) => false,
        Element::Class(name) => is_above_arrays(name),
    }
}

/// Whether the components of an array flow to those of another (JVMS 4.10.1.2).
pub(crate) fn component_flows(
    table: &ClassTable<'_>,
    from: FieldType<'_>,
    to: FieldType<'_>,
) -> bool
    ensures { result ≡ components_flow table.now from.entry to.entry }
{
    if from.dimensions == to.dimensions {
        element_flows(table, from.element, to.element)
    } else if from.dimensions > to.dimensions {
        array_flows_to(to.element)
    } else {
        false
    }
}
