//! The types of values (JVMS 4.3.2, 4.10.1.2).

ghost use Rattle.std.specs.Prelude.{◌≡◌, ℕ, List};
ghost use Rattle.jv_stackmap.specs.Types.{value_type};
ghost use Rattle.jv_verify_types.specs.Typed.{typed, typed_field};
ghost use Rattle.jv_verify_types.specs.Inside.Packed.{primitive_item, value_item, value_item_by};

use crate::names::Item;
use jv_stackmap::VerificationTypeOf;
use jv_text::{Base, Element, FieldTypeOf};

/// The type of a number of a primitive type; top of a floating point type, which no supported class has.
fn primitive_item(base: Base) -> Item
    ensures { result ≡ primitive_item base }
{
    match base {
        Base::Long => VerificationTypeOf::Long,
        Base::Float => VerificationTypeOf::Top,
        Base::Double => VerificationTypeOf::Top,
        _ => VerificationTypeOf::Int,
    }
}

fn element_item(element: Element<u32>) -> Item
    ensures { result ≡ value_item_by 0 element }
{
    match element {
        Element::Base(base) => primitive_item(base),
        Element::Class(name) => VerificationTypeOf::Class(name),
    }
}

/// The type of the values of a field type, by number.
pub(crate) fn value_item(type_of: FieldTypeOf<u32>) -> Item
    ensures { result ≡ value_item type_of }
{
    match type_of.dimensions.checked_sub(1) {
        None => element_item(type_of.element),
        Some(dimensions) => VerificationTypeOf::Array(FieldTypeOf {
            dimensions,
            element: type_of.element,
        }),
    }
}

/// The type of the values of a field type (JVMS 4.3.2).
pub fn value_type(type_of: FieldTypeOf<u32>) -> Item
    ensures { (names : List (List ℕ)) → typed names result ≡ value_type (typed_field names type_of) }
{
    value_item(type_of)
}
