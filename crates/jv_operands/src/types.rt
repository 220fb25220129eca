//! Types that texts name (JVMS 4.3.2, 4.4.1).

ghost use Rattle.std.specs.Prelude.{◌≡◌};
ghost use Rattle.std.specs.Option.{option_map};
ghost use Rattle.jv_stackmap.specs.Seen.{seen_type};
ghost use Rattle.jv_stackmap.specs.Types.{array_of, primitive_type, reference_type, value_type};
ghost use Rattle.jv_text.specs.Seen.{seen_element, seen_field_type};
ghost use Rattle.jv_text.specs.Types.{field_type_of};
ghost use Rattle.jv_operands.specs.Inside.Named.{array_named, element_type};

use jv_stackmap::VerificationTypeOf;
use jv_text::{
    Base, Element, FieldType, FieldTypeOf, field_type, is_array_name, is_class_name, types_agree,
};

/// The type of a value of a primitive type; top of a floating point type, which no supported class has.
fn primitive_type<'a>(base: Base) -> VerificationTypeOf<&'a [u8]>
    ensures { seen_type result ≡ primitive_type base }
{
    match base {
        Base::Long => VerificationTypeOf::Long,
        Base::Float => VerificationTypeOf::Top,
        Base::Double => VerificationTypeOf::Top,
        _ => VerificationTypeOf::Int,
    }
}

/// The type of a value that is no array.
fn element_type<'a>(element: Element<&'a [u8]>) -> VerificationTypeOf<&'a [u8]>
    ensures { seen_type result ≡ element_type (seen_element element.entry) }
{
    match element {
        Element::Base(base) => primitive_type(base),
        Element::Class(name) => VerificationTypeOf::Class(name),
    }
}

/// The type of a value of a field type (JVMS 4.3.2).
pub(crate) fn value_type<'a>(of: FieldType<'a>) -> VerificationTypeOf<&'a [u8]>
    ensures { seen_type result ≡ value_type (seen_field_type of.entry) }
{
    match of.dimensions.checked_sub(1) {
        None => element_type(of.element),
        Some(dimensions) => VerificationTypeOf::Array(FieldTypeOf {
            dimensions,
            element: of.element,
        }),
    }
}

/// The type that a text describes, where it is a field descriptor.
pub(crate) fn described<'a>(text: &'a [u8]) -> Option<FieldType<'a>>
    ensures { option_map seen_field_type result ≡ field_type_of text.now }
{
    types_agree();
    match field_type(text) {
        Ok(of) => Some(of),
        Err(_) => None,
    }
}

/// The array with a dimension more than its components.
fn array_of<'a>(of: FieldType<'a>) -> Option<VerificationTypeOf<&'a [u8]>>
    ensures { option_map seen_type result ≡ array_of (seen_field_type of.entry) }
{
    Some(VerificationTypeOf::Array(FieldTypeOf {
        dimensions: of.dimensions.saturating_sub(1),
        element: of.element,
    }))
}

/// The array of a descriptor.
fn array_type<'a>(text: &'a [u8]) -> Option<VerificationTypeOf<&'a [u8]>>
    ensures { option_map seen_type result ≡ array_named text.now }
{
    match described(text) {
        Some(of) => array_of(of),
        None => None,
    }
}

/// The array or the class that the text of a Class constant names (JVMS 4.4.1).
pub(crate) fn reference_type<'a>(text: &'a [u8]) -> Option<VerificationTypeOf<&'a [u8]>>
    ensures { option_map seen_type result ≡ reference_type text.now }
{
    if is_array_name(text) {
        array_type(text)
    } else if is_class_name(text) {
        Some(VerificationTypeOf::Class(text))
    } else {
        None
    }
}
