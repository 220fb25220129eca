//! Types of descriptors with numbers for names (JVMS 4.3).

ghost use Rattle.std.specs.Prelude.{◌≡◌, map, IfOk, OnOk};
ghost use Rattle.jv_text.specs.Seen.{seen_element, seen_field_type, seen_result};
ghost use Rattle.jv_stackmap.specs.Types.{value_type};
ghost use Rattle.jv_verify_types.specs.Typed.{typed_element, typed_field, GoesOn};
ghost use Rattle.jv_verify_types.specs.PoolTypes.{typed_result};
ghost use Rattle.jv_verify_types.specs.Inside.Lasting.{Lasts};
ghost use Rattle.jv_verify_types.specs.Inside.KeptTexts.{JoinsOne, JoinsAll};

use crate::argument::{Argument, argument_of};
use crate::names::TypeNames;
use jv_text::{Element, FieldType, FieldTypeOf};
use std::alloc::AllocError;

/// The element with a number for the name of its class.
pub(crate) fn element_by_number<'a>(
    names: &mut TypeNames<'_, 'a>,
    element: Element<&'a [u8]>,
) -> Result<Element<u32>, AllocError>
    ensures number { IfOk result (λ e. Lasts typed_element names.new.names e (seen_element element.entry)) }
    ensures goes_on { GoesOn names.old.names names.new.names }
    ensures world { names.new.world ≡ names.old.world }
{
    match element {
        Element::Base(base) => Ok(Element::Base(base)),
        Element::Class(name) => {
            let number = names.number_of(name)?;
            Ok(Element::Class(number))
        }
    }
}

/// The type of a field with a number for the name of its class.
pub(crate) fn field_by_number<'a>(
    names: &mut TypeNames<'_, 'a>,
    type_of: FieldType<'a>,
) -> Result<FieldTypeOf<u32>, AllocError>
    ensures number { IfOk result (λ t. Lasts typed_field names.new.names t (seen_field_type type_of.entry)) }
    ensures goes_on { GoesOn names.old.names names.new.names }
    ensures world { names.new.world ≡ names.old.world }
{
    let element = element_by_number(names, type_of.element)?;
    Ok(FieldTypeOf {
        dimensions: type_of.dimensions,
        element,
    })
}

/// The type of a method's result with a number for the name of its class; `None` for void.
pub(crate) fn result_by_number<'a>(
    names: &mut TypeNames<'_, 'a>,
    result_type: Option<FieldType<'a>>,
) -> Result<Option<FieldTypeOf<u32>>, AllocError>
    ensures number { IfOk result (λ t. Lasts typed_result names.new.names t (seen_result result_type.entry)) }
    ensures goes_on { GoesOn names.old.names names.new.names }
    ensures world { names.new.world ≡ names.old.world }
{
    match result_type {
        None => Ok(None),
        Some(type_of) => {
            let number_type = field_by_number(names, type_of)?;
            Ok(Some(number_type))
        }
    }
}

/// The type of a parameter's values joins the others.
fn push_argument<'a>(
    names: &mut TypeNames<'_, 'a>,
    arguments: &mut Vec<Argument>,
    parameter: FieldType<'a>,
) -> Result<(), AllocError>
    ensures joins { OnOk result (JoinsOne names.new.names arguments.old.items arguments.new.items (seen_field_type parameter.entry)) }
    ensures goes_on { GoesOn names.old.names names.new.names }
    ensures world { names.new.world ≡ names.old.world }
{
    let number_type = field_by_number(names, parameter)?;
    let argument = argument_of(number_type)?;
    arguments.push(argument)?;
    Ok(())
}

/// The types of the values of a method's parameters join the others, in their order.
pub(crate) fn push_arguments<'b, 'a: 'b>(
    names: &mut TypeNames<'_, 'a>,
    arguments: &mut Vec<Argument>,
    parameters: &'b [FieldType<'a>],
) -> Result<(), AllocError>
    ensures joins { OnOk result (JoinsAll names.new.names arguments.old.items arguments.new.items (map seen_field_type parameters.now)) }
    ensures goes_on { GoesOn names.old.names names.new.names }
    ensures world { names.new.world ≡ names.old.world }
{
    for parameter in parameters {
        push_argument(names, arguments, *parameter)?;
    }
    Ok(())
}
