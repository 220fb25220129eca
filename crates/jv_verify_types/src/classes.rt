//! Classes and arrays that operands name (JVMS 4.4.1).

ghost use Rattle.std.specs.Prelude.{◌≡◌, is_some};
ghost use Rattle.std.specs.Option.{option_map};
ghost use Rattle.jv_verify_types.specs.Typed.{name_at, typed};
ghost use Rattle.jv_verify_types.specs.Operands.{class_named_at, array_of_at, array_at};
ghost use Rattle.jv_verify_types.specs.Numbered.{class_number};
ghost use Rattle.jv_verify_types.specs.Inside.Named.{class_of_constant};

use crate::constants::ConstantTypes;
use crate::names::Item;
use jv_stackmap::VerificationTypeOf;
use jv_text::FieldTypeOf;

/// The number of the name of a class, and no array.
pub fn class_number(item: Option<Item>) -> Option<u32>
    ensures { result ≡ class_number item }
{
    match item {
        Some(VerificationTypeOf::Class(number)) => Some(number),
        _ => None,
    }
}

/// The number of the name of the class that an index names; `None` where it names an array or no class.
pub fn names_class(constants: &ConstantTypes<'_, '_>, index: u16) -> Option<u32>
    ensures operand { option_map (name_at constants.now.types.names) result ≡ class_named_at constants.now.pool index }
    ensures constant { option_map (name_at constants.now.types.names) result ≡ class_of_constant constants.now.pool index }
{
    class_number(constants.class_type(index))
}

/// The array of what an index names; `None` where it names nothing, or an array of 255 dimensions.
pub fn array_of(constants: &ConstantTypes<'_, '_>, index: u16) -> Option<Item>
    ensures { option_map (typed constants.now.types.names) result ≡ array_of_at constants.now.pool index }
{
    let components = constants.named_type(index)?;
    if components.dimensions < 255 {
        Some(VerificationTypeOf::Array(components))
    } else {
        None
    }
}

/// The array that an index names; `None` where it names none, or one of fewer dimensions.
pub fn array_type(constants: &ConstantTypes<'_, '_>, index: u16, dimensions: u8) -> Option<Item>
    ensures { option_map (typed constants.now.types.names) result ≡ array_at constants.now.pool index dimensions }
{
    let named = constants.named_type(index)?;
    let components = named.dimensions.checked_sub(1)?;
    if dimensions <= named.dimensions {
        Some(VerificationTypeOf::Array(FieldTypeOf {
            dimensions: components,
            element: named.element,
        }))
    } else {
        None
    }
}
