//! Methods that operands name (JVMS 4.4.2).

ghost use Rattle.std.specs.Prelude.{◌≡◌, ◌&&◌, not, ℕ, List};
ghost use Rattle.jv_text.specs.Name.{is_init};
ghost use Rattle.jv_class.specs.Rules.{is_clinit};
ghost use Rattle.jv_meaning_typing.specs.Named.{method_named_by};
ghost use Rattle.jv_verify_types.specs.Outcomes.{given};
ghost use Rattle.jv_verify_types.specs.Operands.{FindsCalledTypes, WithPool};
ghost use Rattle.jv_verify_types.specs.Inside.Calls.{can_be_of, result_given};

use crate::argument::Argument;
use crate::constants::ConstantTypes;
use crate::indices::{method_indices, text_at};
use crate::names::Item;
use crate::value::value_type;
use jv_class::is_clinit;
use jv_stackmap::VerificationTypeOf;
use jv_text::{FieldTypeOf, is_init};

/// The class or array that a method is named with, and the types of its arguments and of its result.
#[derive(Clone, Copy)]
pub struct CalledTypes<'c> {
    /// Whether it is named as a method of a class, and not of an interface.
    pub of_class: bool,
    /// Whether its name is `<init>`.
    pub is_init: bool,
    /// Whether its name is neither `<init>` nor `<clinit>`.
    pub plain_name: bool,
    pub owner: Item,
    pub arguments: &'c [Argument],
    pub result: Option<Item>,
}

/// Whether a name is neither `<init>` nor `<clinit>`.
fn is_plain_name(name: &[u8]) -> bool
    ensures { result ≡ (not (is_init name.now) && not (is_clinit name.now)) }
{
    !is_init(name) && !is_clinit(name)
}

/// Whether a method named as that of a class, or of an interface, can be one of this class or array.
fn can_be_of(of_class: bool, owner: Item) -> bool
    ensures { result ≡ can_be_of of_class owner }
{
    of_class || !matches!(owner, VerificationTypeOf::Array(_))
}

fn result_given(type_of: Option<FieldTypeOf<u32>>) -> Option<Item>
    ensures { (names : List (List ℕ)) → given names result ≡ result_given names type_of }
{
    Some(value_type(type_of?))
}

/// The method that a Methodref or an InterfaceMethodref constant names; `None` where the index names none, or one of an
/// array as that of an interface.
pub fn called_types<'c>(constants: &'c ConstantTypes<'_, '_>, index: u16) -> Option<CalledTypes<'c>>
    ensures { WithPool constants.now.pool (λ env. FindsCalledTypes constants.now.types.names (method_named_by env index) result) }
{
    let indices = method_indices(constants.pool(), index)?;
    let name = text_at(constants.pool(), indices.member.name)?;
    let owner = constants.class_type(indices.member.class)?;
    let types = constants.method_type(indices.member.descriptor)?;
    if can_be_of(indices.of_class, owner) {
        Some(CalledTypes {
            of_class: indices.of_class,
            is_init: is_init(name),
            plain_name: is_plain_name(name),
            owner,
            arguments: types.arguments,
            result: result_given(types.result),
        })
    } else {
        None
    }
}
