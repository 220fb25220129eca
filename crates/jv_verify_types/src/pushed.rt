//! Constants that instructions push (JVMS 4.4.3 to 4.4.5).

ghost use Rattle.std.specs.Prelude.{◌≡◌};
ghost use Rattle.std.specs.Option.{option_map};
ghost use Rattle.jv_pool.specs.Constants.{at_index};
ghost use Rattle.jv_meaning_typing.specs.Named.{constant_type_of, long_constant_type_of};
ghost use Rattle.jv_verify_types.specs.Typed.{typed};

use crate::constants::ConstantTypes;
use crate::names::Item;
use jv_pool::Constant;
use jv_stackmap::VerificationTypeOf;

/// The type of a constant of one word: an int or a string. `None` where the index names neither.
pub fn one_word_constant_type(constants: &ConstantTypes<'_, '_>, index: u16) -> Option<Item>
    ensures { option_map (typed constants.now.types.names) result ≡ constant_type_of (at_index constants.now.pool index) }
{
    match constants.pool().constant(index) {
        Some(Constant::Integer(_)) => Some(VerificationTypeOf::Int),
        Some(Constant::String(_)) => Some(constants.string()),
        _ => None,
    }
}

/// The type of a constant of two words: a long. `None` where the index names none.
pub fn long_constant_type(constants: &ConstantTypes<'_, '_>, index: u16) -> Option<Item>
    ensures { option_map (typed constants.now.types.names) result ≡ long_constant_type_of (at_index constants.now.pool index) }
{
    match constants.pool().constant(index) {
        Some(Constant::Long(_, _)) => Some(VerificationTypeOf::Long),
        _ => None,
    }
}
