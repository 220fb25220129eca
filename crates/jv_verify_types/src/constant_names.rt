//! The numbers of the names of classes that constants name (JVMS 4.4.1).

ghost use Rattle.std.specs.Prelude.{◌≡◌, IsSome, Some};
ghost use Rattle.std.specs.Option.{option_map};
ghost use Rattle.jv_class_structure.specs.Seen.{seen_index};
ghost use Rattle.jv_verify_types.specs.Typed.{name_at};
ghost use Rattle.jv_verify_types.specs.Inside.Named.{class_of_constant, class_of_constant_at, IsNameOf};

use crate::classes::names_class;
use crate::constants::ConstantTypes;
use jv_pool::ClassIndex;

/// The number of the name of the class that a constant is known to name.
pub(crate) fn known_number(constants: &ConstantTypes<'_, '_>, index: ClassIndex) -> u32
    requires { IsSome (class_of_constant constants.now.pool index.0) }
    ensures { class_of_constant constants.now.pool index.0 ≡ Some (name_at constants.now.types.names result) }
{
    match names_class(constants, index.0) {
        Some(number) => number,
        None => unreachable!(),
    }
}

/// The number of the name of the class that a constant names, where there is one.
pub(crate) fn number_by(constants: &ConstantTypes<'_, '_>, index: Option<ClassIndex>) -> Option<u32>
    ensures { IsNameOf constants.now.types.names result (class_of_constant_at constants.now.pool (option_map seen_index index)) }
{
    match index {
        Some(index) => names_class(constants, index.0),
        None => None,
    }
}
