//! Fields that operands name (JVMS 4.4.2).

ghost use Rattle.jv_meaning_typing.specs.Named.{field_named_by};
ghost use Rattle.jv_verify_types.specs.Operands.{FindsFieldTypes, WithPool};

use crate::classes::names_class;
use crate::constants::ConstantTypes;
use crate::indices::{field_indices, text_at};
use crate::names::Item;
use crate::value::value_type;

/// The class that a field is named with, by the number of its name, and the type of the field's values.
#[derive(Clone, Copy)]
pub struct FieldTypes {
    pub owner: u32,
    pub value: Item,
}

/// The field that a Fieldref constant names; `None` where the index names none, or one of an array.
pub fn field_types(constants: &ConstantTypes<'_, '_>, index: u16) -> Option<FieldTypes>
    ensures { WithPool constants.now.pool (λ env. FindsFieldTypes constants.now.types.names (field_named_by env index) result) }
{
    let indices = field_indices(constants.pool(), index)?;
    let _name = text_at(constants.pool(), indices.name)?;
    let owner = names_class(constants, indices.class)?;
    let type_of = constants.field_type(indices.descriptor)?;
    Some(FieldTypes {
        owner,
        value: value_type(type_of),
    })
}
