//! Returns (JVMS 4.10.1.9).

ghost use Rattle.std.specs.Prelude.{Option};
ghost use Rattle.jv_text.specs.declared.descriptor.FieldTypeOf.{FieldTypeOf};
ghost use Rattle.jv_meaning_typing.specs.ValueRules.{return_value, return_nothing};
ghost use Rattle.jv_verify_rules.specs.Inside.Over.{ReturnsValue, ReturnsNothing};

use crate::references::{return_nothing, return_value};
use jv_code::ValueKind;
use jv_text::FieldTypeOf;
use jv_verify_frame::TypeFrame;
use jv_verify_types::{Outcome, TypeNames, value_type};

/// Returns a value of a kind, where the method has a result.
pub(crate) fn leave_with_value(
    types: &TypeNames<'_, '_>,
    frame: &mut TypeFrame,
    kind: ValueKind,
    result_type: Option<FieldTypeOf<u32>>,
) -> Outcome
    ensures { ReturnsValue types.now kind result_type frame.old frame.new result }
{
    match result_type {
        Some(type_of) => return_value(types, frame, kind, value_type(type_of)),
        None => Outcome::Fails,
    }
}

/// Returns no value, where the method has no result.
pub(crate) fn leave(frame: &TypeFrame, result_type: Option<FieldTypeOf<u32>>) -> Outcome
    ensures { ReturnsNothing result_type frame.now result }
{
    match result_type {
        Some(_) => return_nothing(frame, true),
        None => return_nothing(frame, false),
    }
}
