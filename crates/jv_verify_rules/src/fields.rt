//! Fields that are used.

ghost use Rattle.jv_meaning_typing.specs.MemberRules.{field_rule};
ghost use Rattle.jv_verify_rules.specs.Method.{Follows};

use crate::context::MethodContext;
use crate::field_access::access_field;
use crate::operands::field_operand;
use jv_code::FieldAccess;
use jv_verify_frame::TypeFrame;
use jv_verify_types::Outcome;

/// Gets or sets the field that an index names.
pub fn use_field(
    context: &MethodContext<'_, '_, '_, '_>,
    frame: &mut TypeFrame,
    access: FieldAccess,
    index: u16,
) -> Outcome
    ensures { Follows context.now (λ env. field_rule env access index) frame.old frame.new result }
{
    match field_operand(context, index) {
        Some(field) => access_field(context.types(), frame, access, field),
        None => Outcome::Fails,
    }
}
