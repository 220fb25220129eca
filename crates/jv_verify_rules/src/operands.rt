//! What the operands of a method's instructions name.

ghost use Rattle.std.specs.Prelude.{◌&&◌, Some};
ghost use Rattle.jv_text.specs.Name.{is_init};
ghost use Rattle.jv_meaning_typing.specs.Environment.{Environment};
ghost use Rattle.jv_meaning_typing.specs.Named.{field_named_by, method_named_by};
ghost use Rattle.jv_verify_rules.specs.Operands.{IsMethod};
ghost use Rattle.jv_verify_types.specs.Operands.{FindsFieldTypes, FindsCalledTypes};
ghost use Rattle.jv_verify_rules.specs.Method.{IsOfMethod, names_of_method, InMethod};
ghost use Rattle.jv_verify_rules.specs.Inside.Used.{UsesField, AtCall, SetsOwn};

use crate::context::MethodContext;
use crate::field_access::FieldOperand;
use crate::guards::guard_at;
use crate::methods::MethodOperand;
use jv_stackmap::VerificationTypeOf;
use jv_verify_types::{CalledTypes, FieldTypes, called_types, field_types};

/// The class of the field that an index names, and the type of its values.
fn field_types_at(context: &MethodContext<'_, '_, '_, '_>, index: u16) -> Option<FieldTypes>
    ensures { InMethod context.now (λ env. FindsFieldTypes (names_of_method context.now) (field_named_by env index) result) }
{
    field_types(context.constants(), index)
}

/// Whether the method may store to a field of a class with this name before it calls another `<init>`.
fn sets_own(context: &MethodContext<'_, '_, '_, '_>, owner: u32) -> bool
    ensures { SetsOwn context.now owner result }
{
    context.is_init() && context.class().is_current(owner)
}

/// The field that an index names.
pub(crate) fn field_operand(
    context: &MethodContext<'_, '_, '_, '_>,
    index: u16,
) -> Option<FieldOperand>
    ensures { (env : Environment) → IsOfMethod context.now env → UsesField context.now.class.types env (field_named_by env index) result }
{
    let field = field_types_at(context, index)?;
    Some(FieldOperand {
        owner: VerificationTypeOf::Class(field.owner),
        value: field.value,
        guard: guard_at(context, index),
        sets_own: sets_own(context, field.owner),
    })
}

/// The class or array of the method that an index names, and the types of its arguments and its result.
pub(crate) fn called_types_at<'e>(
    context: &MethodContext<'_, 'e, '_, '_>,
    index: u16,
) -> Option<CalledTypes<'e>>
    ensures { InMethod context.now (λ env. FindsCalledTypes (names_of_method context.now) (method_named_by env index) result) }
{
    called_types(context.constants(), index)
}

/// The method that an index names, which has these types.
pub(crate) fn method_operand<'e>(
    context: &MethodContext<'_, '_, '_, '_>,
    index: u16,
    called: CalledTypes<'e>,
) -> MethodOperand<'e>
    ensures { AtCall context.now index called.entry (λ env named. IsMethod context.now.class.types env named result) }
{
    MethodOperand {
        of_class: called.of_class,
        plain_name: called.plain_name,
        owner: called.owner,
        guard: guard_at(context, index),
        arguments: called.arguments,
        result: called.result,
    }
}
