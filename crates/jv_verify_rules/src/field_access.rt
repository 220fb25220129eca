//! Instructions on fields (JVMS 4.10.1.8, 4.10.1.9): getstatic, putstatic, getfield, putfield.

ghost use Rattle.jv_meaning_typing.specs.MemberRules.{access_field};
ghost use Rattle.jv_verify_types.specs.Outcomes.{Applies, TakesBy};
ghost use Rattle.jv_verify_rules.specs.Operands.{FollowsField, gets, takes_owner, puts, accesses};

use crate::receivers::{is_receiver, take_receiver};
use crate::stack::{exchange, take};
use jv_code::FieldAccess;
use jv_stackmap::VerificationTypeOf;
use jv_verify_frame::TypeFrame;
use jv_verify_types::{Item, Outcome, TypeNames};

/// A field as an instruction names it: the class that is named, and the type of the field's values.
#[derive(Clone, Copy)]
pub struct FieldOperand {
    pub owner: Item,
    pub value: Item,
    /// The current class, to which the object has to flow too, if the field is guarded (JVMS 4.10.1.8).
    pub guard: Option<Item>,
    /// Whether a constructor may store to the field before it calls another one: by way of the current class.
    pub sets_own: bool,
}

/// Takes an object, and gives the field's value.
fn get_field(types: &TypeNames<'_, '_>, frame: &mut TypeFrame, field: FieldOperand) -> Outcome
    ensures { Applies types.now.names (gets types.now field) frame.old frame.new result }
{
    if take_receiver(types, frame, field.owner, field.guard) {
        Outcome::Gives(field.value)
    } else {
        Outcome::Fails
    }
}

/// Takes the object whose field is stored to.
fn take_for_store(types: &TypeNames<'_, '_>, frame: &mut TypeFrame, field: FieldOperand) -> bool
    ensures { TakesBy types.now.names (takes_owner types.now field) frame.old frame.new result }
{
    match frame.pop() {
        None => false,
        Some(VerificationTypeOf::UninitializedThis) => field.sets_own,
        Some(item) => is_receiver(types, item, field.owner, field.guard),
    }
}

/// Takes a value and an object.
fn put_field(types: &TypeNames<'_, '_>, frame: &mut TypeFrame, field: FieldOperand) -> Outcome
    ensures { Applies types.now.names (puts types.now field) frame.old frame.new result }
{
    if take(types, frame, &[field.value]) && take_for_store(types, frame, field) {
        Outcome::Leaves
    } else {
        Outcome::Fails
    }
}

fn access_by(
    types: &TypeNames<'_, '_>,
    frame: &mut TypeFrame,
    access: FieldAccess,
    field: FieldOperand,
) -> Outcome
    ensures { Applies types.now.names (accesses types.now access field) frame.old frame.new result }
{
    match access {
        FieldAccess::GetStatic => exchange(types, frame, &[], Some(field.value)),
        FieldAccess::PutStatic => exchange(types, frame, &[field.value], None),
        FieldAccess::GetField => get_field(types, frame, field),
        FieldAccess::PutField => put_field(types, frame, field),
    }
}

/// Gets or sets a field, of an object or of the class.
pub fn access_field(
    types: &TypeNames<'_, '_>,
    frame: &mut TypeFrame,
    access: FieldAccess,
    field: FieldOperand,
) -> Outcome
    ensures { FollowsField types.now field (λ env named. access_field env access named) frame.old frame.new result }
{
    access_by(types, frame, access, field)
}
