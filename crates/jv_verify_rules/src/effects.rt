//! What an instruction does to the frame before it, whatever the stack's size.

ghost use Rattle.std.specs.Prelude.{◌≡◌, ℕ, List, IfOk};
ghost use Rattle.jv_code.specs.Insns.{instruction_of};
ghost use Rattle.jv_meaning_typing.specs.Rule.{effect};
ghost use Rattle.jv_meaning_typing.specs.ValueRules.{move_words, value_kind};
ghost use Rattle.jv_verify_types.specs.Numbered.{frame_of};
ghost use Rattle.jv_verify_types.specs.Outcomes.{IsOutcome};
ghost use Rattle.jv_verify_rules.specs.Inside.Over.{FollowsBoth};

use crate::arrays::{array_load, array_store, new_array};
use crate::branches::{branch, take_int};
use crate::calls::{invoke, invoke_of_interface};
use crate::classes::{check_cast, instance_of, make_array, make_multi_array, make_object};
use crate::constants::{push_constant, push_long_constant};
use crate::context::MethodContext;
use crate::fields::use_field;
use crate::forms::move_words;
use crate::references::{array_length, reference_array_load, reference_array_store};
use crate::returns::{leave, leave_with_value};
use crate::stack::exchange;
use crate::table::{combine, compute, give_int};
use crate::variables::{increment, load, store};
use jv_code::{Computation, Insn, StackForm, ValueKind, WordKind};
use jv_stackmap::VerificationTypeOf;
use jv_verify_frame::TypeFrame;
use jv_verify_types::{ConstantTypes, Outcome};
use std::alloc::AllocError;

fn value_kind(kind: WordKind) -> ValueKind
    ensures { result ≡ value_kind kind }
{
    match kind {
        WordKind::Int => ValueKind::Int,
        WordKind::Reference => ValueKind::Reference,
    }
}

/// Drops, copies or swaps the words on top of the stack.
fn rearrange(frame: &mut TypeFrame, form: StackForm) -> Result<Outcome, AllocError>
    ensures { (names : List (List ℕ)) → IfOk result (IsOutcome names (move_words form (frame_of names frame.old)) frame.new) }
{
    if move_words(frame, form)? {
        Ok(Outcome::Leaves)
    } else {
        Ok(Outcome::Fails)
    }
}

/// Changes the frame as an instruction at an offset does: one arm for each instruction.
fn effect_of_each(
    context: &MethodContext<'_, '_, '_, '_>,
    constants: &ConstantTypes<'_, '_>,
    frame: &mut TypeFrame,
    offset: u16,
    insn: &Insn<&[u8]>,
) -> Result<Outcome, AllocError>
    ensures { FollowsBoth context.now constants.now (λ env. effect env offset (instruction_of insn.now)) frame.old frame.new result }
{
    let types = constants.names();
    match *insn {
        Insn::Nop => Ok(Outcome::Leaves),
        Insn::NullConstant => Ok(Outcome::Gives(VerificationTypeOf::Null)),
        Insn::Compute(what) => Ok(compute(types, frame, what)),
        Insn::PoolConstant(index, _) => Ok(push_constant(constants, index)),
        Insn::PoolLongConstant(index) => Ok(push_long_constant(constants, index)),
        Insn::Load(kind, index, _) => Ok(load(frame, kind, index)),
        Insn::Store(kind, index, _) => Ok(store(frame, value_kind(kind), index)),
        Insn::StoreLong(index, _) => Ok(store(frame, ValueKind::Long, index)),
        Insn::ArrayLoad(element) => Ok(array_load(types, frame, element)),
        Insn::ReferenceArrayLoad => Ok(reference_array_load(types, frame)),
        Insn::ArrayStore(element) => Ok(array_store(types, frame, element)),
        Insn::ReferenceArrayStore => Ok(reference_array_store(types, frame)),
        Insn::Stack(form) => rearrange(frame, form),
        Insn::Division(kind, _) => Ok(combine(types, frame, kind)),
        Insn::Increment(index, _, _) => Ok(increment(frame, index)),
        Insn::Branch(condition, _) => Ok(branch(types, frame, condition)),
        Insn::Goto(_, _) => Ok(Outcome::Leaves),
        Insn::TableSwitch(_, _, _, _, _) => Ok(take_int(types, frame)),
        Insn::LookupSwitch(_, _, _) => Ok(take_int(types, frame)),
        Insn::ReturnValue(kind) => Ok(leave_with_value(types, frame, kind, context.result())),
        Insn::Return => Ok(leave(frame, context.result())),
        Insn::Field(access, index) => Ok(use_field(context, frame, access, index)),
        Insn::Invoke(how, index) => Ok(invoke(context, frame, how, index)),
        Insn::InvokeInterface(index, count) => {
            Ok(invoke_of_interface(context, frame, index, count))
        }
        Insn::New(index) => Ok(make_object(constants, frame, offset, index)),
        Insn::NewArray(element) => Ok(new_array(types, frame, element)),
        Insn::NewReferenceArray(index) => Ok(make_array(constants, frame, index)),
        Insn::NewMultiArray(index, dimensions) => {
            Ok(make_multi_array(constants, frame, index, dimensions))
        }
        Insn::ArrayLength => Ok(array_length(frame)),
        Insn::Throw => Ok(exchange(types, frame, &[constants.throwable()], None)),
        Insn::CheckCast(index) => Ok(check_cast(constants, frame, index)),
        Insn::InstanceOf(index) => Ok(instance_of(constants, frame, index)),
    }
}

/// Changes the frame as an instruction at an offset does: the most frequent ones in line.
#[inline(always)]
pub fn effect(
    context: &MethodContext<'_, '_, '_, '_>,
    constants: &ConstantTypes<'_, '_>,
    frame: &mut TypeFrame,
    offset: u16,
    insn: &Insn<&[u8]>,
) -> Result<Outcome, AllocError>
    ensures { FollowsBoth context.now constants.now (λ env. effect env offset (instruction_of insn.now)) frame.old frame.new result }
{
    match *insn {
        Insn::Load(kind, index, _) => Ok(load(frame, kind, index)),
        Insn::Store(kind, index, _) => Ok(store(frame, value_kind(kind), index)),
        Insn::Compute(Computation::IntConstant(_, _)) => Ok(give_int(constants.names(), frame)),
        _ => effect_of_each(context, constants, frame, offset, insn),
    }
}
