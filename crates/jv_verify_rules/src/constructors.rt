//! Calls of `<init>` (JVMS 4.10.1.9).

ghost use Rattle.std.specs.Prelude.{◌≡◌, Some, IfSome};
ghost use Rattle.jv_code.specs.Insns.{instruction_of};
ghost use Rattle.jv_meaning_typing.specs.Environment.{Environment, instruction_at};
ghost use Rattle.jv_meaning_typing.specs.MemberRules.{class_of_new, constructs_new, constructs_this, constructed_type, invoke_init};
ghost use Rattle.jv_verify_types.specs.Numbered.{item_words};
ghost use Rattle.jv_verify_rules.specs.Method.{IsOfMethod};
ghost use Rattle.jv_verify_rules.specs.Inside.Constructed.{class_made, one_word};
ghost use Rattle.jv_verify_rules.specs.Inside.Used.{AtCall, FollowsCall, IsConstructedType, ConstructsThis, ConstructsCalled};

use crate::construction::{construct, take_constructed};
use crate::context::MethodContext;
use crate::guards::flows_to_guard;
use crate::texts::is_named_with;
use jv_code::Insn;
use jv_stackmap::VerificationTypeOf;
use jv_verify_frame::TypeFrame;
use jv_verify_types::{CalledTypes, Item, Outcome, class_number};

/// The index of the class that an instruction names, where it is `new`.
fn index_in_new(insn: &Insn<&[u8]>) -> Option<u16>
    ensures { (env : Environment) → class_of_new env (Some (instruction_of insn.now)) ≡ class_made env result }
{
    match insn {
        Insn::New(index) => Some(*index),
        _ => None,
    }
}

/// The index of the class that `new` at an offset names.
fn index_of_new(context: &MethodContext<'_, '_, '_, '_>, offset: u16) -> Option<u16>
    ensures { (env : Environment) → IsOfMethod context.now env → class_of_new env (instruction_at env offset) ≡ class_made env result }
{
    match context.insn_at(offset) {
        Some(insn) => index_in_new(&insn),
        None => None,
    }
}

/// Whether `<init>` can be called on what `new` at an offset made.
fn constructs_new(
    context: &MethodContext<'_, '_, '_, '_>,
    index: u16,
    called: CalledTypes<'_>,
    offset: u16,
) -> bool
    ensures { AtCall context.now index called.entry (λ env named. constructs_new env named offset ≡ result) }
{
    match index_of_new(context, offset) {
        Some(class) => {
            is_named_with(context.constants().pool(), index, class)
                && flows_to_guard(context, index, called.owner)
        }
        None => false,
    }
}

/// Whether `<init>` can be called on the receiver.
fn constructs_this(context: &MethodContext<'_, '_, '_, '_>, called: CalledTypes<'_>) -> bool
    ensures { ConstructsThis context.now called.entry result }
{
    let class = context.class();
    class.has_no_array_name();
    match class_number(Some(called.owner)) {
        Some(owner) => class.is_current(owner) || class.is_superclass(owner),
        None => false,
    }
}

/// The type that an object gets, if `<init>` can be called on it.
fn type_behind(
    context: &MethodContext<'_, '_, '_, '_>,
    index: u16,
    called: CalledTypes<'_>,
    object: Item,
) -> Option<Item>
    ensures { IsConstructedType context.now index called.entry object result }
{
    match object {
        VerificationTypeOf::Uninitialized(offset) => {
            if constructs_new(context, index, called, offset) {
                Some(called.owner)
            } else {
                None
            }
        }
        VerificationTypeOf::UninitializedThis => {
            if constructs_this(context, called) {
                Some(context.class().current())
            } else {
                None
            }
        }
        _ => None,
    }
}

/// A type of one word.
fn one_word(item: Item) -> Option<Item>
    ensures same { result ≡ one_word item }
    ensures words { IfSome result (λ by. item_words by ≡ 1) }
{
    match item {
        VerificationTypeOf::Long => None,
        _ => Some(item),
    }
}

/// The type that an object gets, if `<init>` can be called on it, which is that of an object.
fn constructed_type(
    context: &MethodContext<'_, '_, '_, '_>,
    index: u16,
    called: CalledTypes<'_>,
    object: Item,
) -> Option<Item>
    ensures type_of { IsConstructedType context.now index called.entry object result }
    ensures words { IfSome result (λ by. item_words by ≡ 1) }
{
    match type_behind(context, index, called, object) {
        Some(by) => one_word(by),
        None => None,
    }
}

/// Gives an object that was taken its type, if `<init>` can be called on it.
fn construct_object(
    context: &MethodContext<'_, '_, '_, '_>,
    frame: &mut TypeFrame,
    index: u16,
    called: CalledTypes<'_>,
    object: Item,
) -> Outcome
    ensures { ConstructsCalled context.now index called.entry object frame.old frame.new result }
{
    match constructed_type(context, index, called, object) {
        Some(by) => {
            construct(frame, object, by);
            Outcome::Leaves
        }
        None => Outcome::Fails,
    }
}

/// Calls `<init>` on an object that is not initialized.
pub(crate) fn invoke_init(
    context: &MethodContext<'_, '_, '_, '_>,
    frame: &mut TypeFrame,
    index: u16,
    called: CalledTypes<'_>,
) -> Outcome
    ensures { FollowsCall context.now index called.entry (λ env named. invoke_init env named) frame.old frame.new result }
{
    match take_constructed(context.types(), frame, called.arguments) {
        Some(object) => construct_object(context, frame, index, called, object),
        None => Outcome::Fails,
    }
}
