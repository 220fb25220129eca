//! Methods that are called.

ghost use Rattle.std.specs.Prelude.{◌≡◌};
ghost use Rattle.jv_meaning_typing.specs.MemberRules.{invoke_super, invoke_special, invoke, goes_with_version, invoke_rule, invoke_interface_rule};
ghost use Rattle.jv_verify_rules.specs.Method.{Follows};
ghost use Rattle.jv_verify_rules.specs.Inside.Used.{AtCall, FollowsCall};

use crate::constructors::invoke_init;
use crate::context::MethodContext;
use crate::methods::{invoke_interface, invoke_static, invoke_super, invoke_virtual};
use crate::operands::{called_types_at, method_operand};
use jv_code::Invocation;
use jv_verify_frame::TypeFrame;
use jv_verify_types::{CalledTypes, Outcome, class_number};

/// Calls a method other than `<init>` of the current class or of one above it.
fn invoke_above(
    context: &MethodContext<'_, '_, '_, '_>,
    frame: &mut TypeFrame,
    index: u16,
    called: CalledTypes<'_>,
) -> Outcome
    ensures { FollowsCall context.now index called.entry (λ env named. invoke_super env named) frame.old frame.new result }
{
    match class_number(Some(called.owner)) {
        Some(owner) => {
            invoke_super(
                context.types(),
                frame,
                method_operand(context, index, called),
                context.class().current(),
                context.class().is_near(owner),
            )
        }
        None => Outcome::Fails,
    }
}

fn invoke_special(
    context: &MethodContext<'_, '_, '_, '_>,
    frame: &mut TypeFrame,
    index: u16,
    called: CalledTypes<'_>,
) -> Outcome
    ensures { FollowsCall context.now index called.entry (λ env named. invoke_special env named) frame.old frame.new result }
{
    if called.is_init {
        invoke_init(context, frame, index, called)
    } else {
        invoke_above(context, frame, index, called)
    }
}

fn invoke_as(
    context: &MethodContext<'_, '_, '_, '_>,
    frame: &mut TypeFrame,
    how: Invocation,
    index: u16,
    called: CalledTypes<'_>,
) -> Outcome
    ensures { FollowsCall context.now index called.entry (λ env named. invoke env how named) frame.old frame.new result }
{
    match how {
        Invocation::Virtual => {
            invoke_virtual(
                context.types(),
                frame,
                method_operand(context, index, called),
            )
        }
        Invocation::Special => invoke_special(context, frame, index, called),
        Invocation::Static => {
            invoke_static(
                context.types(),
                frame,
                method_operand(context, index, called),
            )
        }
    }
}

/// Whether the constant that names a method is one that the version of the class's file allows: a Methodref, and from
/// 52.0 on an InterfaceMethodref too.
fn goes_with_version(
    context: &MethodContext<'_, '_, '_, '_>,
    index: u16,
    called: CalledTypes<'_>,
) -> bool
    ensures { AtCall context.now index called.entry (λ env named. goes_with_version env named ≡ result) }
{
    if context.class().major() < 52 {
        called.of_class
    } else {
        true
    }
}

/// Calls the method that an index names, as invokevirtual, invokespecial or invokestatic does.
pub fn invoke(
    context: &MethodContext<'_, '_, '_, '_>,
    frame: &mut TypeFrame,
    how: Invocation,
    index: u16,
) -> Outcome
    ensures { Follows context.now (λ env. invoke_rule env how index) frame.old frame.new result }
{
    match called_types_at(context, index) {
        Some(called) => {
            if goes_with_version(context, index, called) {
                invoke_as(context, frame, how, index, called)
            } else {
                Outcome::Fails
            }
        }
        None => Outcome::Fails,
    }
}

/// Calls the method that an index names, as invokeinterface does, with the number behind the index.
pub fn invoke_of_interface(
    context: &MethodContext<'_, '_, '_, '_>,
    frame: &mut TypeFrame,
    index: u16,
    count: u8,
) -> Outcome
    ensures { Follows context.now (λ env. invoke_interface_rule env index count) frame.old frame.new result }
{
    match called_types_at(context, index) {
        Some(called) => {
            invoke_interface(
                context.types(),
                frame,
                method_operand(context, index, called),
                count,
            )
        }
        None => Outcome::Fails,
    }
}
