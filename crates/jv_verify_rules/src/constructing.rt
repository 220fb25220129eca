//! Objects that `<init>` is called on.

ghost use Rattle.std.specs.Prelude.{◌≡◌, Some};
ghost use Rattle.jv_code.specs.Insns.{instruction_of};
ghost use Rattle.jv_stackmap.specs.Frames.{Frame};
ghost use Rattle.jv_meaning_typing.specs.Environment.{Environment};
ghost use Rattle.jv_meaning_typing.specs.Rule.{constructed_object};
ghost use Rattle.jv_verify_rules.specs.Inside.Constructed.{object_below};
ghost use Rattle.jv_verify_rules.specs.Inside.Used.{IsObjectOf};

use crate::context::MethodContext;
use crate::operands::called_types_at;
use jv_code::{Insn, Invocation};
use jv_verify_frame::TypeFrame;
use jv_verify_types::Item;

/// The index of the method that an instruction names, where it is `invokespecial`.
fn index_in_special(insn: &Insn<&[u8]>) -> Option<u16>
    ensures { (env : Environment) (frame : Frame) → constructed_object env (instruction_of insn.now) frame ≡ object_below env result frame }
{
    match insn {
        Insn::Invoke(Invocation::Special, index) => Some(*index),
        _ => None,
    }
}

/// The item below the arguments of the method that an index names, where this is `<init>`.
fn object_below(
    context: &MethodContext<'_, '_, '_, '_>,
    frame: &TypeFrame,
    index: u16,
) -> Option<Item>
    ensures { IsObjectOf context.now (λ env. object_below env (Some index)) frame.now result }
{
    let called = called_types_at(context, index)?;
    if called.is_init {
        frame.item(called.arguments.len())
    } else {
        None
    }
}

/// What an instruction calls `<init>` on, where it does: the item below as many items as there are arguments, whatever
/// these are (JVMS 4.10.1.9).
pub fn constructed_object(
    context: &MethodContext<'_, '_, '_, '_>,
    frame: &TypeFrame,
    insn: &Insn<&[u8]>,
) -> Option<Item>
    ensures { IsObjectOf context.now (λ env. constructed_object env (instruction_of insn.now)) frame.now result }
{
    match index_in_special(insn) {
        Some(index) => object_below(context, frame, index),
        None => None,
    }
}
