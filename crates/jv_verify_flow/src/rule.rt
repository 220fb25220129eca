//! The rule of an instruction.

ghost use Rattle.jv_code.specs.Insns.{instruction_of};
ghost use Rattle.jv_meaning_typing.specs.Rule.{rule};
ghost use Rattle.jv_verify_rules.specs.Method.{LeavesWithin};

use jv_code::Insn;
use jv_verify_frame::TypeFrame;
use jv_verify_rules::{MethodContext, effect, settle};
use std::alloc::AllocError;

/// Changes the frame before an instruction at an offset into the one behind it (JVMS 4.10.1.9), and says whether the
/// instruction may stand there; if it may not, the frame is of no more use.
///
/// # Errors
///
/// Where the host had no memory for the stack; the frame is then of no more use.
pub fn apply(
    context: &MethodContext<'_, '_, '_, '_>,
    frame: &mut TypeFrame,
    offset: u16,
    insn: &Insn<&[u8]>,
) -> Result<bool, AllocError>
    ensures { LeavesWithin context.now (λ env. rule env offset (instruction_of insn.now)) frame.old frame.new result }
{
    let outcome = effect(context, context.class().constants(), frame, offset, insn)?;
    settle(frame, outcome, context.max_stack())
}
