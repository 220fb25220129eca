//! Steps at the forms of the stack.

ghost use Rattle.jv_code.specs.Insns.{insn_bytes};
ghost use Rattle.jv_code.specs.Operands.{HasBytes};
ghost use Rattle.jv_code.specs.declared.insn.Insn.TheVariants.{Stack as StackInsn};
ghost use Rattle.jv_interp_words.specs.Stepping.{CanStep, StepsTo};

use crate::form_instructions::move_words;
use crate::registers::Registers;
use jv_code::StackForm;

/// A step at `pop` to `swap`.
#[inline(always)]
pub fn step_form<'l>(words: &mut [u32], at: &mut Registers<'l>, form: StackForm)
    requires can { CanStep at.old words.old }
    requires stands { HasBytes at.old.code.now at.old.pc (insn_bytes (StackInsn form)) }
    ensures { StepsTo at.old words.old at.new words.new }
{
    let next = at.pc + 1;
    move_words(words, at, next, form);
}
