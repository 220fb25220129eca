//! The forms of the stack (JVMS 6.5).

ghost use Rattle.jv_code.specs.declared.insn.Insn.TheVariants.{Stack as StackInsn};
ghost use Rattle.jv_interp_words.specs.Going.{CanWork, GoesOn, StaysIn};

use crate::registers::Registers;
use jv_code::StackForm;

/// `pop` to `swap`.
#[inline(always)]
pub fn move_words<'l>(words: &mut [u32], at: &mut Registers<'l>, next: u32, form: StackForm)
    requires { CanWork (StackInsn form) next at.old words.old }
    ensures went { GoesOn (StackInsn form) next at.old words.old at.new words.new }
    ensures stays { StaysIn at.old at.new words.new }
{
    at.top = crate::forms::move_words(words, at.top, form);
    at.pc = next;
}
