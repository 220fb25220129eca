//! Instructions that push, and computations (JVMS 6.5).

ghost use Rattle.jv_code.specs.declared.insn.Insn.TheVariants.{Nop as NopInsn, NullConstant as NullInsn, Compute as ComputeInsn};
ghost use Rattle.jv_interp_words.specs.Going.{CanWork, GoesOn, StaysIn};

use crate::registers::Registers;
use crate::words::push_word;
use jv_code::Computation;

/// `nop`.
#[inline(always)]
pub fn nop<'l>(words: &[u32], at: &mut Registers<'l>, next: u32)
    requires { CanWork NopInsn next at.old words.now }
    ensures went { GoesOn NopInsn next at.old words.now at.new words.now }
    ensures stays { StaysIn at.old at.new words.now }
{
    // Only the clauses speak of it.
    let _words = words;
    at.pc = next;
}

/// `aconst_null`.
#[inline(always)]
pub fn push_null<'l>(words: &mut [u32], at: &mut Registers<'l>, next: u32)
    requires { CanWork NullInsn next at.old words.old }
    ensures went { GoesOn NullInsn next at.old words.old at.new words.new }
    ensures stays { StaysIn at.old at.new words.new }
{
    at.top = push_word(words, at.top, 0);
    at.pc = next;
}

/// `iconst_0`, `iadd` and their kin.
#[inline(always)]
pub fn compute<'l>(words: &mut [u32], at: &mut Registers<'l>, next: u32, what: Computation)
    requires { CanWork (ComputeInsn what) next at.old words.old }
    ensures went { GoesOn (ComputeInsn what) next at.old words.old at.new words.new }
    ensures stays { StaysIn at.old at.new words.new }
{
    at.top = crate::computing::compute(words, at.top, what);
    at.pc = next;
}
