//! Steps at instructions that push, and at computations.

ghost use Rattle.std.specs.Prelude.{◌≡◌, ◌+◌, ◌≤◌, [], ◌∷◌, length, IsTrue};
ghost use Rattle.jv_code.specs.Insns.{insn_bytes, insn_fits};
ghost use Rattle.jv_code.specs.Operands.{HasBytes};
ghost use Rattle.jv_code.specs.declared.insn.Insn.TheVariants.{Compute as ComputeInsn};
ghost use Rattle.jv_interp_words.specs.Stepping.{CanStep, StepsTo};

use crate::bytes::{byte_constant, half_constant};
use crate::pushes::{compute, nop, push_null};
use crate::registers::Registers;
use jv_code::{Computation, IntForm};

/// A step at `nop`.
#[inline(always)]
pub fn step_nop<'l>(words: &[u32], at: &mut Registers<'l>)
    requires can { CanStep at.old words.now }
    requires stands { HasBytes at.old.code.now at.old.pc (0 ∷ []) }
    ensures { StepsTo at.old words.now at.new words.now }
{
    let next = at.pc + 1;
    nop(words, at, next);
}

/// A step at `aconst_null`.
#[inline(always)]
pub fn step_null<'l>(words: &mut [u32], at: &mut Registers<'l>)
    requires can { CanStep at.old words.old }
    requires stands { HasBytes at.old.code.now at.old.pc (1 ∷ []) }
    ensures { StepsTo at.old words.old at.new words.new }
{
    let next = at.pc + 1;
    push_null(words, at, next);
}

/// A step at a computation of one byte, `iconst_0`, `iadd` and their kin.
#[inline(always)]
pub fn step_compute<'l>(words: &mut [u32], at: &mut Registers<'l>, what: Computation)
    requires can { CanStep at.old words.old }
    requires stands { HasBytes at.old.code.now at.old.pc (insn_bytes (ComputeInsn what)) }
    requires fits { IsTrue (insn_fits at.old.pc (ComputeInsn what)) }
    requires size { length (insn_bytes (ComputeInsn what)) ≡ 1 }
    ensures { StepsTo at.old words.old at.new words.new }
{
    let next = at.pc + 1;
    compute(words, at, next, what);
}

/// A step at `bipush`.
#[inline(always)]
pub fn step_byte_constant<'l>(words: &mut [u32], at: &mut Registers<'l>)
    requires can { CanStep at.old words.old }
    requires opcode { HasBytes at.old.code.now at.old.pc (16 ∷ []) }
    requires room { at.old.pc + 2 ≤ length at.old.code.now }
    ensures { StepsTo at.old words.old at.new words.new }
{
    let value = byte_constant(at.code, at.pc as usize + 1);
    let next = at.pc + 2;
    compute(
        words,
        at,
        next,
        Computation::IntConstant(value, IntForm::Byte),
    );
}

/// A step at `sipush`.
#[inline(always)]
pub fn step_half_constant<'l>(words: &mut [u32], at: &mut Registers<'l>)
    requires can { CanStep at.old words.old }
    requires opcode { HasBytes at.old.code.now at.old.pc (17 ∷ []) }
    requires room { at.old.pc + 3 ≤ length at.old.code.now }
    ensures { StepsTo at.old words.old at.new words.new }
{
    let value = half_constant(at.code, at.pc as usize + 1);
    let next = at.pc + 3;
    compute(
        words,
        at,
        next,
        Computation::IntConstant(value, IntForm::Half),
    );
}
