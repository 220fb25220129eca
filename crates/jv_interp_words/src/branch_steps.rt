//! Steps at branches and jumps.

ghost use Rattle.std.specs.Prelude.{◌+◌, ◌≤◌, [], ◌∷◌, length};
ghost use Rattle.jv_code.specs.Opcodes.{branch_opcode};
ghost use Rattle.jv_code.specs.Operands.{HasBytes};
ghost use Rattle.jv_interp_words.specs.Stepping.{CanStep, StepsTo};

use crate::branches::{if_int, if_ints, jump};
use crate::bytes::distance_at;
use crate::references::{if_null, if_same};
use crate::registers::Registers;
use jv_code::{Condition, Equality, JumpForm, Test};

/// A step at `ifeq` and its kin.
#[inline(always)]
pub fn step_if_int<'l>(words: &[u32], at: &mut Registers<'l>, condition: Condition)
    requires can { CanStep at.old words.now }
    requires opcode { HasBytes at.old.code.now at.old.pc (branch_opcode (Test.IfInt condition) ∷ []) }
    requires room { at.old.pc + 3 ≤ length at.old.code.now }
    ensures { StepsTo at.old words.now at.new words.now }
{
    let distance = distance_at(at.code, at.pc as usize + 1);
    let next = at.pc + 3;
    if_int(words, at, next, condition, distance);
}

/// A step at `if_icmpeq` and its kin.
#[inline(always)]
pub fn step_if_ints<'l>(words: &[u32], at: &mut Registers<'l>, condition: Condition)
    requires can { CanStep at.old words.now }
    requires opcode { HasBytes at.old.code.now at.old.pc (branch_opcode (Test.IfInts condition) ∷ []) }
    requires room { at.old.pc + 3 ≤ length at.old.code.now }
    ensures { StepsTo at.old words.now at.new words.now }
{
    let distance = distance_at(at.code, at.pc as usize + 1);
    let next = at.pc + 3;
    if_ints(words, at, next, condition, distance);
}

/// A step at `if_acmpeq` or `if_acmpne`.
#[inline(always)]
pub fn step_if_same<'l>(words: &[u32], at: &mut Registers<'l>, equality: Equality)
    requires can { CanStep at.old words.now }
    requires opcode { HasBytes at.old.code.now at.old.pc (branch_opcode (Test.IfReferences equality) ∷ []) }
    requires room { at.old.pc + 3 ≤ length at.old.code.now }
    ensures { StepsTo at.old words.now at.new words.now }
{
    let distance = distance_at(at.code, at.pc as usize + 1);
    let next = at.pc + 3;
    if_same(words, at, next, equality, distance);
}

/// A step at `ifnull` or `ifnonnull`.
#[inline(always)]
pub fn step_if_null<'l>(words: &[u32], at: &mut Registers<'l>, equality: Equality)
    requires can { CanStep at.old words.now }
    requires opcode { HasBytes at.old.code.now at.old.pc (branch_opcode (Test.IfNull equality) ∷ []) }
    requires room { at.old.pc + 3 ≤ length at.old.code.now }
    ensures { StepsTo at.old words.now at.new words.now }
{
    let distance = distance_at(at.code, at.pc as usize + 1);
    let next = at.pc + 3;
    if_null(words, at, next, equality, distance);
}

/// A step at `goto`.
#[inline(always)]
pub fn step_goto<'l>(words: &[u32], at: &mut Registers<'l>)
    requires can { CanStep at.old words.now }
    requires opcode { HasBytes at.old.code.now at.old.pc (167 ∷ []) }
    requires room { at.old.pc + 3 ≤ length at.old.code.now }
    ensures { StepsTo at.old words.now at.new words.now }
{
    let distance = distance_at(at.code, at.pc as usize + 1);
    let next = at.pc + 3;
    jump(words, at, next, distance, JumpForm::Half);
}
