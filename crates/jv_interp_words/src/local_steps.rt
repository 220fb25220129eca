//! Steps at instructions on local variables.

ghost use Rattle.std.specs.Prelude.{◌≡◌, ◌+◌, ◌≤◌, [], ◌∷◌, length, IsTrue};
ghost use Rattle.jv_code.specs.Insns.{insn_bytes, insn_fits};
ghost use Rattle.jv_code.specs.Opcodes.{load_opcode, store_opcode};
ghost use Rattle.jv_code.specs.Operands.{HasBytes};
ghost use Rattle.jv_code.specs.declared.insn.Insn.TheVariants.{Load as LoadInsn, Store as StoreInsn, StoreLong as StoreLongInsn};
ghost use Rattle.jv_interp_words.specs.Stepping.{CanStep, StepsTo};

use crate::bytes::{addend_at, index_at};
use crate::local_instructions::{increment, load, store, store_long};
use crate::registers::Registers;
use jv_code::{IncrementForm, LocalForm, ValueKind, WordKind};

/// A step at `iload`, `lload` or `aload`, with the local variable in the opcode.
#[inline(always)]
pub fn step_load_of<'l>(words: &mut [u32], at: &mut Registers<'l>, kind: ValueKind, index: u16)
    requires can { CanStep at.old words.old }
    requires stands { HasBytes at.old.code.now at.old.pc (insn_bytes (LoadInsn kind index LocalForm.Opcode)) }
    requires fits { IsTrue (insn_fits at.old.pc (LoadInsn kind index LocalForm.Opcode)) }
    ensures { StepsTo at.old words.old at.new words.new }
{
    let next = at.pc + 1;
    load(words, at, next, kind, index, LocalForm::Opcode);
}

/// A step at `iload`, `lload` or `aload`, with the local variable in the byte behind.
#[inline(always)]
pub fn step_load<'l>(words: &mut [u32], at: &mut Registers<'l>, kind: ValueKind)
    requires can { CanStep at.old words.old }
    requires opcode { HasBytes at.old.code.now at.old.pc (load_opcode kind ∷ []) }
    requires room { at.old.pc + 2 ≤ length at.old.code.now }
    ensures { StepsTo at.old words.old at.new words.new }
{
    let index = index_at(at.code, at.pc as usize + 1);
    let next = at.pc + 2;
    load(words, at, next, kind, index, LocalForm::Byte);
}

/// A step at `istore` or `astore`, with the local variable in the opcode.
#[inline(always)]
pub fn step_store_of<'l>(words: &mut [u32], at: &mut Registers<'l>, kind: WordKind, index: u16)
    requires can { CanStep at.old words.old }
    requires stands { HasBytes at.old.code.now at.old.pc (insn_bytes (StoreInsn kind index LocalForm.Opcode)) }
    requires fits { IsTrue (insn_fits at.old.pc (StoreInsn kind index LocalForm.Opcode)) }
    ensures { StepsTo at.old words.old at.new words.new }
{
    let next = at.pc + 1;
    store(words, at, next, kind, index, LocalForm::Opcode);
}

/// A step at `istore` or `astore`, with the local variable in the byte behind.
#[inline(always)]
pub fn step_store<'l>(words: &mut [u32], at: &mut Registers<'l>, kind: WordKind)
    requires can { CanStep at.old words.old }
    requires opcode { HasBytes at.old.code.now at.old.pc (store_opcode kind ∷ []) }
    requires room { at.old.pc + 2 ≤ length at.old.code.now }
    ensures { StepsTo at.old words.old at.new words.new }
{
    let index = index_at(at.code, at.pc as usize + 1);
    let next = at.pc + 2;
    store(words, at, next, kind, index, LocalForm::Byte);
}

/// A step at `lstore`, with the local variable in the opcode.
#[inline(always)]
pub fn step_store_long_of<'l>(words: &mut [u32], at: &mut Registers<'l>, index: u16)
    requires can { CanStep at.old words.old }
    requires stands { HasBytes at.old.code.now at.old.pc (insn_bytes (StoreLongInsn index LocalForm.Opcode)) }
    requires fits { IsTrue (insn_fits at.old.pc (StoreLongInsn index LocalForm.Opcode)) }
    ensures { StepsTo at.old words.old at.new words.new }
{
    let next = at.pc + 1;
    store_long(words, at, next, index, LocalForm::Opcode);
}

/// A step at `lstore`, with the local variable in the byte behind.
#[inline(always)]
pub fn step_store_long<'l>(words: &mut [u32], at: &mut Registers<'l>)
    requires can { CanStep at.old words.old }
    requires opcode { HasBytes at.old.code.now at.old.pc (55 ∷ []) }
    requires room { at.old.pc + 2 ≤ length at.old.code.now }
    ensures { StepsTo at.old words.old at.new words.new }
{
    let index = index_at(at.code, at.pc as usize + 1);
    let next = at.pc + 2;
    store_long(words, at, next, index, LocalForm::Byte);
}

/// A step at `iinc`.
#[inline(always)]
pub fn step_increment<'l>(words: &mut [u32], at: &mut Registers<'l>)
    requires can { CanStep at.old words.old }
    requires opcode { HasBytes at.old.code.now at.old.pc (132 ∷ []) }
    requires room { at.old.pc + 3 ≤ length at.old.code.now }
    ensures { StepsTo at.old words.old at.new words.new }
{
    let index = index_at(at.code, at.pc as usize + 1);
    let by = addend_at(at.code, at.pc as usize + 2);
    let next = at.pc + 3;
    increment(words, at, next, index, by, IncrementForm::Byte);
}
