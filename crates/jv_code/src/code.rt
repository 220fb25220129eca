//! Code as a list of instructions (JVMS 4.7.3, 4.9.1).

ghost use Rattle.std.specs.Prelude.{◌≡◌, ◌↔◌, ◌+◌, ◌++◌, ◌≤◌, ◌<◌, ℕ, List, length, IfOk, IfErr, IfSome, IfNone, IsTrue};
ghost use Rattle.jv_code.specs.Insns.{Instruction, instruction_of, insn_bytes, insn_fits};
ghost use Rattle.jv_code.specs.Places.{IsCode, IsAt, IsStart, IsStartOrEnd};
ghost use Rattle.jv_format.specs.Format.{byte, half};
ghost use Rattle.jv_code.specs.Numbers.{signed8, signed16};
ghost use Rattle.jv_code.specs.Operands.{HasBytes, least_operands};

use crate::insn::Insn;
use crate::reading::read_known_insn;
use crate::skipping::{skip_insn, told_size};
use jv_format::{byte_at, half_at};
use std::fmt;

/// The bytes are no code: they are no list of instructions, or none at all, or too many.
#[derive(Clone, Copy, Debug)]
pub struct BadCode;

impl fmt::Display for BadCode {
    fn fmt<W: fmt::Write>(&self, f: &mut fmt::Formatter<W>) -> fmt::Result {
        f.write_str("no code")
    }
}

/// The code of a method: from 1 to 65,535 bytes that are a list of instructions.
#[derive(Clone, Copy)]
pub struct Code<'a> {
    /// The bytes of the instructions, one after the other.
    pub bytes: &'a [u8],
    pub ghost is_code: { ∥ ((insns : List Instruction) × IsCode bytes.now insns) ∥₁ },
}

/// What follows the instruction at the front, which stands at an offset of the code.
#[inline(always)]
pub(crate) fn behind_insn(at: usize, bytes: &[u8]) -> Option<&[u8]>
    ensures found { IfSome result (λ rest. (i : Instruction) × (bytes.now ≡ insn_bytes i ++ rest.now) × IsTrue (insn_fits at i)) }
    ensures none { IfNone result ((i : Instruction) (rest : List ℕ) → IsTrue (insn_fits at i) → bytes.now ≡ insn_bytes i ++ rest → ⊥) }
{
    let Some(rest) = skip_insn(at, bytes) else {
        return None;
    };
    Some(rest)
}

fn is_code(bytes: &[u8]) -> bool
    ensures { IsTrue result ↔ ((insns : List Instruction) × IsCode bytes.now insns) }
{
    if bytes.is_empty() || bytes.len() > 65535 {
        return false;
    }
    let mut rest = bytes;
    while !rest.is_empty() {
        let Some(after) = behind_insn(bytes.len() - rest.len(), rest) else {
            return false;
        };
        rest = after;
    }
    true
}

fn opcode_at(bytes: &[u8], pc: usize) -> u8
    requires { IsStart bytes.now pc }
    ensures stands { HasBytes bytes.now pc (byte.spelling result) }
    ensures room { (pc + 1) + least_operands result ≤ length bytes.now }
{
    let (_, rest) = bytes.split_at(pc);
    let Some((opcode, _after)) = byte_at(rest) else {
        unreachable!();
    };
    opcode
}

fn half_at_offset(bytes: &[u8], at: usize) -> u16
    requires { at + 2 ≤ length bytes.now }
    ensures { HasBytes bytes.now at (half.spelling result) }
{
    let (_, rest) = bytes.split_at(at);
    let Some((value, _after)) = half_at(rest) else {
        unreachable!();
    };
    value
}

impl<'a> Code<'a> {
    /// The code that the bytes spell. It goes over the bytes once.
    ///
    /// # Errors
    ///
    /// `BadCode` where the bytes are no list of instructions, or not from 1 to 65,535.
    pub fn read(bytes: &'a [u8]) -> Result<Code<'a>, BadCode>
        ensures same { IfOk result (λ code. code.bytes.now ≡ bytes.now) }
        ensures ok { IfOk result (λ _. (insns : List Instruction) × IsCode bytes.now insns) }
        ensures bad { IfErr result (λ _. (insns : List Instruction) → IsCode bytes.now insns → ⊥) }
    {
        if !is_code(bytes) {
            return Err(BadCode);
        }
        Ok(Code { bytes })
    }

    /// How many bytes the code has, from 1 to 65,535. An instruction starts at offset 0.
    #[inline]
    pub fn size(&self) -> u32
        ensures bytes { result ≡ length self.now.bytes.now }
        ensures is_code { (insns : List Instruction) × IsCode self.now.bytes.now insns }
        ensures some { 1 ≤ result }
        ensures few { result ≤ 65535 }
        ensures first { IsStart self.now.bytes.now 0 }
    {
        self.bytes.len() as u32
    }

    /// Whether an instruction starts at the offset.
    ///
    /// It walks over the instructions before the offset, so who asks it often makes a table of
    /// the starts, [`crate::Starts`].
    pub fn is_start(&self, pc: u32) -> bool
        ensures { IsTrue result ↔ IsStart self.now.bytes.now pc }
    {
        let pc = pc as usize;
        let mut rest = self.bytes;
        while self.bytes.len() - rest.len() < pc {
            let Some(after) = behind_insn(self.bytes.len() - rest.len(), rest) else {
                return false;
            };
            rest = after;
        }
        self.bytes.len() - rest.len() == pc && !rest.is_empty()
    }

    /// The instruction at the offset, and the offset after it, where the next one starts or the
    /// code ends. So the instructions from offset 0 on are all the instructions of the code.
    #[inline(always)]
    pub fn insn_at(&self, pc: u32) -> (Insn<&'a [u8]>, u32)
        requires { IsStart self.now.bytes.now pc }
        ensures insn { IsAt self.now.bytes.now pc (instruction_of result.0) }
        ensures next { result.1 ≡ pc + length (insn_bytes (instruction_of result.0)) }
        ensures goes_on { IsStartOrEnd self.now.bytes.now result.1 }
        ensures within { result.1 ≤ length self.now.bytes.now }
        ensures rises { pc < result.1 }
    {
        let at = pc as usize;
        let (_, rest) = self.bytes.split_at(at);
        let Some((insn, after)) = read_known_insn(at, rest) else {
            unreachable!();
        };
        (insn, (self.bytes.len() - after.len()) as u32)
    }

    /// The offset behind the instruction at the offset, which is decoded.
    #[inline(never)]
    fn read_end(&self, pc: u32) -> u32
        requires { IsStart self.now.bytes.now pc }
        ensures insn { (i : Instruction) × IsAt self.now.bytes.now pc i × (result ≡ pc + length (insn_bytes i)) }
        ensures goes_on { IsStartOrEnd self.now.bytes.now result }
        ensures rises { pc < result }
    {
        let (_insn, next) = self.insn_at(pc);
        next
    }

    /// The offset behind the instruction at the offset.
    #[inline(always)]
    pub(crate) fn end_of_insn(&self, pc: u32) -> u32
        requires { IsStart self.now.bytes.now pc }
        ensures insn { (i : Instruction) × IsAt self.now.bytes.now pc i × (result ≡ pc + length (insn_bytes i)) }
        ensures goes_on { IsStartOrEnd self.now.bytes.now result }
        ensures rises { pc < result }
    {
        let at = pc as usize;
        let (_, rest) = self.bytes.split_at(at);
        let size = told_size(rest);
        if size == 0 {
            return self.read_end(pc);
        }
        (at + size) as u32
    }

    /// The opcode of the instruction at the offset. Its operands are in the code.
    #[inline]
    pub fn opcode_at(&self, pc: u32) -> u8
        requires { IsStart self.now.bytes.now pc }
        ensures stands { HasBytes self.now.bytes.now pc (byte.spelling result) }
        ensures room { (pc + 1) + least_operands result ≤ length self.now.bytes.now }
    {
        opcode_at(self.bytes, pc as usize)
    }

    /// The number in the byte at an offset.
    #[inline]
    pub fn u8_at(&self, at: u32) -> u8
        requires { at < length self.now.bytes.now }
        ensures { HasBytes self.now.bytes.now at (byte.spelling result) }
    {
        self.bytes[at as usize]
    }

    /// The number in the two bytes at an offset.
    #[inline]
    pub fn u16_at(&self, at: u32) -> u16
        requires { at + 2 ≤ length self.now.bytes.now }
        ensures { HasBytes self.now.bytes.now at (half.spelling result) }
    {
        half_at_offset(self.bytes, at as usize)
    }

    /// The signed number in the byte at an offset.
    #[inline]
    pub fn i8_at(&self, at: u32) -> i8
        requires { at < length self.now.bytes.now }
        ensures { HasBytes self.now.bytes.now at (signed8.spelling result) }
    {
        self.u8_at(at).cast_signed()
    }

    /// The signed number in the two bytes at an offset.
    #[inline]
    pub fn i16_at(&self, at: u32) -> i16
        requires { at + 2 ≤ length self.now.bytes.now }
        ensures { HasBytes self.now.bytes.now at (signed16.spelling result) }
    {
        self.u16_at(at).cast_signed()
    }
}
