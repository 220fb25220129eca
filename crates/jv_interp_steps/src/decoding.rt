//! Instructions in the code of methods.

ghost use Rattle.std.specs.Prelude.{◌≡◌, ◌+◌, ◌≤◌, [], ◌∷◌, length, get_or, IsTrue};
ghost use Rattle.jv_format.specs.Format.{byte, half};
ghost use Rattle.jv_code.specs.Insns.{instruction_of};
ghost use Rattle.jv_code.specs.Operands.{HasBytes, least_operands};
ghost use Rattle.jv_code.specs.Places.{IsStart};
ghost use Rattle.jv_interp_instructions.specs.InGuest.{KeepsCodeRules};
ghost use Rattle.jv_interp_steps.specs.Inside.Decoding.{CanDecode, Decodes, IsSiteOf};

use jv_code::Insn;
use jv_interp_members::Methods;
use jv_link::Site;

/// The place of a method that stands at an instruction, the instruction, and the offset of the next one.
#[inline(always)]
pub(crate) fn decode<'a>(methods: &Methods<'a>, method: u32, pc: u32) -> (Site, Insn<&'a [u8]>, u32)
    requires { CanDecode methods.now method pc }
    ensures decodes { Decodes methods.now method pc result.0 (instruction_of result.1) result.2 }
    ensures rules { KeepsCodeRules (instruction_of result.1) }
{
    let row = methods.method(method);
    let Some(code) = row.code else {
        unreachable!();
    };
    let site = Site {
        class: row.place.class,
        method: row.place.member,
    };
    let (insn, next) = code.insn_at(pc);
    (site, insn, next)
}

/// The place of a method.
#[inline(always)]
pub(crate) fn site_of(methods: &Methods<'_>, method: u32, pc: u32) -> Site
    requires { CanDecode methods.now method pc }
    ensures { IsSiteOf methods.now method pc result }
{
    // Only the clauses speak of it.
    let _pc = pc;
    let row = methods.method(method);
    Site {
        class: row.place.class,
        method: row.place.member,
    }
}

/// The opcode of the instruction at an offset, which was read there.
#[inline(always)]
pub(crate) fn opcode_at(code: &[u8], pc: usize, read: u16) -> u8
    requires start { IsStart code.now pc }
    requires read { read ≡ get_or code.now pc 0 + 1 }
    ensures stands { HasBytes code.now pc (result ∷ []) }
    ensures room { (pc + 1) + least_operands result ≤ length code.now }
{
    // Only the clauses speak of these.
    let _code = code;
    let _pc = pc;
    (read - 1) as u8
}

/// The index in the two bytes behind the opcode at an offset.
#[inline(always)]
pub(crate) fn index_behind(code: &[u8], pc: usize) -> u16
    requires { pc + 3 ≤ length code.now }
    ensures stands { HasBytes code.now (pc + 1) (half.spelling result) }
    ensures fits { IsTrue (half.fits result) }
{
    u16::from_be_bytes([code[pc + 1], code[pc + 2]])
}

/// The index in the byte behind the opcode at an offset.
#[inline(always)]
pub(crate) fn index_in_byte(code: &[u8], pc: usize) -> u16
    requires { pc + 2 ≤ length code.now }
    ensures stands { HasBytes code.now (pc + 1) (byte.spelling result) }
    ensures fits { IsTrue (byte.fits result) }
{
    u16::from(code[pc + 1])
}

/// The count in the byte behind the index behind the opcode at an offset.
#[inline(always)]
pub(crate) fn count_behind(code: &[u8], pc: usize) -> u8
    requires { pc + 4 ≤ length code.now }
    ensures stands { HasBytes code.now (pc + 3) (byte.spelling result) }
    ensures fits { IsTrue (byte.fits result) }
{
    code[pc + 3]
}
