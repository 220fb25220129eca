//! What is said of an instruction of the profile that names a constant which is not.

ghost use Rattle.std.specs.Prelude.{◌≡◌, ℕ, IfOk, string_bytes};
ghost use Rattle.jv_code.specs.Insns.{instruction_of};
ghost use Rattle.jv_beyond.specs.Inside.Told.{IsNamedTold, IsUseTold};
ghost use Rattle.jv_beyond.specs.Text.{method_line};
ghost use Rattle.jv_beyond.specs.Uses.{IsUseIn, NamesBeyond};

use crate::text::{ShownConstant, ShownInstruction, ShownMethod, ShownUse};
use crate::uses::beyond_of;
use jv_code::{Code, one_at_offset};
use jv_pool::Pool;
use std::alloc::{AllocError, Global};

/// What is said of an instruction of a method, which names a constant that the profile leaves out.
fn tell_named<'a>(
    alloc: Global,
    method: ShownMethod<'a>,
    instruction: ShownInstruction<'_, 'a>,
) -> Result<String, AllocError>
    requires { (index : ℕ) × NamesBeyond instruction.pool.now (instruction_of instruction.insn) index }
    ensures { IfOk result (λ text. IsNamedTold
        instruction.entry.pool.now (method_line method.entry.place method.entry.name.now method.entry.descriptor.now)
        instruction.entry.offset instruction.entry.line (instruction_of instruction.entry.insn) (string_bytes text)) }
{
    let pool = instruction.pool;
    let Some(index) = beyond_of(pool, instruction.insn) else {
        return Ok(String::new(alloc));
    };
    let Some(constant) = pool.constant(index) else {
        return Ok(String::new(alloc));
    };
    let shown = ShownUse {
        method,
        instruction,
        constant: ShownConstant {
            pool,
            index,
            constant,
        },
    };
    shown.to_string(alloc)
}

/// What is said of the instruction at an offset of a method's code, which names such a constant, with a line of source.
pub(crate) fn tell_use_in<'a>(
    alloc: Global,
    pool: &Pool<'a>,
    method: ShownMethod<'a>,
    bytes: &'a [u8],
    offset: u32,
    line: Option<u16>,
) -> Result<String, AllocError>
    requires { IsUseIn pool.now bytes.now offset }
    ensures { IfOk result (λ text. IsUseTold pool.now
        (method_line method.entry.place method.entry.name.now method.entry.descriptor.now) bytes.now offset line (string_bytes text)) }
{
    one_at_offset();
    let Ok(code) = Code::read(bytes) else {
        return Ok(String::new(alloc));
    };
    if !code.is_start(offset) {
        return Ok(String::new(alloc));
    }
    let (insn, _next) = code.insn_at(offset);
    let instruction = ShownInstruction {
        pool,
        offset,
        line,
        insn,
    };
    tell_named(alloc, method, instruction)
}
