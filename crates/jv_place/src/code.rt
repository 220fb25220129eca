//! The instruction at an offset of code.

ghost use Rattle.std.specs.Prelude.{IfOk};
ghost use Rattle.jv_place.specs.Inside.Found.{IsInCode, text_in};

use jv_code::Code;
use jv_pool::Pool;
use jv_shown::ShownInsn;
use std::alloc::{AllocError, Global};

/// The text of the instruction at an offset of code; none where no instruction starts there.
pub(crate) fn text_at<'a>(
    alloc: Global,
    pool: &Pool<'a>,
    bytes: &'a [u8],
    offset: u32,
) -> Result<Option<String>, AllocError>
    ensures { IfOk result (λ text. IsInCode pool.now bytes.now offset (text_in text)) }
{
    let Ok(code) = Code::read(bytes) else {
        return Ok(None);
    };
    if !code.is_start(offset) {
        return Ok(None);
    }
    let (insn, _next) = code.insn_at(offset);
    let shown = ShownInsn { pool, offset, insn };
    Ok(Some(shown.to_string(alloc)?))
}
