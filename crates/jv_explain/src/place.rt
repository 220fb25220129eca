//! The place where a rule is broken.

ghost use Rattle.std.specs.Prelude.{◌≡◌, IfOk, string_bytes};
ghost use Rattle.jv_explain.specs.Inside.Said.{IsPlaceIn};

use crate::text::ShownPlace;
use jv_code::Code;
use jv_pool::Pool;
use std::alloc::{AllocError, Global};

/// The text of the instruction at an offset of code, with a line of source; nothing where no instruction starts there.
pub(crate) fn place_of<'a>(
    alloc: Global,
    pool: &Pool<'a>,
    bytes: &'a [u8],
    offset: u32,
    line: Option<u16>,
) -> Result<String, AllocError>
    ensures { IfOk result (λ text. IsPlaceIn pool.now bytes.now offset line (string_bytes text)) }
{
    let Ok(code) = Code::read(bytes) else {
        return Ok(String::new(alloc));
    };
    if !code.is_start(offset) {
        return Ok(String::new(alloc));
    }
    let (insn, _next) = code.insn_at(offset);
    let shown = ShownPlace {
        pool,
        offset,
        line,
        insn,
    };
    shown.to_string(alloc)
}
