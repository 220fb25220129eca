//! What is said of a method that breaks a rule.

ghost use Rattle.std.specs.Prelude.{◌≡◌, ◌++◌, IfOk, string_bytes};
ghost use Rattle.jv_class_structure.specs.Seen.{seen_method};
ghost use Rattle.jv_explain.specs.Explained.{is_at_instruction};
ghost use Rattle.jv_explain.specs.Text.{broken_text};
ghost use Rattle.jv_explain.specs.Inside.Said.{ExplainsIn, ShowsFaultIn, named_text};

use crate::place::place_of;
use crate::text::{ShownFault, ShownMethod};
use jv_class::{ClassFile, Method};
use jv_code::stands_in_list;
use jv_lines::Lines;
use jv_meaning_typing::{VerifyFault, VerifyRule};
use jv_pool::Pool;
use std::alloc::{AllocError, Global};

/// Whether a rule is broken at an instruction, and not by the whole code (JVMS 4.10.1).
pub fn is_at_instruction(rule: VerifyRule) -> bool
    ensures { result ≡ is_at_instruction rule }
{
    !matches!(
        rule,
        VerifyRule::Code | VerifyRule::HandlerTable | VerifyRule::MapFrames
    )
}

/// The text of the place where a method breaks a rule, with a line of source; nothing where it is none of an instruction.
fn place_in<'a>(
    alloc: Global,
    pool: &Pool<'a>,
    method: &Method<'a>,
    fault: VerifyFault,
    line: Option<u16>,
) -> Result<String, AllocError>
    ensures { IfOk result (λ text. ShowsFaultIn pool.now (seen_method method.now) fault line (string_bytes text)) }
{
    if !is_at_instruction(fault.rule) {
        return Ok(String::new(alloc));
    }
    match method.code() {
        Some(body) => place_of(alloc, pool, body.code, fault.offset, line),
        None => Ok(String::new(alloc)),
    }
}

/// What is said of a method with these texts, of what stands above the place where it breaks a rule, of the place, of the frames there,
/// and of the rule.
fn told(
    alloc: Global,
    method: ShownMethod<'_>,
    above: &str,
    place: &str,
    frames: &str,
    rule: VerifyRule,
) -> Result<String, AllocError>
    ensures { IfOk result (λ text. string_bytes text
        ≡ named_text method.entry.number method.entry.name.now method.entry.descriptor.now
        ++ above.now ++ place.now ++ frames.now ++ broken_text rule) }
{
    let shown = ShownFault {
        method,
        above,
        place,
        frames,
        rule,
    };
    shown.to_string(alloc)
}

/// The line of source where a method breaks a rule, where a file with these bytes says it. Nothing is promised of it.
fn line_at(alloc: Global, bytes: &[u8], fault: VerifyFault) -> Option<u16> {
    let lines = Lines::read(alloc, bytes);
    lines.at(usize::from(fault.method), fault.offset)
}

/// What is said of the first fault of the class of a file with these bytes, with the texts of what stands above and of the frames there.
pub(crate) fn explain_in(
    alloc: Global,
    bytes: &[u8],
    file: &ClassFile<'_>,
    fault: VerifyFault,
    above: &str,
    frames: &str,
) -> Result<String, AllocError>
    ensures { IfOk result (λ text. ExplainsIn file.now fault above.now frames.now (string_bytes text)) }
{
    stands_in_list();
    let Some(method) = file.method(usize::from(fault.method)) else {
        return Ok(String::new(alloc));
    };
    let line = line_at(alloc, bytes, fault);
    let place = place_in(alloc, file.pool(), &method, fault, line)?;
    let named = ShownMethod {
        number: fault.method,
        name: file.pool().utf8(method.name),
        descriptor: file.pool().utf8(method.descriptor),
    };
    told(alloc, named, above, &place, frames, fault.rule)
}
