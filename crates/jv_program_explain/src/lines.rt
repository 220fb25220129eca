//! The lines of source at which methods break rules.

ghost use Rattle.std.specs.Prelude.{◌≡◌, IfOk, length};

use jv_explain::is_at_instruction;
use jv_lines::Lines;
use jv_meaning_typing::Verdict;
use jv_program_base::verdict_at;
use std::alloc::{AllocError, Global};

/// The line of source of the instruction at which a method of a file with these bytes breaks a rule, where its verdict is about one and the
/// file says it (JVMS 4.7.12). Nothing is promised of it.
fn line_of(alloc: Global, bytes: &[u8], verdict: Verdict) -> Option<u16> {
    let Verdict::Verify(fault) = verdict else {
        return None;
    };
    if !is_at_instruction(fault.rule) {
        return None;
    }
    let lines = Lines::read(alloc, bytes);
    lines.at(usize::from(fault.method), fault.offset)
}

/// The same of each file of a guest with these verdicts.
pub(crate) fn lines_of(
    alloc: Global,
    files: &[&[u8]],
    verdicts: &[Verdict],
) -> Result<Vec<Option<u16>>, AllocError>
    ensures { IfOk result (λ lines. length lines.items ≡ length verdicts.now) }
{
    let mut lines = Vec::new(alloc);
    for place in 0..verdicts.len() {
        let verdict = verdict_at(verdicts, place);
        let line = match files.get(place) {
            Some(bytes) => line_of(alloc, bytes, verdict),
            None => None,
        };
        lines.push(line).map_err(AllocError::from)?;
    }
    Ok(lines)
}
