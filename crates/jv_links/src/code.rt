//! The references of a method's code.

ghost use Rattle.std.specs.Prelude.{◌≡◌, IfOk, List, string_bytes};
ghost use Rattle.jv_code.specs.Insns.{Instruction};
ghost use Rattle.jv_code.specs.Places.{IsCode};
ghost use Rattle.jv_link.specs.Answers.{HoldsAtSite};
ghost use Rattle.jv_link.specs.Seen.{IsSite};
ghost use Rattle.jv_lines.specs.Lines.{line_at};
ghost use Rattle.jv_links.specs.Inside.Walked.{AreToldOf};

use crate::reference::reference_of;
use jv_code::{Code, one_at_offset};
use jv_explain::append;
use jv_lines::Lines;
use jv_link::Site;
use jv_loader::Classes;
use jv_pool::Pool;
use std::alloc::{AllocError, Global};

/// The text of the references of a site's code that don't resolve, with lines of source. The pool is that of the site's class.
pub(crate) fn references_of<'a>(
    alloc: Global,
    classes: &Classes<'_>,
    pool: &Pool<'a>,
    site: Site,
    code: &Code<'a>,
    lines: &Lines,
) -> Result<String, AllocError>
    requires site { IsSite classes.now.world site }
    requires pool { HoldsAtSite classes.now.world site (λ s. pool.now ≡ s.by.class.constant_pool) }
    ensures { IfOk result (λ text.
        AreToldOf classes.now.world site pool.now (line_at lines.now site.method) code.now.bytes.now (string_bytes text)) }
{
    one_at_offset();
    let size = code.size();
    let mut text = String::new(alloc);
    let mut offset = 0;
    while offset < size {
        let (insn, next) = code.insn_at(offset);
        let reference = reference_of(alloc, classes, pool, site, offset, insn, lines)?;
        append(&mut text, &reference)?;
        offset = next;
    }
    Ok(text)
}
