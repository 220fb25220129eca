//! What is said of a method.

ghost use Rattle.std.specs.Prelude.{◌≡◌, ◌++◌, IfOk, Some, string_bytes};
ghost use Rattle.jv_class.specs.Class.{class_of};
ghost use Rattle.jv_class_structure.specs.Seen.{seen_method};
ghost use Rattle.jv_link.specs.Answers.{HoldsAtSite};
ghost use Rattle.jv_lines.specs.Lines.{line_at};
ghost use Rattle.jv_link.specs.Seen.{IsSite};
ghost use Rattle.jv_links.specs.Inside.Shown.{headed, named_text};
ghost use Rattle.jv_links.specs.Inside.Walked.{AreToldIn, IsBlock};
ghost use Rattle.jv_meaning_world.specs.Numbers.{HoldsAtNumber};

use crate::code::references_of;
use jv_class::{ClassFile, Method};
use jv_code::Code;
use jv_lines::Lines;
use jv_link::Site;
use jv_loader::Classes;
use jv_pool::Pool;
use jv_program_base::Escaped;
use std::alloc::{AllocError, Global};
use std::fmt;

/// A method by its number, its name and its descriptor, as it is printed.
#[derive(Clone, Copy)]
struct ShownMethod<'a> {
    number: usize,
    name: &'a [u8],
    descriptor: &'a [u8],
}

/// The line of a method, and what stands under it.
#[derive(Clone, Copy)]
struct ShownBlock<'t, 'a> {
    method: ShownMethod<'a>,
    references: &'t str,
}

impl fmt::Display for ShownMethod<'_> {
    ghost output = { λ m. Some (named_text m.number m.name.now m.descriptor.now) };

    fn fmt<W: fmt::Write>(&self, f: &mut fmt::Formatter<W>) -> fmt::Result {
        let number = self.number;
        let name = Escaped(self.name);
        let descriptor = Escaped(self.descriptor);
        write!(f, "  method {number}: {name}{descriptor}\n")
    }
}

impl fmt::Display for ShownBlock<'_, '_> {
    ghost output = { λ b. Some (named_text b.method.number b.method.name.now b.method.descriptor.now ++ b.references.now) };

    fn fmt<W: fmt::Write>(&self, f: &mut fmt::Formatter<W>) -> fmt::Result {
        let method = self.method;
        let references = self.references;
        write!(f, "{method}{references}")
    }
}

/// References under the line of their method, where there are any.
fn headed(alloc: Global, method: ShownMethod<'_>, references: String) -> Result<String, AllocError>
    ensures { IfOk result (λ text. string_bytes text
        ≡ headed (named_text method.entry.number method.entry.name.now method.entry.descriptor.now) (string_bytes references)) }
{
    if references.is_empty() {
        return Ok(references);
    }
    let shown = ShownBlock {
        method,
        references: &references,
    };
    shown.to_string(alloc)
}

/// The text of the references of a site's method that don't resolve, with lines of source. The pool is that of the site's class.
fn references_in<'a>(
    alloc: Global,
    classes: &Classes<'_>,
    pool: &Pool<'a>,
    site: Site,
    method: &Method<'a>,
    lines: &Lines,
) -> Result<String, AllocError>
    requires site { IsSite classes.now.world site }
    requires pool { HoldsAtSite classes.now.world site (λ s. pool.now ≡ s.by.class.constant_pool) }
    ensures { IfOk result (λ text.
        AreToldIn classes.now.world site pool.now (line_at lines.now site.method) (seen_method method.now).code (string_bytes text)) }
{
    let Some(body) = method.code() else {
        return Ok(String::new(alloc));
    };
    let Ok(code) = Code::read(body.code) else {
        return Ok(String::new(alloc));
    };
    references_of(alloc, classes, pool, site, &code, lines)
}

/// What is said of the references of a site's method that don't resolve, with lines of source. The file is that of the site's class.
pub(crate) fn block_of(
    alloc: Global,
    classes: &Classes<'_>,
    file: &ClassFile<'_>,
    site: Site,
    lines: &Lines,
) -> Result<String, AllocError>
    requires site { IsSite classes.now.world site }
    requires file { HoldsAtNumber classes.now.world site.class (λ l. class_of file.now ≡ Some l.class) }
    ensures { IfOk result (λ text. HoldsAtSite classes.now.world site (λ s.
        IsBlock classes.now.world s (line_at lines.now site.method) site.method (string_bytes text))) }
{
    let Some(method) = file.method(site.method) else {
        return Ok(String::new(alloc));
    };
    let pool = file.pool();
    let references = references_in(alloc, classes, pool, site, &method, lines)?;
    let shown = ShownMethod {
        number: site.method,
        name: pool.utf8(method.name),
        descriptor: pool.utf8(method.descriptor),
    };
    headed(alloc, shown, references)
}
