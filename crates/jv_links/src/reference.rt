//! A reference that doesn't resolve, as it is printed.

ghost use Rattle.std.specs.Prelude.{◌≡◌, ◌++◌, IfOk, Some, string_bytes};
ghost use Rattle.jv_code.specs.Insns.{instruction_of};
ghost use Rattle.jv_explain.specs.Text.{place_text};
ghost use Rattle.jv_link.specs.Answers.{HoldsAtSite};
ghost use Rattle.jv_lines.specs.Lines.{line_at};
ghost use Rattle.jv_link.specs.Seen.{IsSite, error_of};
ghost use Rattle.jv_meaning_typing.specs.LinkErrors.{error_class};
ghost use Rattle.jv_links.specs.Inside.Shown.{throws_shown, why_shown};
ghost use Rattle.jv_links.specs.References.{link_error};
ghost use Rattle.jv_links.specs.Text.{references_text, reference_text, unless_text};
ghost use Rattle.jv_links.specs.Unresolved.{if_unresolved};

use crate::error::link_error;
use crate::referred::operand_index;
use crate::why::{Why, why_of};
use jv_code::Insn;
use jv_explain::ShownPlace;
use jv_lines::Lines;
use jv_link::{LinkError, Site};
use jv_loader::Classes;
use jv_pool::Pool;
use std::alloc::{AllocError, Global};
use std::fmt;

/// The error that an instruction throws, when it doesn't, and why, as they are printed.
#[derive(Clone, Copy)]
struct ShownThrows<'a> {
    error: &'static str,
    unless: &'static str,
    why: Why<'a>,
}

/// An instruction whose reference doesn't resolve, and the error that it throws, as they are printed.
#[derive(Clone, Copy)]
struct ShownReference<'p, 'a> {
    place: ShownPlace<'p, 'a>,
    throws: ShownThrows<'a>,
}

/// The class of the error.
fn error_class(error: LinkError) -> &'static str
    ensures { result.now ≡ error_class (error_of error) }
{
    match error {
        LinkError::NoClassDefFoundError => "java/lang/NoClassDefFoundError",
        LinkError::ClassCircularityError => "java/lang/ClassCircularityError",
        LinkError::IncompatibleClassChangeError => "java/lang/IncompatibleClassChangeError",
        LinkError::IllegalAccessError => "java/lang/IllegalAccessError",
        LinkError::VerifyError => "java/lang/VerifyError",
        LinkError::NoSuchFieldError => "java/lang/NoSuchFieldError",
        LinkError::NoSuchMethodError => "java/lang/NoSuchMethodError",
        LinkError::AbstractMethodError => "java/lang/AbstractMethodError",
        LinkError::InstantiationError => "java/lang/InstantiationError",
    }
}

/// When an instruction resolves nothing.
fn unless_text(insn: &Insn<&[u8]>) -> &'static str
    ensures { result.now ≡ unless_text (instruction_of insn.now) }
{
    match insn {
        Insn::CheckCast(_) => " unless the operand is null",
        Insn::InstanceOf(_) => " unless the operand is null",
        _ => "",
    }
}

impl fmt::Display for ShownThrows<'_> {
    ghost output = { λ shown. Some (throws_shown shown.error.now shown.unless.now (why_shown shown.why)) };

    fn fmt<W: fmt::Write>(&self, f: &mut fmt::Formatter<W>) -> fmt::Result {
        let error = self.error;
        let unless = self.unless;
        let why = self.why;
        write!(f, "  throws {error}{unless}{why}\n")
    }
}

impl fmt::Display for ShownReference<'_, '_> {
    ghost output = { λ shown. Some (place_text shown.place.pool.now shown.place.offset shown.place.line (instruction_of shown.place.insn)
        ++ throws_shown shown.throws.error.now shown.throws.unless.now (why_shown shown.throws.why)) };

    fn fmt<W: fmt::Write>(&self, f: &mut fmt::Formatter<W>) -> fmt::Result {
        let place = self.place;
        let throws = self.throws;
        write!(f, "{place}{throws}")
    }
}

/// The text of a reference that ends in an error, with a line of source.
fn told<'a>(
    alloc: Global,
    classes: &Classes<'_>,
    pool: &Pool<'a>,
    offset: u32,
    insn: Insn<&'a [u8]>,
    error: LinkError,
    line: Option<u16>,
) -> Result<String, AllocError>
    ensures { IfOk result (λ text. string_bytes text
        ≡ reference_text classes.now.world pool.now (λ _. line)
        (record { offset = offset; insn = instruction_of insn.entry; error = error_of error })) }
{
    let place = ShownPlace {
        pool,
        offset,
        line,
        insn,
    };
    let throws = ShownThrows {
        error: error_class(error),
        unless: unless_text(&insn),
        why: why_of(classes, pool, operand_index(&insn), error),
    };
    let shown = ShownReference { place, throws };
    shown.to_string(alloc)
}

/// The text of the reference of an instruction at an offset of a site, where it has one that doesn't resolve, with the line of source. The
/// pool is that of the site's class.
pub(crate) fn reference_of<'a>(
    alloc: Global,
    classes: &Classes<'_>,
    pool: &Pool<'a>,
    site: Site,
    offset: u32,
    insn: Insn<&'a [u8]>,
    lines: &Lines,
) -> Result<String, AllocError>
    requires site { IsSite classes.now.world site }
    requires pool { HoldsAtSite classes.now.world site (λ s. pool.now ≡ s.by.class.constant_pool) }
    ensures { IfOk result (λ text. HoldsAtSite classes.now.world site (λ s. string_bytes text
        ≡ references_text classes.now.world pool.now (line_at lines.now site.method)
        (if_unresolved offset (instruction_of insn.entry) (link_error classes.now.world s (instruction_of insn.entry))))) }
{
    match link_error(classes, pool, site, &insn) {
        Some(error) => {
            let line = lines.at(site.method, offset);
            told(alloc, classes, pool, offset, insn, error, line)
        }
        None => Ok(String::new(alloc)),
    }
}
