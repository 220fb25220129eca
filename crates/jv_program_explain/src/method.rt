//! A method, listed.

ghost use Rattle.std.specs.Prelude.{◌≡◌, ◌++◌, IfOk, Some, slice_get, string_bytes};
ghost use Rattle.jv_class.specs.Class.{Method, class_of};
ghost use Rattle.jv_explain.specs.Inside.Said.{named_text};
ghost use Rattle.jv_lines.specs.Lines.{line_at};
ghost use Rattle.jv_meaning_typing.specs.Judgement.{AreTyped};
ghost use Rattle.jv_meaning_world.specs.Verdicts.{declared_by};
ghost use Rattle.jv_program_explain.specs.Listing.{IsCodeListed};

use crate::walk::list_to;
use jv_class::ClassFile;
use jv_code::Code;
use jv_explain::ShownMethod;
use jv_lines::Lines;
use jv_verify::CurrentClass;
use std::alloc::{AllocError, Global};
use std::fmt;

/// The line of a method, and its listing, as they are printed.
#[derive(Clone, Copy)]
struct ShownListing<'t, 'a> {
    method: ShownMethod<'a>,
    listing: &'t str,
}

impl fmt::Display for ShownListing<'_, '_> {
    ghost output = { λ b. Some (named_text b.method.number b.method.name.now b.method.descriptor.now ++ b.listing.now) };

    fn fmt<W: fmt::Write>(&self, f: &mut fmt::Formatter<W>) -> fmt::Result {
        let method = self.method;
        let listing = self.listing;
        write!(f, "{method}{listing}")
    }
}

/// A listing behind the line of its method.
fn headed(alloc: Global, method: ShownMethod<'_>, listing: &str) -> Result<String, AllocError>
    ensures { IfOk result (λ text. string_bytes text
        ≡ named_text method.entry.number method.entry.name.now method.entry.descriptor.now ++ listing.now) }
{
    let shown = ShownListing { method, listing };
    shown.to_string(alloc)
}

/// The listing of a method, by its number, of the current class, which is that of the file and whose methods are typed, behind its line,
/// where it has code.
pub(crate) fn method_listed<'a>(
    alloc: Global,
    class: &CurrentClass<'_, '_, 'a>,
    file: &ClassFile<'a>,
    lines: &Lines,
    number: u16,
) -> Result<String, AllocError>
    requires file { class_of file.now ≡ Some class.now.by.class }
    requires typed { AreTyped class.now.types.world class.now.by class.now.by.class.methods }
    ensures { IfOk result (λ text. (m : Method) → slice_get class.now.by.class.methods number ≡ Some m
        → IsCodeListed class.now.types.world (declared_by class.now.by m) (line_at lines.now number) number m.code (string_bytes text)) }
{
    let Some(method) = file.method(usize::from(number)) else {
        return Ok(String::new(alloc));
    };
    let Some(body) = method.code() else {
        return Ok(String::new(alloc));
    };
    let Ok(code) = Code::read(body.code) else {
        return Ok(String::new(alloc));
    };
    let size = code.size();
    let listing = list_to(alloc, class, file, lines, number, size)?;
    let pool = file.pool();
    let shown = ShownMethod {
        number,
        name: pool.utf8(method.name),
        descriptor: pool.utf8(method.descriptor),
    };
    headed(alloc, shown, &listing)
}
