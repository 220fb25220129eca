//! The instructions of a method, listed.

ghost use Rattle.std.specs.Prelude.{◌≡◌, ◌<◌, ◌≤◌, IfOk, Some, length, nat_le, slice_get, string_bytes};
ghost use Rattle.jv_class.specs.Class.{Method, class_of};
ghost use Rattle.jv_class_structure.specs.Parts.{CodeSeen};
ghost use Rattle.jv_lines.specs.Lines.{line_at};
ghost use Rattle.jv_meaning_world.specs.Verdicts.{declared_by};
ghost use Rattle.jv_verify.specs.Frames.{IsTypedBelowIn};
ghost use Rattle.jv_program_explain.specs.Listing.{IsListedTo, Stops, more_text};
ghost use Rattle.jv_program_explain.specs.Inside.Walked.{TakesFramed};

use crate::step::told;
use jv_class::ClassFile;
use jv_code::{one_at_offset, stands_in_list};
use jv_explain::{ShownPlace, append};
use jv_lines::Lines;
use jv_pool::Pool;
use jv_verify::{CurrentClass, FrameSink, FramedInsn, tell_frames};
use std::alloc::{AllocError, Global};
use std::fmt;

// How many bytes a method's list has when no further instruction is listed (own): a frame's text has all local variables, of which there
// may be 65,535 at each of 65,535 instructions, which is 20 gigabytes.
const MOST: usize = 1_048_576;

/// The list of a method's instructions so far, with the pool of its class, the lines of source, and its number.
pub(crate) struct Listing<'l, 'p, 'a> {
    pool: &'p Pool<'a>,
    lines: &'l Lines,
    method: usize,
    text: String,
}

impl Drop for Listing<'_, '_, '_> {
    fn drop(self) {
        let Listing {
            pool: _,
            lines: _,
            method: _,
            text: _,
        } = self;
    }
}

impl Listing<'_, '_, '_> {
    /// The text alone.
    fn into_text(self) -> String
        ensures { result ≡ self.entry.text }
    {
        let Listing {
            pool: _,
            lines: _,
            method: _,
            text,
        } = self;
        text
    }
}

impl<'l, 'p, 'a> FrameSink<'a> for Listing<'l, 'p, 'a> {
    ghost takes = { TakesFramed };

    ghost full = { λ listing. nat_le 1048576 (length (string_bytes listing.text)) };

    fn is_full(&self) -> bool {
        MOST <= self.text.len()
    }

    fn take(&mut self, alloc: Global, framed: &FramedInsn<'a>) -> Result<(), AllocError> {
        let place = ShownPlace {
            pool: self.pool,
            offset: framed.offset,
            line: self.lines.at(self.method, framed.offset),
            insn: framed.insn,
        };
        let one = told(alloc, place, framed)?;
        append(&mut self.text, &one)
    }
}

/// Where a list stops early, as it is printed.
#[derive(Clone, Copy)]
struct ShownMore(u32);

impl fmt::Display for ShownMore {
    ghost output = { λ more. Some (more_text more.0) };

    fn fmt<W: fmt::Write>(&self, f: &mut fmt::Formatter<W>) -> fmt::Result {
        let offset = self.0;
        write!(f, "  from offset {offset} on nothing is listed\n")
    }
}

/// Says where a list stops that is to go up to an end, where that is earlier.
fn stop_told(alloc: Global, listing: &str, offset: u32, end: u32) -> Result<String, AllocError>
    requires within { offset ≤ end }
    requires long { offset < end → 1048576 ≤ length listing.now }
    ensures { IfOk result (λ text. Stops listing.now offset end (string_bytes text)) }
{
    if offset < end {
        let shown = ShownMore(offset);
        shown.to_string(alloc)
    } else {
        Ok(String::new(alloc))
    }
}

/// The instructions of a method, by its number, of the current class, which is that of the file, from the first on up to an end, below
/// which they are type safe, each with the frame before it and with its line of source.
pub(crate) fn list_to<'a>(
    alloc: Global,
    class: &CurrentClass<'_, '_, 'a>,
    file: &ClassFile<'a>,
    lines: &Lines,
    method: u16,
    end: u32,
) -> Result<String, AllocError>
    requires file { class_of file.now ≡ Some class.now.by.class }
    requires typed { IsTypedBelowIn class.now.types.world class.now.by method end }
    ensures { IfOk result (λ text. (m : Method) (body : CodeSeen) → slice_get class.now.by.class.methods method ≡ Some m
        → m.code ≡ Some body
        → IsListedTo class.now.types.world (declared_by class.now.by m) (line_at lines.now method) body.code end (string_bytes text)) }
{
    one_at_offset();
    stands_in_list();
    let mut listing = Listing {
        pool: file.pool(),
        lines,
        method: usize::from(method),
        text: String::new(alloc),
    };
    let stop = tell_frames(alloc, class, file, method, end, &mut listing)?;
    let mut text = listing.into_text();
    let behind = stop_told(alloc, &text, stop, end)?;
    append(&mut text, &behind)?;
    Ok(text)
}
