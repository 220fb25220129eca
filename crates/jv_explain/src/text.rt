//! The parts of an explanation as they are printed.

ghost use Rattle.std.specs.Prelude.{◌++◌, Some};
ghost use Rattle.jv_code.specs.Insns.{instruction_of};
ghost use Rattle.jv_explain.specs.Text.{broken_text, line_text, place_text};
ghost use Rattle.jv_explain.specs.Inside.Said.{named_text};

use jv_code::Insn;
use jv_meaning_typing::VerifyRule;
use jv_pool::Pool;
use jv_program_base::Escaped;
use jv_shown::{ShownInsn, ShownRule};
use std::fmt;

/// A method by its number, its name and its descriptor, as it is printed.
#[derive(Clone, Copy)]
pub struct ShownMethod<'a> {
    /// Its number.
    pub number: u16,
    /// Its name.
    pub name: &'a [u8],
    /// Its descriptor.
    pub descriptor: &'a [u8],
}

/// A line of source, where there is one.
#[derive(Clone, Copy)]
struct ShownLine(Option<u16>);

/// An instruction at an offset, with the line of source where there is one, as it is printed.
#[derive(Clone, Copy)]
pub struct ShownPlace<'p, 'a> {
    /// The pool of its class.
    pub pool: &'p Pool<'a>,
    /// Its offset.
    pub offset: u32,
    /// Its line.
    pub line: Option<u16>,
    /// The instruction.
    pub insn: Insn<&'a [u8]>,
}

/// What is said of a fault: of the method, of what stands above the place, of the place, of the frames there, and of the rule.
#[derive(Clone, Copy)]
pub(crate) struct ShownFault<'p, 'a> {
    pub(crate) method: ShownMethod<'a>,
    pub(crate) above: &'p str,
    pub(crate) place: &'p str,
    pub(crate) frames: &'p str,
    pub(crate) rule: VerifyRule,
}

impl fmt::Display for ShownMethod<'_> {
    ghost output = { λ m. Some (named_text m.number m.name.now m.descriptor.now) };

    fn fmt<W: fmt::Write>(&self, f: &mut fmt::Formatter<W>) -> fmt::Result {
        let number = self.number;
        let name = Escaped(self.name);
        let descriptor = Escaped(self.descriptor);
        write!(f, "  method {number}: {name}{descriptor}\n")
    }
}

impl fmt::Display for ShownLine {
    ghost output = { λ line. Some (line_text line.0) };

    fn fmt<W: fmt::Write>(&self, f: &mut fmt::Formatter<W>) -> fmt::Result {
        match self.0 {
            Some(line) => write!(f, ", line {line}"),
            None => Ok(()),
        }
    }
}

impl fmt::Display for ShownPlace<'_, '_> {
    ghost output = { λ place. Some (place_text place.pool.now place.offset place.line (instruction_of place.insn)) };

    fn fmt<W: fmt::Write>(&self, f: &mut fmt::Formatter<W>) -> fmt::Result {
        let offset = self.offset;
        let insn = ShownInsn {
            pool: self.pool,
            offset,
            insn: self.insn,
        };
        let line = ShownLine(self.line);
        write!(f, "  offset {offset}{line}: {insn}\n")
    }
}

impl fmt::Display for ShownFault<'_, '_> {
    ghost output = { λ fault. Some (named_text fault.method.number fault.method.name.now fault.method.descriptor.now
        ++ fault.above.now ++ fault.place.now ++ fault.frames.now ++ broken_text fault.rule) };

    fn fmt<W: fmt::Write>(&self, f: &mut fmt::Formatter<W>) -> fmt::Result {
        let method = self.method;
        let above = self.above;
        let place = self.place;
        let frames = self.frames;
        let rule = ShownRule(self.rule);
        write!(f, "{method}{above}{place}{frames}  breaks {rule}\n")
    }
}
