//! Where instructions start, and whether handlers do (JVMS 4.7.3, 4.9.1).

ghost use Rattle.std.specs.Prelude.{◌≡◌, ◌↔◌, ◌≤◌, length, IfOk, IsTrue, Some, true, slice_get};
ghost use Rattle.jv_format.specs.Handlers.{handlers_of};
ghost use Rattle.jv_code.specs.Places.{IsStart, IsStartOrEnd};
ghost use Rattle.jv_code.specs.Handlers.{HandlerFits, HandlersFit};
ghost use Rattle.jv_code.specs.Inside.StartTable.{IsBlank, IsStartTable};

use crate::code::Code;
use jv_format::{ExceptionTable, Handler};
use std::alloc::{AllocError, Global};
use std::marker::Model;

/// A table of the offsets of a code where instructions start. It has a byte for each byte of the
/// code. In contracts it is the code's bytes.
#[derive(Drop)]
pub struct Starts<'a> {
    code: Code<'a>,
    marks: Vec<bool>,
}

impl<'a> Model for Starts<'a> {
    ghost use Rattle.std.specs.Prelude.{ℕ, List};
    ghost use Rattle.jv_code.specs.Inside.StartTable.{IsStartTable};

    ghost Value = { List ℕ };

    ghost view = { λ s. s.code.bytes.now };

    ghost invariant = { λ s. IsStartTable s.code.bytes.now s.marks.items };
}

fn is_marked(marks: &[bool], pc: usize) -> bool
    ensures { IsTrue result ↔ (slice_get marks.now pc ≡ Some true) }
{
    pc < marks.len() && marks[pc]
}

/// Marks the offsets where instructions start, in one pass over the code.
fn mark_starts(code: &Code<'_>, marks: &mut [bool])
    requires blank { IsBlank marks.old }
    requires room { length code.now.bytes.now ≤ length marks.old }
    ensures { IsStartTable code.now.bytes.now marks.new }
{
    let end = code.size();
    let mut pc = 0;
    while pc < end {
        marks[pc as usize] = true;
        pc = code.end_of_insn(pc);
    }
}

impl<'a> Starts<'a> {
    /// The starts of a code, in one pass over it.
    ///
    /// # Errors
    ///
    /// `AllocError` where there is no memory for the table.
    pub fn new(alloc: Global, code: Code<'a>) -> Result<Self, AllocError>
        ensures { IfOk result (λ starts. starts ≡ code.entry.bytes.now) }
    {
        let mut marks = vec![in alloc; false; code.bytes.len()]?;
        mark_starts(&code, &mut marks);
        Ok(Starts { code, marks })
    }

    /// Whether an instruction starts at the offset, in constant time.
    pub fn is_start(&self, pc: u32) -> bool
        ensures { IsTrue result ↔ IsStart self.now pc }
    {
        is_marked(&self.marks, pc as usize)
    }

    fn is_start_or_end(&self, pc: u32) -> bool
        ensures { IsTrue result ↔ IsStartOrEnd self.now pc }
    {
        self.is_start(pc) || pc == self.code.size()
    }

    fn end_fits(&self, handler: Handler) -> bool
        ensures { IsTrue result ↔ IsStartOrEnd self.now handler.end_pc }
    {
        self.is_start_or_end(u32::from(handler.end_pc))
    }

    fn starts_fit(&self, handler: Handler) -> bool
        ensures { IsTrue result ↔ (IsStart self.now handler.start_pc × IsStart self.now handler.handler_pc) }
    {
        self.is_start(u32::from(handler.start_pc)) && self.is_start(u32::from(handler.handler_pc))
    }

    /// Whether a handler covers something, from an instruction's start to another's or to the
    /// end of the code, and starts at an instruction (4.7.3). What it catches is not looked at.
    pub fn handler_fits(&self, handler: Handler) -> bool
        ensures { IsTrue result ↔ HandlerFits self.now handler }
    {
        if handler.start_pc >= handler.end_pc {
            return false;
        }
        self.starts_fit(handler) && self.end_fits(handler)
    }

    /// Whether each handler of a table fits, in constant time for each.
    pub fn handlers_fit(&self, table: ExceptionTable<'_>) -> bool
        ensures { IsTrue result ↔ HandlersFit self.now (handlers_of table.entry) }
    {
        for place in 0..table.len() {
            let Some(handler) = table.handler(place) else {
                unreachable!();
            };
            if !self.handler_fits(handler) {
                return false;
            }
        }
        true
    }
}
