//! Methods that are left (JVMS 2.6.4, 6.5).

ghost use Rattle.std.specs.Prelude.{◌≡◌, ◌+◌, ◌++◌, ◌≤◌, IfSome, length, take};
ghost use Rattle.jv_interp_words.specs.FramesInWords.{in_use};
ghost use Rattle.jv_interp_members.specs.Methods.{AreMethods};
ghost use Rattle.jv_interp_control.specs.Leaving.{CanLeave, Leaves};
ghost use Rattle.jv_interp_control.specs.Inside.Nexts.{HasNext, HasSize, IsNext};

use crate::control::{Control, End};
use crate::frames::{Frames, push_record};
use jv_interp_members::Methods;
use jv_interp_words::{FrameRecord, MethodRecord, opcodes};

/// So many words come down to stand on others below them.
fn move_down(words: &mut [u32], from: usize, to: usize, count: usize)
    requires lower { to ≤ from }
    requires within { from + count ≤ length words.old }
    ensures { in_use words.new (to + count) ≡ take count (in_use words.old (from + count)) ++ in_use words.old to }
{
    for place in 0..count {
        words[to + place] = words[from + place];
    }
}

/// How many bytes a call has, by its opcode (JVMS 6.5).
#[inline(always)]
fn size_of_call(opcode: u8) -> Option<u32>
    ensures { IfSome result (HasSize opcode) }
{
    match opcode {
        opcodes::INVOKEVIRTUAL => Some(3),
        opcodes::INVOKESPECIAL => Some(3),
        opcodes::INVOKESTATIC => Some(3),
        opcodes::INVOKEINTERFACE => Some(5),
        _ => None,
    }
}

/// The offset behind the instruction of a method that waits. Mostly that is a call, whose size is known by its opcode.
fn next_of(methods: &Methods<'_>, own: MethodRecord) -> u32
    requires { HasNext methods.now own }
    ensures { IsNext methods.now own result }
{
    let Some(code) = methods.method(own.method).code else {
        unreachable!();
    };
    let opcode = code.opcode_at(own.pc);
    if let Some(size) = size_of_call(opcode) {
        return own.pc + size;
    }
    code.insn_at(own.pc).1
}

/// The newest method, which was given so many words, was left, with so many words of a result: they are the upper ones of `top` words, and
/// its record is gone. The words come back, and what is below goes on: a method behind its call, with the result on its stack, an
/// initialization as it was; where nothing is below main returned.
pub fn leave(
    methods: &Methods<'_>,
    frames: &mut Frames,
    control: &mut Control,
    given: u32,
    top: usize,
    count: usize,
)
    requires can { CanLeave methods.now given top count frames.old control.old }
    ensures { Leaves methods.now given top count frames.old control.old frames.new control.new }
{
    frames.left = frames.left + given;
    match frames.records.pop() {
        Some(FrameRecord::Runs(own)) => {
            move_down(&mut frames.words, top - count, frames.top, count);
            frames.top = frames.top + count;
            let pc = next_of(methods, own);
            push_record(
                &mut frames.records,
                FrameRecord::Runs(MethodRecord {
                    method: own.method,
                    pc,
                    base: own.base,
                }),
            );
        }
        Some(FrameRecord::Initializes(own)) => {
            push_record(&mut frames.records, FrameRecord::Initializes(own));
        }
        None => {
            control.end = End::Returned;
        }
    }
}
