//! Division and remainder (JVMS 6.5).

ghost use Rattle.std.specs.Prelude.{◌≡◌, ◌≤◌, true, false, length, IfNone, IfSome};
ghost use Rattle.jv_code.specs.declared.insn.Insn.TheVariants.{Division as DivisionInsn};
ghost use Rattle.jv_meaning_machine.specs.Effects.{division_by_zero};
ghost use Rattle.jv_interp_words.specs.FramesInWords.{in_use};
ghost use Rattle.jv_interp_words.specs.Inside.Divisions.{Divides};
ghost use Rattle.jv_interp_words.specs.Going.{CanWork, GoesOn, StaysIn, Throws};
ghost use Rattle.jv_interp_words.specs.Inside.Dividing.{operand_words};

use crate::division::{divide_ints, divide_longs};
use crate::registers::Registers;
use jv_code::{DivisionOperator, NumberKind};

/// Divides two numbers of a kind: how many words are then in use, or none where the divisor is 0.
#[inline(always)]
fn divide_numbers(
    words: &mut [u32],
    top: usize,
    kind: NumberKind,
    operator: DivisionOperator,
) -> Option<usize>
    requires some { operand_words kind ≤ top }
    requires within { top ≤ length words.old }
    ensures done { Divides kind operator (in_use words.old top) words.new result }
    ensures same { IfNone result (words.new ≡ words.old) }
    ensures within { IfSome result (λ next. next ≤ length words.new) }
{
    match kind {
        NumberKind::Int => divide_ints(words, top, operator),
        NumberKind::Long => divide_longs(words, top, operator),
    }
}

/// `idiv`, `ldiv`, `irem`, `lrem`; `false` where the divisor is 0, for which an ArithmeticException is to be thrown, and
/// then nothing has changed.
#[inline(always)]
pub fn divide<'l>(
    words: &mut [u32],
    at: &mut Registers<'l>,
    next: u32,
    kind: NumberKind,
    operator: DivisionOperator,
) -> bool
    requires { CanWork (DivisionInsn kind operator) next at.old words.old }
    ensures went { result ≡ true → GoesOn (DivisionInsn kind operator) next at.old words.old at.new words.new }
    ensures stays { StaysIn at.old at.new words.new }
    ensures throws { result ≡ false → Throws (DivisionInsn kind operator) next at.old words.old division_by_zero }
    ensures same { result ≡ false → (words.new ≡ words.old) × (at.new ≡ at.old) }
{
    match divide_numbers(words, at.top, kind, operator) {
        Some(top) => {
            at.top = top;
            at.pc = next;
            true
        }
        None => false,
    }
}
