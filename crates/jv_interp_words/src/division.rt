//! Division and remainder on the words in use (JVMS 6.5).

ghost use Rattle.std.specs.Prelude.{◌≡◌, ◌≤◌, length, IfNone, IfSome};
ghost use Rattle.jv_interp_words.specs.FramesInWords.{in_use};
ghost use Rattle.jv_interp_words.specs.Inside.Divisions.{Divides};

use crate::numbers::{divided_int, divided_long, is_zero_int, is_zero_long};
use crate::operands::{push_int, push_long, top_int, top_long};
use jv_code::{DivisionOperator, NumberKind};

/// `idiv` and `irem`: how many words are then in use, or none where the divisor is 0.
#[inline(always)]
pub fn divide_ints(words: &mut [u32], top: usize, operator: DivisionOperator) -> Option<usize>
    requires some { 2 ≤ top }
    requires within { top ≤ length words.old }
    ensures done { Divides NumberKind.Int operator (in_use words.old top) words.new result }
    ensures same { IfNone result (words.new ≡ words.old) }
    ensures within { IfSome result (λ next. next ≤ length words.new) }
{
    let b = top_int(words, top);
    if is_zero_int(b) {
        return None;
    }
    let under = top - 1;
    let a = top_int(words, under);
    Some(push_int(words, under - 1, divided_int(operator, a, b)))
}

/// `ldiv` and `lrem`: how many words are then in use, or none where the divisor is 0.
#[inline(always)]
pub fn divide_longs(words: &mut [u32], top: usize, operator: DivisionOperator) -> Option<usize>
    requires some { 4 ≤ top }
    requires within { top ≤ length words.old }
    ensures done { Divides NumberKind.Long operator (in_use words.old top) words.new result }
    ensures same { IfNone result (words.new ≡ words.old) }
    ensures within { IfSome result (λ next. next ≤ length words.new) }
{
    let b = top_long(words, top);
    if is_zero_long(b) {
        return None;
    }
    let under = top - 2;
    let a = top_long(words, under);
    Some(push_long(words, under - 2, divided_long(operator, a, b)))
}
