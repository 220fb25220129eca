//! Computations on the words in use (JVMS 6.5).

ghost use Rattle.std.specs.Prelude.{◌≡◌, ◌+◌, ◌-◌, ◌<◌, ◌≤◌, length};
ghost use Rattle.jv_interp_words.specs.FramesInWords.{in_use};
ghost use Rattle.jv_interp_words.specs.Inside.Computing.{Computes, Gives};

use crate::numbers::{
    arithmetic_of_ints, arithmetic_of_longs, compared, converted_long, long_constant, low_byte,
    low_char, low_short, shift_of_ints, shift_of_longs,
};
use crate::operands::{push_int, push_long, top_int, top_long};
use jv_code::{ArithmeticOperator, Computation, Conversion, NumberKind, ShiftOperator};

/// `iadd` and its kin.
#[inline(always)]
pub fn arithmetic_on_ints(words: &mut [u32], top: usize, operator: ArithmeticOperator) -> usize
    requires some { 2 ≤ top }
    requires within { top ≤ length words.old }
    ensures done { Gives (Computation.Arithmetic NumberKind.Int operator) (in_use words.old top) (in_use words.new result) }
    ensures top { result ≡ top - 1 }
{
    let b = top_int(words, top);
    let under = top - 1;
    let a = top_int(words, under);
    push_int(words, under - 1, arithmetic_of_ints(operator, a, b))
}

/// `ladd` and its kin.
#[inline(always)]
pub fn arithmetic_on_longs(words: &mut [u32], top: usize, operator: ArithmeticOperator) -> usize
    requires some { 4 ≤ top }
    requires within { top ≤ length words.old }
    ensures done { Gives (Computation.Arithmetic NumberKind.Long operator) (in_use words.old top) (in_use words.new result) }
    ensures top { result ≡ top - 2 }
{
    let b = top_long(words, top);
    let under = top - 2;
    let a = top_long(words, under);
    push_long(words, under - 2, arithmetic_of_longs(operator, a, b))
}

/// `ineg`.
#[inline(always)]
pub fn negate_int(words: &mut [u32], top: usize) -> usize
    requires some { 1 ≤ top }
    requires within { top ≤ length words.old }
    ensures done { Gives (Computation.Negate NumberKind.Int) (in_use words.old top) (in_use words.new result) }
    ensures top { result ≡ top }
{
    let a = top_int(words, top);
    push_int(words, top - 1, a.wrapping_neg())
}

/// `lneg`.
#[inline(always)]
pub fn negate_long(words: &mut [u32], top: usize) -> usize
    requires some { 2 ≤ top }
    requires within { top ≤ length words.old }
    ensures done { Gives (Computation.Negate NumberKind.Long) (in_use words.old top) (in_use words.new result) }
    ensures top { result ≡ top }
{
    let a = top_long(words, top);
    push_long(words, top - 2, a.wrapping_neg())
}

/// `ishl` and its kin.
#[inline(always)]
pub fn shift_ints(words: &mut [u32], top: usize, operator: ShiftOperator) -> usize
    requires some { 2 ≤ top }
    requires within { top ≤ length words.old }
    ensures done { Gives (Computation.Shift NumberKind.Int operator) (in_use words.old top) (in_use words.new result) }
    ensures top { result ≡ top - 1 }
{
    let b = top_int(words, top);
    let under = top - 1;
    let a = top_int(words, under);
    push_int(words, under - 1, shift_of_ints(operator, a, b))
}

/// `lshl` and its kin.
#[inline(always)]
pub fn shift_longs(words: &mut [u32], top: usize, operator: ShiftOperator) -> usize
    requires some { 3 ≤ top }
    requires within { top ≤ length words.old }
    ensures done { Gives (Computation.Shift NumberKind.Long operator) (in_use words.old top) (in_use words.new result) }
    ensures top { result ≡ top - 1 }
{
    let b = top_int(words, top);
    let under = top - 1;
    let a = top_long(words, under);
    push_long(words, under - 2, shift_of_longs(operator, a, b))
}

/// `lcmp`.
#[inline(always)]
pub fn compare_longs(words: &mut [u32], top: usize) -> usize
    requires some { 4 ≤ top }
    requires within { top ≤ length words.old }
    ensures done { Gives Computation.CompareLongs (in_use words.old top) (in_use words.new result) }
    ensures top { result ≡ top - 3 }
{
    let b = top_long(words, top);
    let under = top - 2;
    let a = top_long(words, under);
    push_int(words, under - 2, compared(a, b))
}

/// `i2l`.
#[inline(always)]
pub fn widen(words: &mut [u32], top: usize) -> usize
    requires some { 1 ≤ top }
    requires within { top < length words.old }
    ensures done { Gives (Computation.Convert Conversion.IntToLong) (in_use words.old top) (in_use words.new result) }
    ensures top { result ≡ top + 1 }
{
    let a = top_int(words, top);
    push_long(words, top - 1, i64::from(a))
}

/// `l2i`.
#[inline(always)]
pub fn cut(words: &mut [u32], top: usize) -> usize
    requires some { 2 ≤ top }
    requires within { top ≤ length words.old }
    ensures done { Gives (Computation.Convert Conversion.LongToInt) (in_use words.old top) (in_use words.new result) }
    ensures top { result ≡ top - 1 }
{
    let a = top_long(words, top);
    push_int(words, top - 2, converted_long(a))
}

/// `i2b`.
#[inline(always)]
pub fn to_byte(words: &mut [u32], top: usize) -> usize
    requires some { 1 ≤ top }
    requires within { top ≤ length words.old }
    ensures done { Gives (Computation.Convert Conversion.IntToByte) (in_use words.old top) (in_use words.new result) }
    ensures top { result ≡ top }
{
    let a = top_int(words, top);
    push_int(words, top - 1, low_byte(a))
}

/// `i2c`.
#[inline(always)]
pub fn to_char(words: &mut [u32], top: usize) -> usize
    requires some { 1 ≤ top }
    requires within { top ≤ length words.old }
    ensures done { Gives (Computation.Convert Conversion.IntToChar) (in_use words.old top) (in_use words.new result) }
    ensures top { result ≡ top }
{
    let a = top_int(words, top);
    push_int(words, top - 1, low_char(a))
}

/// `i2s`.
#[inline(always)]
pub fn to_short(words: &mut [u32], top: usize) -> usize
    requires some { 1 ≤ top }
    requires within { top ≤ length words.old }
    ensures done { Gives (Computation.Convert Conversion.IntToShort) (in_use words.old top) (in_use words.new result) }
    ensures top { result ≡ top }
{
    let a = top_int(words, top);
    push_int(words, top - 1, low_short(a))
}

/// Takes the operands of a computation, and puts in their place what it gives; answers how many words are then in use.
#[inline(always)]
pub fn compute(words: &mut [u32], top: usize, what: Computation) -> usize
    requires computes { Computes what (in_use words.old top) (length words.old) }
    requires within { top ≤ length words.old }
    ensures done { Gives what (in_use words.old top) (in_use words.new result) }
    ensures within { result ≤ length words.new }
{
    match what {
        Computation::IntConstant(value, _form) => push_int(words, top, i32::from(value)),
        Computation::LongConstant(value) => push_long(words, top, long_constant(value)),
        Computation::Arithmetic(NumberKind::Int, operator) => {
            arithmetic_on_ints(words, top, operator)
        }
        Computation::Arithmetic(NumberKind::Long, operator) => {
            arithmetic_on_longs(words, top, operator)
        }
        Computation::Negate(NumberKind::Int) => negate_int(words, top),
        Computation::Negate(NumberKind::Long) => negate_long(words, top),
        Computation::Shift(NumberKind::Int, operator) => shift_ints(words, top, operator),
        Computation::Shift(NumberKind::Long, operator) => shift_longs(words, top, operator),
        Computation::Convert(Conversion::IntToLong) => widen(words, top),
        Computation::Convert(Conversion::LongToInt) => cut(words, top),
        Computation::Convert(Conversion::IntToByte) => to_byte(words, top),
        Computation::Convert(Conversion::IntToChar) => to_char(words, top),
        Computation::Convert(Conversion::IntToShort) => to_short(words, top),
        Computation::CompareLongs => compare_longs(words, top),
    }
}
