//! Computations on numbers (JVMS 6.5).

ghost use Rattle.std.specs.Prelude.{◌≡◌, ◌%◌, pos, false};
ghost use Rattle.std.specs.Int.{w32, w64, cast_signed, cast_unsigned, int_wrapping_add};
ghost use Rattle.std.specs.Ordering.{int_eq};
ghost use Rattle.jv_meaning_machine.specs.Values.{low_byte, low_short, low_char};
ghost use Rattle.jv_meaning_machine.specs.Arithmetic.{arithmetic, shifted, places, compared, divided, holds, long_constant_value};

use jv_code::{
    ArithmeticOperator, Condition, DivisionOperator, LongValue, NumberKind, ShiftOperator,
};

/// An operation on two ints, which wraps.
#[inline(always)]
pub(crate) fn arithmetic_of_ints(operator: ArithmeticOperator, a: i32, b: i32) -> i32
    ensures { result ≡ arithmetic operator w32 a b }
{
    match operator {
        ArithmeticOperator::Add => a.wrapping_add(b),
        ArithmeticOperator::Subtract => a.wrapping_sub(b),
        ArithmeticOperator::Multiply => a.wrapping_mul(b),
        ArithmeticOperator::And => a & b,
        ArithmeticOperator::Or => a | b,
        ArithmeticOperator::Xor => a ^ b,
    }
}

/// An operation on two longs, which wraps.
#[inline(always)]
pub(crate) fn arithmetic_of_longs(operator: ArithmeticOperator, a: i64, b: i64) -> i64
    ensures { result ≡ arithmetic operator w64 a b }
{
    match operator {
        ArithmeticOperator::Add => a.wrapping_add(b),
        ArithmeticOperator::Subtract => a.wrapping_sub(b),
        ArithmeticOperator::Multiply => a.wrapping_mul(b),
        ArithmeticOperator::And => a & b,
        ArithmeticOperator::Or => a | b,
        ArithmeticOperator::Xor => a ^ b,
    }
}

/// A shift of an int by the low five bits of the second operand.
#[inline(always)]
pub(crate) fn shift_of_ints(operator: ShiftOperator, a: i32, by: i32) -> i32
    ensures { result ≡ shifted operator w32 a (places NumberKind.Int by) }
{
    let places = by.cast_unsigned() % 32;
    match operator {
        ShiftOperator::Left => a << places,
        ShiftOperator::Right => a >> places,
        ShiftOperator::UnsignedRight => (a.cast_unsigned() >> places).cast_signed(),
    }
}

/// 1, 0 or -1, as the first is more than the second, the same or less.
#[inline(always)]
pub(crate) fn compared(a: i64, b: i64) -> i32
    ensures { result ≡ compared a b }
{
    if b < a {
        1
    } else if a < b {
        -1
    } else {
        0
    }
}

/// Whether two ints are so to one another.
#[inline(always)]
pub fn holds(condition: Condition, a: i32, b: i32) -> bool
    ensures { result ≡ holds condition a b }
{
    match condition {
        Condition::Equal => a == b,
        Condition::NotEqual => a != b,
        Condition::Less => a < b,
        Condition::GreaterOrEqual => a >= b,
        Condition::Greater => a > b,
        Condition::LessOrEqual => a <= b,
    }
}

/// A shift of a long by the low six bits of the second operand.
#[inline(always)]
pub(crate) fn shift_of_longs(operator: ShiftOperator, a: i64, by: i32) -> i64
    ensures { result ≡ shifted operator w64 a (places NumberKind.Long by) }
{
    let places = by.cast_unsigned() % 64;
    match operator {
        ShiftOperator::Left => a << places,
        ShiftOperator::Right => a >> places,
        ShiftOperator::UnsignedRight => (a.cast_unsigned() >> places).cast_signed(),
    }
}

/// The low half of a long.
#[inline(always)]
pub(crate) fn converted_long(a: i64) -> i32
    ensures { result ≡ cast_signed w32 (cast_unsigned w64 a % 4294967296) }
{
    ((a.cast_unsigned() % 4_294_967_296) as u32).cast_signed()
}

/// The long that an instruction pushes.
#[inline(always)]
pub fn long_constant(value: LongValue) -> i64
    ensures { result ≡ long_constant_value value }
{
    match value {
        LongValue::Zero => 0,
        LongValue::One => 1,
    }
}

/// The lowest byte of an int.
#[inline(always)]
pub fn low_byte(a: i32) -> i32
    ensures { result ≡ low_byte a }
{
    i32::from(((a.cast_unsigned() % 256) as u8).cast_signed())
}

/// The lower half of an int, as a number that is not negative.
#[inline(always)]
pub fn low_char(a: i32) -> i32
    ensures { result ≡ low_char a }
{
    (a.cast_unsigned() % 65_536).cast_signed()
}

/// The lower half of an int.
#[inline(always)]
pub fn low_short(a: i32) -> i32
    ensures { result ≡ low_short a }
{
    i32::from(((a.cast_unsigned() % 65_536) as u16).cast_signed())
}

/// The word of an int and another number, from the word of the int.
#[inline(always)]
pub(crate) fn added_word(word: u32, by: i32) -> u32
    ensures { cast_signed w32 result ≡ int_wrapping_add w32 (cast_signed w32 word) by }
{
    word.cast_signed().wrapping_add(by).cast_unsigned()
}

/// The quotient of two ints, toward zero, or the remainder.
#[inline(always)]
pub(crate) fn divided_int(operator: DivisionOperator, a: i32, b: i32) -> i32
    requires { int_eq b (pos 0) ≡ false }
    ensures { result ≡ divided operator w32 a b }
{
    match operator {
        DivisionOperator::Divide => a.wrapping_div(b),
        DivisionOperator::Remainder => a.wrapping_rem(b),
    }
}

/// The quotient of two longs, toward zero, or the remainder.
#[inline(always)]
pub(crate) fn divided_long(operator: DivisionOperator, a: i64, b: i64) -> i64
    requires { int_eq b (pos 0) ≡ false }
    ensures { result ≡ divided operator w64 a b }
{
    match operator {
        DivisionOperator::Divide => a.wrapping_div(b),
        DivisionOperator::Remainder => a.wrapping_rem(b),
    }
}

/// Whether an int is 0.
#[inline(always)]
pub(crate) fn is_zero_int(a: i32) -> bool
    ensures { result ≡ int_eq a (pos 0) }
{
    a == 0
}

/// Whether a long is 0.
#[inline(always)]
pub(crate) fn is_zero_long(a: i64) -> bool
    ensures { result ≡ int_eq a (pos 0) }
{
    a == 0
}
