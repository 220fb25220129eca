//! A step at a switch whose numbers are read where they stand (JVMS 6.5).

ghost use Rattle.std.specs.Prelude.{◌≡◌, ◌+◌, ◌-◌, ◌%◌, ◌<◌, ◌≤◌, [], ◌∷◌, length};
ghost use Rattle.jv_code.specs.Operands.{HasBytes};
ghost use Rattle.jv_interp_words.specs.Stepping.{CanStep, StepsTo};
ghost use Rattle.jv_interp_words.specs.Inside.Switches.{IsTableSwitch, IsTableDistance, distance_place, IsAbove};

use crate::branches::target;
use crate::bytes::signed_quad_at;
use crate::operands::top_int;
use crate::registers::Registers;

/// Where the numbers of a switch begin: at the first multiple of four behind the offset of its opcode.
#[inline(always)]
fn numbers_behind(pc: usize) -> usize
    requires { pc < 65536 }
    ensures { result ≡ pc + (4 - pc % 4) }
{
    pc / 4 * 4 + 4
}

/// How far a number is above another, and 2^32 more where it is below.
#[inline(always)]
fn above(number: i32, low: i32) -> u32
    ensures { IsAbove number low result }
{
    number.wrapping_sub(low).cast_unsigned()
}

/// Where the distance of a number stands behind the opcode of a `tableswitch`, whose numbers begin there: the default one's is the first
/// of these, then come the lowest and the highest number with a distance of its own, and then those.
#[inline(always)]
fn distance_place(code: &[u8], numbers: usize, number: i32) -> usize
    requires within { numbers + 12 ≤ length code.now }
    requires few { length code.now < 65536 }
    ensures { result ≡ distance_place code.now numbers number }
{
    let low = signed_quad_at(code, numbers + 4);
    if number < low {
        return numbers;
    }
    let high = signed_quad_at(code, numbers + 8);
    if high < number {
        return numbers;
    }
    numbers + 12 + 4 * (above(number, low) as usize)
}

/// The distance of a number from the lowest to the highest of the `tableswitch` at an offset, and else the default one.
#[inline(always)]
fn distance_in_table(code: &[u8], pc: usize, number: i32) -> i32
    requires { IsTableSwitch code.now pc }
    ensures { IsTableDistance code.now pc number result }
{
    let numbers = numbers_behind(pc);
    // One number is read, whichever it is: the compiler then takes its four bytes as one word.
    let place = distance_place(code, numbers, number);
    signed_quad_at(code, place)
}

/// A step at `tableswitch`.
#[inline(always)]
pub fn step_table_switch<'l>(words: &[u32], at: &mut Registers<'l>)
    requires can { CanStep at.old words.now }
    requires opcode { HasBytes at.old.code.now at.old.pc (170 ∷ []) }
    ensures { StepsTo at.old words.now at.new words.now }
{
    let number = top_int(words, at.top);
    let distance = distance_in_table(at.code, at.pc as usize, number);
    at.pc = target(at.pc, distance);
    at.top = at.top - 1;
}
