//! Stores that narrow an int to what a field or a component holds (JVMS 6.5, bastore and its kin; own for fields).

ghost use Rattle.jv_interp_heap.specs.Narrowing.{Narrows};

use jv_interp_words::{low_byte, low_char, low_short};

/// What is left of an int that is stored: eight or 16 signed bits, 16 unsigned ones, one, or all.
#[derive(Clone, Copy)]
pub enum Narrowing {
    Byte,
    Short,
    Char,
    Boolean,
    Whole,
}

/// The word of a value as it is stored.
#[inline(always)]
pub fn narrowed(how: Narrowing, word: u32) -> u32
    ensures { Narrows how word result }
{
    match how {
        Narrowing::Byte => low_byte(word.cast_signed()).cast_unsigned(),
        Narrowing::Short => low_short(word.cast_signed()).cast_unsigned(),
        Narrowing::Char => low_char(word.cast_signed()).cast_unsigned(),
        Narrowing::Boolean => word % 2,
        Narrowing::Whole => word,
    }
}
