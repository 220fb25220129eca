//! Numbers on top of the words in use.

ghost use Rattle.std.specs.Prelude.{◌≡◌, ◌+◌, ◌-◌, ◌<◌, ◌≤◌, length};
ghost use Rattle.jv_interp_words.specs.FramesInWords.{in_use};
ghost use Rattle.jv_interp_words.specs.Inside.Numbers.{Takes, Puts};

use crate::words::{push_two, push_word, top_word};
use jv_code::NumberKind;

/// The int on top.
#[inline(always)]
pub fn top_int(words: &[u32], top: usize) -> i32
    requires some { 1 ≤ top }
    requires within { top ≤ length words.now }
    ensures { Takes NumberKind.Int (in_use words.now top) (in_use words.now (top - 1)) result }
{
    top_word(words, top).cast_signed()
}

/// Puts an int on top, and answers how many words are then in use.
#[inline(always)]
pub fn push_int(words: &mut [u32], top: usize, value: i32) -> usize
    requires { top < length words.old }
    ensures int { Puts NumberKind.Int (in_use words.old top) (in_use words.new result) value }
    ensures top { result ≡ top + 1 }
{
    push_word(words, top, value.cast_unsigned())
}

/// The long on top.
#[inline(always)]
pub fn top_long(words: &[u32], top: usize) -> i64
    requires some { 2 ≤ top }
    requires within { top ≤ length words.now }
    ensures { Takes NumberKind.Long (in_use words.now top) (in_use words.now (top - 2)) result }
{
    let high = top_word(words, top);
    let low = top_word(words, top - 1);
    (high as u64 * 4_294_967_296 + low as u64).cast_signed()
}

/// Puts a long on top, and answers how many words are then in use.
#[inline(always)]
pub fn push_long(words: &mut [u32], top: usize, value: i64) -> usize
    requires { top + 1 < length words.old }
    ensures long { Puts NumberKind.Long (in_use words.old top) (in_use words.new result) value }
    ensures top { result ≡ top + 2 }
{
    let bits = value.cast_unsigned();
    push_two(
        words,
        top,
        (bits % 4_294_967_296) as u32,
        (bits / 4_294_967_296) as u32,
    )
}
