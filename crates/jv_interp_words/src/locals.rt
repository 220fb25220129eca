//! Local variables (JVMS 2.6.1, 6.5).

ghost use Rattle.std.specs.Prelude.{◌≤◌, ℕ, List, length};
ghost use Rattle.jv_meaning_machine.specs.Values.{Value};
ghost use Rattle.jv_interp_words.specs.ValuesInWords.{IsOnTop};
ghost use Rattle.jv_interp_words.specs.FramesInWords.{in_use};
ghost use Rattle.jv_interp_words.specs.Inside.Locals.{HasLocals, Loads, CanLoad, Stores, CanStore, Increments, CanIncrement};

use crate::numbers::added_word;
use crate::words::{push_two, push_word, put_word, top_word, word_at};
use jv_code::ValueKind;

/// Copies a local variable to the top, `iload`, `lload`, `aload`, and answers how many words are then in use.
#[inline(always)]
pub fn load(words: &mut [u32], top: usize, kind: ValueKind, base: usize, index: u16) -> usize
    requires can { CanLoad kind base index (in_use words.old top) (length words.old) }
    requires within { top ≤ length words.old }
    ensures loaded { (addresses : List ℕ) (value : Value) → Loads kind base index (in_use words.old top) addresses value
        → IsOnTop addresses value (in_use words.new result) (in_use words.old top) }
    ensures within { result ≤ length words.new }
{
    let at = base + index as usize;
    if let ValueKind::Long = kind {
        let low = word_at(words, at);
        let high = word_at(words, at + 1);
        return push_two(words, top, low, high);
    }
    let word = word_at(words, at);
    push_word(words, top, word)
}

/// Moves a value from the top to a local variable, `istore`, `lstore`, `astore`, and answers how many words are then in use.
#[inline(always)]
pub fn store(words: &mut [u32], top: usize, kind: ValueKind, base: usize, index: u16) -> usize
    requires can { CanStore kind base index (in_use words.old top) }
    requires within { top ≤ length words.old }
    ensures stored { (addresses : List ℕ) (after : List Value) (above below : List ℕ)
        → Stores kind base index (in_use words.old top) addresses after above below
        → HasLocals addresses after above (in_use words.new result) below }
    ensures within { result ≤ length words.new }
{
    let at = base + index as usize;
    if let ValueKind::Long = kind {
        let high = top_word(words, top);
        let under = top - 1;
        let low = top_word(words, under);
        put_word(words, at, low);
        put_word(words, at + 1, high);
        return under - 1;
    }
    let word = top_word(words, top);
    put_word(words, at, word);
    top - 1
}

/// Adds a number to an int local variable, `iinc`.
#[inline(always)]
pub fn increment(words: &mut [u32], top: usize, by: i32, base: usize, index: u16)
    requires can { CanIncrement by base index (in_use words.old top) }
    requires within { top ≤ length words.old }
    ensures { (addresses : List ℕ) (after : List Value) (above below : List ℕ)
        → Increments by base index (in_use words.old top) addresses after above below
        → HasLocals addresses after above (in_use words.new top) below }
{
    let at = base + index as usize;
    let sum = added_word(word_at(words, at), by);
    put_word(words, at, sum);
}
