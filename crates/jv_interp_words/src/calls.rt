//! Frames that are entered and left (JVMS 2.6).

ghost use Rattle.std.specs.Prelude.{◌≡◌, ◌+◌, ◌-◌, ◌≤◌, ℕ, List, [], ◌++◌, length};
ghost use Rattle.jv_meaning_machine.specs.Values.{Value};
ghost use Rattle.jv_interp_words.specs.ValuesInWords.{IsOnTop};
ghost use Rattle.jv_interp_words.specs.FramesInWords.{in_use, FrameStands};
ghost use Rattle.jv_interp_words.specs.Inside.Calls.{Passes, CanPass, Returns, CanReturn};

use crate::words::{push_two, push_word, top_word};
use jv_code::ValueKind;

/// Where the words of a method that is entered begin: at its arguments, of so many words, which stand on top. No word moves.
#[inline(always)]
pub fn entered_base(words: &[u32], top: usize, max_locals: usize, count: usize) -> usize
    requires can { CanPass max_locals count (in_use words.now top) }
    requires within { top ≤ length words.now }
    requires room { top + (max_locals - count) ≤ length words.now }
    ensures stands { (addresses : List ℕ) (locals : List Value) (under : List ℕ)
        → Passes max_locals count (in_use words.now top) addresses locals under
        → FrameStands addresses locals [] (in_use words.now (result + max_locals)) under × (result ≡ length under) }
    ensures within { result + max_locals ≤ length words.now }
{
    // Only the clauses speak of it.
    let _words = words;
    top - count
}

/// A method's words are left, and so many below them are then in use.
#[inline(always)]
pub fn leave(words: &[u32], top: usize, base: usize) -> usize
    requires { top ≤ length words.now }
    ensures { (above under : List ℕ) → in_use words.now top ≡ above ++ under → base ≡ length under
        → (in_use words.now result ≡ under) × (result ≤ top) }
{
    // Only the clauses speak of these.
    let _words = words;
    let _top = top;
    base
}

/// A method's words are left, and its result, of a kind, comes on top of those below; answers how many words are then in use.
#[inline(always)]
pub fn leave_with(words: &mut [u32], top: usize, kind: ValueKind, base: usize) -> usize
    requires can { CanReturn kind base (in_use words.old top) }
    requires within { top ≤ length words.old }
    ensures stands { (addresses : List ℕ) (value : Value) (under : List ℕ)
        → Returns kind base (in_use words.old top) addresses value under
        → IsOnTop addresses value (in_use words.new result) under }
    ensures within { result ≤ length words.new }
{
    if let ValueKind::Long = kind {
        let high = top_word(words, top);
        let low = top_word(words, top - 1);
        return push_two(words, base, low, high);
    }
    let word = top_word(words, top);
    push_word(words, base, word)
}
