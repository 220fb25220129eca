//! The forms of the stack, on its words (JVMS 6.5): a long is two of them, and none cuts it.

ghost use Rattle.std.specs.Prelude.{◌≡◌, ◌+◌, ◌-◌, ◌<◌, ◌≤◌, length};
ghost use Rattle.jv_interp_words.specs.FramesInWords.{in_use};
ghost use Rattle.jv_meaning_typing.specs.StackForms.{taken_words, passed_words};
ghost use Rattle.jv_interp_words.specs.Inside.Forms.{Rearranges, added_words};

use crate::words::{push_two, push_word, top_word};
use jv_code::StackForm;

/// `pop`, and how many words are then in use.
#[inline(always)]
pub fn pop(words: &[u32], top: usize) -> usize
    requires some { 1 ≤ top }
    requires within { top ≤ length words.now }
    ensures done { Rearranges StackForm.Pop (in_use words.now top) (in_use words.now result) }
    ensures top { result ≡ top - 1 }
{
    let _word = top_word(words, top);
    top - 1
}

/// `pop2`, and how many words are then in use.
#[inline(always)]
pub fn pop2(words: &[u32], top: usize) -> usize
    requires some { 2 ≤ top }
    requires within { top ≤ length words.now }
    ensures done { Rearranges StackForm.Pop2 (in_use words.now top) (in_use words.now result) }
    ensures top { result ≡ top - 2 }
{
    let _a = top_word(words, top);
    let under = top - 1;
    let _b = top_word(words, under);
    under - 1
}

/// `dup`, and how many words are then in use.
#[inline(always)]
pub fn dup(words: &mut [u32], top: usize) -> usize
    requires some { 1 ≤ top }
    requires room { top < length words.old }
    ensures done { Rearranges StackForm.Dup (in_use words.old top) (in_use words.new result) }
    ensures top { result ≡ top + 1 }
{
    let a = top_word(words, top);
    push_word(words, top, a)
}

/// `dup_x1`, and how many words are then in use.
#[inline(always)]
pub fn dup_x1(words: &mut [u32], top: usize) -> usize
    requires some { 2 ≤ top }
    requires room { top < length words.old }
    ensures done { Rearranges StackForm.DupX1 (in_use words.old top) (in_use words.new result) }
    ensures top { result ≡ top + 1 }
{
    let a = top_word(words, top);
    let under = top - 1;
    let b = top_word(words, under);
    let low = push_word(words, under - 1, a);
    let high = push_word(words, low, b);
    push_word(words, high, a)
}

/// `dup_x2`, and how many words are then in use.
#[inline(always)]
pub fn dup_x2(words: &mut [u32], top: usize) -> usize
    requires some { 3 ≤ top }
    requires room { top < length words.old }
    ensures done { Rearranges StackForm.DupX2 (in_use words.old top) (in_use words.new result) }
    ensures top { result ≡ top + 1 }
{
    let a = top_word(words, top);
    let under = top - 1;
    let b = top_word(words, under);
    let below = under - 1;
    let c = top_word(words, below);
    let low = push_word(words, below - 1, a);
    let high = push_two(words, low, c, b);
    push_word(words, high, a)
}

/// `dup2`, and how many words are then in use.
#[inline(always)]
pub fn dup2(words: &mut [u32], top: usize) -> usize
    requires some { 2 ≤ top }
    requires room { top + 1 < length words.old }
    ensures done { Rearranges StackForm.Dup2 (in_use words.old top) (in_use words.new result) }
    ensures top { result ≡ top + 2 }
{
    let a = top_word(words, top);
    let b = top_word(words, top - 1);
    push_two(words, top, b, a)
}

/// `dup2_x1`, and how many words are then in use.
#[inline(always)]
pub fn dup2_x1(words: &mut [u32], top: usize) -> usize
    requires some { 3 ≤ top }
    requires room { top + 1 < length words.old }
    ensures done { Rearranges StackForm.Dup2X1 (in_use words.old top) (in_use words.new result) }
    ensures top { result ≡ top + 2 }
{
    let a = top_word(words, top);
    let under = top - 1;
    let b = top_word(words, under);
    let below = under - 1;
    let c = top_word(words, below);
    let low = push_two(words, below - 1, b, a);
    let high = push_word(words, low, c);
    push_two(words, high, b, a)
}

/// `dup2_x2`, and how many words are then in use.
#[inline(always)]
pub fn dup2_x2(words: &mut [u32], top: usize) -> usize
    requires some { 4 ≤ top }
    requires room { top + 1 < length words.old }
    ensures done { Rearranges StackForm.Dup2X2 (in_use words.old top) (in_use words.new result) }
    ensures top { result ≡ top + 2 }
{
    let a = top_word(words, top);
    let under = top - 1;
    let b = top_word(words, under);
    let below = under - 1;
    let c = top_word(words, below);
    let last = below - 1;
    let d = top_word(words, last);
    let low = push_two(words, last - 1, b, a);
    let high = push_two(words, low, d, c);
    push_two(words, high, b, a)
}

/// `swap`, and how many words are then in use.
#[inline(always)]
pub fn swap(words: &mut [u32], top: usize) -> usize
    requires some { 2 ≤ top }
    requires within { top ≤ length words.old }
    ensures done { Rearranges StackForm.Swap (in_use words.old top) (in_use words.new result) }
    ensures top { result ≡ top }
{
    let a = top_word(words, top);
    let under = top - 1;
    let b = top_word(words, under);
    push_two(words, under - 1, a, b)
}

/// Does what a form of the stack does, and answers how many words are then in use.
#[inline(always)]
pub fn move_words(words: &mut [u32], top: usize, form: StackForm) -> usize
    requires some { taken_words form + passed_words form ≤ top }
    requires room { top + added_words form ≤ length words.old }
    ensures done { Rearranges form (in_use words.old top) (in_use words.new result) }
    ensures within { result ≤ length words.new }
{
    match form {
        StackForm::Pop => pop(words, top),
        StackForm::Pop2 => pop2(words, top),
        StackForm::Dup => dup(words, top),
        StackForm::DupX1 => dup_x1(words, top),
        StackForm::DupX2 => dup_x2(words, top),
        StackForm::Dup2 => dup2(words, top),
        StackForm::Dup2X1 => dup2_x1(words, top),
        StackForm::Dup2X2 => dup2_x2(words, top),
        StackForm::Swap => swap(words, top),
    }
}
