//! Single words of those in use.

ghost use Rattle.std.specs.Prelude.{◌≡◌, ℕ, ◌+◌, ◌-◌, ◌<◌, ◌≤◌, ◌∷◌, length, reverse, slice_index, slice_set};
ghost use Rattle.jv_interp_words.specs.FramesInWords.{in_use};

/// The word on top.
#[inline(always)]
pub fn top_word(words: &[u32], top: usize) -> u32
    requires some { 1 ≤ top }
    requires within { top ≤ length words.now }
    ensures { in_use words.now top ≡ result ∷ in_use words.now (top - 1) }
{
    words[top - 1]
}

/// Puts a word on top, and answers how many are then in use.
#[inline(always)]
pub fn push_word(words: &mut [u32], top: usize, word: u32) -> usize
    requires { top < length words.old }
    ensures used { in_use words.new result ≡ word ∷ in_use words.old top }
    ensures top { result ≡ top + 1 }
    ensures below { (count : ℕ) → count ≤ top → in_use words.new count ≡ in_use words.old count }
{
    words[top] = word;
    top + 1
}

/// Puts two words on top, and answers how many are then in use.
#[inline(always)]
pub fn push_two(words: &mut [u32], top: usize, low: u32, high: u32) -> usize
    requires { top + 1 < length words.old }
    ensures used { in_use words.new result ≡ high ∷ low ∷ in_use words.old top }
    ensures top { result ≡ top + 2 }
{
    words[top] = low;
    words[top + 1] = high;
    top + 2
}

/// The word with a number, from the oldest on.
#[inline(always)]
pub fn word_at(words: &[u32], at: usize) -> u32
    requires { at < length words.now }
    ensures { (top : ℕ) → at < top → result ≡ slice_index (reverse (in_use words.now top)) at }
{
    words[at]
}

/// Writes the word with a number, from the oldest on.
#[inline(always)]
pub fn put_word(words: &mut [u32], at: usize, word: u32)
    requires { at < length words.old }
    ensures { (top : ℕ) → at < top → in_use words.new top ≡ reverse (slice_set (reverse (in_use words.old top)) at word) }
{
    words[at] = word;
}
