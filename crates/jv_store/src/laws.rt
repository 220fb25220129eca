//! Laws of contents, for callers: each is a call that does nothing.

ghost use Rattle.jv_store.specs.Content.{words_at, words_held, greatest, written, without, IsRising};
ghost use Rattle.std.specs.Prelude.{◌≡◌, ℕ, ◌+◌, ◌<◌, ◌≤◌, List, [], ◌∷◌, ◌++◌, length};
ghost use Rattle.jv_store.specs.Laws.{NewWords, WrittenWords, WrittenNewest, WrittenOlder};

/// A block above all others adds its words and changes no other block.
pub fn new_block()
    ensures words { NewWords }
    ensures held { (c : List (ℕ × List ℕ)) (a : ℕ) (ws : List ℕ) → words_held (c ++ (a, ws) ∷ []) ≡ words_held c + length ws }
    ensures greatest { (c : List (ℕ × List ℕ)) (a : ℕ) (ws : List ℕ) → greatest c < a → greatest (c ++ (a, ws) ∷ []) ≡ a }
{}

/// A write changes one word of the block at its address, and no other block.
pub fn write()
    ensures words { WrittenWords }
    ensures held { (c : List (ℕ × List ℕ)) (a i w : ℕ) → words_held (written c a i w) ≡ words_held c }
    ensures greatest { (c : List (ℕ × List ℕ)) (a i w : ℕ) → greatest (written c a i w) ≡ greatest c }
    ensures newest { WrittenNewest }
{}

/// A write to an older block and the coming of a newer one commute.
pub fn older()
    ensures { WrittenOlder }
{}

/// Addresses rise from 1 on: where nothing is held, where a block comes above all others, where a
/// word is written, and where a block is taken back.
pub fn rising()
    ensures empty { IsRising [] }
    ensures new { (c : List (ℕ × List ℕ)) (a : ℕ) (ws : List ℕ) → IsRising c → greatest c < a → IsRising (c ++ (a, ws) ∷ []) }
    ensures written { (c : List (ℕ × List ℕ)) (a i w : ℕ) → IsRising c → IsRising (written c a i w) }
    ensures without { (c : List (ℕ × List ℕ)) (a : ℕ) → IsRising c → IsRising (without c a) }
{}

/// What is taken back leaves the content as it was before the block came.
pub fn back()
    ensures { (c : List (ℕ × List ℕ)) (a : ℕ) (ws : List ℕ) → greatest c < a → without (c ++ (a, ws) ∷ []) a ≡ c }
{}

/// An address with words is not above the greatest, and is not 0.
pub fn within()
    ensures most { (c : List (ℕ × List ℕ)) (a i : ℕ) → i < length (words_at c a) → a ≤ greatest c }
    ensures least { (c : List (ℕ × List ℕ)) (a i : ℕ) → IsRising c → i < length (words_at c a) → 1 ≤ a }
{}
