//! Local variables by blocks, which stand beside each other.

ghost use Rattle.std.specs.Prelude.{◌≡◌, ◌≤◌, ◌<◌, ◌+◌, ◌*◌, min, max};

/// How many local variables have one number for their last write.
pub const BLOCK: u16 = 16;

/// How many blocks so many local variables have.
pub(crate) fn blocks_of(words: u16) -> usize
    ensures enough { words ≤ result * 16 }
    ensures least { result * 16 < words + 16 }
    ensures few { result ≤ 4096 }
{
    usize::from(words).div_ceil(usize::from(BLOCK))
}

/// The local variables of a block that are from one on, before another.
pub(crate) fn range_of(block: usize, from: u16, to: u16) -> (u16, u16)
    requires { block < 4096 }
    ensures from { result.0 ≡ max (block * 16) from }
    ensures to { result.1 ≡ min (block * 16 + 16) to }
{
    let first = block as u16 * BLOCK;
    (first.max(from), first.saturating_add(BLOCK).min(to))
}
