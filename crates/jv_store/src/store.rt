ghost use Rattle.jv_store.specs.Content.{words_at, words_held, greatest, written, without};
ghost use Rattle.std.specs.Prelude.{◌≡◌, ℕ, ◌+◌, ◌-◌, ◌<◌, ◌≤◌, Bool, false, IsTrue, List, [], ◌∷◌, ◌++◌, length, replicate, slice_index, IfOk, OnOk, OnErr, IsOk};

use crate::out_of_memory::OutOfMemory;
use std::alloc::Global;

/// The most words that a store may hold and have room for, so that each address fits a `u32`.
pub const MOST_WORDS: u64 = 4_294_967_294;

/// Blocks of words, each under an address, and a room of words for further blocks.
pub trait Store: Drop {
    /// Each block's address and words, the newest last.
    ghost content: { Self → List (ℕ × List ℕ) };

    /// How many words further blocks may take.
    ghost room_left: { Self → ℕ };

    /// The constant `SURE` in clauses: of each implementation it is proved that the two are equal.
    ghost SURE: { Bool };

    /// Whether `alloc` is never refused.
    const SURE: bool;

    /// A store with no block and no room. It takes no memory.
    fn empty(alloc: Global) -> Self
        ensures content { content result ≡ [] }
        ensures room { room_left result ≡ 0 };

    /// The words that further blocks may take.
    fn room(&self) -> u64
        ensures { result ≡ room_left self.now };

    /// The words of the room and of all blocks.
    fn total(&self) -> u64
        ensures value { result ≡ room_left self.now + words_held (content self.now) }
        ensures bound { result ≤ MOST_WORDS };

    /// Adds `n` words to the room. After a refusal the room is as it was. A store whose `alloc` may
    /// be refused never refuses this call, and no store refuses to add nothing.
    fn reserve(&mut self, n: u64) -> Result<(), OutOfMemory>
        requires { room_left self.old + words_held (content self.old) + n ≤ MOST_WORDS }
        ensures content { content self.new ≡ content self.old }
        ensures ok { OnOk result (room_left self.new ≡ room_left self.old + n) }
        ensures refused { OnErr result (room_left self.new ≡ room_left self.old) }
        ensures free { SURE ≡ false → IsOk result }
        ensures nothing { n ≡ 0 → IsOk result };

    /// Takes `n` words from the room.
    fn release(&mut self, n: u64)
        requires { n ≤ room_left self.old }
        ensures content { content self.new ≡ content self.old }
        ensures room { room_left self.new + n ≡ room_left self.old };

    /// A new block of `len` zero words, from the room, at an address above all that are held, and so
    /// never 0. After a refusal content and room are as they were.
    fn alloc(&mut self, len: u32) -> Result<u32, OutOfMemory>
        requires some { 1 ≤ len }
        requires room { len ≤ room_left self.old }
        ensures above { IfOk result (λ address. greatest (content self.old) < address) }
        ensures content { IfOk result (λ address. content self.new ≡ content self.old ++ (address, replicate len 0) ∷ []) }
        ensures room { OnOk result (room_left self.new + len ≡ room_left self.old) }
        ensures refused_content { OnErr result (content self.new ≡ content self.old) }
        ensures refused_room { OnErr result (room_left self.new ≡ room_left self.old) }
        ensures sure { IsTrue SURE → IsOk result };

    /// Word `place` of the block at an address.
    fn get(&self, address: u32, place: u32) -> u32
        requires { place < length (words_at (content self.now) address) }
        ensures { result ≡ slice_index (words_at (content self.now) address) place };

    /// Writes word `place` of the block at an address.
    fn set(&mut self, address: u32, place: u32, word: u32)
        requires { place < length (words_at (content self.old) address) }
        ensures content { content self.new ≡ written (content self.old) address place word }
        ensures room { room_left self.new ≡ room_left self.old };

    /// Removes the block with the greatest address, which has `len` words, and gives them back to
    /// the room.
    fn take_back(&mut self, address: u32, len: u32)
        requires some { 1 ≤ len }
        requires newest { address ≡ greatest (content self.old) }
        requires length { length (words_at (content self.old) address) ≡ len }
        ensures content { content self.new ≡ without (content self.old) address }
        ensures room { room_left self.new ≡ room_left self.old + len };
}
