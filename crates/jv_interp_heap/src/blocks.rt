//! Blocks for new objects (JVMS 2.7, 6.5).

ghost use Rattle.std.specs.Prelude.{◌≡◌, ◌+◌, ◌*◌, ◌<◌, ◌≤◌, ◌∷◌, replicate, IfOk, IsOk, IsTrue, OnOk, OnErr};
ghost use Rattle.jv_interp_heap.specs.NewBlocks.{Joins};

use jv_store::{OutOfMemory, Store};

/// Makes an object of the class with a number, with so many words of fields, each zero or null, and answers its address.
///
/// # Errors
///
/// Where the host had no memory for it; the store is then as it was.
pub fn make_object<S: Store>(store: &mut S, class: u32, words: u32) -> Result<u32, OutOfMemory>
    requires few { words < 2147483648 }
    requires room { 1 + words ≤ S.room_left store.old }
    ensures made { IfOk result (Joins (class ∷ replicate words 0) (S.content store.old) (S.content store.new)) }
    ensures room { OnOk result (S.room_left store.new + (1 + words) ≡ S.room_left store.old) }
    ensures refused { OnErr result (S.content store.new ≡ S.content store.old) }
    ensures refused_room { OnErr result (S.room_left store.new ≡ S.room_left store.old) }
    ensures sure { IsTrue S.SURE → IsOk result }
{
    let address = store.alloc(words + 1)?;
    store.set(address, 0, class);
    Ok(address)
}

/// Makes an array of so many components, of one or two words each, which are zero or null, and answers its address. The first word
/// tells their type.
///
/// # Errors
///
/// Where the host had no memory for it; the store is then as it was.
pub fn make_array<S: Store>(
    store: &mut S,
    word: u32,
    count: u32,
    slots: u32,
) -> Result<u32, OutOfMemory>
    requires few { count * slots < 2147483648 }
    requires room { 2 + count * slots ≤ S.room_left store.old }
    ensures made { IfOk result (Joins (word ∷ count ∷ replicate (count * slots) 0) (S.content store.old) (S.content store.new)) }
    ensures room { OnOk result (S.room_left store.new + (2 + count * slots) ≡ S.room_left store.old) }
    ensures refused { OnErr result (S.content store.new ≡ S.content store.old) }
    ensures refused_room { OnErr result (S.room_left store.new ≡ S.room_left store.old) }
    ensures sure { IsTrue S.SURE → IsOk result }
{
    let address = store.alloc(count * slots + 2)?;
    store.set(address, 0, word);
    store.set(address, 1, count);
    Ok(address)
}
