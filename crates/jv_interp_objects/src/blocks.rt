//! Blocks of new objects, which are paid for.

ghost use Rattle.std.specs.Prelude.{◌≡◌, ◌+◌, ◌*◌, ◌<◌, ◌≤◌, [], ◌∷◌, replicate, IfOk, IsOk, IsTrue, OnOk, OnErr};
ghost use Rattle.jv_interp_heap.specs.NewBlocks.{Joins};
ghost use Rattle.jv_interp_objects.specs.Payments.{IsPaid};

use jv_store::{OutOfMemory, Store};

/// Makes an object of the class with a number, with so many words of fields, each zero or null, where its cells are left, and answers
/// its address. The cells are taken from the store's room.
///
/// # Errors
///
/// Where the host had no memory for it; all is then as it was.
pub fn pay_object<S: Store>(
    store: &mut S,
    cells: &mut u32,
    class: u32,
    size: u32,
) -> Result<Option<u32>, OutOfMemory>
    requires { cells.old ≤ S.room_left store.old }
    ensures paid { IfOk result (IsPaid (class ∷ replicate size 0) (1 + size) cells.old cells.new (S.content store.old)
        (S.content store.new)) }
    ensures room { OnOk result (S.room_left store.old + cells.new ≡ S.room_left store.new + cells.old) }
    ensures refused_cells { OnErr result (cells.new ≡ cells.old) }
    ensures refused { OnErr result (S.content store.new ≡ S.content store.old) }
    ensures refused_room { OnErr result (S.room_left store.new ≡ S.room_left store.old) }
    ensures sure { IsTrue S.SURE → IsOk result }
{
    if *cells <= size {
        return Ok(None);
    }
    let address = store.alloc(size + 1)?;
    store.set(address, 0, class);
    *cells = *cells - (size + 1);
    Ok(Some(address))
}

/// Makes the block of an array of so many components, of one or two words each, which are zero or null, and answers its address. The
/// first word tells their type.
///
/// # Errors
///
/// Where the host had no memory for it; the store is then as it was.
pub fn array_block<S: Store>(
    store: &mut S,
    word: u32,
    count: u32,
    slots: u32,
) -> Result<u32, OutOfMemory>
    requires few { 2 + count * slots < 4294967296 }
    requires room { 2 + count * slots ≤ S.room_left store.old }
    ensures made { IfOk result (Joins (word ∷ count ∷ replicate (count * slots) 0) (S.content store.old) (S.content store.new)) }
    ensures room { OnOk result (S.room_left store.new + (2 + count * slots) ≡ S.room_left store.old) }
    ensures refused { OnErr result (S.content store.new ≡ S.content store.old) }
    ensures refused_room { OnErr result (S.room_left store.new ≡ S.room_left store.old) }
    ensures sure { IsTrue S.SURE → IsOk result }
{
    let address = store.alloc(count * slots + 2)?;
    store.set(address, 0, word);
    store.set(address, 1, count);
    Ok(address)
}

/// The same, where its cells are left: they are taken from the store's room.
///
/// # Errors
///
/// Where the host had no memory for it; all is then as it was.
pub fn pay_array<S: Store>(
    store: &mut S,
    cells: &mut u32,
    word: u32,
    count: u32,
    slots: u32,
) -> Result<Option<u32>, OutOfMemory>
    requires slots { slots ≤ 2 }
    requires cells { cells.old ≤ S.room_left store.old }
    ensures paid { IfOk result (IsPaid (word ∷ count ∷ replicate (count * slots) 0) (2 + count * slots) cells.old cells.new
        (S.content store.old) (S.content store.new)) }
    ensures room { OnOk result (S.room_left store.old + cells.new ≡ S.room_left store.new + cells.old) }
    ensures refused_cells { OnErr result (cells.new ≡ cells.old) }
    ensures refused { OnErr result (S.content store.new ≡ S.content store.old) }
    ensures refused_room { OnErr result (S.room_left store.new ≡ S.room_left store.old) }
    ensures sure { IsTrue S.SURE → IsOk result }
{
    let cost = u64::from(count) * u64::from(slots) + 2;
    if u64::from(*cells) < cost {
        return Ok(None);
    }
    let address = array_block(store, word, count, slots)?;
    *cells = *cells - (count * slots + 2);
    Ok(Some(address))
}
