//! Blocks of arrays of arrays.

ghost use Rattle.std.specs.Prelude.{◌≡◌, ◌+◌, ◌*◌, ◌<◌, ◌≤◌, drop, length, IfOk, IsOk, IsTrue, OnOk, OnErr};
ghost use Rattle.jv_interp_objects.specs.NestedBlocks.{nested_cost, outer_slots as slots_of_outer, inner_size as size_of_inner, NestedJoin, CanTakeInner, TakesInner};

use crate::blocks::array_block;
use jv_store::{OutOfMemory, Store};

/// The words of a component of the outer array.
pub fn outer_slots(counts: &[u32], slots: u32) -> u32
    ensures { result ≡ slots_of_outer slots counts.now }
{
    if counts.len() > 1 { 1 } else { slots }
}

/// How many arrays are in the outer one.
pub fn inner_size(counts: &[u32]) -> u32
    ensures { result ≡ size_of_inner counts.now }
{
    if counts.len() > 1 { counts[0] } else { 0 }
}

/// The counts of the arrays in the outer one.
pub fn inner_counts(counts: &[u32]) -> &[u32]
    requires { 1 ≤ length counts.now }
    ensures { result.now ≡ drop 1 counts.now }
{
    &counts[1..]
}

/// Takes back so many arrays that are in an array, the newest first. Each has these counts.
fn take_back_inner<S: Store>(store: &mut S, outer: u32, size: u32, counts: &[u32], slots: u32)
    requires slots { slots ≤ 2 }
    requires few { size + 2 < 4294967296 }
    requires cost { 1 ≤ size → nested_cost slots counts.now < 4294967296 }
    requires can { CanTakeInner slots counts.now size outer (S.content store.old) }
    ensures takes { TakesInner slots counts.now size outer (S.content store.old) (S.content store.new) }
    ensures room { S.room_left store.new ≡ S.room_left store.old + size * nested_cost slots counts.now }
{
    let mut left = size;
    while left > 0 {
        left -= 1;
        let inner = store.get(outer, left + 2);
        take_back_inner(
            store,
            inner,
            inner_size(counts),
            inner_counts(counts),
            slots,
        );
        store.take_back(inner, counts[0] * outer_slots(counts, slots) + 2);
    }
}

/// Makes arrays of arrays with these counts, the outer one first, and answers its address. Its first word is this one; each component of
/// the innermost has so many words, which are zero or null.
///
/// # Errors
///
/// Where the host had no memory for them; the store is then as it was.
pub fn make_nested<S: Store>(
    store: &mut S,
    word: u32,
    counts: &[u32],
    slots: u32,
) -> Result<u32, OutOfMemory>
    requires slots { slots ≤ 2 }
    requires some { 1 ≤ length counts.now }
    requires word { 65536 * length counts.now ≤ word + 65536 }
    requires few { nested_cost slots counts.now < 4294967296 }
    requires room { nested_cost slots counts.now ≤ S.room_left store.old }
    ensures made { IfOk result (NestedJoin slots counts.now word (S.content store.old) (S.content store.new)) }
    ensures room { OnOk result (S.room_left store.new + nested_cost slots counts.now ≡ S.room_left store.old) }
    ensures refused { OnErr result (S.content store.new ≡ S.content store.old) }
    ensures refused_room { OnErr result (S.room_left store.new ≡ S.room_left store.old) }
    ensures sure { IsTrue S.SURE → IsOk result }
{
    let outer = array_block(store, word, counts[0], outer_slots(counts, slots))?;
    let size = inner_size(counts);
    let mut made = 0;
    while made < size {
        match make_nested(store, word - 65536, inner_counts(counts), slots) {
            Ok(inner) => {
                store.set(outer, made + 2, inner);
                made += 1;
            }
            Err(memory) => {
                take_back_inner(store, outer, made, inner_counts(counts), slots);
                store.take_back(outer, counts[0] * outer_slots(counts, slots) + 2);
                return Err(memory);
            }
        }
    }
    Ok(outer)
}
