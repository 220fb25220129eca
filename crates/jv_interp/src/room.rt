//! What a guest holds at its start.

ghost use Rattle.std.specs.Prelude.{◌≡◌, ◌+◌, ◌≤◌, [], ◌∷◌, replicate, vec_len, vec_capacity, IfOk, OnOk, OnErr};
ghost use Rattle.jv_interp_held.specs.Growing.{Grows};
ghost use Rattle.jv_interp.specs.Starting.{BothJoin, Starts};

use crate::objects::start_objects;
use jv_interp_held::Held;
use jv_store::{OutOfMemory, Store};
use std::alloc::Global;

/// So many zero words.
fn zeros(alloc: Global, count: usize) -> Result<Vec<u32>, OutOfMemory>
    ensures { IfOk result (λ words. words.items ≡ replicate count 0) }
{
    let words = vec![in alloc; 0; count]?;
    Ok(words)
}

/// Room for so many bytes.
fn room_for(alloc: Global, count: u32) -> Result<Vec<u8>, OutOfMemory>
    ensures none { IfOk result (λ bytes. bytes.items ≡ []) }
    ensures room { IfOk result (λ bytes. vec_len bytes + count ≤ vec_capacity bytes) }
{
    let bytes = Vec::with_capacity(alloc, count as usize)?;
    Ok(bytes)
}

/// The same bytes.
fn copy_of(alloc: Global, input: &[u8]) -> Result<Vec<u8>, OutOfMemory>
    ensures { IfOk result (λ bytes. bytes.items ≡ input.now) }
{
    let mut bytes = Vec::new(alloc);
    bytes.extend_from_slice(input)?;
    Ok(bytes)
}

/// What a guest holds at its start: so many words of static fields, each zero or null, no object of one of so many string literals, an
/// OutOfMemoryError object and an empty array of Strings, the input that waits, and room for all of its output. Four of its cells are
/// used, and taken from the store's room.
///
/// # Errors
///
/// Where the host had no memory for it; the store is then as it was.
pub fn start_memory<S: Store>(
    alloc: Global,
    static_words: usize,
    literal_count: usize,
    input: &[u8],
    cells: u32,
    output: u32,
    store: &mut S,
) -> Result<Held, OutOfMemory>
    requires some { 4 ≤ cells }
    requires cells { cells ≤ S.room_left store.old }
    ensures made { IfOk result (λ held. BothJoin held.out_of_memory held.arguments (S.content store.old) (S.content store.new)) }
    ensures starts { IfOk result (Starts static_words literal_count input.now cells output (S.content store.new)) }
    ensures grows { IfOk result (λ held. Grows [] (held.out_of_memory ∷ held.arguments ∷ []) (S.content store.old) (S.content store.new)) }
    ensures paid { IfOk result (λ held. held.cells + 4 ≡ cells) }
    ensures room { OnOk result (S.room_left store.new + 4 ≡ S.room_left store.old) }
    ensures refused { OnErr result (S.content store.new ≡ S.content store.old) }
    ensures refused_room { OnErr result (S.room_left store.new ≡ S.room_left store.old) }
{
    let statics = zeros(alloc, static_words)?;
    let literals = zeros(alloc, literal_count)?;
    let written = room_for(alloc, output)?;
    let waiting = copy_of(alloc, input)?;
    let made = start_objects(store)?;
    Ok(Held {
        statics,
        literals,
        out_of_memory: made.0,
        arguments: made.1,
        cells: cells - 4,
        output_left: output,
        output: written,
        input: waiting,
        read: 0,
    })
}
