ghost use Rattle.jv_store.specs.Content.{words_held};
ghost use Rattle.jv_store.specs.Inside.Layouts.{numbered, none_empty};
ghost use Rattle.std.specs.Prelude.{◌≡◌, ◌+◌, ◌≤◌, false, map, replicate, [], ◌∷◌, ◌++◌, IsTrue, OnOk, OnErr};
ghost use Rattle.jv_store.specs.declared.store.TheConstants.{MOST_WORDS};

use crate::out_of_memory::OutOfMemory;
use crate::store::{MOST_WORDS, Store};
use std::alloc::Global;

/// A store with a vector for each block, in which an address counts the blocks from 1.
#[derive(Drop)]
pub struct Blocks {
    alloc: Global,
    blocks: Vec<Vec<u32>>,
    room: u64,
    held: u64,
    ghost exact: { held ≡ words_held (numbered 0 (map (λ v. v.items) blocks.items)) },
    ghost few: { room + held ≤ MOST_WORDS },
    ghost solid: { IsTrue (none_empty (numbered 0 (map (λ v. v.items) blocks.items))) },
}

impl Store for Blocks {
    ghost content = { λ s. numbered 0 (map (λ v. v.items) s.blocks.items) };

    ghost room_left = { λ s. s.room };

    ghost SURE = { false };

    const SURE: bool = false;

    fn empty(alloc: Global) -> Self {
        Blocks {
            alloc,
            blocks: Vec::new(alloc),
            room: 0,
            held: 0,
        }
    }

    fn room(&self) -> u64 {
        self.room
    }

    fn total(&self) -> u64 {
        self.room + self.held
    }

    fn reserve(&mut self, n: u64) -> Result<(), OutOfMemory> {
        self.room += n;
        Ok(())
    }

    fn release(&mut self, n: u64) {
        self.room -= n;
    }

    fn alloc(&mut self, len: u32) -> Result<u32, OutOfMemory> {
        add_zeros(&mut self.blocks, self.alloc, len)?;
        self.room -= len as u64;
        self.held += len as u64;
        let address = self.blocks.len() as u32;
        Ok(address)
    }

    fn get(&self, address: u32, place: u32) -> u32 {
        self.blocks[(address - 1) as usize][place as usize]
    }

    fn set(&mut self, address: u32, place: u32, word: u32) {
        self.blocks[(address - 1) as usize][place as usize] = word;
    }

    fn take_back(&mut self, _address: u32, len: u32) {
        let _newest = self.blocks.pop();
        self.held -= len as u64;
        self.room += len as u64;
    }
}

/// Adds a block of `len` zero words. After a refusal the blocks are as they were.
fn add_zeros(blocks: &mut Vec<Vec<u32>>, alloc: Global, len: u32) -> Result<(), OutOfMemory>
    ensures ok { OnOk result (map (λ v. v.items) blocks.new.items ≡ map (λ v. v.items) blocks.old.items ++ replicate len 0 ∷ []) }
    ensures refused { OnErr result (blocks.new.items ≡ blocks.old.items) }
{
    let words = vec![in alloc; 0; len as usize]?;
    match blocks.push(words) {
        Ok(()) => Ok(()),
        Err(_words) => Err(OutOfMemory),
    }
}
