ghost use Rattle.jv_host_tests.specs.Plain.{mounting};
ghost use Rattle.jv_store.specs.Content.{words_at, greatest};
ghost use Rattle.std.specs.Prelude.{◌≡◌, ◌+◌, ◌<◌, ◌≤◌, [], ◌∷◌, ◌++◌, map, replicate, slice_index_or, vec_len, IfOk, IsTrue, OnErr, OnOk};

use crate::calls::Call;
use jv_store::{MOST_WORDS, OutOfMemory, Store, back, new_block};
use std::alloc::Global;
use std::process::Abort;

/// A block as plain lists have it.
#[derive(Drop)]
pub struct Block {
    address: u32,
    words: Vec<u32>,
}

/// A store beside plain lists, on which the same calls were made.
#[derive(Drop)]
pub struct Twin<S: Store> {
    store: S,
    blocks: Vec<Block>,
    room: u64,
    alloc: Global,
    ghost same_content: { S.content store ≡ map (λ b. (b.address, b.words.items)) blocks.items },
    ghost same_room: { S.room_left store ≡ room },
    ghost rising: { IsTrue (mounting 0 (map (λ b. (b.address, b.words.items)) blocks.items)) },
}

impl<S: Store> Twin<S> {
    pub fn new(alloc: Global) -> Self {
        Twin {
            store: S::empty(alloc),
            blocks: Vec::new(alloc),
            room: 0,
            alloc,
        }
    }

    /// Makes a call on both. The call has to be one that the contract allows.
    pub fn step<R: Abort>(&mut self, rt: &R, call: Call) -> Result<(), OutOfMemory> {
        match call {
            Call::Reserve(words) => self.reserve(rt, words),
            Call::Release(words) => {
                self.release(rt, words);
                Ok(())
            }
            Call::Alloc(len) => self.alloc(rt, len),
            Call::Set(block, place, word) => {
                assert!(rt; block < self.blocks.len());
                self.set(rt, block, place, word);
                Ok(())
            }
            Call::TakeBack => {
                self.take_back(rt);
                Ok(())
            }
        }
    }

    /// Stops where the store differs from the plain lists in its room, its total or a word.
    pub fn compare<R: Abort>(&self, rt: &R) {
        assert!(rt; self.store.room() == self.room);
        let mut total = self.room;
        for block in 0..self.blocks.len() {
            total = total.wrapping_add(self.blocks[block].words.len() as u64);
            self.compare_block(rt, block);
        }
        assert!(rt; self.store.total() == total);
    }

    /// Whether the store has this room and this total, and the plain lists these words.
    pub fn shows(&self, room: u64, total: u64, blocks: &[&[u32]]) -> bool {
        self.store.room() == room && self.store.total() == total && have_words(&self.blocks, blocks)
    }

    fn compare_block<R: Abort>(&self, rt: &R, block: usize)
        requires { block < vec_len self.now.blocks }
    {
        let len = self.blocks[block].words.len();
        assert!(rt; len < 4_294_967_296);
        for place in 0..len as u32 {
            self.compare_word(rt, block, place);
        }
    }

    fn compare_word<R: Abort>(&self, rt: &R, block: usize, place: u32)
        requires { block < vec_len self.now.blocks }
    {
        let held = self.block_at(block);
        assert!(rt; (place as usize) < held.words.len());
        let word = self.store.get(held.address, place);
        assert!(rt; word == held.words[place as usize]);
    }

    /// A block of the plain lists, whose words the store holds too.
    fn block_at(&self, block: usize) -> &Block
        requires { block < vec_len self.now.blocks }
        ensures block { result.now ≡ slice_index_or self.now.blocks.items block result.now }
        ensures words { words_at (S.content self.now.store) result.now.address ≡ result.now.words.items }
    {
        &self.blocks[block]
    }

    fn reserve<R: Abort>(&mut self, rt: &R, words: u32) -> Result<(), OutOfMemory> {
        let total = self.store.total();
        assert!(rt; total + words as u64 <= MOST_WORDS);
        self.store.reserve(words as u64)?;
        self.room += words as u64;
        Ok(())
    }

    fn release<R: Abort>(&mut self, rt: &R, words: u32) {
        assert!(rt; words as u64 <= self.room);
        self.store.release(words as u64);
        self.room -= words as u64;
    }

    fn alloc<R: Abort>(&mut self, rt: &R, len: u32) -> Result<(), OutOfMemory> {
        assert!(rt; len >= 1 && len as u64 <= self.room);
        let words = zeros(self.alloc, len)?;
        self.blocks.reserve(1)?;
        let address = block_in(&mut self.store, len)?;
        assert!(rt; highest(&self.blocks) < address);
        self.blocks.push_reserved(Block { address, words });
        self.room -= len as u64;
        Ok(())
    }

    fn set<R: Abort>(&mut self, rt: &R, block: usize, place: u32, word: u32)
        requires { block < vec_len self.old.blocks }
    {
        let held = self.block_at(block);
        assert!(rt; (place as usize) < held.words.len());
        let address = held.address;
        self.store.set(address, place, word);
        self.blocks[block].words[place as usize] = word;
    }

    fn take_back<R: Abort>(&mut self, rt: &R) {
        new_block();
        back();
        let newest = self.blocks.pop();
        match newest {
            Some(block) => {
                let len = block.words.len();
                assert!(rt; len >= 1 && len < 4_294_967_296 && self.room <= MOST_WORDS);
                self.store.take_back(block.address, len as u32);
                self.room += len as u64;
            }
            None => assert!(rt; false),
        }
    }
}

/// Whether each block has the words that stand at its place.
fn have_words(blocks: &[Block], wanted: &[&[u32]]) -> bool {
    blocks.len() == wanted.len()
        && blocks
            .iter()
            .zip(wanted)
            .all(|(block, words)| block.words.as_slice() == *words)
}

/// A block of a store, which is not refused where the store never refuses one.
fn block_in<S: Store>(store: &mut S, len: u32) -> Result<u32, OutOfMemory>
    requires some { 1 ≤ len }
    requires room { len ≤ S.room_left store.old }
    ensures above { IfOk result (λ address. greatest (S.content store.old) < address) }
    ensures content { IfOk result (λ address. S.content store.new ≡ S.content store.old ++ (address, replicate len 0) ∷ []) }
    ensures room { OnOk result (S.room_left store.new + len ≡ S.room_left store.old) }
    ensures refused_content { OnErr result (S.content store.new ≡ S.content store.old) }
    ensures refused_room { OnErr result (S.room_left store.new ≡ S.room_left store.old) }
{
    match store.alloc(len) {
        Ok(address) => Ok(address),
        Err(_refused) if S::SURE => unreachable!(),
        Err(refused) => Err(refused),
    }
}

/// As many zero words.
fn zeros(alloc: Global, len: u32) -> Result<Vec<u32>, OutOfMemory>
    ensures { IfOk result (λ words. words.items ≡ replicate len 0) }
{
    let words = vec![in alloc; 0; len as usize]?;
    Ok(words)
}

/// The address of the last block, and 0 where there is none.
fn highest(blocks: &[Block]) -> u32 {
    match blocks.last() {
        Some(block) => block.address,
        None => 0,
    }
}
