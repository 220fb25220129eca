ghost use Rattle.jv_store.specs.Inside.Layouts.{cut, fill};
ghost use Rattle.jv_store.specs.declared.store.TheConstants.{MOST_WORDS};
ghost use Rattle.std.specs.Prelude.{◌≡◌, ◌+◌, ◌<◌, ◌≤◌, true, replicate, [], ◌∷◌, ◌++◌, vec_len, vec_capacity, IsTrue};

use crate::out_of_memory::OutOfMemory;
use crate::store::{MOST_WORDS, Store};
use std::alloc::Global;

/// A store with one vector for all words, in which an address is a position plus 1.
///
/// The room is capacity that is there already, so `alloc` is never refused. Where each block starts
/// is kept for `take_back` alone.
#[derive(Drop)]
pub struct Cells {
    words: Vec<u32>,
    starts: Vec<u32>,
    room: u64,
    ghost filled: { IsTrue (fill starts.items (vec_len words)) },
    ghost few: { vec_len words + room ≤ MOST_WORDS },
    ghost words_fit: { vec_len words + room ≤ vec_capacity words },
    ghost starts_fit: { vec_len words + room ≤ vec_capacity starts },
}

impl Store for Cells {
    ghost content = { λ s. cut s.starts.items s.words.items };

    ghost room_left = { λ s. s.room };

    ghost SURE = { true };

    const SURE: bool = true;

    fn empty(alloc: Global) -> Self {
        Cells {
            words: Vec::new(alloc),
            starts: Vec::new(alloc),
            room: 0,
        }
    }

    fn room(&self) -> u64 {
        self.room
    }

    fn total(&self) -> u64 {
        self.room + self.words.len() as u64
    }

    fn reserve(&mut self, n: u64) -> Result<(), OutOfMemory> {
        let room = self.room + n;
        self.words.reserve(room as usize)?;
        self.starts
            .reserve(self.words.len() - self.starts.len() + room as usize)?;
        self.room = room;
        Ok(())
    }

    fn release(&mut self, n: u64) {
        self.room -= n;
    }

    fn alloc(&mut self, len: u32) -> Result<u32, OutOfMemory> {
        let start = self.words.len() as u32;
        add_start(&mut self.starts, start);
        add_zeros(&mut self.words, len);
        self.room -= len as u64;
        Ok(start + 1)
    }

    fn get(&self, address: u32, place: u32) -> u32 {
        self.words[address as usize + place as usize - 1]
    }

    fn set(&mut self, address: u32, place: u32, word: u32) {
        self.words[address as usize + place as usize - 1] = word;
    }

    fn take_back(&mut self, address: u32, len: u32) {
        let _newest = self.starts.pop();
        self.words.truncate((address - 1) as usize);
        self.room += len as u64;
    }
}

/// Adds the start of a block, for which there is room.
fn add_start(starts: &mut Vec<u32>, start: u32)
    requires { vec_len starts.old < vec_capacity starts.old }
    ensures items { starts.new.items ≡ starts.old.items ++ start ∷ [] }
    ensures capacity { vec_capacity starts.old ≤ vec_capacity starts.new }
{
    match starts.push(start) {
        Ok(()) => (),
        Err(_start) => unreachable!(),
    }
}

/// Adds `len` zero words, for which there is room.
fn add_zeros(words: &mut Vec<u32>, len: u32)
    requires room { vec_len words.old + len ≤ vec_capacity words.old }
    requires bound { vec_len words.old + len ≤ MOST_WORDS }
    ensures items { words.new.items ≡ words.old.items ++ replicate len 0 }
    ensures len { vec_len words.new ≡ vec_len words.old + len }
    ensures capacity { vec_capacity words.old ≤ vec_capacity words.new }
{
    match words.resize(words.len() + len as usize, 0) {
        Ok(()) => (),
        Err(_refused) => unreachable!(),
    }
}
