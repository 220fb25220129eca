//! The shared store: blocks of 32-bit words under addresses, for all guests of a host together.
//!
//! [`Store`] is one contract with two implementations: [`Blocks`] takes a vector for each block, and
//! [`Cells`] keeps all words in one vector, in which an address is a position plus 1. What callers
//! see of either is the same list of blocks.
#![tactic(auto)]

mod blocks;
mod cells;
mod laws;
mod out_of_memory;
mod store;

pub use blocks::Blocks;
pub use cells::Cells;
pub use laws::{back, new_block, older, rising, within, write};
pub use out_of_memory::OutOfMemory;
pub use store::{MOST_WORDS, Store};
