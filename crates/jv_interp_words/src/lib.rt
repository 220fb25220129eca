//! The words of a guest's frames (JVMS 2.6): how they stand for the machine's values and frames, and what computations, loads, stores,
//! forms of the stack, calls and returns do with them; the instructions that work on such words alone and go on in their frame (6.5); and
//! steps of a method that runs, by the opcodes of its code. A room of `jv_interp`.
#![tactic(auto)]

mod branch_steps;
mod branches;
mod bytes;
mod calls;
mod computing;
mod computing_steps;
mod dispatch;
mod division;
mod division_instructions;
mod form_instructions;
mod form_steps;
mod forms;
mod local_instructions;
mod local_steps;
mod locals;
mod numbers;
pub mod opcodes;
mod operands;
mod pushes;
mod records;
mod references;
mod registers;
mod running;
mod switch_steps;
mod switches;
mod words;

pub use branches::{if_int, if_ints, jump};
pub use calls::leave;
pub use computing::cut;
pub use division_instructions::divide;
pub use form_instructions::move_words;
pub use forms::{dup, dup_x1, dup_x2, dup2, dup2_x1, dup2_x2, pop, pop2, swap};
pub use local_instructions::{increment, load, store, store_long};
pub use numbers::{long_constant, low_byte, low_char, low_short};
pub use operands::{push_int, push_long};
pub use pushes::{compute, nop, push_null};
pub use records::{FrameRecord, InitializationRecord, MethodRecord};
pub use references::{if_null, if_same};
pub use registers::Registers;
pub use running::run_in_words;
pub use switches::{lookup_switch, table_switch};
pub use words::{push_word, word_at};
