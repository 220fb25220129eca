//! A guest's steps (JVMS 2.11, 5.5): an instruction from its bytes to what its effect makes of frames, or a task of an initialization. A
//! room of `jv_interp`.
#![tactic(auto)]

mod alone;
mod decoding;
mod going;
mod instructions;
mod opcodes;
mod running;
mod stepping;

pub use running::{Turn, run};
