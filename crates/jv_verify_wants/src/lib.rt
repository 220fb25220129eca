//! What handlers that cover an instruction want of each local variable (JVMS 4.7.3, 4.10.1.6): the types that their frames have there, each
//! once, and until which offset; and which types are known to flow to all that is wanted.
#![tactic(auto)]

mod codes;
mod variable;
mod wants;

pub use wants::Wants;
