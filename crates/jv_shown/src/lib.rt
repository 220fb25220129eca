//! Instructions, rules and frames as text, for people (JVMS 6.5, 4.10.1).
#![tactic(auto)]

mod frame;
mod instruction;
mod mnemonics;
mod operands;
mod rule;

pub use frame::{ShownFrame, ShownType};
pub use instruction::ShownInsn;
pub use rule::ShownRule;
