//! The class builder: class files and code put together by calls, over `jv_asm`.
//!
//! [`ClassBuilder`] puts a structure together, with constants found or added by value, and
//! [`CodeBuilder`] instructions, with labels for branches, switches and handlers, and frames.
#![tactic(auto)]

mod built;
mod class_builder;
mod code_builder;
mod fault;
mod frame;
mod instructions;
mod law;
mod opcode;
mod pool_builder;
mod step;
mod targets;

pub use class_builder::{ClassBuilder, MethodBuilder};
pub use code_builder::CodeBuilder;
pub use fault::BuilderFault;
pub use frame::VerificationType;
pub use jv_asm::{AsmFault, AttributeDescription, Item};
pub use jv_class_structure::{ClassFlags, FieldFlags, MethodFlags};
pub use jv_pool::Constant;
pub use law::indices_name;
pub use opcode::{ArrayType, BranchOp, IndexOp, Op};
pub use step::Label;
