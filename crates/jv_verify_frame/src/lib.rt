//! The frame before an instruction, changed in place, over verification types with numbers for names (JVMS 4.10.1.4).
#![tactic(auto)]

mod items;
mod locals;
mod notes;
mod objects;
mod tops;
mod type_frame;
mod variables;

pub use type_frame::TypeFrame;
