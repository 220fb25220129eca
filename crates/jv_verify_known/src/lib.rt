//! What is known of the local variables before an instruction, so that what flowed once into a frame of the stack map is compared again
//! only where it was written since, and what is made a frame is set only where it differs (JVMS 4.10.1.4, 4.10.1.6).
#![tactic(auto)]

mod blocks;
mod flowing;
mod known;
mod setting;
mod writes;

pub use blocks::BLOCK;
pub use known::Known;
