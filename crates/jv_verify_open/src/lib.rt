//! Frames of a stack map at which handlers begin that cover an instruction (JVMS 4.7.3, 4.10.1.6): whether the local variables flow to all,
//! asked where they were written.
#![tactic(auto)]

mod frames;
mod wanting;

pub use frames::OpenFrames;
pub use wanting::At;
