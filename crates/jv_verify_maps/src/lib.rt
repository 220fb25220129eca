//! The frames of a method's stack map by words (JVMS 4.7.4, 4.10.1.4): each as what it shares with the one before, and what is new.
#![tactic(auto)]

mod frames;
mod making;

pub use frames::MapWords;
pub use making::map_words;
