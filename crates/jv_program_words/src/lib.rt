//! What the words of the command line ask for, by the definition that the library `clap` has of a simple command. A private part of the
//! program.
#![tactic(auto)]

mod asked;
mod command_line;
mod law;
mod reading;

pub use asked::{ExplainOptions, RunOptions, Settings, usual_options};
pub use law::word_rows;
pub use reading::{not_text, settings};
