//! What is said of files behind their verdicts, for people: of a method that breaks a rule its name, the instruction with its line, the
//! frames before it and the rule (JVMS 4.10.1), and of a class that is refused for its name or for a direct super which one (JVMS 5.3.5).
#![tactic(auto)]

mod fault;
mod file;
mod finals;
mod names;
mod place;
mod room;
mod supers;
mod text;

pub use fault::is_at_instruction;
pub use file::explain_file;
pub use room::append;
pub use supers::{SuperFault, explain_refusal};
pub use text::{ShownMethod, ShownPlace};
