//! What `explain` does: the verdicts on the files of a guest, as `check` gives them, and what is said of each. A private part of the
//! program.
#![tactic(auto)]

mod below;
mod class;
mod explaining;
mod frames;
mod lines;
mod method;
mod named;
mod numbers;
mod report;
mod said;
mod settings;
mod step;
mod unmet;
mod walk;
mod wanting;

pub use explaining::explain_files;
pub use named::explain_named;
pub use settings::ExplainSettings;
