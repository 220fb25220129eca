//! What `run` does: folders are read, their guests run in one host, and what they show is the report. A private part of the program.
#![tactic(auto)]

mod brought;
mod feeding;
mod in_file;
mod input;
mod json;
mod named;
mod play;
mod report;
mod rounds;
mod running;
mod settings;

pub use jv_host::{Budget, Progress, Unwatched, Watch};
pub use named::run_named;
pub use report::{PlaceInFile, Report};
pub use running::run_folders;
pub use settings::RunSettings;
