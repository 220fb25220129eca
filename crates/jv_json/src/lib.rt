//! Reports as JSON, a line each: the members of their objects, class files with their verdicts, and the lines.
#![tactic(auto)]

mod files;
mod lines;
mod members;

pub use files::{explained_values, file_values, put_files};
pub use lines::json_lines;
pub use members::{put_bytes, put_number, put_text};
