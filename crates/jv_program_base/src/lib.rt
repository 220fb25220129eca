//! What both commands need: folders and class files that are read, verdicts and failures as text. A private part of the program.
#![tactic(auto)]

mod escape;
mod failure;
mod file;
mod folder;
mod folders;
mod hashing;
mod items;
mod library;
mod main_name;
mod names;
mod outcome;
mod verdict;

pub use escape::{Escaped, escape_of};
pub use failure::Failure;
pub use file::read_past_limit;
pub use folder::{Folder, NamedFile, bytes_of_files, read_class, read_folder};
pub use folders::{Folders, SystemFolders};
pub use hashing::hashing_state;
pub use items::{bytes_at, text_at, verdict_at};
pub use library::read_library;
pub use main_name::main_name_of;
pub use names::{class_file_names, names_in};
pub use outcome::Outcome;
pub use verdict::{ShownVerdict, reason_name, rule_number};
