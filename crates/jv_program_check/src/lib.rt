//! What `check` does: the verdicts on the files of a guest, and on those of some names, without a host. A private part of the program.
#![tactic(auto)]

mod checking;
mod named;
mod report;

pub use checking::{check_files, stand, status_of};
pub use named::{bytes_of_files, bytes_of_texts, check_named, read_classes};
