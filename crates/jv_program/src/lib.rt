//! The program, over whatever it reads from and writes to: what the words of the command line ask for is done, the report is written, and
//! the status that the program ends with is that of its report, or of what there is in its place.
#![tactic(auto)]

mod program;
mod progress;
mod sink;
mod stop;
mod telling;
mod written;

pub use program::{command, command_watched, tell};
pub use progress::{Company, ProgressLine};
pub use sink::{Lost, Sink, Stream};
pub use stop::{Stop, status_of};
pub use written::write_report;
