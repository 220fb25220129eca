//! How the program ends.
ghost use Rattle.std.specs.Prelude.{◌≡◌, ◌≢◌, ℕ, List, Option};
ghost use Rattle.clap.specs.Values.{kind_of};
ghost use Rattle.jv_program_base.specs.Disk.{Disk};
ghost use Rattle.jv_program_words.specs.Settings.{AreRefused};
ghost use Rattle.jv_program.specs.Inside.Stops.{IsEarly};
ghost use Rattle.jv_program.specs.Status.{IsStatusOf};
ghost use Rattle.jv_program_base.specs.declared.failure.Failure.TheVariants.{OutOfMemory};
ghost use Rattle.jv_program.specs.declared.stop.Stop.TheVariants.{CommandLine, Run};

use clap::error::ErrorKind;
use jv_program_base::{Failure, Outcome};
use std::alloc::AllocError;

/// What ends the program without a report, or without the whole of what goes to standard output.
#[derive(Drop)]
pub enum Stop {
    /// The words of the command line are wrong, or ask for help.
    CommandLine(clap::Error),
    /// There is no report.
    Run(Failure),
    /// Standard output failed, and a part of what goes there may be on it.
    Output,
}

impl Stop {
    ghost use Rattle.jv_program.specs.Status.{HasStatus};

    /// The status that the program ends with.
    pub fn status(&self) -> u8
        ensures { HasStatus self.now result }
    {
        match self {
            Stop::CommandLine(error) => u8::try_from(error.exit_code()).unwrap_or(2),
            Stop::Run(failure) => failure.status(),
            Stop::Output => 6,
        }
    }
}

/// What an error of the command line means.
pub(crate) fn stop_of(error: clap::Error) -> Stop
    ensures early { (disk : Option Disk) (line : List (List ℕ)) (input : Option (List ℕ))
        → AreRefused line error → IsEarly disk line input input result }
    ensures memory { kind_of error ≡ ErrorKind.OutOfMemory → result ≡ Run OutOfMemory }
    ensures other { kind_of error ≢ ErrorKind.OutOfMemory → result ≡ CommandLine error }
{
    if error.kind() == ErrorKind::OutOfMemory {
        Stop::Run(Failure::OutOfMemory)
    } else {
        Stop::CommandLine(error)
    }
}

impl From<AllocError> for Stop {
    ghost from_gives = { λ _ stop. stop ≡ Run OutOfMemory };

    fn from(_error: AllocError) -> Stop {
        Stop::Run(Failure::OutOfMemory)
    }
}

impl From<Failure> for Stop {
    ghost from_gives = { λ failure stop. stop ≡ Run failure };

    fn from(failure: Failure) -> Stop {
        Stop::Run(failure)
    }
}

/// The status that the program ends with, where it has a report, or this in its place.
pub fn status_of(end: &Result<Outcome, Stop>) -> u8
    ensures { IsStatusOf end.now result }
{
    match end {
        Ok(outcome) => outcome.status,
        Err(stop) => stop.status(),
    }
}
