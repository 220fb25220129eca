//! Why there is no report, and the status that the program ends with.
ghost use Rattle.std.specs.Prelude.{◌≡◌};
ghost use Rattle.jv_program_base.specs.Failure.{failure_of, failure_of_feed, failure_status};
ghost use Rattle.jv_program_base.specs.declared.failure.Failure.TheVariants.{OutOfMemory};

use jv_limits::{AdmitFault, FeedFault};
use std::alloc::AllocError;

/// Why there is no report.
#[derive(Drop)]
pub enum Failure {
    /// The file or folder of this name can't be read.
    Unreadable(Vec<u8>),
    /// The standard input can't be read.
    StandardInput,
    /// The library's folder, or the file or class of this name in it, is refused, for this reason.
    LibraryRefused(Vec<u8>, String),
    /// The host did not admit the guest.
    Refused(AdmitFault),
    /// More was read for a guest than its input may have.
    FeedTooLong,
    /// There are more folders than the host takes guests.
    TooManyFolders,
    /// There is no guest with the number of one that is to be fed, or whose output is wanted as it is.
    NoGuest,
    /// The host's memory was refused.
    HostMemory,
    /// The program's own memory was refused.
    OutOfMemory,
}

impl Failure {
    /// The status that the program ends with.
    pub fn status(&self) -> u8
        ensures { result ≡ failure_status self.now }
    {
        match self {
            Failure::TooManyFolders | Failure::NoGuest => 2,
            Failure::Unreadable(_)
            | Failure::StandardInput
            | Failure::LibraryRefused(..)
            | Failure::Refused(_)
            | Failure::FeedTooLong => 3,
            Failure::HostMemory | Failure::OutOfMemory => 4,
        }
    }
}

impl From<AllocError> for Failure {
    ghost from_gives = { λ _ failure. failure ≡ OutOfMemory };

    fn from(_error: AllocError) -> Failure {
        Failure::OutOfMemory
    }
}

impl From<AdmitFault> for Failure {
    ghost from_gives = { λ fault failure. failure ≡ failure_of fault };

    fn from(fault: AdmitFault) -> Failure {
        match fault {
            AdmitFault::HostMemory => Failure::HostMemory,
            _ => Failure::Refused(fault),
        }
    }
}

impl From<FeedFault> for Failure {
    ghost from_gives = { λ fault failure. failure ≡ failure_of_feed fault };

    fn from(fault: FeedFault) -> Failure {
        match fault {
            FeedFault::NoGuest => Failure::NoGuest,
            FeedFault::InputTooLong => Failure::FeedTooLong,
            FeedFault::HostMemory => Failure::HostMemory,
        }
    }
}
