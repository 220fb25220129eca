//! Why the host refused a call.

ghost use Rattle.std.specs.Prelude.{◌≡◌, Some, codes};
ghost use Rattle.jv_limits.specs.Fault.{admit_fault_name, turn_fault_name, feed_fault_name};

use std::fmt;

/// Why a guest was not admitted, the first that applies. A refused admission leaves the host as it
/// was.
#[derive(Clone, Copy)]
pub enum AdmitFault {
    /// There is no file.
    NoFiles,
    /// There are more than 1,024 files.
    TooManyFiles,
    /// A file has more than 4,194,304 bytes.
    FileTooLong,
    /// The input has more than 16,777,216 bytes.
    InputTooLong,
    /// The cells are not 64 to 16,777,216, the words not 64 to 1,048,576, or the output bytes more
    /// than 1,048,576.
    BudgetOutOfRange,
    /// The host holds 64 guests.
    TooManyGuests,
    /// A class of the guest's library, or one that it lends to, is not accepted beside the guest's files (JVMS 4.10).
    LibraryBroken,
    /// The host's memory was refused.
    HostMemory,
}

/// Why a turn ended early. The number is of the steps that were taken, which stand.
#[derive(Clone, Copy)]
pub enum TurnFault {
    /// No guest has this number.
    NoGuest,
    /// The host's memory was refused in the next step.
    HostMemory(u64),
}

/// Why bytes did not come to a guest's input, the first that applies. A refused feed leaves the host
/// as it was.
#[derive(Clone, Copy)]
pub enum FeedFault {
    /// No guest has this number.
    NoGuest,
    /// With these there would be more than 16,777,216 bytes, the input at admission and all feeds
    /// together.
    InputTooLong,
    /// The host's memory was refused.
    HostMemory,
}

/// No guest has this number.
#[derive(Clone, Copy)]
pub struct NoGuest;

impl AdmitFault {
    /// Its name, which is also what `Display` writes.
    pub fn name(self) -> &'static str
        ensures { result.now ≡ admit_fault_name self }
    {
        match self {
            AdmitFault::NoFiles => "NoFiles",
            AdmitFault::TooManyFiles => "TooManyFiles",
            AdmitFault::FileTooLong => "FileTooLong",
            AdmitFault::InputTooLong => "InputTooLong",
            AdmitFault::BudgetOutOfRange => "BudgetOutOfRange",
            AdmitFault::TooManyGuests => "TooManyGuests",
            AdmitFault::LibraryBroken => "LibraryBroken",
            AdmitFault::HostMemory => "HostMemory",
        }
    }
}

impl TurnFault {
    /// Its name, which is also what `Display` writes.
    pub fn name(self) -> &'static str
        ensures { result.now ≡ turn_fault_name self }
    {
        match self {
            TurnFault::NoGuest => "NoGuest",
            TurnFault::HostMemory(_) => "HostMemory",
        }
    }
}

impl FeedFault {
    /// Its name, which is also what `Display` writes.
    pub fn name(self) -> &'static str
        ensures { result.now ≡ feed_fault_name self }
    {
        match self {
            FeedFault::NoGuest => "NoGuest",
            FeedFault::InputTooLong => "InputTooLong",
            FeedFault::HostMemory => "HostMemory",
        }
    }
}

impl fmt::Display for AdmitFault {
    ghost output = { λ fault. Some (admit_fault_name fault) };

    fn fmt<W: fmt::Write>(&self, f: &mut fmt::Formatter<W>) -> fmt::Result {
        let name = self.name();
        write!(f, "{name}")
    }
}

impl fmt::Display for TurnFault {
    ghost output = { λ fault. Some (turn_fault_name fault) };

    fn fmt<W: fmt::Write>(&self, f: &mut fmt::Formatter<W>) -> fmt::Result {
        let name = self.name();
        write!(f, "{name}")
    }
}

impl fmt::Display for FeedFault {
    ghost output = { λ fault. Some (feed_fault_name fault) };

    fn fmt<W: fmt::Write>(&self, f: &mut fmt::Formatter<W>) -> fmt::Result {
        let name = self.name();
        write!(f, "{name}")
    }
}

impl fmt::Display for NoGuest {
    ghost output = { λ _. Some (codes "NoGuest") };

    fn fmt<W: fmt::Write>(&self, f: &mut fmt::Formatter<W>) -> fmt::Result {
        write!(f, "NoGuest")
    }
}
