//! What calls answer.

ghost use Rattle.std.specs.Prelude.{◌≡◌};
ghost use Rattle.libjvhost.specs.Codes.{admit_code, feed_code};

use jv_host::{AdmitFault, FeedFault};

/// It is done.
pub(crate) const OK: u32 = 0;
/// The handle holds no host.
pub(crate) const NO_HOST: u32 = 1;
/// The handle holds a host already.
pub(crate) const HAS_HOST: u32 = 2;
/// No guest has this number.
pub(crate) const NO_GUEST: u32 = 3;
/// The guest has no file with this number.
pub(crate) const NO_FILE: u32 = 4;
/// There is no file.
const NO_FILES: u32 = 5;
/// There are more files than a guest may have.
const TOO_MANY_FILES: u32 = 6;
/// A file is longer than a file may be.
const FILE_TOO_LONG: u32 = 7;
/// The input is longer than an input may be.
const INPUT_TOO_LONG: u32 = 8;
/// A number of the budget is out of range.
const BUDGET_OUT_OF_RANGE: u32 = 9;
/// The host holds as many guests as a host may.
const TOO_MANY_GUESTS: u32 = 10;
/// Memory was refused.
pub(crate) const HOST_MEMORY: u32 = 11;
/// A field `size` is not the size of the struct.
pub(crate) const WRONG_SIZE: u32 = 12;
/// There is room for fewer verdicts than there are files.
pub(crate) const NO_ROOM: u32 = 13;
/// No verdict is told so.
pub(crate) const WRONG_VERDICT: u32 = 14;
/// The library doesn't stand beside the guest's files. 15 to 17 are those of the part in C.
pub(crate) const LIBRARY_BROKEN: u32 = 18;
/// Files are no library.
pub(crate) const NO_LIBRARY: u32 = 19;
/// No place of a throw can be told.
pub(crate) const NO_PLACE: u32 = 20;

pub(crate) fn admit_code(fault: AdmitFault) -> u32
    ensures { result ≡ admit_code fault }
{
    match fault {
        AdmitFault::NoFiles => NO_FILES,
        AdmitFault::TooManyFiles => TOO_MANY_FILES,
        AdmitFault::FileTooLong => FILE_TOO_LONG,
        AdmitFault::InputTooLong => INPUT_TOO_LONG,
        AdmitFault::BudgetOutOfRange => BUDGET_OUT_OF_RANGE,
        AdmitFault::TooManyGuests => TOO_MANY_GUESTS,
        AdmitFault::LibraryBroken => LIBRARY_BROKEN,
        AdmitFault::HostMemory => HOST_MEMORY,
    }
}

pub(crate) fn feed_code(fault: FeedFault) -> u32
    ensures { result ≡ feed_code fault }
{
    match fault {
        FeedFault::NoGuest => NO_GUEST,
        FeedFault::InputTooLong => INPUT_TOO_LONG,
        FeedFault::HostMemory => HOST_MEMORY,
    }
}
