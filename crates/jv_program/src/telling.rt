//! Why there is no report, as a line.
ghost use Rattle.std.specs.Prelude.{◌∷◌, ◌++◌, [], IsOk, IsTrue, codes};
ghost use Rattle.jv_program_base.specs.Escape.{escaped_text};
ghost use Rattle.jv_program_base.specs.Failure.{failure_line};
ghost use Rattle.jv_program.specs.Written.{IsWritten};

use crate::sink::{Lost, Sink};
use crate::written::{write_escaped, write_next};
use jv_program_base::Failure;

/// Tells a reason.
fn tell_reason<E: Sink>(err: &mut E, reason: &[u8]) -> Result<(), Lost>
    ensures written { IsWritten result (E.contents err.old) (E.contents err.new) (codes "jvhost: " ++ reason.now ++ 10 ∷ []) }
    ensures sure { IsTrue E.SURE → IsOk result }
{
    let begun = write_next(err, Ok(()), b"jvhost: ");
    let told = write_next(err, begun, reason);
    write_next(err, told, b"\n")
}

/// Tells a name, as it is printed, and what is wrong with what is called so.
fn tell_name<E: Sink>(err: &mut E, name: &[u8], reason: &[u8]) -> Result<(), Lost>
    ensures written { IsWritten result (E.contents err.old) (E.contents err.new)
        (codes "jvhost: " ++ (escaped_text name.now ++ codes ": " ++ reason.now) ++ 10 ∷ []) }
    ensures sure { IsTrue E.SURE → IsOk result }
{
    let begun = write_next(err, Ok(()), b"jvhost: ");
    let named = write_escaped(err, begun, name);
    let parted = write_next(err, named, b": ");
    let told = write_next(err, parted, reason);
    write_next(err, told, b"\n")
}

/// Tells why there is no report. What was written where that fails is a front of the line.
pub(crate) fn tell_failure<E: Sink>(err: &mut E, failure: &Failure) -> Result<(), Lost>
    ensures written { IsWritten result (E.contents err.old) (E.contents err.new) (failure_line failure.now) }
    ensures sure { IsTrue E.SURE → IsOk result }
{
    match failure {
        Failure::Unreadable(name) => tell_name(err, name.as_slice(), b"cannot be read"),
        Failure::LibraryRefused(name, reason) => {
            tell_name(err, name.as_slice(), reason.as_bytes())
        }
        Failure::StandardInput => tell_reason(err, b"standard input: cannot be read"),
        Failure::Refused(fault) => tell_reason(err, fault.name().as_bytes()),
        Failure::FeedTooLong => tell_reason(err, b"InputTooLong"),
        Failure::TooManyFolders => tell_reason(err, b"TooManyGuests"),
        Failure::NoGuest => tell_reason(err, b"NoGuest"),
        Failure::HostMemory => tell_reason(err, b"HostMemory"),
        Failure::OutOfMemory => tell_reason(err, b"Memory"),
    }
}
