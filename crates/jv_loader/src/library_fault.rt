//! What is wrong with files that are no library.

ghost use Rattle.std.specs.Prelude.{◌≡◌};
ghost use Rattle.jv_loader.specs.declared.library_fault.LibraryFault.TheVariants.{OutOfMemory};

use crate::out_of_memory::OutOfMemory as NoMemory;
use std::alloc::{AllocError, AllocFailed};
use std::fmt;

/// What is wrong with files that are no library, each with the place of its file, the first at 0.
#[derive(Clone, Copy, Debug)]
pub enum LibraryFault {
    /// The bytes begin like a class file of a version other than 50.0, 51.0 and 52.0 (JVMS 4.1).
    Version(usize),
    /// The bytes are no class file (JVMS 4.1 to 4.7).
    Format(usize),
    /// A class file with more than this host's profile has.
    Unsupported(usize),
    /// The class has a name below `host/`.
    Reserved(usize),
    /// The class has the name of an earlier file's class.
    Duplicate(usize),
    /// The class has a main method, which is the guest's.
    Main(usize),
    /// The class has the name of one of the system's, and other flags, another superclass, or other superinterfaces or fields.
    Header(usize),
    /// The class has the name of one of the system's and a `<clinit>`, though these are initialized from the start.
    Initializer(usize),
    /// java/lang/Cloneable or java/io/Serializable has methods, which would be found for arrays.
    AboveArrays(usize),
    /// java/lang/String is missing.
    NoString,
    /// java/lang/Comparable is missing.
    NoComparable,
    /// java/lang/CharSequence is missing.
    NoCharSequence,
    /// The host had no memory for the files or what they hold.
    OutOfMemory,
}

/// What is wrong, in words, and the place of the file where it is one's.
fn words(fault: LibraryFault) -> (&'static str, Option<usize>) {
    match fault {
        LibraryFault::Version(place) => ("is of another version", Some(place)),
        LibraryFault::Format(place) => ("is no class file", Some(place)),
        LibraryFault::Unsupported(place) => ("has more than this profile", Some(place)),
        LibraryFault::Reserved(place) => ("has a name of the host's", Some(place)),
        LibraryFault::Duplicate(place) => ("has the name of an earlier one", Some(place)),
        LibraryFault::Main(place) => ("has a main method", Some(place)),
        LibraryFault::Header(place) => ("has another header than the system's class", Some(place)),
        LibraryFault::Initializer(place) => ("has an initializer", Some(place)),
        LibraryFault::AboveArrays(place) => ("has methods above arrays", Some(place)),
        LibraryFault::NoString => ("java/lang/String is missing", None),
        LibraryFault::NoComparable => ("java/lang/Comparable is missing", None),
        LibraryFault::NoCharSequence => ("java/lang/CharSequence is missing", None),
        LibraryFault::OutOfMemory => ("out of memory", None),
    }
}

impl fmt::Display for LibraryFault {
    fn fmt<W: fmt::Write>(&self, f: &mut fmt::Formatter<W>) -> fmt::Result {
        let (text, place) = words(*self);
        match place {
            Some(place) => write!(f, "file {place} {text}"),
            None => f.write_str(text),
        }
    }
}

impl From<NoMemory> for LibraryFault {
    ghost from_gives = { λ _ e. e ≡ OutOfMemory };

    fn from(_e: NoMemory) -> LibraryFault {
        LibraryFault::OutOfMemory
    }
}

impl<T: Drop> From<AllocFailed<T>> for LibraryFault {
    ghost from_gives = { λ _ e. e ≡ OutOfMemory };

    fn from(_e: AllocFailed<T>) -> LibraryFault {
        LibraryFault::OutOfMemory
    }
}

impl From<AllocError> for LibraryFault {
    ghost from_gives = { λ _ e. e ≡ OutOfMemory };

    fn from(_e: AllocError) -> LibraryFault {
        LibraryFault::OutOfMemory
    }
}
