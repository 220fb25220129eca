//! The library in a folder.
ghost use Rattle.std.specs.Prelude.{◌≡◌, ◌≢◌, IfErr, IfOk, None, map, option_map};
ghost use Rattle.jv_limits.specs.Bytes.{bytes_of};
ghost use Rattle.jv_limits.specs.FileLimits.{first_file_refusal};
ghost use Rattle.jv_loader.specs.LibraryFault.{IsLibraryFault, IsSomeLibrary};
ghost use Rattle.jv_program_base.specs.Folder.{AreClassFilesIn, file_bytes, file_name};
ghost use Rattle.jv_program_base.specs.Library.{AreLibraryFiles, IsLibraryFailure, fault_place, library_fault_name, path_at};
ghost use Rattle.jv_program_base.specs.Inside.Reading.{IsRefusedIn};

use crate::failure::Failure;
use crate::folder::{NamedFile, bytes_of_files, path_in, read_class_folder};
use crate::folders::Folders;
use jv_limits::first_file_refusal;
use jv_loader::{LibraryFault, SystemFiles, system_files, system_with_library};
use std::alloc::{AllocError, Global};
use std::hash::RandomState;

/// A fault as it is printed.
fn fault_name(fault: LibraryFault) -> &'static str
    ensures { result.now ≡ library_fault_name fault }
{
    match fault {
        LibraryFault::Version(_) => "Version",
        LibraryFault::Format(_) => "Format",
        LibraryFault::Unsupported(_) => "Unsupported",
        LibraryFault::Reserved(_) => "Reserved",
        LibraryFault::Duplicate(_) => "Duplicate",
        LibraryFault::Main(_) => "Main",
        LibraryFault::Header(_) => "Header",
        LibraryFault::Initializer(_) => "Initializer",
        LibraryFault::AboveArrays(_) => "AboveArrays",
        LibraryFault::NoString => "NoString",
        LibraryFault::NoComparable => "NoComparable",
        LibraryFault::NoCharSequence => "NoCharSequence",
        LibraryFault::OutOfMemory => "Memory",
    }
}

/// The place of the file that has a fault, where one has.
fn fault_place(fault: LibraryFault) -> Option<usize>
    ensures { result ≡ fault_place fault }
{
    match fault {
        LibraryFault::Version(place)
        | LibraryFault::Format(place)
        | LibraryFault::Unsupported(place)
        | LibraryFault::Reserved(place)
        | LibraryFault::Duplicate(place)
        | LibraryFault::Main(place)
        | LibraryFault::Header(place)
        | LibraryFault::Initializer(place)
        | LibraryFault::AboveArrays(place) => Some(place),
        LibraryFault::NoString
        | LibraryFault::NoComparable
        | LibraryFault::NoCharSequence
        | LibraryFault::OutOfMemory => None,
    }
}

/// The path of the file at a place in a folder, where there is one, and else the folder's word.
fn path_at(
    alloc: Global,
    word: &str,
    files: &[NamedFile],
    place: Option<usize>,
) -> Result<Vec<u8>, AllocError>
    ensures { IfOk result (λ path. path.items ≡ path_at word.now (map file_name files.now) place) }
{
    let Some(place) = place else {
        return Vec::from_slice(alloc, word.as_bytes());
    };
    match files.get(place) {
        Some(file) => path_in(alloc, word, file.name.as_slice()),
        None => Vec::from_slice(alloc, word.as_bytes()),
    }
}

/// What is told of a fault of a folder's files.
fn refusal(
    alloc: Global,
    word: &str,
    files: &[NamedFile],
    fault: LibraryFault,
) -> Result<Failure, AllocError>
    requires few { first_file_refusal (map file_bytes files.now) ≡ None }
    requires fault { IsLibraryFault (map file_bytes files.now) fault }
    requires memory { fault ≢ LibraryFault.OutOfMemory }
    ensures { IfOk result (IsRefusedIn word.now files.now) }
{
    let name = path_at(alloc, word, files, fault_place(fault))?;
    let reason = String::from_str(alloc, fault_name(fault))?;
    Ok(Failure::LibraryRefused(name, reason))
}

/// The system's files with those of a folder, as a library.
fn system_of(
    alloc: Global,
    state: RandomState,
    word: &str,
    files: &[NamedFile],
) -> Result<SystemFiles, Failure>
    ensures ok { IfOk result (λ system. system ≡ map file_bytes files.now) }
    ensures few { IfOk result (λ system. first_file_refusal system ≡ None) }
    ensures library { IfOk result (λ system. IsSomeLibrary system) }
    ensures err { IfErr result (IsRefusedIn word.now files.now) }
{
    let bytes = bytes_of_files(alloc, files)?;
    if let Some(fault) = first_file_refusal(bytes.as_slice()) {
        let name = Vec::from_slice(alloc, word.as_bytes())?;
        let reason = String::from_str(alloc, fault.name())?;
        return Err(Failure::LibraryRefused(name, reason));
    }
    match system_with_library(alloc, state, bytes.as_slice()) {
        Ok(system) => {
            system.is_library();
            Ok(system)
        }
        Err(LibraryFault::OutOfMemory) => Err(Failure::OutOfMemory),
        Err(fault) => Err(refusal(alloc, word, files, fault)?),
    }
}

/// Reads the library in the folder of a word: the system's files with its class files, in byte order of their names. Without a word
/// there is none, and nothing is read. Names are hashed with the state.
///
/// # Errors
///
/// `Unreadable` with the name of the folder or of the first file that can't be read; `LibraryRefused` with the folder's, where there
/// are no class files, more than 1,024, or one of more than 4,194,304 bytes; or with that of the file that has a fault; and `OutOfMemory`
/// where the program had none.
pub fn read_library<F: Folders>(
    alloc: Global,
    state: RandomState,
    folders: &mut F,
    word: Option<&str>,
) -> Result<SystemFiles, Failure>
    ensures ok { IfOk result (AreLibraryFiles (F.disk folders.old) (option_map bytes_of word.entry)) }
    ensures err { IfErr result (IsLibraryFailure (F.disk folders.old) (option_map bytes_of word.entry)) }
    ensures disk { F.disk folders.new ≡ F.disk folders.old }
{
    let Some(word) = word else {
        return match system_files(alloc) {
            Ok(system) => Ok(system),
            Err(_) => Err(Failure::OutOfMemory),
        };
    };
    let files = read_class_folder(alloc, folders, word)?;
    system_of(alloc, state, word, files.as_slice())
}
