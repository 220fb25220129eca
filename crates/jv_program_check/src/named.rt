//! Files that are named, read, and checked.
ghost use Rattle.std.specs.Prelude.{◌≡◌, IfErr, IfOk, length, map, option_map};
ghost use Rattle.jv_limits.specs.Bytes.{bytes_of};
ghost use Rattle.jv_program_base.specs.Unread.{IsUnread};
ghost use Rattle.jv_program_check.specs.Check.{IsChecked};
ghost use Rattle.jv_program_check.specs.Named.{AreFilesAt, IsCheckedAs, IsFirstUnread, IsNamedFailure, IsReadFailure};

use crate::checking::check_files;
use jv_loader::SystemFiles;
use jv_program_base::{Failure, Folders, Outcome, read_class, read_library};
use std::alloc::{AllocError, Global};
use std::hash::RandomState;

/// The bytes of the files of these names.
pub fn read_classes<F: Folders>(
    alloc: Global,
    folders: &mut F,
    names: &[&str],
) -> Result<Vec<Vec<u8>>, Failure>
    ensures ok { IfOk result (λ files.
        AreFilesAt (F.disk folders.old) (map bytes_of names.now) (map (λ file. file.items) files.items)) }
    ensures count { IfOk result (λ files. length files.items ≡ length names.now) }
    ensures err { IfErr result (IsUnread (IsFirstUnread (F.disk folders.old) (map bytes_of names.now))) }
{
    let mut files = Vec::new(alloc);
    for name in names {
        let bytes = read_class(alloc, folders, name)?;
        files.push(bytes).map_err(AllocError::from)?;
    }
    Ok(files)
}

/// Texts as bytes.
pub fn bytes_of_texts<'a>(alloc: Global, texts: &[&'a str]) -> Result<Vec<&'a [u8]>, AllocError>
    ensures { IfOk result (λ found. map bytes_of found.items ≡ map bytes_of texts.now) }
{
    let mut found = Vec::new(alloc);
    for text in texts {
        found.push(text.as_bytes())?;
    }
    Ok(found)
}

/// The bytes of files.
pub fn bytes_of_files<'a>(alloc: Global, files: &'a [Vec<u8>]) -> Result<Vec<&'a [u8]>, AllocError>
    ensures { IfOk result (λ found. map bytes_of found.items ≡ map (λ file. file.items) files.now) }
{
    let mut found = Vec::new(alloc);
    for file in files {
        found.push(file.as_slice())?;
    }
    Ok(found)
}

/// Checks files of these names, which have been read and are as many, as those of one guest.
fn check_read(
    alloc: Global,
    state: RandomState,
    system: &SystemFiles,
    json: bool,
    names: &[&str],
    files: &[Vec<u8>],
) -> Result<Outcome, Failure>
    requires { length names.now ≡ length files.now }
    ensures ok { IfOk result (IsChecked json system.now (map bytes_of names.now) (map (λ file. file.items) files.now)) }
    ensures err { IfErr result (IsReadFailure system.now (map (λ file. file.items) files.now)) }
{
    let names = bytes_of_texts(alloc, names)?;
    let files = bytes_of_files(alloc, files)?;
    check_files(
        alloc,
        state,
        system,
        json,
        names.as_slice(),
        files.as_slice(),
    )
}

/// Reads the library, where a word names its folder, and the files of these names, one for each name, and checks them as those of one
/// guest, with a report in JSON or not.
///
/// # Errors
///
/// `Unreadable` with the name of the first file that can't be read, `LibraryRefused` where there is no library in the folder for it,
/// `OutOfMemory` where the program had no memory to read them, and else what `check_files` says of the files.
pub fn check_named<F: Folders>(
    alloc: Global,
    state: RandomState,
    json: bool,
    library: Option<&str>,
    names: &[&str],
    folders: &mut F,
) -> Result<Outcome, Failure>
    ensures ok { IfOk result (IsCheckedAs (F.disk folders.old) json (option_map bytes_of library.entry) (map bytes_of names.now)) }
    ensures err { IfErr result (IsNamedFailure (F.disk folders.old) (option_map bytes_of library.entry) (map bytes_of names.now)) }
{
    let system = read_library(alloc, state, folders, library)?;
    let files = read_classes(alloc, folders, names)?;
    check_read(alloc, state, &system, json, names, files.as_slice())
}
