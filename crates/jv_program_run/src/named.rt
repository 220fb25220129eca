//! Folders that are named, read and run.
ghost use Rattle.std.specs.Prelude.{◌≡◌, ◌≤◌, false, IfErr, IfOk, length, map, option_map};
ghost use Rattle.jv_limits.specs.Bytes.{bytes_of};
ghost use Rattle.jv_program_base.specs.Unread.{IsUnread};
ghost use Rattle.jv_program_run.specs.Feeding.{is_no_guest};
ghost use Rattle.jv_program_run.specs.Guests.{named_guest};
ghost use Rattle.jv_program_run.specs.Named.{AreFoldersOf, AreTaken, IsFirstUnread, IsRunAs, IsRunFailure, lacks_guest};
ghost use Rattle.jv_program_run.specs.Outcome.{IsGuestsFailure, IsRunOutcome};

use crate::input::read_input;
use crate::running::run_folders;
use crate::settings::RunSettings;
use jv_host::Watch;
use jv_program_base::{Failure, Folder, Folders, Outcome, read_folder, read_library};
use std::alloc::{AllocError, Global};
use std::hash::RandomState;
use std::io::Read;

/// The most folders.
const FOLDERS: usize = 64;

/// Reads the folders of words, in their order.
fn read_folders<'a, F: Folders>(
    alloc: Global,
    folders: &mut F,
    words: &[&'a str],
) -> Result<Vec<Folder<'a>>, Failure>
    ensures ok { IfOk result (λ read. AreFoldersOf (F.disk folders.old) (map bytes_of words.now) read.items) }
    ensures count { IfOk result (λ read. length read.items ≡ length words.now) }
    ensures err { IfErr result (IsUnread (IsFirstUnread (F.disk folders.old) (map bytes_of words.now))) }
{
    let mut read = Vec::new(alloc);
    for word in words {
        let folder = read_folder(alloc, folders, word)?;
        read.push(folder).map_err(AllocError::from)?;
    }
    Ok(read)
}

/// Whether there is no guest with a number, where there is one.
fn is_no_guest(number: Option<u32>, guests: usize) -> bool
    ensures { result ≡ is_no_guest number guests }
{
    match number {
        Some(number) => number == 0 || guests < number as usize,
        None => false,
    }
}

/// Whether a guest that the settings name is of none of so many.
fn lacks_guest(settings: RunSettings, guests: usize) -> bool
    ensures { result ≡ lacks_guest settings guests }
{
    is_no_guest(settings.stdin, guests) || is_no_guest(settings.raw, guests)
}

/// Reads the library, where a word names its folder, and the folders of words, in their order, and runs their guests in one host. Where the
/// output of a guest is wanted as it is, and none is fed, all of the input is read before that, and stands behind this guest's own. A
/// watch sees the rounds of their turns.
///
/// # Errors
///
/// `TooManyFolders` where there are more than 64 words, and `NoGuest` where none is that of a guest that the settings name; no folder
/// is then read. `Unreadable` with the name of the first file or folder that can't be read, `LibraryRefused` where there is no library in
/// the folder for it, and `StandardInput` where the input can't be read; and else what `run_folders` says of the folders.
pub fn run_named<F: Folders, I: Read, W: Watch>(
    alloc: Global,
    state: RandomState,
    settings: RunSettings,
    library: Option<&str>,
    words: &[&str],
    folders: &mut F,
    input: &mut I,
    watch: &mut W,
) -> Result<Outcome, Failure>
    ensures ok { IfOk result (IsRunAs (F.disk folders.old) settings (option_map bytes_of library.entry) (map bytes_of words.now)
        (I.remaining input.old) (I.remaining input.new)) }
    ensures err { IfErr result (IsRunFailure (F.disk folders.old) settings (option_map bytes_of library.entry) (map bytes_of words.now)
        (I.remaining input.old) (I.remaining input.new)) }
    ensures unread { (AreTaken settings (map bytes_of words.now) → ⊥) → folders.new ≡ folders.old }
{
    if words.len() > FOLDERS {
        return Err(Failure::TooManyFolders);
    }
    if lacks_guest(settings, words.len()) {
        return Err(Failure::NoGuest);
    }
    let system = read_library(alloc, state, folders, library)?;
    let mut read = read_folders(alloc, folders, words)?;
    read_input(alloc, settings, read.as_mut_slice(), input)?;
    let read = read.as_slice();
    run_folders(alloc, state, &system, settings, read, input, watch)
}
