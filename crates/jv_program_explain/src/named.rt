//! Files that are named, read, and explained.
ghost use Rattle.std.specs.Prelude.{◌≡◌, IfErr, IfOk, length, map, option_map};
ghost use Rattle.jv_limits.specs.Bytes.{bytes_of};
ghost use Rattle.jv_program_check.specs.Named.{IsNamedFailure, IsReadFailure};
ghost use Rattle.jv_program_explain.specs.Explain.{IsExplained};
ghost use Rattle.jv_program_explain.specs.Named.{IsExplainedAs};

use crate::explaining::explain_files;
use crate::settings::ExplainSettings;
use jv_loader::SystemFiles;
use jv_program_base::{Failure, Folders, Outcome, read_library};
use jv_program_check::{bytes_of_files, bytes_of_texts, read_classes};
use std::alloc::Global;
use std::hash::RandomState;

/// Explains files of these names, which have been read and are as many, as those of one guest.
fn explain_read(
    alloc: Global,
    state: RandomState,
    system: &SystemFiles,
    settings: ExplainSettings,
    names: &[&str],
    files: &[Vec<u8>],
) -> Result<Outcome, Failure>
    requires { length names.now ≡ length files.now }
    ensures ok { IfOk result (λ outcome.
        IsExplained settings system.now (map bytes_of names.now) (map (λ file. file.items) files.now) outcome) }
    ensures err { IfErr result (IsReadFailure system.now (map (λ file. file.items) files.now)) }
{
    let names = bytes_of_texts(alloc, names)?;
    let files = bytes_of_files(alloc, files)?;
    explain_files(
        alloc,
        state,
        system,
        settings,
        names.as_slice(),
        files.as_slice(),
    )
}

/// Reads the library, where a word names its folder, and the files of these names, one for each name, and explains the verdicts on them as
/// those on the files of one guest.
///
/// # Errors
///
/// `Unreadable` with the name of the first file that can't be read, `LibraryRefused` where there is no library in the folder for it,
/// `OutOfMemory` where the program had no memory to read them, and else what `explain_files` says of the files.
pub fn explain_named<F: Folders>(
    alloc: Global,
    state: RandomState,
    settings: ExplainSettings,
    library: Option<&str>,
    names: &[&str],
    folders: &mut F,
) -> Result<Outcome, Failure>
    ensures ok { IfOk result (IsExplainedAs (F.disk folders.old) settings (option_map bytes_of library.entry) (map bytes_of names.now)) }
    ensures err { IfErr result (IsNamedFailure (F.disk folders.old) (option_map bytes_of library.entry) (map bytes_of names.now)) }
{
    let system = read_library(alloc, state, folders, library)?;
    let files = read_classes(alloc, folders, names)?;
    explain_read(alloc, state, &system, settings, names, files.as_slice())
}
