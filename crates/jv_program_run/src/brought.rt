//! The guests of folders, as the host takes them.
ghost use Rattle.std.specs.Prelude.{◌≡◌, IfOk, map};
ghost use Rattle.jv_host.specs.Files.{guest_of};
ghost use Rattle.jv_limits.specs.Bytes.{bytes_of};
ghost use Rattle.jv_program_base.specs.Folder.{file_name};
ghost use Rattle.jv_program_run.specs.Guests.{named_guest};
ghost use Rattle.jv_program_run.specs.Inside.Brought.{named_guest_of};

use jv_host::GuestFiles;
use jv_loader::SystemFiles;
use jv_program_base::{Folder, NamedFile, bytes_of_files, main_name_of};
use std::alloc::{AllocError, Global};

/// The guest of a folder, with the folder's word and the names of its class files, and what it stands on.
#[derive(Drop)]
pub(crate) struct Brought<'a> {
    /// The files of the system's classes, with those of a library or without one.
    pub(crate) system: &'a SystemFiles,
    /// The folder's word.
    pub(crate) word: &'a [u8],
    /// The names of its class files.
    pub(crate) names: Vec<&'a [u8]>,
    /// The bytes of its class files.
    pub(crate) files: Vec<&'a [u8]>,
    /// The name of the main class.
    pub(crate) main: &'a [u8],
    /// Its input.
    pub(crate) input: &'a [u8],
}

/// The names of class files.
fn names_of_files<'a>(alloc: Global, files: &'a [NamedFile]) -> Result<Vec<&'a [u8]>, AllocError>
    ensures { IfOk result (λ found. map bytes_of found.items ≡ map file_name files.now) }
{
    let mut found = Vec::new(alloc);
    for file in files {
        found.push(file.name.as_slice())?;
    }
    Ok(found)
}

/// The guest of a folder.
fn brought_by<'a>(
    alloc: Global,
    system: &'a SystemFiles,
    folder: &'a Folder<'_>,
) -> Result<Brought<'a>, AllocError>
    ensures { IfOk result (λ brought. named_guest_of brought ≡ named_guest system.now folder.now) }
{
    let names = names_of_files(alloc, folder.class_files.as_slice())?;
    let files = bytes_of_files(alloc, folder.class_files.as_slice())?;
    Ok(Brought {
        system,
        word: folder.word.as_bytes(),
        names,
        files,
        main: main_name_of(folder.main.as_slice()),
        input: folder.input.as_slice(),
    })
}

/// The guests of folders.
pub(crate) fn all_brought_by<'a>(
    alloc: Global,
    system: &'a SystemFiles,
    folders: &'a [Folder<'_>],
) -> Result<Vec<Brought<'a>>, AllocError>
    ensures { IfOk result (λ brought. map named_guest_of brought.items ≡ map (named_guest system.now) folders.now) }
{
    let mut found = Vec::new(alloc);
    for folder in folders {
        let brought = brought_by(alloc, system, folder)?;
        found.push(brought).map_err(AllocError::from)?;
    }
    Ok(found)
}

/// What the host takes of it.
pub(crate) fn guest_files<'g>(brought: &'g Brought<'_>) -> GuestFiles<'g>
    ensures { guest_of result ≡ (named_guest_of brought.now).guest }
{
    GuestFiles {
        system: brought.system,
        files: brought.files.as_slice(),
        main: brought.main,
        input: brought.input,
    }
}
