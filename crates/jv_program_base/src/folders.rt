//! Folders and files, by their paths.
ghost use Rattle.std.specs.Prelude.{◌≡◌, ◌≤◌, ◌<◌, ◌+◌, ◌^◌, ◌⊎◌, None, Option, IfErr, IfOk, vec_len};
ghost use Rattle.std.specs.IoError.{error_kind};
ghost use Rattle.jv_program_base.specs.Disk.{Disk, IsListedAt, IsReadAt, LacksFile, LacksFolder};

use crate::file::read_past_limit;
use std::alloc::Global;
use std::io;
use std::io::{Error, ErrorKind};
use std::rt::Files;

/// Where folders and files are read from, by their paths.
pub trait Folders {
    /// The files and folders that there are, and whether they can be read, where that is known.
    ghost disk: { Self → Option Disk };

    /// Reads the file at a path, to its end or one byte past the limit.
    fn read_file(&mut self, alloc: Global, path: &[u8], limit: usize) -> io::Result<Vec<u8>>
        requires { limit + 2 < 2 ^ 64 }
        ensures most { IfOk result (λ bytes. vec_len bytes ≤ limit + 1) }
        ensures read { IfOk result (λ bytes. IsReadAt (disk self.old) path.now limit bytes.items) }
        ensures lacks { IfErr result (λ error.
            (error_kind error ≡ ErrorKind.OutOfMemory) ⊎ LacksFile (disk self.old) path.now) }
        ensures disk { disk self.new ≡ disk self.old };

    /// Reads the names in the folder at a path, which ends in a slash, each ended by a NUL: all of that, or one byte more than the limit.
    fn list_folder(&mut self, alloc: Global, path: &[u8], limit: usize) -> io::Result<Vec<u8>>
        requires { limit + 2 < 2 ^ 64 }
        ensures most { IfOk result (λ listing. vec_len listing ≤ limit + 1) }
        ensures listed { IfOk result (λ listing. IsListedAt (disk self.old) path.now limit listing.items) }
        ensures lacks { IfErr result (λ error.
            (error_kind error ≡ ErrorKind.OutOfMemory) ⊎ LacksFolder (disk self.old) path.now) }
        ensures disk { disk self.new ≡ disk self.old };
}

/// The folders and files of the system, of which nothing is known before they are read. A path that isn't UTF-8 can't be read.
#[derive(Clone, Copy)]
pub struct SystemFolders<'a, R>(pub &'a R);

impl<R: Files> Folders for SystemFolders<'_, R> {
    ghost disk = { λ _. None };

    fn read_file(&mut self, alloc: Global, path: &[u8], limit: usize) -> io::Result<Vec<u8>> {
        let Ok(path) = std::str::from_utf8(path) else {
            return Err(Error::from(ErrorKind::InvalidFilename));
        };
        let mut file = std::fs::open(self.0, path)?;
        read_past_limit(alloc, &mut file, limit)
    }

    fn list_folder(&mut self, alloc: Global, path: &[u8], limit: usize) -> io::Result<Vec<u8>> {
        let Ok(path) = std::str::from_utf8(path) else {
            return Err(Error::from(ErrorKind::InvalidFilename));
        };
        let mut listing = self.0.open_dir(path)?;
        read_past_limit(alloc, &mut listing, limit)
    }
}
