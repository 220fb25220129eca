//! What the files of a guest may be.

ghost use Rattle.std.specs.Prelude.{◌≡◌, ◌==◌, map, nat_lt, length};
ghost use Rattle.std.specs.List.{list_any};
ghost use Rattle.jv_limits.specs.Bytes.{bytes_of};
ghost use Rattle.jv_limits.specs.FileLimits.{first_file_refusal, is_long_file};

use crate::fault::AdmitFault;

/// The most files of a guest.
const FILES: usize = 1_024;

/// The most bytes of a file.
const FILE_BYTES: usize = 4_194_304;

/// Whether a file is longer than a file may be.
fn is_long_file(file: &[u8]) -> bool
    ensures { result ≡ is_long_file file.now }
{
    file.len() > FILE_BYTES
}

/// Whether there is a file longer than a file may be.
fn any_long_file(files: &[&[u8]]) -> bool
    ensures { result ≡ list_any (λ file. is_long_file file.now) files.now }
{
    files.iter().any(|file| is_long_file(file))
}

fn has_no_files(files: &[&[u8]]) -> bool
    ensures { result ≡ (length (map bytes_of files.now) == 0) }
{
    files.is_empty()
}

fn has_too_many_files(files: &[&[u8]]) -> bool
    ensures { result ≡ nat_lt 1024 (length (map bytes_of files.now)) }
{
    files.len() > FILES
}

#[tactic(auto, using(crate::proofs::LongFiles::any_long_file))]
fn has_long_file(files: &[&[u8]]) -> bool
    ensures { result ≡ list_any is_long_file (map bytes_of files.now) }
{
    any_long_file(files)
}

/// The first reason to refuse files: there are 1 to 1,024 of a guest, each of at most 4,194,304 bytes.
pub fn first_file_refusal(files: &[&[u8]]) -> Option<AdmitFault>
    ensures { result ≡ first_file_refusal (map bytes_of files.now) }
{
    if has_no_files(files) {
        Some(AdmitFault::NoFiles)
    } else if has_too_many_files(files) {
        Some(AdmitFault::TooManyFiles)
    } else if has_long_file(files) {
        Some(AdmitFault::FileTooLong)
    } else {
        None
    }
}
