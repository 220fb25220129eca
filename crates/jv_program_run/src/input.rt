//! The standard input as a guest's own.
ghost use Rattle.std.specs.Prelude.{◌≡◌, ◌≢◌, ℕ, false, IfErr, List, None, OnOk, length, map};
ghost use Rattle.jv_program_run.specs.Guests.{named_guest};
ghost use Rattle.jv_program_run.specs.Named.{AreReady, IsInputFailure, IsReadBehind, lacks_guest, reads_all};

use crate::settings::RunSettings;
use jv_program_base::{Failure, Folder, read_past_limit};
use std::alloc::Global;
use std::io::{ErrorKind, Read};

/// The most bytes of input that a guest may have.
const INPUT_LIMIT: usize = 16_777_216;

/// The number of the guest that has all of the standard input before it runs, where one has: that whose output is wanted as it is, where
/// none is fed.
fn reads_all(settings: RunSettings) -> Option<u32>
    ensures { result ≡ reads_all settings }
{
    match settings.stdin {
        Some(_) => None,
        None => settings.raw,
    }
}

/// Reads the standard input to its end, or one byte past what a guest may have of it, and puts that behind the input of a folder.
fn read_behind<I: Read>(
    alloc: Global,
    folder: &mut Folder<'_>,
    input: &mut I,
) -> Result<(), Failure>
    ensures ok { (library : List (List ℕ)) → OnOk result (IsReadBehind (named_guest library folder.old) (named_guest library folder.new)
        (I.remaining input.old) (I.remaining input.new)) }
    ensures err { IfErr result IsInputFailure }
{
    let bytes = match read_past_limit(alloc, input, INPUT_LIMIT) {
        Ok(bytes) => bytes,
        Err(error) if error.kind() == ErrorKind::OutOfMemory => return Err(Failure::OutOfMemory),
        Err(_) => return Err(Failure::StandardInput),
    };
    folder.input.extend_from_slice(bytes.as_slice())?;
    Ok(())
}

/// Reads all of the standard input for the guest that has it before it runs, where one has; else nothing is read.
///
/// # Errors
///
/// `StandardInput` where a read fails, and `OutOfMemory` where the program had no memory for what was read.
pub(crate) fn read_input<I: Read>(
    alloc: Global,
    settings: RunSettings,
    folders: &mut [Folder<'_>],
    input: &mut I,
) -> Result<(), Failure>
    requires { lacks_guest settings (length folders.old) ≡ false }
    ensures ok { (library : List (List ℕ)) → OnOk result (AreReady (reads_all settings) (map (named_guest library) folders.old)
        (map (named_guest library) folders.new) (I.remaining input.old) (I.remaining input.new)) }
    ensures count { length folders.new ≡ length folders.old }
    ensures err { IfErr result (λ failure. IsInputFailure failure × (reads_all settings ≢ None)) }
{
    let Some(number) = reads_all(settings) else {
        return Ok(());
    };
    read_behind(alloc, &mut folders[number as usize - 1], input)
}
