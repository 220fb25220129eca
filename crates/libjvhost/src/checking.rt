//! The verdicts on files beside what a host gives, and nothing runs.

ghost use Rattle.std.specs.Prelude.{◌≡◌, ◌≢◌, [], IfSome, map};
ghost use Rattle.jv_limits.specs.Bytes.{bytes_of};
ghost use Rattle.libjvhost.specs.Calls.{check_refusal};
ghost use Rattle.libjvhost.specs.Codes.{library_broken};
ghost use Rattle.libjvhost.specs.Inside.Jobs.{ChecksSo, VerifiesSo};
ghost use Rattle.libjvhost.specs.Told.{told_verdict};

use crate::codes::{HOST_MEMORY, LIBRARY_BROKEN, NO_ROOM, OK, admit_code};
use crate::done::{Done, coded};
use crate::told::{ToldVerdict, told_verdict};
use jv_host::KnownLibrary;
use jv_limits::first_file_refusal;
use jv_loader::SystemFiles;
use jv_verify::{Verified, verify_files};
use std::alloc::Global;
use std::hash::RandomState;

/// Verdicts as they are told.
fn listed(alloc: Global, verified: &Verified<'_>) -> Option<Vec<ToldVerdict>>
    ensures { IfSome result (λ told. told.items ≡ map told_verdict verified.now.verdicts) }
{
    let mut told = Vec::new(alloc);
    for file in 0..verified.file_count() {
        let Ok(()) = told.push(told_verdict(verified.verdict(file))) else {
            return None;
        };
    }
    Some(told)
}

/// The first reason not to judge files whose verdicts have this room, `OK` where there is none.
pub(crate) fn check_refusal(files: &[&[u8]], room: usize) -> u32
    ensures { result ≡ check_refusal (map bytes_of files.now) room }
{
    if let Some(fault) = first_file_refusal(files) {
        return admit_code(fault);
    }
    if room < files.len() { NO_ROOM } else { OK }
}

/// Tells the verdicts on the files of one guest, beside those that a host gives.
fn verify_beside<'a>(
    alloc: Global,
    state: RandomState,
    system: &'a SystemFiles,
    known: &mut KnownLibrary<'a>,
    files: &[&[u8]],
) -> Done
    ensures so { VerifiesSo system.now (map bytes_of files.now) result }
    ensures whole { system.now ≡ [] → result.code ≢ library_broken }
{
    let Ok(verified) = verify_files(alloc, state, system, files) else {
        return coded(alloc, HOST_MEMORY);
    };
    let Ok(stands) = known.stands(alloc, state, system, &verified) else {
        return coded(alloc, HOST_MEMORY);
    };
    if !stands {
        return coded(alloc, LIBRARY_BROKEN);
    }
    let Some(verdicts) = listed(alloc, &verified) else {
        return coded(alloc, HOST_MEMORY);
    };
    let mut done = coded(alloc, OK);
    done.verdicts = verdicts;
    done
}

/// The same of files that may be refused, where there is room for so many verdicts.
pub(crate) fn check<'a>(
    alloc: Global,
    state: RandomState,
    system: &'a SystemFiles,
    known: &mut KnownLibrary<'a>,
    files: &[&[u8]],
    room: usize,
) -> Done
    ensures so { ChecksSo system.now (map bytes_of files.now) room result }
    ensures whole { system.now ≡ [] → result.code ≢ library_broken }
{
    let refusal = check_refusal(files, room);
    if refusal != OK {
        return coded(alloc, refusal);
    }
    verify_beside(alloc, state, system, known, files)
}
