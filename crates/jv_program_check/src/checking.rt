//! The verdicts on files, and what is said of them.
ghost use Rattle.std.specs.Prelude.{◌≡◌, IfErr, IfOk, None, OnOk, length, map, string_bytes};
ghost use Rattle.std.specs.List.{list_all};
ghost use Rattle.jv_limits.specs.Bytes.{bytes_of};
ghost use Rattle.jv_limits.specs.FileLimits.{first_file_refusal};
ghost use Rattle.jv_verify.specs.Files.{HostStands};
ghost use Rattle.jv_program_check.specs.Check.{IsChecked, IsCheckFailure, IsHostFailure, IsNotStanding};
ghost use Rattle.jv_program_check.specs.Text.{check_report, check_status, is_accepted};

use crate::report::Lines;
use jv_json::{file_values, json_lines};
use jv_limits::first_file_refusal;
use jv_loader::SystemFiles;
use jv_meaning_typing::Verdict;
use jv_program_base::{Failure, Outcome, ShownVerdict};
use jv_verify::{Verified, verify_files};
use std::alloc::{AllocError, Global};
use std::hash::RandomState;

/// Whether a file is accepted.
fn is_accepted(verdict: Verdict) -> bool
    ensures { result ≡ is_accepted verdict }
{
    matches!(verdict, Verdict::Accepted)
}

/// Whether each file is accepted.
fn are_accepted(verdicts: &[Verdict]) -> bool
    ensures { result ≡ list_all is_accepted verdicts.now }
{
    verdicts.iter().all(|verdict| is_accepted(*verdict))
}

/// The status that goes with verdicts.
pub fn status_of(verdicts: &[Verdict]) -> u8
    ensures { result ≡ check_status verdicts.now }
{
    if are_accepted(verdicts) { 0 } else { 1 }
}

/// Finds that each class that the host gives is accepted beside a guest's files.
///
/// # Errors
///
/// `LibraryRefused` with the name of the first that isn't, and its verdict.
pub fn stand(alloc: Global, state: RandomState, verified: &Verified<'_>) -> Result<(), Failure>
    ensures ok { OnOk result (HostStands verified.now) }
    ensures err { IfErr result (IsNotStanding verified.now) }
{
    let Ok(broken) = verified.first_broken(alloc, state) else {
        return Err(Failure::HostMemory);
    };
    let Some((class, verdict)) = broken else {
        return Ok(());
    };
    // That the number is one of a class is known by this call.
    let _count = verified.host_count();
    let name = verified.classes().table().classes()[class].name();
    let name = Vec::from_slice(alloc, name)?;
    let reason = ShownVerdict(verdict).to_string(alloc)?;
    Err(Failure::LibraryRefused(name, reason))
}

/// The report on files of these names with these verdicts, in JSON or not.
fn report_of(
    alloc: Global,
    json: bool,
    names: &[&[u8]],
    verdicts: &[Verdict],
) -> Result<String, AllocError>
    ensures { IfOk result (λ report. string_bytes report ≡ check_report json (map bytes_of names.now) verdicts.now) }
{
    if json {
        let values = file_values(alloc, names, verdicts)?;
        json_lines(alloc, values.as_slice())
    } else {
        Lines { names, verdicts }.to_string(alloc)
    }
}

/// What is said of files of these names with these verdicts.
fn outcome_of(
    alloc: Global,
    json: bool,
    names: &[&[u8]],
    verdicts: &[Verdict],
) -> Result<Outcome, AllocError>
    ensures report { IfOk result (λ outcome.
        string_bytes outcome.report ≡ check_report json (map bytes_of names.now) verdicts.now) }
    ensures raw { IfOk result (λ outcome. outcome.raw ≡ None) }
    ensures status { IfOk result (λ outcome. outcome.status ≡ check_status verdicts.now) }
{
    let report = report_of(alloc, json, names, verdicts)?;
    let status = status_of(verdicts);
    Ok(Outcome {
        report,
        raw: None,
        status,
    })
}

/// The verdicts on the files of one guest, and what is said of them.
fn checked(
    alloc: Global,
    state: RandomState,
    system: &SystemFiles,
    json: bool,
    names: &[&[u8]],
    files: &[&[u8]],
) -> Result<Outcome, Failure>
    requires { first_file_refusal (map bytes_of files.now) ≡ None }
    ensures ok { IfOk result (IsChecked json system.now (map bytes_of names.now) (map bytes_of files.now)) }
    ensures err { IfErr result (IsHostFailure system.now (map bytes_of files.now)) }
{
    let Ok(verified) = verify_files(alloc, state, system, files) else {
        return Err(Failure::HostMemory);
    };
    stand(alloc, state, &verified)?;
    Ok(outcome_of(alloc, json, names, verified.verdicts())?)
}

/// Takes files of these names, as many as there are files, as those of one guest, runs nothing, and says of each what its verdict is beside
/// the system's classes and a library's, in JSON or not.
///
/// # Errors
///
/// `Refused` where there are no files, more than 1,024, or one of more than 4,194,304 bytes; else `LibraryRefused` where a class of the
/// library, or one that it lends to, is not accepted beside them, with its name and verdict; `HostMemory` where the host had no memory for
/// the classes, and `OutOfMemory` where the program had none for the text.
pub fn check_files(
    alloc: Global,
    state: RandomState,
    system: &SystemFiles,
    json: bool,
    names: &[&[u8]],
    files: &[&[u8]],
) -> Result<Outcome, Failure>
    requires { length names.now ≡ length files.now }
    ensures ok { IfOk result (IsChecked json system.now (map bytes_of names.now) (map bytes_of files.now)) }
    ensures err { IfErr result (IsCheckFailure system.now (map bytes_of files.now)) }
{
    if let Some(fault) = first_file_refusal(files) {
        return Err(Failure::Refused(fault));
    }
    checked(alloc, state, system, json, names, files)
}
