//! The verdicts on files, and what is said of them.
ghost use Rattle.std.specs.Prelude.{◌≡◌, IfErr, IfOk, None, length, map, string_bytes};
ghost use Rattle.jv_limits.specs.Bytes.{bytes_of};
ghost use Rattle.jv_limits.specs.FileLimits.{first_file_refusal};
ghost use Rattle.jv_program_check.specs.Check.{IsCheckFailure, IsHostFailure};
ghost use Rattle.jv_program_check.specs.Text.{check_status};
ghost use Rattle.jv_program_explain.specs.Explain.{IsExplained};
ghost use Rattle.jv_program_explain.specs.Text.{explain_report};

use crate::lines::lines_of;
use crate::report::Parts;
use crate::said::said_of;
use crate::settings::ExplainSettings;
use jv_json::{explained_values, json_lines};
use jv_limits::first_file_refusal;
use jv_loader::SystemFiles;
use jv_meaning_typing::Verdict;
use jv_program_base::{Failure, Outcome};
use jv_program_check::{stand, status_of};
use jv_verify::verify_files;
use std::alloc::{AllocError, Global};
use std::hash::RandomState;

/// The report on files of these names with these verdicts, lines of source and what is said of them, in JSON or not.
fn report_of(
    alloc: Global,
    json: bool,
    names: &[&[u8]],
    verdicts: &[Verdict],
    lines: &[Option<u16>],
    said: &[String],
) -> Result<String, AllocError>
    ensures { IfOk result (λ report.
        string_bytes report ≡ explain_report json (map bytes_of names.now) verdicts.now lines.now (map string_bytes said.now)) }
{
    if json {
        let values = explained_values(alloc, names, verdicts, lines, said)?;
        json_lines(alloc, values.as_slice())
    } else {
        let parts = Parts {
            names,
            verdicts,
            said,
        };
        parts.to_string(alloc)
    }
}

/// What is said of files of these names with these verdicts and lines of source.
fn outcome_of(
    alloc: Global,
    json: bool,
    names: &[&[u8]],
    verdicts: &[Verdict],
    lines: &[Option<u16>],
    said: &[String],
) -> Result<Outcome, AllocError>
    ensures report { IfOk result (λ outcome.
        string_bytes outcome.report ≡ explain_report json (map bytes_of names.now) verdicts.now lines.now (map string_bytes said.now)) }
    ensures raw { IfOk result (λ outcome. outcome.raw ≡ None) }
    ensures status { IfOk result (λ outcome. outcome.status ≡ check_status verdicts.now) }
{
    let report = report_of(alloc, json, names, verdicts, lines, said)?;
    let status = status_of(verdicts);
    Ok(Outcome {
        report,
        raw: None,
        status,
    })
}

/// The verdicts on the files of one guest, and what is said of them, as they are printed.
fn explained(
    alloc: Global,
    state: RandomState,
    system: &SystemFiles,
    settings: ExplainSettings,
    names: &[&[u8]],
    files: &[&[u8]],
) -> Result<Outcome, Failure>
    requires { first_file_refusal (map bytes_of files.now) ≡ None }
    ensures ok { IfOk result (IsExplained settings system.now (map bytes_of names.now) (map bytes_of files.now)) }
    ensures err { IfErr result (IsHostFailure system.now (map bytes_of files.now)) }
{
    let Ok(verified) = verify_files(alloc, state, system, files) else {
        return Err(Failure::HostMemory);
    };
    stand(alloc, state, &verified)?;
    let said = said_of(alloc, state, settings, &verified, files)?;
    let verdicts = verified.verdicts();
    let lines = lines_of(alloc, files, verdicts)?;
    Ok(outcome_of(
        alloc,
        settings.json,
        names,
        verdicts,
        lines.as_slice(),
        said.as_slice(),
    )?)
}

/// Takes files of these names, as many as there are files, as those of one guest, runs nothing, and says of each what its verdict is beside
/// the system's classes and a library's, of a method that breaks a rule where and which, and as far as the settings ask for it the
/// instructions below, each with the frame before it (JVMS 4.10.1.6), of a class that is accepted so its methods, and which references of
/// theirs don't resolve (5.4.3), in JSON or not.
///
/// # Errors
///
/// `Refused` where there are no files, more than 1,024, or one of more than 4,194,304 bytes; else `LibraryRefused` where a class of the
/// library, or one that it lends to, is not accepted beside them, with its name and verdict; `HostMemory` where the host had no memory for
/// the classes, and `OutOfMemory` where the program had none for the text.
pub fn explain_files(
    alloc: Global,
    state: RandomState,
    system: &SystemFiles,
    settings: ExplainSettings,
    names: &[&[u8]],
    files: &[&[u8]],
) -> Result<Outcome, Failure>
    requires { length names.now ≡ length files.now }
    ensures ok { IfOk result (λ outcome.
        IsExplained settings system.now (map bytes_of names.now) (map bytes_of files.now) outcome) }
    ensures err { IfErr result (λ failure. IsCheckFailure system.now (map bytes_of files.now) failure) }
{
    if let Some(fault) = first_file_refusal(files) {
        return Err(Failure::Refused(fault));
    }
    explained(alloc, state, system, settings, names, files)
}
