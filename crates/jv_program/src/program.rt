//! The program: what words ask for is done, and told.
ghost use Rattle.std.specs.Prelude.{◌≡◌, ℕ, false, List, Option, IfErr, IfOk, IsOk, IsTrue, map, string_bytes};
ghost use Rattle.jv_program_base.specs.Disk.{Disk};
ghost use Rattle.jv_program_base.specs.Failure.{failure_line};
ghost use Rattle.jv_program_base.specs.declared.failure.Failure.{Failure};
ghost use Rattle.jv_program_words.specs.Settings.{IsAskedIn, text_of};
ghost use Rattle.jv_limits.specs.Bytes.{bytes_of};
ghost use Rattle.jv_program_check.specs.Named.{IsNamedFailure};
ghost use Rattle.jv_program_explain.specs.Named.{IsExplainedAs};
ghost use Rattle.jv_program_run.specs.Named.{AreTaken, IsRunAs, IsRunFailure};
ghost use Rattle.jv_program.specs.Command.{AskForCompany, HasEnded, IsBegun, IsReport, explain_settings_of, settings_of, streams};
ghost use Rattle.jv_program.specs.Inside.Stops.{IsCarriedOut, IsEarly};
ghost use Rattle.jv_program.specs.Status.{IsAsked, output_line};
ghost use Rattle.jv_program.specs.Written.{IsWritten};
ghost use Rattle.jv_program.specs.declared.stop.Stop.TheVariants.{Output, Run};

use crate::progress::Company;
use crate::sink::{Lost, Sink};
use crate::stop::{Stop, status_of, stop_of};
use crate::telling::tell_failure;
use crate::written::{tell_beside, write_bytes, write_report};
use jv_program_base::{Failure, Folders, Outcome};
use jv_program_check::check_named;
use jv_program_explain::{ExplainSettings, explain_named};
use jv_program_run::{Budget, RunSettings, Unwatched, run_named};
use jv_program_words::{ExplainOptions, RunOptions, Settings, settings};
use std::alloc::Global;
use std::hash::RandomState;
use std::io::Read;

/// The settings with these options.
fn settings_of(options: RunOptions) -> RunSettings
    ensures { result ≡ settings_of options }
{
    RunSettings {
        budget: Budget {
            cells: options.cells,
            words: options.words,
            output: options.output,
        },
        quantum: options.quantum,
        rounds: options.rounds,
        stdin: options.stdin,
        raw: options.raw,
        json: options.json,
        places: options.places,
    }
}

/// The settings of an explanation with these options.
fn explain_settings_of(options: ExplainOptions) -> ExplainSettings
    ensures { result ≡ explain_settings_of options }
{
    ExplainSettings {
        json: options.json,
        links: options.links,
        frames: options.frames,
    }
}

/// What words ask for.
fn asked<'a>(alloc: Global, words: &'a [String]) -> Result<Settings<'a>, Stop>
    ensures ok { IfOk result (IsAskedIn (map string_bytes words.now)) }
    ensures err { IfErr result (λ stop.
        (disk : Option Disk) (input : Option (List ℕ)) → IsEarly disk (map string_bytes words.now) input input stop) }
{
    match settings(alloc, words) {
        Ok(settings) => Ok(settings),
        Err(error) => Err(stop_of(error)),
    }
}

/// Runs the guests of folders with these options. Company is told of it as far as the options say.
fn run_for<F: Folders, I: Read, P: Company>(
    alloc: Global,
    state: RandomState,
    options: RunOptions,
    library: Option<&str>,
    named: &[&str],
    folders: &mut F,
    input: &mut I,
    company: &mut P,
) -> Result<Outcome, Failure>
    ensures ok { IfOk result (IsRunAs (F.disk folders.old) (settings_of options) (text_of library.entry) (map bytes_of named.now)
        (I.remaining input.old) (I.remaining input.new)) }
    ensures err { IfErr result (IsRunFailure (F.disk folders.old) (settings_of options) (text_of library.entry) (map bytes_of named.now)
        (I.remaining input.old) (I.remaining input.new)) }
    ensures unread { (AreTaken (settings_of options) (map bytes_of named.now) → ⊥) → folders.new ≡ folders.old }
    ensures alone { options.progress ≡ false → options.time ≡ false → company.new ≡ company.old }
{
    let settings = settings_of(options);
    if options.time {
        company.want_time();
    }
    if options.progress {
        let made = run_named(
            alloc, state, settings, library, named, folders, input, company,
        );
        company.end();
        made
    } else {
        let unwatched = &mut Unwatched;
        run_named(
            alloc, state, settings, library, named, folders, input, unwatched,
        )
    }
}

/// Explains the verdicts on files with these options.
fn explain_for<F: Folders>(
    alloc: Global,
    state: RandomState,
    options: ExplainOptions,
    library: Option<&str>,
    names: &[&str],
    folders: &mut F,
) -> Result<Outcome, Failure>
    ensures ok { IfOk result (IsExplainedAs (F.disk folders.old) (explain_settings_of options) (text_of library.entry)
        (map bytes_of names.now)) }
    ensures err { IfErr result (IsNamedFailure (F.disk folders.old) (text_of library.entry) (map bytes_of names.now)) }
{
    let settings = explain_settings_of(options);
    explain_named(alloc, state, settings, library, names, folders)
}

/// Makes the report that words ask for. Company is told of a run as far as they say.
fn outcome_for<F: Folders, I: Read, P: Company>(
    alloc: Global,
    state: RandomState,
    words: &[String],
    folders: &mut F,
    input: &mut I,
    company: &mut P,
) -> Result<Outcome, Stop>
    ensures ok { IfOk result (IsReport (F.disk folders.old) (map string_bytes words.now) (I.remaining input.old) (I.remaining input.new)) }
    ensures err { IfErr result (IsEarly (F.disk folders.old) (map string_bytes words.now) (I.remaining input.old) (I.remaining input.new)) }
    ensures unread { (IsBegun (map string_bytes words.now) → ⊥) → folders.new ≡ folders.old }
    ensures alone { (AskForCompany (map string_bytes words.now) → ⊥) → company.new ≡ company.old }
{
    match asked(alloc, words)? {
        Settings::Run(options, library, named) => {
            let named = named.as_slice();
            Ok(run_for(
                alloc, state, options, library, named, folders, input, company,
            )?)
        }
        Settings::Check(json, library, names) => Ok(check_named(
            alloc,
            state,
            json,
            library,
            names.as_slice(),
            folders,
        )?),
        Settings::Explain(options, library, names) => Ok(explain_for(
            alloc,
            state,
            options,
            library,
            names.as_slice(),
            folders,
        )?),
    }
}

/// Does what words say, and writes the report, or what goes in its place, and the report with the errors.
fn carry_out<F: Folders, I: Read, O: Sink, E: Sink, P: Company>(
    alloc: Global,
    state: RandomState,
    words: &[String],
    folders: &mut F,
    input: &mut I,
    out: &mut O,
    err: &mut E,
    company: &mut P,
) -> Result<Outcome, Stop>
    ensures carried { IsCarriedOut (F.disk folders.old) O.SURE E.SURE (map string_bytes words.now)
        (streams (I.remaining input.old) (O.contents out.old) (E.contents err.old))
        (streams (I.remaining input.new) (O.contents out.new) (E.contents err.new)) result }
    ensures unread { (IsBegun (map string_bytes words.now) → ⊥) → folders.new ≡ folders.old }
    ensures alone { (AskForCompany (map string_bytes words.now) → ⊥) → company.new ≡ company.old }
{
    let made = outcome_for(alloc, state, words, folders, input, company);
    let outcome = made?;
    tell_beside(err, &outcome);
    write_report(out, outcome)
}

/// Tells why there is no report, or not the whole of it: where the words ask for help or the version with the output, and else with the
/// errors.
///
/// # Errors
///
/// Where a write fails.
pub fn tell<O: Sink, E: Sink>(stop: &Stop, out: &mut O, err: &mut E) -> Result<(), Lost>
    ensures quiet { (IsAsked stop.now → ⊥) → out.new ≡ out.old }
    ensures calm { IsAsked stop.now → err.new ≡ err.old }
    ensures failure { (failure : Failure) → stop.now ≡ Run failure
        → IsWritten result (E.contents err.old) (E.contents err.new) (failure_line failure) }
    ensures output { stop.now ≡ Output → IsWritten result (E.contents err.old) (E.contents err.new) output_line }
    ensures sure { (IsAsked stop.now → ⊥) → IsTrue E.SURE → IsOk result }
{
    match stop {
        Stop::CommandLine(error) => {
            if error.use_stderr() {
                err.tell(error)
            } else {
                out.tell(error)
            }
        }
        Stop::Run(failure) => tell_failure(err, failure),
        Stop::Output => write_bytes(err, b"jvhost: output\n"),
    }
}

/// Does what words say, of which the first is the program's name, and answers the status that the program ends with: runs the guests of
/// folders, checks class files, or explains the verdicts on them, and writes the report, or what a guest wrote where the words want that as
/// it is, and the report with the errors. Names are hashed with the state. What there is in place of a report is told with the errors, and
/// what words ask for of the program itself with the output; where that can't be written, the status is the same.
pub fn command<F: Folders, I: Read, O: Sink, E: Sink>(
    alloc: Global,
    state: RandomState,
    words: &[String],
    folders: &mut F,
    input: &mut I,
    out: &mut O,
    err: &mut E,
) -> u8
    ensures ended { HasEnded (F.disk folders.old) O.SURE E.SURE (map string_bytes words.now)
        (streams (I.remaining input.old) (O.contents out.old) (E.contents err.old))
        (streams (I.remaining input.new) (O.contents out.new) (E.contents err.new)) result }
    ensures unread { (IsBegun (map string_bytes words.now) → ⊥) → folders.new ≡ folders.old }
{
    command_watched(
        alloc,
        state,
        words,
        folders,
        input,
        out,
        err,
        &mut Unwatched,
    )
}

/// Does what `command` does, and tells company of a run as far as the words say.
pub fn command_watched<F: Folders, I: Read, O: Sink, E: Sink, P: Company>(
    alloc: Global,
    state: RandomState,
    words: &[String],
    folders: &mut F,
    input: &mut I,
    out: &mut O,
    err: &mut E,
    company: &mut P,
) -> u8
    ensures ended { HasEnded (F.disk folders.old) O.SURE E.SURE (map string_bytes words.now)
        (streams (I.remaining input.old) (O.contents out.old) (E.contents err.old))
        (streams (I.remaining input.new) (O.contents out.new) (E.contents err.new)) result }
    ensures unread { (IsBegun (map string_bytes words.now) → ⊥) → folders.new ≡ folders.old }
    ensures alone { (AskForCompany (map string_bytes words.now) → ⊥) → company.new ≡ company.old }
{
    let end = carry_out(alloc, state, words, folders, input, out, err, company);
    if let Err(stop) = &end {
        let _ = tell(stop, out, err);
    }
    status_of(&end)
}
