//! The report on the guests of folders, or why there is none.
ghost use Rattle.std.specs.Prelude.{◌≡◌, ◌≤◌, ℕ, false, IfErr, IfOk, List, Option, length, map, option_map, string_bytes};
ghost use Rattle.jv_program_base.specs.Outcome.{raw_bytes};
ghost use Rattle.jv_program_run.specs.Feeding.{is_no_guest};
ghost use Rattle.jv_program_run.specs.Guests.{named_guest};
ghost use Rattle.jv_host.specs.Started.{budget_of};
ghost use Rattle.jv_program_run.specs.Outcome.{AreAllowed, IsGuestsFailure, IsRunOutcome, tells_places};
ghost use Rattle.jv_program_run.specs.Json.{run_report};
ghost use Rattle.jv_program_run.specs.Report.{raw_output, run_status};
ghost use Rattle.jv_program_run.specs.Inside.Brought.{named_guest_of};
ghost use Rattle.jv_program_run.specs.Inside.Play.{HasRun, told_of};

use crate::brought::{Brought, all_brought_by};
use crate::json::run_report;
use crate::play::{play, reports_on};
use crate::report::{Report, status_after};
use crate::settings::RunSettings;
use jv_host::{Host, Watch};
use jv_loader::SystemFiles;
use jv_meaning_machine::shows_one_thing;
use jv_program_base::{Failure, Folder, Outcome};
use jv_store::Cells;
use std::alloc::{AllocError, Global};
use std::hash::RandomState;
use std::io::Read;

/// The output of the guest with a number, where one's is wanted as it is.
fn raw_output(
    alloc: Global,
    reports: &[Report<'_>],
    number: Option<u32>,
) -> Result<Option<Vec<u8>>, AllocError>
    requires { is_no_guest number (length reports.now) ≡ false }
    ensures { IfOk result (λ raw. option_map (λ bytes. bytes.items) raw ≡ raw_output number (map told_of reports.now)) }
{
    let Some(number) = number else {
        return Ok(None);
    };
    let wanted = &reports[number as usize - 1];
    Ok(Some(Vec::from_slice(alloc, wanted.seen.output)?))
}

/// Reports, what goes in their place, and the status that goes with them.
fn outcome_of(
    alloc: Global,
    reports: &[Report<'_>],
    settings: RunSettings,
) -> Result<Outcome, AllocError>
    requires { is_no_guest settings.raw (length reports.now) ≡ false }
    ensures report { IfOk result (λ outcome.
        string_bytes outcome.report ≡ run_report settings.json settings.places (map told_of reports.now)) }
    ensures raw { IfOk result (λ outcome. raw_bytes outcome ≡ raw_output settings.raw (map told_of reports.now)) }
    ensures status { IfOk result (λ outcome. outcome.status ≡ run_status (map told_of reports.now)) }
{
    let report = run_report(alloc, settings.json, settings.places, reports)?;
    let raw = raw_output(alloc, reports, settings.raw)?;
    let status = status_after(reports);
    Ok(Outcome {
        report,
        raw,
        status,
    })
}

/// Whether the report has places.
fn tells_places(settings: RunSettings) -> bool
    ensures { result ≡ tells_places settings }
{
    settings.json || settings.places
}

/// What is said of the guests of a host that has run.
fn said_of(
    alloc: Global,
    host: &Host<'_, Cells>,
    guests: &[Brought<'_>],
    settings: RunSettings,
) -> Result<Outcome, AllocError>
    requires few { length guests.now ≤ 64 }
    requires allowed { AreAllowed (budget_of settings.budget) (map named_guest_of guests.now) (length guests.now) }
    requires raw { is_no_guest settings.raw (length guests.now) ≡ false }
    requires run { (before after : Option (List ℕ)) × HasRun settings (map named_guest_of guests.now) before after host.now }
    ensures { IfOk result (λ outcome. (before after : Option (List ℕ))
        → HasRun settings (map named_guest_of guests.now) before after host.now
        → IsRunOutcome settings (map named_guest_of guests.now) before after outcome) }
{
    shows_one_thing();
    let reports = reports_on(alloc, host, guests, tells_places(settings))?;
    outcome_of(alloc, reports.as_slice(), settings)
}

/// Runs the guests of folders, and reports them.
fn run_guests<'a, I: Read, W: Watch>(
    alloc: Global,
    state: RandomState,
    settings: RunSettings,
    guests: &'a [Brought<'_>],
    input: &mut I,
    watch: &mut W,
) -> Result<Outcome, Failure>
    requires few { length guests.now ≤ 64 }
    requires fed { is_no_guest settings.stdin (length guests.now) ≡ false }
    requires raw { is_no_guest settings.raw (length guests.now) ≡ false }
    ensures ok { IfOk result
        (IsRunOutcome settings (map named_guest_of guests.now) (I.remaining input.old) (I.remaining input.new)) }
    ensures err { IfErr result
        (IsGuestsFailure settings (map named_guest_of guests.now) (I.remaining input.old) (I.remaining input.new)) }
{
    let mut host = Host::new(alloc, state);
    play(&mut host, guests, settings, input, watch)?;
    Ok(said_of(alloc, &host, guests, settings)?)
}

/// Runs the guests of folders, at most 64, in one host, each on the system's files and the library with them, and reports them in the order
/// of the folders. Names are hashed with the state. Before each round of turns, as long as a guest takes steps and until the input ends,
/// the guest with the number in the settings is fed what one read of the input gives. A watch sees the rounds. With the report goes the
/// output of the guest whose output the settings want as it is.
///
/// # Errors
///
/// `Refused` where the host does not admit a guest, with the first reason that applies to the first such guest; `StandardInput`
/// where a read of the input fails, and `FeedTooLong` where more was read for a guest than its input may have; `HostMemory` where the
/// host had no memory, and `OutOfMemory` where the program had none.
pub fn run_folders<I: Read, W: Watch>(
    alloc: Global,
    state: RandomState,
    system: &SystemFiles,
    settings: RunSettings,
    folders: &[Folder<'_>],
    input: &mut I,
    watch: &mut W,
) -> Result<Outcome, Failure>
    requires few { length folders.now ≤ 64 }
    requires fed { is_no_guest settings.stdin (length folders.now) ≡ false }
    requires raw { is_no_guest settings.raw (length folders.now) ≡ false }
    ensures ok { IfOk result
        (IsRunOutcome settings (map (named_guest system.now) folders.now) (I.remaining input.old) (I.remaining input.new)) }
    ensures err { IfErr result
        (IsGuestsFailure settings (map (named_guest system.now) folders.now) (I.remaining input.old) (I.remaining input.new)) }
{
    let guests = all_brought_by(alloc, system, folders)?;
    run_guests(alloc, state, settings, guests.as_slice(), input, watch)
}
