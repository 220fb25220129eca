//! Guests in a host, and their turns.
ghost use Rattle.std.specs.Prelude.{◌≡◌, ◌≤◌, ◌<◌, ◌+◌, [], false, IfErr, IfOk, IsSome, OnOk, length, map, slice_get};
ghost use Rattle.jv_host.specs.Showing.{observed_of};
ghost use Rattle.jv_host.specs.Started.{budget_of};
ghost use Rattle.jv_host.specs.Calls.{IsShown, NoneRuns};
ghost use Rattle.jv_program_run.specs.Feeding.{is_no_guest};
ghost use Rattle.jv_program_run.specs.Inside.Brought.{named_guest_of};
ghost use Rattle.jv_program_run.specs.Inside.Play.{AreReportsOn, HasRun, IsAdmitFailure, IsFeedingFailure, IsReportOf, at_start, told_of};
ghost use Rattle.jv_program_run.specs.Inside.Turns.{AreAtStart, NoneFed, PlayedSince, SomeWent};
ghost use Rattle.jv_program_run.specs.Outcome.{AreAllowed, IsGuestsFailure};

use crate::brought::{Brought, guest_files};
use crate::feeding::run_fed;
use crate::in_file::in_file;
use crate::report::Report;
use crate::rounds::run_rounds;
use crate::settings::RunSettings;
use jv_host::{Budget, GuestId, Host, Observation, Watch};
use jv_meaning_machine::shows_one_thing;
use jv_program_base::Failure;
use jv_store::Cells;
use std::alloc::{AllocError, Global};
use std::io::Read;

/// Admits guests to a host without guests, in their order.
fn admit_all<'a>(
    host: &mut Host<'a, Cells>,
    guests: &'a [Brought<'_>],
    budget: Budget,
) -> Result<(), Failure>
    requires { host.old ≡ [] }
    ensures ok { OnOk result (host.new ≡ map (at_start (budget_of budget)) (map named_guest_of guests.now)) }
    ensures allowed { OnOk result (AreAllowed (budget_of budget) (map named_guest_of guests.now) (length guests.now)) }
    ensures err { IfErr result (IsAdmitFailure (budget_of budget) (map named_guest_of guests.now)) }
{
    for guest in guests {
        host.admit(guest_files(guest), budget)?;
    }
    Ok(())
}

/// Gives the guests of a host, each of which is at its start, their turns. Answers how many rounds there were.
fn run_unfed<W: Watch>(host: &mut Host<'_, Cells>, settings: RunSettings, watch: &mut W) -> u32
    requires start { AreAtStart host.old }
    ensures few { result ≤ settings.rounds }
    ensures played { PlayedSince settings.quantum result host.old host.new }
    ensures none { NoneFed host.new }
    ensures full { result < settings.rounds → NoneRuns host.new }
    ensures needed { 1 ≤ settings.quantum → SomeWent settings.quantum result host.new }
{
    shows_one_thing();
    run_rounds(host, settings, watch)
}

/// Gives the guests of a host their turns, and feeds one of them what is read where the settings say so.
fn run_all<I: Read, W: Watch>(
    host: &mut Host<'_, Cells>,
    guests: &[Brought<'_>],
    settings: RunSettings,
    input: &mut I,
    watch: &mut W,
) -> Result<(), Failure>
    requires few { length guests.now ≤ 64 }
    requires start { host.old ≡ map (at_start (budget_of settings.budget)) (map named_guest_of guests.now) }
    requires fed { is_no_guest settings.stdin (length guests.now) ≡ false }
    ensures ok { OnOk result
        (HasRun settings (map named_guest_of guests.now) (I.remaining input.old) (I.remaining input.new) host.new) }
    ensures err { IfErr result
        (IsFeedingFailure settings (map named_guest_of guests.now) (I.remaining input.old) (I.remaining input.new)) }
{
    shows_one_thing();
    let Some(number) = settings.stdin else {
        let _rounds = run_unfed(host, settings, watch);
        return Ok(());
    };
    let id = GuestId(number - 1);
    let _rounds = run_fed(host, id, settings, input, watch)?;
    Ok(())
}

/// Admits guests to a host without guests, in their order, and gives them their turns.
pub(crate) fn play<'a, I: Read, W: Watch>(
    host: &mut Host<'a, Cells>,
    guests: &'a [Brought<'_>],
    settings: RunSettings,
    input: &mut I,
    watch: &mut W,
) -> Result<(), Failure>
    requires empty { host.old ≡ [] }
    requires few { length guests.now ≤ 64 }
    requires fed { is_no_guest settings.stdin (length guests.now) ≡ false }
    ensures ok { OnOk result
        (HasRun settings (map named_guest_of guests.now) (I.remaining input.old) (I.remaining input.new) host.new) }
    ensures allowed { OnOk result
        (AreAllowed (budget_of settings.budget) (map named_guest_of guests.now) (length guests.now)) }
    ensures err { IfErr result
        (IsGuestsFailure settings (map named_guest_of guests.now) (I.remaining input.old) (I.remaining input.new)) }
{
    admit_all(host, guests, settings.budget)?;
    run_all(host, guests, settings, input, watch)
}

/// What a guest of the host shows.
pub(crate) fn observation_of<'h>(host: &'h Host<'_, Cells>, id: GuestId) -> Observation<'h>
    requires { IsSome (slice_get host.now id.0) }
    ensures { IsShown host.now id.0 (observed_of result) }
{
    let Ok(seen) = host.observe(id) else {
        unreachable!()
    };
    seen
}

/// The report on a guest of the host, with what its files say of the place of its last throw or without.
fn report_on<'h>(
    alloc: Global,
    host: &'h Host<'_, Cells>,
    guest: &'h Brought<'_>,
    place: u32,
    places: bool,
) -> Result<Report<'h>, AllocError>
    requires few { place < 64 }
    requires there { IsSome (slice_get host.now place) }
    ensures { IfOk result (λ report. IsReportOf places (named_guest_of guest.now) host.now place (told_of report)) }
{
    let seen = observation_of(host, GuestId(place));
    let in_file = in_file(alloc, guest, &seen, places)?;
    Ok(Report {
        number: place + 1,
        word: guest.word,
        names: guest.names.as_slice(),
        seen,
        in_file,
    })
}

/// The reports on the guests of a host, with what their files say of the places of last throws or without.
pub(crate) fn reports_on<'h>(
    alloc: Global,
    host: &'h Host<'_, Cells>,
    guests: &'h [Brought<'_>],
    places: bool,
) -> Result<Vec<Report<'h>>, AllocError>
    requires few { length guests.now ≤ 64 }
    requires there { length host.now ≡ length guests.now }
    ensures { IfOk result (λ reports.
        AreReportsOn places (map named_guest_of guests.now) host.now (length guests.now) (map told_of reports.items)) }
{
    let mut reports = Vec::new(alloc);
    for place in 0..guests.len() {
        let report = report_on(alloc, host, &guests[place], place as u32, places)?;
        reports.push(report).map_err(AllocError::from)?;
    }
    Ok(reports)
}
