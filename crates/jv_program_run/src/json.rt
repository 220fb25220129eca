//! The report on guests as JSON.
ghost use Rattle.std.specs.Prelude.{◌≡◌, IfOk, OnOk, codes, map, string_bytes};
ghost use Rattle.std.specs.Option.{option_map};
ghost use Rattle.serde_json.specs.View.{members_view, view};
ghost use Rattle.jv_host.specs.Showing.{bytes_seen, observed_of, seen_end, seen_place};
ghost use Rattle.jv_json.specs.Members.{with_number};
ghost use Rattle.jv_program_run.specs.Inside.Play.{in_file_of, told_of};
ghost use Rattle.jv_program_run.specs.Json.{guest_members, place_members, run_report, told_value, with_ending, with_instruction, with_last, with_line, with_place, with_seen};

use crate::report::{PlaceInFile, Report, Reports};
use jv_host::{GuestEnd, Observation, ThrowPlace};
use jv_json::{json_lines, put_bytes, put_files, put_number, put_text};
use serde_json::{Map, Value};
use std::alloc::{AllocError, Global};

/// Puts the class of what was thrown last, where something was.
fn put_last(
    members: &mut Map<String, Value>,
    alloc: Global,
    last: Option<&[u8]>,
) -> Result<(), AllocError>
    ensures { OnOk result (members_view members.new.entries
        ≡ with_last (option_map bytes_seen last.entry) (members_view members.old.entries)) }
{
    match last {
        Some(name) => put_bytes(members, alloc, "last", name),
        None => Ok(()),
    }
}

/// The members of a place.
fn place_members(alloc: Global, place: ThrowPlace<'_>) -> Result<Map<String, Value>, AllocError>
    ensures { IfOk result (λ members. members_view members.entries ≡ place_members (seen_place place.entry)) }
{
    let mut members = Map::new(alloc);
    put_bytes(&mut members, alloc, "class", place.class)?;
    put_bytes(&mut members, alloc, "method", place.method)?;
    put_bytes(&mut members, alloc, "descriptor", place.descriptor)?;
    put_number(&mut members, alloc, "offset", u64::from(place.offset))?;
    Ok(members)
}

/// Puts the line of source of a place, where there is one.
fn put_line(
    members: &mut Map<String, Value>,
    alloc: Global,
    line: Option<u16>,
) -> Result<(), AllocError>
    ensures { OnOk result (members_view members.new.entries ≡ with_line line (members_view members.old.entries)) }
{
    match line {
        Some(line) => put_number(members, alloc, "line", u64::from(line)),
        None => Ok(()),
    }
}

/// Puts the instruction at a place, where there is one.
fn put_instruction(
    members: &mut Map<String, Value>,
    alloc: Global,
    instruction: &Option<String>,
) -> Result<(), AllocError>
    ensures { OnOk result (members_view members.new.entries
        ≡ with_instruction (option_map string_bytes instruction.now) (members_view members.old.entries)) }
{
    match instruction {
        Some(text) => put_text(members, alloc, "instruction", text.as_str()),
        None => Ok(()),
    }
}

/// The members of a place, and of what is said of it.
fn members_of_place(
    alloc: Global,
    place: ThrowPlace<'_>,
    in_file: &PlaceInFile,
) -> Result<Map<String, Value>, AllocError>
    ensures { IfOk result (λ members. members_view members.entries ≡ with_instruction (in_file_of in_file.now).instruction
        (with_line (in_file_of in_file.now).line (place_members (seen_place place.entry)))) }
{
    let mut members = place_members(alloc, place)?;
    put_line(&mut members, alloc, in_file.line)?;
    put_instruction(&mut members, alloc, &in_file.instruction)?;
    Ok(members)
}

/// Puts where the last object was thrown, where that was in a method, and what is said of the place.
fn put_place(
    members: &mut Map<String, Value>,
    alloc: Global,
    place: Option<ThrowPlace<'_>>,
    in_file: &PlaceInFile,
) -> Result<(), AllocError>
    ensures { OnOk result (members_view members.new.entries
        ≡ with_place (option_map seen_place place.entry) (in_file_of in_file.now) (members_view members.old.entries)) }
{
    match place {
        Some(place) => {
            let its = members_of_place(alloc, place, in_file)?;
            serde_json::put(members, alloc, "place", Value::Object(its))
        }
        None => Ok(()),
    }
}

/// Puts how a guest ended, and of an exception that left `main` the class.
fn put_ending(
    members: &mut Map<String, Value>,
    alloc: Global,
    end: GuestEnd<'_>,
) -> Result<(), AllocError>
    ensures { OnOk result (members_view members.new.entries ≡ with_ending (seen_end end.entry) (members_view members.old.entries)) }
{
    match end {
        GuestEnd::Running => put_text(members, alloc, "end", "Running"),
        GuestEnd::Returned => put_text(members, alloc, "end", "Returned"),
        GuestEnd::Threw(name) => {
            put_text(members, alloc, "end", "Threw")?;
            put_bytes(members, alloc, "threw", name)
        }
        GuestEnd::NoMain => put_text(members, alloc, "end", "NoMain"),
    }
}

/// Puts how many steps a guest took, how often something was thrown, and what was thrown last, and where.
fn put_counts(
    members: &mut Map<String, Value>,
    alloc: Global,
    seen: &Observation<'_>,
    in_file: &PlaceInFile,
) -> Result<(), AllocError>
    ensures { OnOk result (members_view members.new.entries
        ≡ with_place (observed_of seen.now).place (in_file_of in_file.now) (with_last (observed_of seen.now).last
        (with_number (codes "throws") seen.now.throws (with_number (codes "steps") seen.now.steps (members_view members.old.entries))))) }
{
    put_number(members, alloc, "steps", seen.steps)?;
    put_number(members, alloc, "throws", seen.throws)?;
    put_last(members, alloc, seen.last)?;
    put_place(members, alloc, seen.place, in_file)
}

/// Puts what a guest showed, but for its verdicts.
fn put_seen(
    members: &mut Map<String, Value>,
    alloc: Global,
    seen: &Observation<'_>,
    in_file: &PlaceInFile,
) -> Result<(), AllocError>
    ensures { OnOk result (members_view members.new.entries
        ≡ with_seen (observed_of seen.now) (in_file_of in_file.now) (members_view members.old.entries)) }
{
    put_counts(members, alloc, seen, in_file)?;
    put_bytes(members, alloc, "output", seen.output)?;
    put_ending(members, alloc, seen.end)
}

/// Which guest it is, and its class files, each with its verdict.
fn guest_members(alloc: Global, report: &Report<'_>) -> Result<Map<String, Value>, AllocError>
    ensures { IfOk result (λ members. members_view members.entries ≡ guest_members (told_of report.now)) }
{
    let mut members = Map::new(alloc);
    put_number(&mut members, alloc, "guest", u64::from(report.number))?;
    put_bytes(&mut members, alloc, "folder", report.word)?;
    put_files(&mut members, alloc, report.names, report.seen.verdicts)?;
    Ok(members)
}

/// The report on a guest.
fn told_value(alloc: Global, report: &Report<'_>) -> Result<Value, AllocError>
    ensures { IfOk result (λ value. view value ≡ told_value (told_of report.now)) }
{
    let mut members = guest_members(alloc, report)?;
    put_seen(&mut members, alloc, &report.seen, &report.in_file)?;
    Ok(Value::Object(members))
}

/// The reports on guests, one behind the other.
fn told_values(alloc: Global, reports: &[Report<'_>]) -> Result<Vec<Value>, AllocError>
    ensures { IfOk result (λ values. map view values.items ≡ map told_value (map told_of reports.now)) }
{
    let mut values = Vec::new(alloc);
    for report in reports {
        let value = told_value(alloc, report)?;
        values.push(value).map_err(AllocError::from)?;
    }
    Ok(values)
}

/// The reports as they are printed, in JSON or not.
pub(crate) fn run_report(
    alloc: Global,
    json: bool,
    places: bool,
    reports: &[Report<'_>],
) -> Result<String, AllocError>
    ensures { IfOk result (λ report. string_bytes report ≡ run_report json places (map told_of reports.now)) }
{
    if json {
        let values = told_values(alloc, reports)?;
        json_lines(alloc, values.as_slice())
    } else {
        Reports { places, reports }.to_string(alloc)
    }
}
