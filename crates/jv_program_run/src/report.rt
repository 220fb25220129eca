//! The report on guests.
ghost use Rattle.std.specs.Prelude.{◌≡◌, None, Some, if◌then◌else◌, map, string_bytes};
ghost use Rattle.std.specs.List.{list_any};
ghost use Rattle.std.specs.Option.{option_map};
ghost use Rattle.jv_host.specs.Showing.{bytes_seen, seen_end, seen_place};
ghost use Rattle.jv_limits.specs.Bytes.{bytes_of};
ghost use Rattle.jv_program_run.specs.Report.{at_text, ending_text, heading_text, line_text, output_text, shown_text, throws_text, verdict_line, verdict_lines};
ghost use Rattle.jv_program_run.specs.Report.{is_running, report_text, run_status, told_text};
ghost use Rattle.jv_program_run.specs.Inside.Play.{in_file_of, told_of};

use jv_host::{GuestEnd, Observation, ThrowPlace};
use jv_meaning_typing::Verdict;
use jv_program_base::{Escaped, ShownVerdict};
use std::fmt;

/// What a guest's files say of the place of its last throw.
#[derive(Drop)]
pub struct PlaceInFile {
    /// The line of source, where a file of its says it and it is told.
    pub line: Option<u16>,
    /// The instruction, where a file of its has it and it is told.
    pub instruction: Option<String>,
}

/// The report on a guest.
#[derive(Drop)]
pub struct Report<'a> {
    /// Its number, the first's being 1.
    pub number: u32,
    /// The word for its folder, as it was given.
    pub word: &'a [u8],
    /// The names of its class files.
    pub names: &'a [&'a [u8]],
    /// What it showed.
    pub seen: Observation<'a>,
    /// What its files say of the place of its last throw.
    pub in_file: PlaceInFile,
}

/// Reports, one behind the other, with the places of last throws or without.
#[derive(Clone, Copy)]
pub(crate) struct Reports<'a> {
    pub(crate) places: bool,
    pub(crate) reports: &'a [Report<'a>],
}

/// The report on a guest as it is printed, with the place of its last throw or without.
#[derive(Clone, Copy)]
struct ReportLines<'a> {
    places: bool,
    report: &'a Report<'a>,
}

/// The line of a class file: its name and its verdict.
#[derive(Clone, Copy)]
struct VerdictLine<'a> {
    name: &'a [u8],
    verdict: Verdict,
}

/// A line for each class file.
#[derive(Clone, Copy)]
struct VerdictLines<'a> {
    names: &'a [&'a [u8]],
    verdicts: &'a [Verdict],
}

/// The number of a guest, and the word for its folder.
#[derive(Clone, Copy)]
struct Heading<'a> {
    number: u32,
    word: &'a [u8],
}

/// The line of source of a place, where there is one.
#[derive(Clone, Copy)]
struct Line(Option<u16>);

/// The instruction at a place, where there is one.
#[derive(Clone, Copy)]
struct Instruction<'a>(&'a Option<String>);

/// Where something was thrown, where that is told, and what is said of the place.
#[derive(Clone, Copy)]
struct At<'a> {
    place: Option<ThrowPlace<'a>>,
    in_file: &'a PlaceInFile,
}

/// How often something was thrown, what was thrown last, and where, where that is told.
#[derive(Clone, Copy)]
struct Throws<'a> {
    count: u64,
    last: Option<&'a [u8]>,
    at: At<'a>,
}

/// What a guest wrote: how many bytes, and which.
#[derive(Clone, Copy)]
struct Output<'a>(&'a [u8]);

/// How a guest ended.
#[derive(Clone, Copy)]
struct Ending<'a>(GuestEnd<'a>);

/// Whether a guest that ended so takes steps.
pub(crate) fn is_running(end: GuestEnd<'_>) -> bool
    ensures { result ≡ is_running (seen_end end.entry) }
{
    matches!(end, GuestEnd::Running)
}

/// Whether one of the guests takes steps.
fn any_runs(reports: &[Report<'_>]) -> bool
    ensures { result ≡ list_any (λ report. is_running (seen_end report.seen.end)) reports.now }
{
    reports.iter().any(|report| is_running(report.seen.end))
}

/// The status that the program ends with after reports.
#[tactic(auto, using(crate::proofs::Reports::any_told_runs))]
pub(crate) fn status_after(reports: &[Report<'_>]) -> u8
    ensures { result ≡ run_status (map told_of reports.now) }
{
    if any_runs(reports) { 5 } else { 0 }
}

impl fmt::Display for VerdictLine<'_> {
    ghost output = { λ line. Some (verdict_line line.name.now line.verdict) };

    fn fmt<W: fmt::Write>(&self, f: &mut fmt::Formatter<W>) -> fmt::Result {
        let name = Escaped(self.name);
        let verdict = ShownVerdict(self.verdict);
        write!(f, "  {name}: {verdict}\n")
    }
}

impl fmt::Display for VerdictLines<'_> {
    ghost output = { λ lines. Some (verdict_lines (map bytes_of lines.names.now) lines.verdicts.now) };

    fn fmt<W: fmt::Write>(&self, f: &mut fmt::Formatter<W>) -> fmt::Result {
        for (name, verdict) in self.names.iter().zip(self.verdicts) {
            let line = VerdictLine {
                name,
                verdict: *verdict,
            };
            write!(f, "{line}")?;
        }
        Ok(())
    }
}

impl fmt::Display for Heading<'_> {
    ghost output = { λ heading. Some (heading_text heading.number heading.word.now) };

    fn fmt<W: fmt::Write>(&self, f: &mut fmt::Formatter<W>) -> fmt::Result {
        let number = self.number;
        let word = Escaped(self.word);
        write!(f, "{number} {word}")
    }
}

impl fmt::Display for Line {
    ghost output = { λ line. Some (line_text line.0) };

    fn fmt<W: fmt::Write>(&self, f: &mut fmt::Formatter<W>) -> fmt::Result {
        match self.0 {
            Some(line) => write!(f, ", line {line}"),
            None => Ok(()),
        }
    }
}

impl fmt::Display for Instruction<'_> {
    ghost output = { λ shown. Some (shown_text (option_map string_bytes shown.0.now)) };

    fn fmt<W: fmt::Write>(&self, f: &mut fmt::Formatter<W>) -> fmt::Result {
        match self.0 {
            Some(text) => {
                let text = text.as_str();
                write!(f, ": {text}")
            }
            None => Ok(()),
        }
    }
}

impl fmt::Display for At<'_> {
    ghost output = { λ at. Some (at_text (option_map seen_place at.place) (in_file_of at.in_file.now)) };

    fn fmt<W: fmt::Write>(&self, f: &mut fmt::Formatter<W>) -> fmt::Result {
        match self.place {
            Some(place) => {
                let class = Escaped(place.class);
                let method = Escaped(place.method);
                let descriptor = Escaped(place.descriptor);
                let offset = place.offset;
                let line = Line(self.in_file.line);
                let instruction = Instruction(&self.in_file.instruction);
                write!(
                    f,
                    " at {class}.{method}:{descriptor} offset {offset}{line}{instruction}"
                )
            }
            None => Ok(()),
        }
    }
}

impl fmt::Display for Throws<'_> {
    ghost output = { λ throws. Some (throws_text throws.count (option_map bytes_seen throws.last)
        (option_map seen_place throws.at.place) (in_file_of throws.at.in_file.now)) };

    fn fmt<W: fmt::Write>(&self, f: &mut fmt::Formatter<W>) -> fmt::Result {
        let count = self.count;
        match self.last {
            Some(name) => {
                let name = Escaped(name);
                let at = self.at;
                write!(f, "{count} last {name}{at}")
            }
            None => write!(f, "{count}"),
        }
    }
}

impl fmt::Display for Output<'_> {
    ghost output = { λ output. Some (output_text output.0.now) };

    fn fmt<W: fmt::Write>(&self, f: &mut fmt::Formatter<W>) -> fmt::Result {
        let bytes = self.0;
        let len = bytes.len();
        if len == 0 {
            return f.write_str("0:");
        }
        let bytes = Escaped(bytes);
        write!(f, "{len}: {bytes}")
    }
}

impl fmt::Display for Ending<'_> {
    ghost output = { λ ending. Some (ending_text (seen_end ending.0)) };

    fn fmt<W: fmt::Write>(&self, f: &mut fmt::Formatter<W>) -> fmt::Result {
        match self.0 {
            GuestEnd::Running => f.write_str("Running"),
            GuestEnd::Returned => f.write_str("Returned"),
            GuestEnd::Threw(name) => {
                let name = Escaped(name);
                write!(f, "Threw {name}")
            }
            GuestEnd::NoMain => f.write_str("NoMain"),
        }
    }
}

/// The place of a throw, where places are told.
fn place_told(places: bool, place: Option<ThrowPlace<'_>>) -> Option<ThrowPlace<'_>>
    ensures { option_map seen_place result ≡ (if places then option_map seen_place place.entry else None) }
{
    if places { place } else { None }
}

impl fmt::Display for ReportLines<'_> {
    ghost output = { λ lines. Some (told_text lines.places (told_of lines.report.now)) };

    fn fmt<W: fmt::Write>(&self, f: &mut fmt::Formatter<W>) -> fmt::Result {
        let report = self.report;
        let seen = report.seen;
        let heading = Heading {
            number: report.number,
            word: report.word,
        };
        let lines = VerdictLines {
            names: report.names,
            verdicts: seen.verdicts,
        };
        let steps = seen.steps;
        let throws = Throws {
            count: seen.throws,
            last: seen.last,
            at: At {
                place: place_told(self.places, seen.place),
                in_file: &report.in_file,
            },
        };
        let output = Output(seen.output);
        let end = Ending(seen.end);
        write!(
            f,
            "guest {heading}\n{lines}  steps {steps}\n  throws {throws}\n  output {output}\n  end {end}\n"
        )
    }
}

impl fmt::Display for Reports<'_> {
    ghost output = { λ all. Some (report_text all.places (map told_of all.reports.now)) };

    fn fmt<W: fmt::Write>(&self, f: &mut fmt::Formatter<W>) -> fmt::Result {
        let reports = self.reports;
        for report in reports {
            let lines = ReportLines {
                places: self.places,
                report,
            };
            write!(f, "{lines}")?;
        }
        Ok(())
    }
}
