//! What a guest's files say of the place of its last throw.
ghost use Rattle.std.specs.Prelude.{◌≡◌, IfOk, IsTrue, map, string_bytes};
ghost use Rattle.std.specs.Option.{option_map};
ghost use Rattle.jv_host.specs.Showing.{observed_of, seen_place};
ghost use Rattle.jv_limits.specs.Bytes.{bytes_of};
ghost use Rattle.jv_program_run.specs.Inside.Brought.{named_guest_of};
ghost use Rattle.jv_program_run.specs.Inside.Play.{in_file_of};
ghost use Rattle.jv_program_run.specs.Instruction.{IsInstructionOfThrow, IsShownAmong, IsShownBy, is_taken};

use crate::brought::Brought;
use crate::report::PlaceInFile;
use jv_host::{Observation, ThrowPlace};
use jv_lines::line_of;
use jv_meaning_typing::Verdict;
use jv_meaning_world::LoadVerdict;
use jv_place::instruction_of;
use std::alloc::{AllocError, Global};

/// Whether the class of a file with this verdict is the one of its name.
fn is_taken(verdict: Verdict) -> bool
    ensures { result ≡ is_taken verdict }
{
    !matches!(
        verdict,
        Verdict::Refused(
            LoadVerdict::Version
                | LoadVerdict::Format
                | LoadVerdict::Unsupported
                | LoadVerdict::Reserved
                | LoadVerdict::Duplicate
        )
    )
}

/// The line of source of a place, where the file of its class says it. Nothing is promised of it.
fn line_among(
    alloc: Global,
    files: &[&[u8]],
    verdicts: &[Verdict],
    place: ThrowPlace<'_>,
) -> Option<u16> {
    let Ok(offset) = u16::try_from(place.offset) else {
        return None;
    };
    for (file, verdict) in files.iter().zip(verdicts) {
        if is_taken(*verdict) {
            let line = line_of(
                alloc,
                file,
                place.class,
                place.method,
                place.descriptor,
                offset,
            );
            if line.is_some() {
                return line;
            }
        }
    }
    None
}

/// The text of the instruction at a place in a file with this verdict; none where its class isn't taken, or has none there.
fn instruction_by(
    alloc: Global,
    file: &[u8],
    verdict: Verdict,
    place: ThrowPlace<'_>,
) -> Result<Option<String>, AllocError>
    ensures { IfOk result (λ text. IsShownBy file.now verdict (seen_place place.entry) (option_map string_bytes text)) }
{
    if !is_taken(verdict) {
        return Ok(None);
    }
    match instruction_of(
        alloc,
        file,
        place.class,
        place.method,
        place.descriptor,
        place.offset,
    ) {
        Ok(text) => Ok(text),
        Err(_) => Err(AllocError),
    }
}

/// The text of the instruction at a place, of the first of files with verdicts that shows one.
fn instruction_among(
    alloc: Global,
    files: &[&[u8]],
    verdicts: &[Verdict],
    place: ThrowPlace<'_>,
) -> Result<Option<String>, AllocError>
    ensures { IfOk result (λ text.
        IsShownAmong (map bytes_of files.now) verdicts.now (seen_place place.entry) (option_map string_bytes text)) }
{
    for number in 0..files.len().min(verdicts.len()) {
        let text = instruction_by(alloc, files[number], verdicts[number], place)?;
        if text.is_some() {
            return Ok(text);
        }
    }
    Ok(None)
}

/// What the files of a guest say of the place of its last throw, where it has one.
fn found_in(
    alloc: Global,
    guest: &Brought<'_>,
    seen: &Observation<'_>,
) -> Result<PlaceInFile, AllocError>
    ensures { IfOk result (λ found.
        IsInstructionOfThrow (named_guest_of guest.now).guest.files (observed_of seen.now) (in_file_of found).instruction) }
{
    let Some(place) = seen.place else {
        return Ok(PlaceInFile {
            line: None,
            instruction: None,
        });
    };
    let files = guest.files.as_slice();
    let line = line_among(alloc, files, seen.verdicts, place);
    let instruction = instruction_among(alloc, files, seen.verdicts, place)?;
    Ok(PlaceInFile { line, instruction })
}

/// The same where it is to be told, and else nothing.
pub(crate) fn in_file(
    alloc: Global,
    guest: &Brought<'_>,
    seen: &Observation<'_>,
    places: bool,
) -> Result<PlaceInFile, AllocError>
    ensures { IfOk result (λ found. IsTrue places
        → IsInstructionOfThrow (named_guest_of guest.now).guest.files (observed_of seen.now) (in_file_of found).instruction) }
{
    if places {
        found_in(alloc, guest, seen)
    } else {
        Ok(PlaceInFile {
            line: None,
            instruction: None,
        })
    }
}
