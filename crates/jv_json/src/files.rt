//! Class files with their verdicts.
ghost use Rattle.std.specs.Prelude.{◌≡◌, ◌<◌, IfOk, OnOk, Some, length, map, slice_get, string_bytes};
ghost use Rattle.serde_json.specs.View.{members_view, view};
ghost use Rattle.jv_limits.specs.Bytes.{bytes_of};
ghost use Rattle.jv_json.specs.Files.{explained_value, explained_values, file_members, file_value, file_values, with_files};

use crate::members::{put_bytes, put_line, put_text, put_verdict};
use jv_meaning_typing::Verdict;
use jv_program_base::{bytes_at, text_at, verdict_at};
use serde_json::{Map, Value};
use std::alloc::{AllocError, Global};

/// The members of a class file of this name with this verdict.
fn file_members(
    alloc: Global,
    name: &[u8],
    verdict: Verdict,
) -> Result<Map<String, Value>, AllocError>
    ensures { IfOk result (λ members. members_view members.entries ≡ file_members name.now verdict) }
{
    let mut members = Map::new(alloc);
    put_bytes(&mut members, alloc, "file", name)?;
    put_verdict(&mut members, alloc, verdict)?;
    Ok(members)
}

/// A class file of this name with this verdict.
fn file_value(alloc: Global, name: &[u8], verdict: Verdict) -> Result<Value, AllocError>
    ensures { IfOk result (λ value. view value ≡ file_value name.now verdict) }
{
    let members = file_members(alloc, name, verdict)?;
    Ok(Value::Object(members))
}

/// Class files of these names with these verdicts, in order.
pub fn file_values(
    alloc: Global,
    names: &[&[u8]],
    verdicts: &[Verdict],
) -> Result<Vec<Value>, AllocError>
    ensures { IfOk result (λ values. map view values.items ≡ file_values (map bytes_of names.now) verdicts.now) }
{
    let mut values = Vec::new(alloc);
    for place in 0..names.len().min(verdicts.len()) {
        let value = file_value(alloc, bytes_at(names, place), verdict_at(verdicts, place))?;
        values.push(value).map_err(AllocError::from)?;
    }
    Ok(values)
}

/// Puts class files of these names with these verdicts.
pub fn put_files(
    members: &mut Map<String, Value>,
    alloc: Global,
    names: &[&[u8]],
    verdicts: &[Verdict],
) -> Result<(), AllocError>
    ensures { OnOk result (members_view members.new.entries
        ≡ with_files (map bytes_of names.now) verdicts.now (members_view members.old.entries)) }
{
    let files = file_values(alloc, names, verdicts)?;
    serde_json::put(members, alloc, "files", Value::Array(files))
}

/// A class file of this name with this verdict, a line of its source, and what is said of the verdict.
fn explained_value(
    alloc: Global,
    name: &[u8],
    verdict: Verdict,
    line: Option<u16>,
    said: &str,
) -> Result<Value, AllocError>
    ensures { IfOk result (λ value. view value ≡ explained_value name.now verdict line said.now) }
{
    let mut members = file_members(alloc, name, verdict)?;
    put_line(&mut members, alloc, line)?;
    put_text(&mut members, alloc, "explanation", said)?;
    Ok(Value::Object(members))
}

/// The line at a place.
fn line_at(lines: &[Option<u16>], place: usize) -> Option<u16>
    requires { place < length lines.now }
    ensures { slice_get lines.now place ≡ Some result }
{
    lines[place]
}

/// Class files of these names with these verdicts, each with a line of its source, where there is one, and what is said of them, in order.
pub fn explained_values(
    alloc: Global,
    names: &[&[u8]],
    verdicts: &[Verdict],
    lines: &[Option<u16>],
    said: &[String],
) -> Result<Vec<Value>, AllocError>
    ensures { IfOk result (λ values. map view values.items
        ≡ explained_values (map bytes_of names.now) verdicts.now lines.now (map string_bytes said.now)) }
{
    let mut values = Vec::new(alloc);
    let count = names
        .len()
        .min(verdicts.len())
        .min(lines.len())
        .min(said.len());
    for place in 0..count {
        let name = bytes_at(names, place);
        let verdict = verdict_at(verdicts, place);
        let line = line_at(lines, place);
        let value = explained_value(alloc, name, verdict, line, text_at(said, place))?;
        values.push(value).map_err(AllocError::from)?;
    }
    Ok(values)
}
