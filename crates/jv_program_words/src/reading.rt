//! What the words of the command line ask for.
ghost use Rattle.std.specs.Prelude.{◌≡◌, IfErr, IfOk, map, string_bytes};
ghost use Rattle.clap.specs.Words.{all_of, found_of, kind_of, one_of, rows_of};
ghost use Rattle.jv_program_words.specs.Settings.{AreNames, IsAskedBy, IsAskedIn, AreRefused, asked_by, explain_options_in, guest_in, is_set, number_or, options_in, text_of, word_in};

use crate::asked::{ExplainOptions, RunOptions, Settings, usual_options};
use crate::command_line::command_line;
use clap::error::ErrorKind;
use clap::{ArgMatches, Error};
use std::alloc::{AllocError, Global};

/// The number of an option, from `least` to `most`, and the usual one where it isn't used; none where it is no such number.
fn number_between(
    found: &ArgMatches<'_>,
    name: &str,
    usual: u32,
    least: u32,
    most: u32,
) -> Option<u32>
    ensures { result ≡ number_or usual least most (one_of name.now (rows_of (found_of found.now))) }
{
    let Some(_) = found.get_str(name) else {
        return Some(usual);
    };
    let Some(number) = found.get_one::<u32>(name) else {
        return None;
    };
    if least <= number && number <= most {
        Some(number)
    } else {
        None
    }
}

/// The number of the guest that an option names, where it is used; none where it is no such number.
fn guest_in(found: &ArgMatches<'_>, name: &str) -> Option<Option<u32>>
    ensures { result ≡ guest_in (rows_of (found_of found.now)) name.now }
{
    let Some(_) = found.get_str(name) else {
        return Some(None);
    };
    let Some(number) = number_between(found, name, 0, 1, 64) else {
        return None;
    };
    Some(Some(number))
}

/// Whether a flag is there.
fn is_set(found: &ArgMatches<'_>, name: &str) -> bool
    ensures { result ≡ is_set (one_of name.now (rows_of (found_of found.now))) }
{
    found.get_one(name).unwrap_or(false)
}

/// What the options of `run` say.
fn options_in(found: &ArgMatches<'_>) -> Option<RunOptions>
    ensures { result ≡ options_in (rows_of (found_of found.now)) }
{
    let usual = usual_options();
    let most = u32::MAX;
    let cells = number_between(found, "cells", usual.cells, 0, most)?;
    let words = number_between(found, "words", usual.words, 0, most)?;
    let output = number_between(found, "output", usual.output, 0, most)?;
    let quantum = number_between(found, "quantum", usual.quantum, 1, most)?;
    let rounds = number_between(found, "rounds", usual.rounds, 1, most)?;
    let stdin = guest_in(found, "stdin")?;
    let raw = guest_in(found, "raw")?;
    let json = is_set(found, "json");
    let places = is_set(found, "where");
    let progress = is_set(found, "progress");
    let time = is_set(found, "time");
    Some(RunOptions {
        cells,
        words,
        output,
        quantum,
        rounds,
        stdin,
        raw,
        json,
        places,
        progress,
        time,
    })
}

/// What the options of `explain` say.
fn explain_options_in(found: &ArgMatches<'_>) -> ExplainOptions
    ensures { result ≡ explain_options_in (rows_of (found_of found.now)) }
{
    ExplainOptions {
        json: is_set(found, "json"),
        links: is_set(found, "links"),
        frames: is_set(found, "frames"),
    }
}

/// The word of an option, where it is used.
fn word_in<'a>(found: &ArgMatches<'a>, name: &str) -> Option<&'a str>
    ensures { text_of result ≡ word_in (rows_of (found_of found.now)) name.now }
{
    match found.get_strs(name) {
        Some(words) => words.first().copied(),
        None => None,
    }
}

/// The words of an argument that takes several, where it is used.
fn names_in<'a>(
    alloc: Global,
    found: &ArgMatches<'a>,
    name: &str,
) -> Result<Option<Vec<&'a str>>, AllocError>
    ensures { IfOk result (AreNames (all_of name.now (rows_of (found_of found.now)))) }
{
    match found.get_strs(name) {
        Some(names) => Ok(Some(Vec::from_slice(alloc, names)?)),
        None => Ok(None),
    }
}

/// What a command asks for, by its name and its arguments; none where it has no such name, or a number is out of its range.
fn asked_by<'a>(
    alloc: Global,
    command: &str,
    found: &ArgMatches<'a>,
) -> Result<Option<Settings<'a>>, AllocError>
    ensures { IfOk result (IsAskedBy (asked_by (command.now, rows_of (found_of found.now)))) }
{
    if command == "run" {
        let Some(options) = options_in(found) else {
            return Ok(None);
        };
        let library = word_in(found, "library");
        let Some(folders) = names_in(alloc, found, "folder")? else {
            return Ok(None);
        };
        Ok(Some(Settings::Run(options, library, folders)))
    } else if command == "check" {
        let json = is_set(found, "json");
        let library = word_in(found, "library");
        let Some(files) = names_in(alloc, found, "file")? else {
            return Ok(None);
        };
        Ok(Some(Settings::Check(json, library, files)))
    } else if command == "explain" {
        let options = explain_options_in(found);
        let library = word_in(found, "library");
        let Some(files) = names_in(alloc, found, "file")? else {
            return Ok(None);
        };
        Ok(Some(Settings::Explain(options, library, files)))
    } else {
        Ok(None)
    }
}

/// What ends the program where words that the command line takes name no command with its options.
fn nothing_asked(alloc: Global) -> Result<Error, AllocError>
    ensures { IfOk result (λ error. kind_of error ≡ ErrorKind.ValueValidation) }
{
    let mut line = command_line(alloc)?;
    line.error(ErrorKind::ValueValidation, "a number is out of its range")
}

/// What the words ask for, of which the first is the program's own name (own): which command, with its options and names, as the
/// library `clap` takes them from the words.
///
/// # Errors
///
/// Where `clap` refuses the words, of the kinds that its definition gives; where memory is short, of the kind `OutOfMemory`; and where
/// the words ask for nothing.
pub fn settings<'a>(alloc: Global, words: &'a [String]) -> Result<Settings<'a>, Error>
    ensures ok { IfOk result (IsAskedIn (map string_bytes words.now)) }
    ensures err { IfErr result (AreRefused (map string_bytes words.now)) }
{
    let line = command_line(alloc)?;
    let matches = line.try_get_matches_from(words)?;
    let Some((command, found)) = matches.subcommand() else {
        return Err(nothing_asked(alloc)?);
    };
    let Some(settings) = asked_by(alloc, command, found)? else {
        return Err(nothing_asked(alloc)?);
    };
    Ok(settings)
}

/// What is said where a word is no text.
///
/// # Errors
///
/// Where memory is short.
pub fn not_text(alloc: Global) -> Result<Error, AllocError>
    ensures { IfOk result (λ error. kind_of error ≡ ErrorKind.InvalidValue) }
{
    let mut line = command_line(alloc)?;
    line.error(
        ErrorKind::InvalidValue,
        "invalid UTF-8 was found in one or more arguments",
    )
}
