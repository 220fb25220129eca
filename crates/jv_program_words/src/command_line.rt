//! The command line, as the library that reads it takes it.
ghost use Rattle.std.specs.Prelude.{◌≡◌, IfOk, codes, false};
ghost use Rattle.clap.specs.Words.{app_of, rule_of};
ghost use Rattle.jv_program_words.specs.CommandLine.{check_line, command_line, explain_line, flag, number_option, one_or_more, run_line, word_option};

use clap::{Arg, ArgAction, Command, value_parser};
use std::alloc::{AllocError, Global};

/// An option that takes a number from `least` to `most`.
fn number<'a>(
    alloc: Global,
    name: &'a str,
    shown: &'a str,
    least: u32,
    most: u32,
    help: &'a str,
) -> Arg<'a>
    ensures rule { rule_of result ≡ number_option name.entry.now least most }
    ensures local { result.global ≡ false }
{
    Arg::new(alloc, name)
        .long(name)
        .value_name(shown)
        .help(help)
        .value_parser(value_parser!(u32).range(i64::from(least)..=i64::from(most)))
}

/// An option that takes nothing: it is there, or it isn't.
fn flag<'a>(alloc: Global, name: &'a str, help: &'a str) -> Arg<'a>
    ensures rule { rule_of result ≡ flag name.entry.now }
    ensures local { result.global ≡ false }
{
    Arg::new(alloc, name)
        .long(name)
        .help(help)
        .action(ArgAction::SetTrue)
}

/// The flag for reports in JSON.
fn json<'a>(alloc: Global) -> Arg<'a>
    ensures rule { rule_of result ≡ flag (codes "json") }
    ensures local { result.global ≡ false }
{
    flag(
        alloc,
        "json",
        "Reports in JSON, a line for each guest or file",
    )
}

/// The option that takes the folder of a library.
fn library<'a>(alloc: Global) -> Arg<'a>
    ensures rule { rule_of result ≡ word_option (codes "library") }
    ensures local { result.global ≡ false }
{
    Arg::new(alloc, "library")
        .long("library")
        .value_name("FOLDER")
        .help("A folder with class files that stand in front of each guest's own")
}

/// An argument that takes one word or more.
fn words<'a>(alloc: Global, name: &'a str, shown: &'a str, help: &'a str) -> Arg<'a>
    ensures rule { rule_of result ≡ one_or_more name.entry.now }
    ensures local { result.global ≡ false }
{
    Arg::new(alloc, name)
        .value_name(shown)
        .help(help)
        .required(true)
        .num_args(1..)
}

/// The command `run FOLDER...`, with its options.
fn run_line<'a>(alloc: Global) -> Result<Command<'a>, AllocError>
    ensures { IfOk result (λ line. app_of line ≡ run_line) }
{
    let about =
        "Runs the class files of each folder as a guest of one host, and reports what they showed";
    let most = u32::MAX;
    let args = [
        words(
            alloc,
            "folder",
            "FOLDER",
            "A folder with a guest's class files and the file `main`",
        ),
        library(alloc),
        number(
            alloc,
            "cells",
            "N",
            0,
            most,
            "The cells of each guest's objects, else 65536",
        ),
        number(
            alloc,
            "words",
            "N",
            0,
            most,
            "The words of each guest's frames, else 65536",
        ),
        number(
            alloc,
            "output",
            "N",
            0,
            most,
            "The bytes that each guest may write, else 65536",
        ),
        number(
            alloc,
            "quantum",
            "N",
            1,
            most,
            "The most steps of a turn, else 1000",
        ),
        number(
            alloc,
            "rounds",
            "N",
            1,
            most,
            "The most rounds of turns, else 10000",
        ),
        number(
            alloc,
            "stdin",
            "K",
            1,
            64,
            "The guest that is fed what comes on standard input",
        ),
        number(
            alloc,
            "raw",
            "K",
            1,
            64,
            "The guest that has standard input whole, and whose output is written as it is",
        ),
        json(alloc),
        flag(
            alloc,
            "where",
            "Reports where each guest's last throw was: class, method, offset",
        ),
        flag(
            alloc,
            "progress",
            "Tells once a second how far the run is, where standard error is a terminal",
        ),
        flag(
            alloc,
            "time",
            "Tells on standard error how many milliseconds the processor took",
        ),
    ];
    Command::new(alloc, "run")
        .about(about)
        .args(Vec::from_array(alloc, args)?)
}

/// The command `check FILE...`.
fn check_line<'a>(alloc: Global) -> Result<Command<'a>, AllocError>
    ensures { IfOk result (λ line. app_of line ≡ check_line) }
{
    let about = "Checks class files as those of one guest, and runs nothing";
    let files = words(alloc, "file", "FILE", "A class file of the guest");
    let args = [files, library(alloc), json(alloc)];
    Command::new(alloc, "check")
        .about(about)
        .args(Vec::from_array(alloc, args)?)
}

/// The command `explain FILE...`, with its options.
fn explain_line<'a>(alloc: Global) -> Result<Command<'a>, AllocError>
    ensures { IfOk result (λ line. app_of line ≡ explain_line) }
{
    let about = "Checks class files as `check` does, and says more of each that isn't accepted";
    let files = words(alloc, "file", "FILE", "A class file of the guest");
    let links = flag(
        alloc,
        "links",
        "Tells each reference of an accepted class that won't resolve",
    );
    let frames = flag(
        alloc,
        "frames",
        "Lists the methods of an accepted class, and what stands above a fault, with the frame before each instruction",
    );
    let args = [files, library(alloc), json(alloc), links, frames];
    Command::new(alloc, "explain")
        .about(about)
        .args(Vec::from_array(alloc, args)?)
}

/// The program's command line.
///
/// # Errors
///
/// Where memory is short.
pub(crate) fn command_line<'a>(alloc: Global) -> Result<Command<'a>, AllocError>
    ensures { IfOk result (λ line. app_of line ≡ command_line) }
{
    Command::new(alloc, "jvhost")
        .about("Checks and runs class files")
        .version("0.1.0")
        .subcommand_required(true)
        .subcommand(run_line(alloc)?)?
        .subcommand(check_line(alloc)?)?
        .subcommand(explain_line(alloc)?)
}
