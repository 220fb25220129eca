//! Shows what the reader finds in class files: for each file that the words name, a line for each
//! fact that `javap` knows of too, and how many of its prefixes are refused.
//!
//! The gate runs it on the class files in `data`, and compares what it shows with what `javap` said
//! of them. The word `rules` names a table of files for the rules of the format.
#![tactic(auto)]

mod facts;
mod line;
mod prefixes;
mod rules;

use jv_class::{ClassFault, read_class};
use line::{Cell, write_line};
use std::alloc::AllocError;
use std::process::ExitCode;
use std::rt::{Env, Files};
use std::{env, fs, str};

/// The name of what a file was refused for.
pub(crate) fn fault_name(fault: ClassFault) -> &'static str {
    match fault {
        ClassFault::Version => "Version",
        ClassFault::Format => "Format",
        ClassFault::Unsupported => "Unsupported",
        ClassFault::OutOfMemory => "Memory",
    }
}

/// Writes the facts of a file.
fn write_file(out: &mut String, name: &str, bytes: &[u8]) -> Result<(), AllocError> {
    let alloc = *out.allocator();
    match read_class(alloc, bytes) {
        Ok(class) => facts::write_class(out, name, &class)?,
        Err(fault) => write_line(out, name, &[Cell::Word(fault_name(fault))])?,
    }
    let refused = prefixes::refused(alloc, bytes);
    let longer = prefixes::longer_is_refused(alloc, bytes);
    let cells = [
        Cell::Word("refused"),
        Cell::Number(refused),
        Cell::Word(if longer { "true" } else { "false" }),
    ];
    write_line(out, name, &cells)
}

/// Writes the facts of the file at a path, or what a table of files comes to.
fn write_path<R: Files + AllocGlobal>(
    rt: &R,
    out: &mut String,
    name: &str,
) -> Result<(), AllocError> {
    let Ok(bytes) = fs::read(rt, name) else {
        return write_line(out, name, &[Cell::Word("cannot be read")]);
    };
    if name != "rules" {
        return write_file(out, name, &bytes);
    }
    match str::from_utf8(&bytes) {
        Ok(table) => rules::write_table(out, name, table),
        Err(_) => write_line(out, name, &[Cell::Word("is no text")]),
    }
}

/// Writes the facts of the files that the words behind the first name.
fn show<R: Files + Env + AllocGlobal>(rt: &R, out: &mut String) -> Result<(), AllocError> {
    let Ok(words) = env::args(rt) else {
        return Err(AllocError);
    };
    let Ok(words) = words.collect::<Vec<String>>(rt.alloc()) else {
        return Err(AllocError);
    };
    for place in 1..words.len() {
        write_path(rt, out, words[place].as_str())?;
    }
    Ok(())
}

fn main(rt: HostRuntime) -> ExitCode {
    let mut out = String::new(rt.alloc());
    if show(&rt, &mut out).is_err() || rt.print(out.as_str()).is_err() {
        return ExitCode::from(1);
    }
    ExitCode::from(0)
}
