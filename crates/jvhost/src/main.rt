//! Checks class files, or runs those of folders as the guests of one host, and reports what was found.
#![tactic(auto)]

use jv_program::{ProgressLine, Stop, Stream, command_watched, tell};
use jv_program_base::{Failure, SystemFolders, hashing_state};
use jv_program_words::not_text;
use std::env;
use std::hash::RandomState;
use std::io::ErrorKind;
use std::process::ExitCode;
use std::random::RandomSource;
use std::rt::Env;

/// The words of the command line, of which the first is the program's name.
fn words<R: Env + AllocGlobal>(rt: &R) -> Result<Vec<String>, Stop> {
    match env::args(rt) {
        Ok(words) => Ok(words.collect(rt.alloc())?),
        Err(error) if error.kind() == ErrorKind::OutOfMemory => Err(Stop::Run(
            Failure::OutOfMemory,
        )),
        Err(_) => Err(Stop::CommandLine(not_text(rt.alloc())?)),
    }
}

/// What the program is given: its words, and a state with which names are hashed.
fn given<R: Env + RandomSource + AllocGlobal>(rt: &R) -> Result<(Vec<String>, RandomState), Stop> {
    Ok((words(rt)?, hashing_state(rt)?))
}

fn main(rt: HostRuntime) -> ExitCode {
    let mut out = Stream(rt.stdout());
    let mut err = Stream(rt.stderr());
    let mut company = ProgressLine::new(&rt, rt.stderr());
    let status = match given(&rt) {
        Ok((words, state)) => {
            let status = command_watched(
                rt.alloc(),
                state,
                words.as_slice(),
                &mut SystemFolders(&rt),
                &mut rt.stdin(),
                &mut out,
                &mut err,
                &mut company,
            );
            company.tell_of_explain(words.as_slice(), status);
            status
        }
        Err(stop) => {
            let _ = tell(&stop, &mut out, &mut err);
            stop.status()
        }
    };
    company.tell_time();
    ExitCode::from(status)
}
