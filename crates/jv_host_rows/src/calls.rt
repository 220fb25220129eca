//! The calls of a row.

use crate::brought::{Lent, bytes_of, first_word, number_of};
use crate::shown::{write_guest, write_verdicts};
use jv_host::{GuestFiles, GuestId, Host};
use jv_limits::{AdmitFault, FeedFault, TurnFault};
use jv_store::Store;
use std::alloc::AllocError;

/// The most guests of a host, as `jv_host` has it.
const GUESTS: u32 = 64;

/// A guest's files as they are lent.
fn files_of<'a>(lent: &'a Lent<'a>) -> GuestFiles<'a> {
    GuestFiles {
        system: lent.system,
        files: &lent.files,
        main: lent.main,
        input: lent.input,
    }
}

/// Writes that the host had no memory for a call, behind so many steps, and what each of its guests shows then. The answer to the same
/// call, made again, comes behind.
fn write_refusal<S: Store>(
    out: &mut String,
    host: &Host<'_, S>,
    steps: u64,
) -> Result<(), AllocError> {
    write!(out, "HostMemory {steps}\n")?;
    for id in 0..GUESTS {
        if host.observe(GuestId(id)).is_ok() {
            out.push_str("  ")?;
            write_guest(out, host, id)?;
            out.push_str(", ")?;
            write_verdicts(out, host, id)?;
            out.push_str("\n")?;
        }
    }
    out.push_str("again: ")
}

/// Asks a host to admit a guest as it is lent, once more where it had no memory.
fn admission<'a, S: Store>(
    out: &mut String,
    host: &mut Host<'a, S>,
    lent: &'a Lent<'a>,
) -> Result<Result<GuestId, AdmitFault>, AllocError> {
    let mut answer = host.admit(files_of(lent), lent.budget);
    if matches!(&answer, Err(AdmitFault::HostMemory)) {
        write_refusal(out, host, 0)?;
        answer = host.admit(files_of(lent), lent.budget);
    }
    Ok(answer)
}

/// Admits a guest as it is lent, and writes its number.
pub(crate) fn write_admission<'a, S: Store>(
    out: &mut String,
    host: &mut Host<'a, S>,
    lent: &'a Lent<'a>,
) -> Result<(), AllocError> {
    match admission(out, host, lent)? {
        Ok(id) => write!(out, "guest {}", id.0),
        Err(fault) => out.push_str(fault.name()),
    }
}

/// Admits a guest as it is lent, and writes the verdicts on its files.
fn write_judgement<'a, S: Store>(
    out: &mut String,
    host: &mut Host<'a, S>,
    lent: &'a Lent<'a>,
) -> Result<(), AllocError> {
    match admission(out, host, lent)? {
        Ok(id) => write_verdicts(out, host, id.0),
        Err(fault) => out.push_str(fault.name()),
    }
}

/// Gives a guest a turn, and what is left of it once more where the host had no memory.
fn write_turn<S: Store>(
    out: &mut String,
    host: &mut Host<'_, S>,
    id: u32,
    n: u32,
) -> Result<(), AllocError> {
    let mut before: u64 = 0;
    let mut answer = host.turn(GuestId(id), n);
    if let Err(TurnFault::HostMemory(taken)) = answer {
        write_refusal(out, host, taken)?;
        before = taken;
        if let Ok(taken) = u32::try_from(taken) {
            answer = host.turn(GuestId(id), n.saturating_sub(taken));
        }
    }
    match answer {
        Ok(steps) => write!(out, "{}", steps.saturating_add(before)),
        Err(fault) => out.push_str(fault.name()),
    }
}

/// Gives all guests turns, and once more where the host had no memory: the answer is of the rounds behind.
fn write_run<S: Store>(
    out: &mut String,
    host: &mut Host<'_, S>,
    quantum: u32,
    rounds: u32,
) -> Result<(), AllocError> {
    let mut answer = host.run(quantum, rounds);
    if let Err(TurnFault::HostMemory(taken)) = answer {
        write_refusal(out, host, taken)?;
        answer = host.run(quantum, rounds);
    }
    match answer {
        Ok(begun) => write!(out, "{begun}"),
        Err(fault) => out.push_str(fault.name()),
    }
}

/// Feeds a guest, once more where the host had no memory.
fn write_feed<S: Store>(
    out: &mut String,
    host: &mut Host<'_, S>,
    id: u32,
    bytes: &[u8],
) -> Result<(), AllocError> {
    let mut answer = host.feed(GuestId(id), bytes);
    if matches!(answer, Err(FeedFault::HostMemory)) {
        write_refusal(out, host, 0)?;
        answer = host.feed(GuestId(id), bytes);
    }
    match answer {
        Ok(()) => out.push_str("Ok"),
        Err(fault) => out.push_str(fault.name()),
    }
}

/// Writes the answer to a call, whose words are these; what stands behind its numbers says what it is about.
fn write_answer<'a, S: Store>(
    out: &mut String,
    host: &mut Host<'a, S>,
    lent: &'a [Lent<'a>],
    verb: &str,
    rest: &str,
) -> Result<(), AllocError> {
    let alloc = *out.allocator();
    let (first, second) = first_word(rest);
    let number = number_of(first);
    match verb {
        "admit" => match lent.get(number as usize) {
            Some(guest) => write_admission(out, host, guest),
            None => out.push_str("nobody"),
        },
        "judge" => match lent.get(number as usize) {
            Some(guest) => write_judgement(out, host, guest),
            None => out.push_str("nobody"),
        },
        "turn" => write_turn(out, host, number, number_of(second)),
        "run" => write_run(out, host, number, number_of(second)),
        "feed" => write_feed(out, host, number, &bytes_of(alloc, second)?),
        "verdicts" => write_verdicts(out, host, number),
        "seen" => write_guest(out, host, number),
        _ => out.push_str("is no call"),
    }
}

/// Writes a line of a row, and the answer to it where it is a call.
pub(crate) fn answer<'a, S: Store>(
    out: &mut String,
    host: &mut Host<'a, S>,
    lent: &'a [Lent<'a>],
    line: &str,
) -> Result<(), AllocError> {
    let (verb, rest) = first_word(line);
    if verb == "guest" || verb == "beside" {
        return Ok(());
    }
    out.push_str(line)?;
    if verb != "row" && verb != "damage" {
        out.push_str(": ")?;
        write_answer(out, host, lent, verb, rest)?;
    }
    out.push_str("\n")
}
