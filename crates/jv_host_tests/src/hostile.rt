//! What no clause says of the program under hostile use: outputs that fail, more folders and more input than there may be, and want of
//! memory.

use crate::disk::{Memory, Pieces};
use crate::feeds::FEEDS;
use crate::program::{Narrow, Row, does, is_out, words_of};
use crate::refusals::REFUSALS;
use crate::reports::REPORTS;
use jv_program::{Sink, Stream, command};
use std::alloc::{AllocError, Global};
use std::hash::RandomState;
use std::io;
use std::io::{Read, Write};

/// Words, how many bytes the output takes, and what of the report is then on it.
static LOST: [(&str, usize, &str); 5] = [
    ("jvhost run hi", 0, ""),
    ("jvhost run hi", 1, "g"),
    ("jvhost run hi", 9, "guest 1 h"),
    ("jvhost run --quantum 3 --rounds 1 hi", 10, "guest 1 hi"),
    ("jvhost check hi/main", 4, "hi/m"),
];

/// Whether an output that fails ends the program with 6, and with the front of the report.
fn loses(alloc: Global, state: RandomState) -> bool {
    for (words, room, out) in &LOST {
        let row = Row {
            words: *words,
            input: b"",
            good: 0,
            status: 6,
            out: [*out, ""],
            err: Some("jvhost: output\n"),
        };
        if !does(alloc, state, &row, *room) {
            return false;
        }
    }
    true
}

/// An output that takes nothing, and doesn't fail.
#[derive(Clone, Copy)]
struct Idle;

impl Write for Idle {
    fn write(&mut self, _buf: &[u8]) -> io::Result<usize> {
        Ok(0)
    }

    fn flush(&mut self) -> io::Result<()> {
        Ok(())
    }
}

/// An input without an end, of zeros.
#[derive(Clone, Copy)]
struct Zeros;

impl Read for Zeros {
    fn read(&mut self, buf: &mut [u8]) -> io::Result<usize> {
        Ok(buf.len())
    }
}

/// The status that the program ends with, over an input of zeros.
fn status_with<O: Sink, E: Sink>(
    alloc: Global,
    state: RandomState,
    words: &[String],
    out: &mut O,
    err: &mut E,
) -> u8 {
    command(alloc, state, words, &mut Memory, &mut Zeros, out, err)
}

/// Whether an output that takes nothing ends the program with 6, whatever its report is, and errors that are told nowhere change no status.
fn is_not_heard(alloc: Global, state: RandomState) -> bool {
    for row in &REPORTS {
        let Ok(words) = words_of(alloc, row.words) else {
            return false;
        };
        let mut err = Stream(Vec::new(alloc));
        let status = status_with(alloc, state, words.as_slice(), &mut Stream(Idle), &mut err);
        if status != 6 || err.0.as_slice() != "jvhost: output\n".as_bytes() {
            return false;
        }
        if status_with(
            alloc,
            state,
            words.as_slice(),
            &mut Stream(Idle),
            &mut Stream(Idle),
        ) != 6
        {
            return false;
        }
    }
    for row in &REFUSALS {
        // Those that are fed fail by their input, and this one doesn't.
        if row.err == Some("jvhost: standard input: cannot be read\n") {
            continue;
        }
        let Ok(words) = words_of(alloc, row.words) else {
            return false;
        };
        let mut out = Stream(Vec::new(alloc));
        let status = status_with(alloc, state, words.as_slice(), &mut out, &mut Stream(Idle));
        if status != row.status || !out.0.is_empty() {
            return false;
        }
    }
    true
}

/// Some words, and one word more so many times.
fn words_and_many(
    alloc: Global,
    line: &str,
    word: &str,
    count: u32,
) -> Result<Vec<String>, AllocError> {
    let mut words = words_of(alloc, line)?;
    for _ in 0..count {
        let word = String::from_str(alloc, word)?;
        words.push(word).map_err(AllocError::from)?;
    }
    Ok(words)
}

/// Some words and one more so many times, the status, what the output ends with, and what is told.
static MANY: [(&str, &str, u32, u8, &str, &str); 6] = [
    (
        "jvhost run",
        "hi",
        64,
        0,
        "guest 64 hi\n  Hi.class: Accepted\n  steps 6\n  throws 0\n  output 2: Hi\n  end Returned\n",
        "",
    ),
    ("jvhost run", "hi", 65, 2, "", "jvhost: TooManyGuests\n"),
    (
        "jvhost run",
        "none",
        64,
        3,
        "",
        "jvhost: none: cannot be read\n",
    ),
    ("jvhost run", "none", 65, 2, "", "jvhost: TooManyGuests\n"),
    (
        "jvhost run --stdin 64",
        "none",
        65,
        2,
        "",
        "jvhost: TooManyGuests\n",
    ),
    (
        "jvhost run --stdin 64",
        "none",
        63,
        2,
        "",
        "jvhost: NoGuest\n",
    ),
];

/// Whether the program takes 64 folders and no more, and reads none of more.
fn takes_many(alloc: Global, state: RandomState) -> bool {
    for (line, word, count, status, tail, told) in &MANY {
        let Ok(words) = words_and_many(alloc, *line, *word, *count) else {
            return false;
        };
        let mut out = Stream(Vec::new(alloc));
        let mut err = Stream(Vec::new(alloc));
        let ended = status_with(alloc, state, words.as_slice(), &mut out, &mut err);
        let is_silent = tail.is_empty() && out.0.is_empty();
        let is_whole = !tail.is_empty() && out.0.as_slice().ends_with(tail.as_bytes());
        if ended != *status || !(is_silent || is_whole) || err.0.as_slice() != told.as_bytes() {
            return false;
        }
    }
    true
}

/// Whether a guest is fed 16,777,216 bytes, and no byte more.
fn is_fed_no_more(alloc: Global, state: RandomState) -> bool {
    let Ok(words) = words_of(alloc, "jvhost run --stdin 1 --quantum 1 in") else {
        return false;
    };
    let mut out = Stream(Vec::new(alloc));
    let mut err = Stream(Vec::new(alloc));
    let status = status_with(alloc, state, words.as_slice(), &mut out, &mut err);
    status == 3 && out.0.is_empty() && err.0.as_slice() == "jvhost: InputTooLong\n".as_bytes()
}

/// Whether the program does what a row of standard input says, or wants memory, tells so if it can, and has no report.
fn is_fed_or_has_no_memory(alloc: Global, state: RandomState) -> bool {
    let row = &FEEDS[0];
    let Ok(words) = words_of(alloc, row.words) else {
        return true;
    };
    let mut input = Pieces {
        bytes: row.input,
        piece: 1,
        good: row.good,
    };
    let mut out = Stream(Narrow {
        room: 65_536,
        taken: Vec::new(alloc),
    });
    let mut err = Stream(Vec::new(alloc));
    let status = command(
        alloc,
        state,
        words.as_slice(),
        &mut Memory,
        &mut input,
        &mut out,
        &mut err,
    );
    let told = err.0.as_slice();
    if status == 4 {
        let is_told = told == "jvhost: Memory\n".as_bytes()
            || told == "jvhost: HostMemory\n".as_bytes()
            || told.is_empty();
        return out.0.taken.is_empty() && is_told;
    }
    // An output without memory is one that fails.
    if status == 6 {
        return out.0.taken.is_empty() && told == "jvhost: output\n".as_bytes();
    }
    status == row.status && is_out(out.0.taken.as_slice(), row.out) && told.is_empty()
}

#[test]
fn loses_output(rt: HostRuntime) {
    let passes = match RandomState::new(&rt) {
        Ok(state) => loses(rt.alloc(), state),
        Err(_) => false,
    };
    assert!(rt; passes);
}

#[test]
fn is_heard_by_nobody(rt: HostRuntime) {
    let passes = match RandomState::new(&rt) {
        Ok(state) => is_not_heard(rt.alloc(), state),
        Err(_) => false,
    };
    assert!(rt; passes);
}

#[test]
fn many_folders(rt: HostRuntime) {
    let passes = match RandomState::new(&rt) {
        Ok(state) => takes_many(rt.alloc(), state),
        Err(_) => false,
    };
    assert!(rt; passes);
}

#[test]
fn longest_feed(rt: HostRuntime) {
    let passes = match RandomState::new(&rt) {
        Ok(state) => is_fed_no_more(rt.alloc(), state),
        Err(_) => false,
    };
    assert!(rt; passes);
}

/// For a run with an allocation refused: what the row shows, or want of memory and nothing else.
#[test]
fn feeds_or_has_no_memory(rt: HostRuntime) {
    let passes = match RandomState::new(&rt) {
        Ok(state) => is_fed_or_has_no_memory(rt.alloc(), state),
        Err(_) => true,
    };
    assert!(rt; passes);
}
