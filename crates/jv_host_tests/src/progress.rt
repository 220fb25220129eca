//! What `--progress` and `--time` tell, and where; and that there is more to say of a file that is refused.

use crate::disk::{Memory, Pieces};
use crate::program::words_of;
use jv_program::{ProgressLine, Stream, command_watched};
use std::alloc::Global;
use std::cell::Cell;
use std::hash::RandomState;
use std::io;
use std::io::{IsTerminal, Write};
use std::time::{Clock, CpuClock, Duration};

/// A clock that is a second further each time that it is read.
#[derive(Drop)]
struct Ticks(Cell<u64>);

impl Clock for Ticks {
    fn monotonic(&self) -> io::Result<Duration> {
        let now = self.0.get();
        self.0.set(now.saturating_add(1));
        Ok(Duration::from_secs(now))
    }

    fn since_1970(&self) -> io::Result<Duration> {
        Ok(Duration::from_secs(0))
    }
}

/// The processor took 7 milliseconds and a half.
impl CpuClock for Ticks {
    fn thread_cpu_time(&self) -> io::Result<Duration> {
        Ok(Duration::from_micros(7500))
    }

    fn process_cpu_time(&self) -> io::Result<Duration> {
        Ok(Duration::from_micros(7500))
    }
}

/// What was written where there may be a terminal.
#[derive(Drop)]
struct Screen<'a> {
    bytes: &'a mut Vec<u8>,
    is_terminal: bool,
}

impl Write for Screen<'_> {
    fn write(&mut self, buf: &[u8]) -> io::Result<usize> {
        self.bytes.write(buf)
    }

    fn flush(&mut self) -> io::Result<()> {
        Ok(())
    }
}

impl IsTerminal for Screen<'_> {
    fn is_terminal(&self) -> bool {
        self.is_terminal
    }
}

/// Whether the program writes this on what may be a terminal, and ends with this status.
fn tells(
    alloc: Global,
    state: RandomState,
    line: &str,
    is_terminal: bool,
    status: u8,
    text: &[u8],
) -> bool {
    let Ok(words) = words_of(alloc, line) else {
        return false;
    };
    let mut input = Pieces {
        bytes: b"AB",
        piece: 1,
        good: 9,
    };
    let mut out = Stream(Vec::new(alloc));
    let mut err = Stream(Vec::new(alloc));
    let mut bytes = Vec::new(alloc);
    let clock = Ticks(Cell::new(0));
    let screen = Screen {
        bytes: &mut bytes,
        is_terminal,
    };
    let mut company = ProgressLine::new(&clock, screen);
    let ends = command_watched(
        alloc,
        state,
        words.as_slice(),
        &mut Memory,
        &mut input,
        &mut out,
        &mut err,
        &mut company,
    );
    company.tell_of_explain(words.as_slice(), ends);
    company.tell_time();
    ends == status && bytes.as_slice() == text && err.0.is_empty()
}

#[test]
fn rounds_steps_and_guests_are_told(rt: HostRuntime) {
    let line = "jvhost run --progress --quantum 2 --rounds 3 p hi";
    let text =
        b"\r\x1b[Krounds 1, steps 4, running 2\r\x1b[Krounds 2, steps 8, running 2\r\x1b[Krounds 3, steps 12, running 1\r\x1b[K";
    let passes = match RandomState::new(&rt) {
        Ok(state) => tells(rt.alloc(), state, line, true, 5, text),
        Err(_) => false,
    };
    assert!(rt; passes);
}

#[test]
fn rounds_with_feeds_are_told(rt: HostRuntime) {
    let line = "jvhost run --stdin 1 --progress --quantum 3 --rounds 2 p";
    let text = b"\r\x1b[Krounds 1, steps 3, running 1\r\x1b[Krounds 2, steps 6, running 1\r\x1b[K";
    let passes = match RandomState::new(&rt) {
        Ok(state) => tells(rt.alloc(), state, line, true, 5, text),
        Err(_) => false,
    };
    assert!(rt; passes);
}

#[test]
fn nothing_is_told_where_there_is_no_terminal(rt: HostRuntime) {
    let line = "jvhost run --progress --quantum 2 --rounds 3 p hi";
    let passes = match RandomState::new(&rt) {
        Ok(state) => tells(rt.alloc(), state, line, false, 5, b""),
        Err(_) => false,
    };
    assert!(rt; passes);
}

#[test]
fn nothing_is_told_where_nobody_asks(rt: HostRuntime) {
    let line = "jvhost run --quantum 2 --rounds 3 p hi";
    let passes = match RandomState::new(&rt) {
        Ok(state) => tells(rt.alloc(), state, line, true, 5, b""),
        Err(_) => false,
    };
    assert!(rt; passes);
}

#[test]
fn the_time_alone_is_told_at_a_terminal(rt: HostRuntime) {
    let line = "jvhost run --time --quantum 2 --rounds 3 p hi";
    let passes = match RandomState::new(&rt) {
        Ok(state) => tells(rt.alloc(), state, line, true, 5, b"processor 7 ms\n"),
        Err(_) => false,
    };
    assert!(rt; passes);
}

#[test]
fn the_time_is_told_where_there_is_no_terminal(rt: HostRuntime) {
    let line = "jvhost run --time --quantum 2 --rounds 3 p hi";
    let passes = match RandomState::new(&rt) {
        Ok(state) => tells(rt.alloc(), state, line, false, 5, b"processor 7 ms\n"),
        Err(_) => false,
    };
    assert!(rt; passes);
}

#[test]
fn a_check_that_refuses_tells_of_explain_at_a_terminal(rt: HostRuntime) {
    let line = "jvhost check hi/Hi.class hi/Hi.class";
    let text = b"jvhost: explain in place of check says why\n";
    let passes = match RandomState::new(&rt) {
        Ok(state) => {
            tells(rt.alloc(), state, line, true, 1, text)
                && tells(rt.alloc(), state, line, false, 1, b"")
        }
        Err(_) => false,
    };
    assert!(rt; passes);
}

#[test]
fn others_tell_nothing_of_explain(rt: HostRuntime) {
    let accepted = "jvhost check hi/Hi.class";
    let explained = "jvhost explain hi/Hi.class hi/Hi.class";
    let passes = match RandomState::new(&rt) {
        Ok(state) => {
            tells(rt.alloc(), state, accepted, true, 0, b"")
                && tells(rt.alloc(), state, explained, true, 1, b"")
        }
        Err(_) => false,
    };
    assert!(rt; passes);
}
