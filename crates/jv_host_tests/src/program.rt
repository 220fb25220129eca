//! What the program does with words, over folders, an input and outputs in memory.

use crate::disk::{Memory, Pieces};
use jv_program::{Stream, command};
use std::alloc::{AllocError, Global};
use std::hash::RandomState;
use std::io;
use std::io::{Error, ErrorKind, Write};

/// An output that takes so many bytes more, and fails then.
#[derive(Drop)]
pub(crate) struct Narrow {
    pub(crate) room: usize,
    pub(crate) taken: Vec<u8>,
}

impl Write for Narrow {
    fn write(&mut self, buf: &[u8]) -> io::Result<usize> {
        if self.room == 0 {
            return Err(Error::from(ErrorKind::BrokenPipe));
        }
        let len = buf.len().min(self.room);
        self.taken.extend_from_slice(&buf[..len])?;
        self.room -= len;
        Ok(len)
    }

    fn flush(&mut self) -> io::Result<()> {
        Ok(())
    }
}

/// Words; the input, of which a read gives one byte, and how many reads are good; and what the program does: its status, and what it
/// prints. What the command line's library prints isn't looked at.
#[derive(Clone, Copy)]
pub(crate) struct Row {
    pub(crate) words: &'static str,
    pub(crate) input: &'static [u8],
    pub(crate) good: u32,
    pub(crate) status: u8,
    pub(crate) out: [&'static str; 2],
    pub(crate) err: Option<&'static str>,
}

/// The words of a line.
pub(crate) fn words_of(alloc: Global, line: &str) -> Result<Vec<String>, AllocError> {
    let mut words = Vec::new(alloc);
    for word in line.split(' ') {
        let word = String::from_str(alloc, word)?;
        words.push(word).map_err(AllocError::from)?;
    }
    Ok(words)
}

/// Whether this was printed: one text, and then another.
pub(crate) fn is_out(out: &[u8], [first, second]: [&str; 2]) -> bool {
    match out.split_at_checked(first.len()) {
        Some((front, rest)) => front == first.as_bytes() && rest == second.as_bytes(),
        None => false,
    }
}

/// Whether the program does what a row says, with outputs that have so much room.
pub(crate) fn does(alloc: Global, state: RandomState, row: &Row, room: usize) -> bool {
    let Ok(words) = words_of(alloc, row.words) else {
        return false;
    };
    let mut input = Pieces {
        bytes: row.input,
        piece: 1,
        good: row.good,
    };
    let mut out = Stream(Narrow {
        room,
        taken: Vec::new(alloc),
    });
    let mut err = Stream(Vec::new(alloc));
    let status = command(
        alloc,
        state,
        words.as_slice(),
        &mut Memory,
        &mut input,
        &mut out,
        &mut err,
    );
    let is_told = match row.err {
        Some(text) => err.0.as_slice() == text.as_bytes(),
        None => !err.0.is_empty(),
    };
    status == row.status && is_out(out.0.taken.as_slice(), row.out) && is_told
}

/// Whether the program does what each row says.
pub(crate) fn does_all(alloc: Global, state: RandomState, rows: &[Row]) -> bool {
    for row in rows {
        if !does(alloc, state, row, 65_536) {
            return false;
        }
    }
    true
}
