//! The program over folders and files that are known, so that its clauses say what its reports are on.
ghost use Rattle.std.specs.Prelude.{◌≡◌, ◌≤◌, ◌<◌, ◌+◌, ◌^◌, None, Some, true, IfErr, IfOk, codes, if◌then◌else◌, vec_len};
ghost use Rattle.std.specs.IoError.{error_kind};
ghost use Rattle.std.specs.Str.{bytes_eq};
ghost use Rattle.jv_program_base.specs.Disk.{IsReadOf};

use crate::files::HI;
use crate::program::words_of;
use jv_program::{Lost, Sink, Stream, command};
use jv_program_base::Folders;
use std::alloc::Global;
use std::hash::RandomState;
use std::io::{Error, ErrorKind};
use std::{fmt, io};

/// The first of some bytes, at most one more than a limit.
fn front_of(alloc: Global, bytes: &[u8], limit: usize) -> io::Result<Vec<u8>>
    requires { limit + 2 < 2 ^ 64 }
    ensures most { IfOk result (λ front. vec_len front ≤ limit + 1) }
    ensures read { IfOk result (λ front. IsReadOf (Some bytes.now) limit front.items) }
    ensures memory { IfErr result (λ error. error_kind error ≡ ErrorKind.OutOfMemory) }
{
    let len = bytes.len().min(limit + 1);
    match Vec::from_slice(alloc, &bytes[..len]) {
        Ok(front) => Ok(front),
        Err(_) => Err(Error::from(ErrorKind::OutOfMemory)),
    }
}

/// The same file at each path, and the same names in each folder, all of which can be read.
#[derive(Clone, Copy)]
struct Same {
    file: &'static [u8],
    listing: &'static [u8],
}

const KNOWN: Same = Same {
    file: HI,
    listing: b"Hi.class\0main\0",
};

impl Folders for Same {
    ghost disk = { λ same. Some (record {
      file = λ _. Some same.file.now;
      listing = λ _. Some same.listing.now;
      sure = true;
    }) };

    fn read_file(&mut self, alloc: Global, _path: &[u8], limit: usize) -> io::Result<Vec<u8>> {
        front_of(alloc, self.file, limit)
    }

    fn list_folder(&mut self, alloc: Global, _path: &[u8], limit: usize) -> io::Result<Vec<u8>> {
        front_of(alloc, self.listing, limit)
    }
}

/// One folder, with these names in it, and one file, which can be read; nothing else is there.
#[derive(Clone, Copy)]
struct One {
    listing: &'static [u8],
    path: &'static [u8],
    file: &'static [u8],
}

impl Folders for One {
    ghost disk = { λ one. Some (record {
      file = λ path. if bytes_eq path one.path.now then Some one.file.now else None;
      listing = λ path. if bytes_eq path (codes "in/") then Some one.listing.now else None;
      sure = true;
    }) };

    fn read_file(&mut self, alloc: Global, path: &[u8], limit: usize) -> io::Result<Vec<u8>> {
        if path == self.path {
            front_of(alloc, self.file, limit)
        } else {
            Err(Error::from(ErrorKind::NotFound))
        }
    }

    fn list_folder(&mut self, alloc: Global, path: &[u8], limit: usize) -> io::Result<Vec<u8>> {
        if path == b"in/".as_slice() {
            front_of(alloc, self.listing, limit)
        } else {
            Err(Error::from(ErrorKind::NotFound))
        }
    }
}

/// A sink to which no write fails: it counts the bytes that are written, and the texts that are told.
#[derive(Clone, Copy)]
struct Counted {
    bytes: usize,
    told: usize,
}

impl Sink for Counted {
    ghost contents = { λ _. None };

    ghost SURE = { true };

    fn write(&mut self, bytes: &[u8]) -> Result<usize, Lost> {
        self.bytes = self.bytes.saturating_add(bytes.len());
        Ok(bytes.len())
    }

    fn tell<D: fmt::Display + Drop>(&mut self, _text: D) -> Result<(), Lost> {
        self.told = self.told.saturating_add(1);
        Ok(())
    }
}

/// Words, how many bytes are written on the output and with the errors, and how many texts are told with the errors.
static NUMBERS: [(&str, usize, usize, usize); 4] = [
    ("jvhost check any", 14, 0, 0),
    ("jvhost run --raw 1 folder", 0, 82, 0),
    ("jvhost run --stdin 2 folder", 0, 16, 0),
    ("jvhost run --rounds 0 folder", 0, 0, 1),
];

/// Whether so much is written and told where no write fails.
fn tells_all(alloc: Global, state: RandomState) -> bool {
    for (line, bytes, beside, told) in &NUMBERS {
        let Ok(words) = words_of(alloc, *line) else {
            return false;
        };
        let mut folders = KNOWN;
        let mut input: &[u8] = b"";
        let mut out = Counted { bytes: 0, told: 0 };
        let mut err = Counted { bytes: 0, told: 0 };
        let _status = command(
            alloc,
            state,
            words.as_slice(),
            &mut folders,
            &mut input,
            &mut out,
            &mut err,
        );
        if out.bytes != *bytes || out.told != 0 || err.bytes != *beside || err.told != *told {
            return false;
        }
    }
    true
}

/// Words, and what the program prints over a class that writes `Hi`, which stands at each path, and tells with the errors.
static ROWS: [(&str, &str, &str); 4] = [
    (
        "jvhost check any other",
        "any: Accepted\nother: Duplicate\n",
        "",
    ),
    (
        "jvhost run folder",
        "guest 1 folder\n  Hi.class: Accepted\n  steps 0\n  throws 0\n  output 0:\n  end NoMain\n",
        "",
    ),
    (
        "jvhost run --library lib folder",
        "",
        "jvhost: lib/Hi.class: Main\n",
    ),
    (
        "jvhost check any --library lib",
        "",
        "jvhost: lib/Hi.class: Main\n",
    ),
];

/// Whether the program prints what the rows say.
fn prints(alloc: Global, state: RandomState) -> bool {
    for (line, wanted, told) in &ROWS {
        let Ok(words) = words_of(alloc, *line) else {
            return false;
        };
        let mut folders = KNOWN;
        let mut input: &[u8] = b"";
        let mut out = Stream(Vec::new(alloc));
        let mut err = Stream(Vec::new(alloc));
        let _status = command(
            alloc,
            state,
            words.as_slice(),
            &mut folders,
            &mut input,
            &mut out,
            &mut err,
        );
        if out.0.as_slice() != wanted.as_bytes() || err.0.as_slice() != told.as_bytes() {
            return false;
        }
    }
    true
}

/// Words, the names in the folder `in`, the one file that is there, and what the program tells.
static MISSING: [(&str, &[u8], &[u8], &str); 7] = [
    (
        "jvhost check in/A.class no\x07",
        b"",
        b"in/A.class",
        "jvhost: no\\x07: cannot be read\n",
    ),
    (
        "jvhost run out",
        b"A.class\0",
        b"in/A.class",
        "jvhost: out: cannot be read\n",
    ),
    (
        "jvhost run in",
        b"A.class\0main\0",
        b"in/A.class",
        "jvhost: in/main: cannot be read\n",
    ),
    (
        "jvhost run in",
        b"B.class\0A.class\0input\0",
        b"in/main",
        "jvhost: in/A.class: cannot be read\n",
    ),
    (
        "jvhost run in",
        b"input\0",
        b"in/main",
        "jvhost: in/input: cannot be read\n",
    ),
    (
        "jvhost run --library in out",
        b"\xff.class\0",
        b"out/main",
        "jvhost: in/\\xff.class: cannot be read\n",
    ),
    (
        "jvhost check A.class --library out",
        b"",
        b"A.class",
        "jvhost: out: cannot be read\n",
    ),
];

/// Whether the program tells what the rows say, and prints nothing.
fn tells_what_is_missing(alloc: Global, state: RandomState) -> bool {
    for (line, listing, path, told) in &MISSING {
        let Ok(words) = words_of(alloc, *line) else {
            return false;
        };
        let mut folders = One {
            listing: *listing,
            path: *path,
            file: HI,
        };
        let mut input: &[u8] = b"";
        let mut out = Stream(Vec::new(alloc));
        let mut err = Stream(Vec::new(alloc));
        let status = command(
            alloc,
            state,
            words.as_slice(),
            &mut folders,
            &mut input,
            &mut out,
            &mut err,
        );
        if status != 3 || !out.0.is_empty() || err.0.as_slice() != told.as_bytes() {
            return false;
        }
    }
    true
}

#[test]
fn what_is_missing_is_told(rt: HostRuntime) {
    let passes = match RandomState::new(&rt) {
        Ok(state) => tells_what_is_missing(rt.alloc(), state),
        Err(_) => false,
    };
    assert!(rt; passes);
}

#[test]
fn reports_are_on_what_is_known(rt: HostRuntime) {
    let passes = match RandomState::new(&rt) {
        Ok(state) => prints(rt.alloc(), state),
        Err(_) => false,
    };
    assert!(rt; passes);
}

#[test]
fn nothing_is_lost_where_no_write_fails(rt: HostRuntime) {
    let passes = match RandomState::new(&rt) {
        Ok(state) => tells_all(rt.alloc(), state),
        Err(_) => false,
    };
    assert!(rt; passes);
}
