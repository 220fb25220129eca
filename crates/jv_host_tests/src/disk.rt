//! Folders and files in memory.
ghost use Rattle.std.specs.Prelude.{None};

use crate::beyond::{CONSTANT, DADD, DYNAMIC, FIELD, FLAGS, NAMED};
use crate::files::{ECHO_FILE, HI};
use jv_program_base::{Folders, read_past_limit};
use std::alloc::Global;
use std::io;
use std::io::{Error, ErrorKind, Read};

/// Bytes that are read a piece at a time, and fail behind so many reads.
#[derive(Clone, Copy)]
pub(crate) struct Pieces {
    pub(crate) bytes: &'static [u8],
    pub(crate) piece: usize,
    pub(crate) good: u32,
}

impl Read for Pieces {
    fn read(&mut self, buf: &mut [u8]) -> io::Result<usize> {
        if self.good == 0 {
            return Err(Error::from(ErrorKind::Other));
        }
        self.good -= 1;
        let len = buf.len().min(self.piece);
        self.bytes.read(&mut buf[..len])
    }
}

/// Bytes by their path, the most bytes of a piece, and how many reads are good.
struct Held {
    path: &'static str,
    bytes: &'static [u8],
    piece: usize,
    good: u32,
}

/// The file of a class C with a method whose result is an Object, and which answers an int.
pub(crate) const INT_AS_OBJECT: &[u8] =
    b"\xca\xfe\xba\xbe\x00\x00\x004\x00\x08\x01\x00\x01C\x07\x00\x01\x01\x00\x10java/lang/Object\x07\x00\x03\x01\x00\x04Code\x01\x00\x01f\x01\x00\x14()Ljava/lang/Object;\x00!\x00\x02\x00\x04\x00\x00\x00\x00\x00\x01\x00\x09\x00\x06\x00\x07\x00\x01\x00\x05\x00\x00\x00\x0e\x00\x01\x00\x00\x00\x00\x00\x02\x04\xb0\x00\x00\x00\x00\x00\x00";

/// The same with a `main` behind that method.
const UNVERIFIED_MAIN: &[u8] =
    b"\xca\xfe\xba\xbe\x00\x00\x004\x00\x0a\x01\x00\x01C\x07\x00\x01\x01\x00\x10java/lang/Object\x07\x00\x03\x01\x00\x04Code\x01\x00\x01f\x01\x00\x14()Ljava/lang/Object;\x01\x00\x04main\x01\x00\x16([Ljava/lang/String;)V\x00!\x00\x02\x00\x04\x00\x00\x00\x00\x00\x02\x00\x09\x00\x06\x00\x07\x00\x01\x00\x05\x00\x00\x00\x0e\x00\x01\x00\x00\x00\x00\x00\x02\x04\xb0\x00\x00\x00\x00\x00\x09\x00\x08\x00\x09\x00\x01\x00\x05\x00\x00\x00\x0d\x00\x00\x00\x01\x00\x00\x00\x01\xb1\x00\x00\x00\x00\x00\x00";

/// More reads than there are.
const ALL: u32 = 4_294_967_295;

/// The folders.
static LISTINGS: [Held; 13] = [
    Held {
        path: "ho/",
        bytes: b"Hi.class\0main\0",
        piece: 4096,
        good: ALL,
    },
    Held {
        path: "thrown/",
        bytes: b"main\0C.class\0",
        piece: 4096,
        good: ALL,
    },
    Held {
        path: "bare/",
        bytes: b"input\0Hi.class\0",
        piece: 4096,
        good: ALL,
    },
    Held {
        path: "dry/",
        bytes: b"input\0Hi.class\0main\0",
        piece: 4096,
        good: ALL,
    },
    Held {
        path: "unlisted/",
        bytes: b"Hi.class\0main\0",
        piece: 4096,
        good: 0,
    },
    Held {
        path: "hi/",
        bytes: b"Hi.class\0main\0",
        piece: 4096,
        good: ALL,
    },
    Held {
        path: "p/",
        bytes: b"P.class\0main\0",
        piece: 4096,
        good: ALL,
    },
    Held {
        path: "in/",
        bytes: b"input\0P.class\0main\0",
        piece: 4096,
        good: ALL,
    },
    Held {
        path: "mainless/",
        bytes: b"Hi.class\0",
        piece: 4096,
        good: ALL,
    },
    Held {
        path: "classless/",
        bytes: b"B.class\0A.class\0",
        piece: 4096,
        good: ALL,
    },
    Held {
        path: "first/",
        bytes: b"Bad.class\0",
        piece: 4096,
        good: ALL,
    },
    Held {
        path: "second/",
        bytes: b"Cut.class\0",
        piece: 4096,
        good: ALL,
    },
    Held {
        path: "cut/",
        bytes: b"Hi.class\0main\0",
        piece: 1,
        good: 3,
    },
];

/// The files.
static FILES: [Held; 24] = [
    Held {
        path: "ho/Hi.class",
        bytes: HI,
        piece: 4096,
        good: ALL,
    },
    Held {
        path: "ho/main",
        bytes: b"Ho",
        piece: 4096,
        good: ALL,
    },
    Held {
        path: "thrown/C.class",
        bytes: UNVERIFIED_MAIN,
        piece: 4096,
        good: ALL,
    },
    Held {
        path: "thrown/main",
        bytes: b"C",
        piece: 4096,
        good: ALL,
    },
    Held {
        path: "bare/Hi.class",
        bytes: HI,
        piece: 4096,
        good: ALL,
    },
    Held {
        path: "dry/Hi.class",
        bytes: HI,
        piece: 4096,
        good: ALL,
    },
    Held {
        path: "dry/main",
        bytes: b"Hi",
        piece: 4096,
        good: ALL,
    },
    Held {
        path: "C.class",
        bytes: INT_AS_OBJECT,
        piece: 4096,
        good: ALL,
    },
    Held {
        path: "hi/Hi.class",
        bytes: HI,
        piece: 100,
        good: ALL,
    },
    Held {
        path: "hi/main",
        bytes: b"Hi\n",
        piece: 1,
        good: ALL,
    },
    Held {
        path: "p/P.class",
        bytes: ECHO_FILE,
        piece: 4096,
        good: ALL,
    },
    Held {
        path: "p/main",
        bytes: b"P",
        piece: 4096,
        good: ALL,
    },
    Held {
        path: "in/P.class",
        bytes: ECHO_FILE,
        piece: 4096,
        good: ALL,
    },
    Held {
        path: "in/main",
        bytes: b"P\r\n",
        piece: 4096,
        good: ALL,
    },
    Held {
        path: "in/input",
        bytes: b"Z",
        piece: 4096,
        good: ALL,
    },
    Held {
        path: "mainless/Hi.class",
        bytes: HI,
        piece: 4096,
        good: ALL,
    },
    Held {
        path: "first/Bad.class",
        bytes: HI,
        piece: 100,
        good: 0,
    },
    Held {
        path: "second/Cut.class",
        bytes: HI,
        piece: 100,
        good: 1,
    },
    Held {
        path: "F.class",
        bytes: FIELD,
        piece: 4096,
        good: ALL,
    },
    Held {
        path: "S.class",
        bytes: FLAGS,
        piece: 4096,
        good: ALL,
    },
    Held {
        path: "D.class",
        bytes: DADD,
        piece: 4096,
        good: ALL,
    },
    Held {
        path: "L.class",
        bytes: DYNAMIC,
        piece: 4096,
        good: ALL,
    },
    Held {
        path: "U.class",
        bytes: NAMED,
        piece: 4096,
        good: ALL,
    },
    Held {
        path: "K.class",
        bytes: CONSTANT,
        piece: 4096,
        good: ALL,
    },
];

/// Folders and files in memory.
#[derive(Clone, Copy)]
pub(crate) struct Memory;

fn found(table: &[Held], path: &[u8]) -> io::Result<Pieces> {
    for held in table {
        if held.path.as_bytes() == path {
            return Ok(Pieces {
                bytes: held.bytes,
                piece: held.piece,
                good: held.good,
            });
        }
    }
    Err(Error::from(ErrorKind::NotFound))
}

impl Folders for Memory {
    ghost disk = { λ _. None };

    fn read_file(&mut self, alloc: Global, path: &[u8], limit: usize) -> io::Result<Vec<u8>> {
        let mut file = found(&FILES, path)?;
        read_past_limit(alloc, &mut file, limit)
    }

    fn list_folder(&mut self, alloc: Global, path: &[u8], limit: usize) -> io::Result<Vec<u8>> {
        let mut listing = found(&LISTINGS, path)?;
        read_past_limit(alloc, &mut listing, limit)
    }
}
