//! A file's bytes, up to a limit.
ghost use Rattle.std.specs.Prelude.{◌+◌, ◌<◌, ◌^◌, ◌≤◌, ◌≡◌, ℕ, List, Option, IfOk, IfSome, OnOk, take, vec_len};
ghost use Rattle.std.specs.Io.KnownBytes.{Consumes, IsAtEnd};

use std::alloc::Global;
use std::io;
use std::io::{Error, ErrorKind, Read};

/// How many bytes are asked for at a time.
const PIECE: usize = 4096;

/// Reads at most `room` bytes more, and says how many came; none come only at the end. Bytes that
/// were taken from the front of what a file had stay so.
fn read_piece<F: Read>(file: &mut F, bytes: &mut Vec<u8>, room: usize) -> io::Result<usize>
    requires { 0 < room }
    ensures room { IfOk result (λ count. count ≤ room) }
    ensures len { IfOk result (λ count. vec_len bytes.new ≡ vec_len bytes.old + count) }
    ensures taken { OnOk result ((all : Option (List ℕ))
        → Consumes all (F.remaining file.old) bytes.old.items
        → Consumes all (F.remaining file.new) bytes.new.items) }
    ensures end { IfOk result (λ count. count ≡ 0 → IsAtEnd (F.remaining file.new)) }
{
    let mut piece = [0u8; PIECE];
    let len = room.min(PIECE);
    let count = file.read(&mut piece[..len])?;
    bytes.extend_from_slice(&piece[..count])?;
    Ok(count)
}

/// Reads to the end, or one byte past the limit where there are more bytes than that. There are at
/// most as many reads as the limit and two.
///
/// # Errors
///
/// Those of the reads, of the kind `OutOfMemory` where there was no memory for what was read.
pub fn read_past_limit<F: Read>(alloc: Global, file: &mut F, limit: usize) -> io::Result<Vec<u8>>
    requires { limit + 2 < 2 ^ 64 }
    ensures most { IfOk result (λ bytes. vec_len bytes ≤ limit + 1) }
    ensures read { IfOk result (λ bytes. Consumes (F.remaining file.old) (F.remaining file.new) bytes.items) }
    ensures end { IfOk result (λ bytes. vec_len bytes ≤ limit → IsAtEnd (F.remaining file.new)) }
    ensures front { IfOk result (λ bytes.
        IfSome (F.remaining file.old) (λ all. bytes.items ≡ take (limit + 1) all)) }
{
    let mut bytes = Vec::new(alloc);
    for _ in 0..limit + 2 {
        let room = limit + 1 - bytes.len();
        if room == 0 || read_piece(file, &mut bytes, room)? == 0 {
            bytes.shrink_to_fit();
            return Ok(bytes);
        }
    }
    Err(Error::from(ErrorKind::Other))
}
