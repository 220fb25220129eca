//! Room that the caller gave, and what is copied into it.

ghost use Rattle.std.specs.Prelude.{◌≡◌, ◌≢◌, take, drop, min};
ghost use Rattle.libjvhost.specs.Calls.{IsFilled};
ghost use Rattle.libjvhost.specs.Codes.{ok};

use crate::codes::OK;
use crate::done::Done;
use crate::told::{Seen, ToldVerdict};

/// The front of the bytes, as many as there are up to a limit.
pub(crate) fn front_of(bytes: &[u8], most: usize) -> &[u8]
    ensures { result.now ≡ take most bytes.now }
{
    bytes.get(..most).unwrap_or(bytes)
}

/// The bytes from a place on.
pub(crate) fn rest_of(bytes: &[u8], from: usize) -> &[u8]
    ensures { result.now ≡ drop from bytes.now }
{
    bytes.get(from..).unwrap_or(&[])
}

/// Copies the front of the bytes into the room, as many as fit.
pub(crate) fn fill(bytes: &[u8], room: &mut [u8])
    ensures { IsFilled bytes.now room.old room.new }
{
    let count = bytes.len().min(room.len());
    room[..count].copy_from_slice(&bytes[..count]);
}

/// Copies the front of the verdicts into the room, as many as fit.
fn fill_verdicts(verdicts: &[ToldVerdict], room: &mut [ToldVerdict])
    ensures { IsFilled verdicts.now room.old room.new }
{
    let count = verdicts.len().min(room.len());
    room[..count].copy_from_slice(&verdicts[..count]);
}

/// Hands on what came of a guest that was judged.
pub(crate) fn hand_on(done: &Done, seen: &mut Seen, output: &mut [u8]) -> u32
    ensures code { result ≡ done.now.code }
    ensures seen { result ≡ ok → seen.new ≡ done.now.seen }
    ensures output { result ≡ ok → IsFilled done.now.bytes.items output.old output.new }
    ensures unseen { result ≢ ok → seen.new ≡ seen.old }
    ensures same { result ≢ ok → output.new ≡ output.old }
{
    if done.code == OK {
        *seen = done.seen;
        fill(&done.bytes, output);
    }
    done.code
}

/// Hands on what came of files that were judged.
pub(crate) fn hand_verdicts_on(done: &Done, verdicts: &mut [ToldVerdict]) -> u32
    ensures code { result ≡ done.now.code }
    ensures verdicts { result ≡ ok → IsFilled done.now.verdicts.items verdicts.old verdicts.new }
    ensures same { result ≢ ok → verdicts.new ≡ verdicts.old }
{
    if done.code == OK {
        fill_verdicts(&done.verdicts, verdicts);
    }
    done.code
}
