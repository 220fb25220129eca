//! What comes of a job.

ghost use Rattle.std.specs.Prelude.{◌≡◌, ◌⊎◌};
ghost use Rattle.libjvhost.specs.Codes.{ok, host_memory};

use crate::codes::{HOST_MEMORY, OK};
use crate::told::{ACCEPTED, NOWHERE, Seen, ToldPlace, ToldVerdict, UNSEEN};
use std::alloc::Global;

/// What came of a job: a code, and what else it is to say.
#[derive(Drop)]
pub struct Done {
    pub(crate) code: u32,
    pub(crate) number: u64,
    pub(crate) seen: Seen,
    pub(crate) verdict: ToldVerdict,
    pub(crate) place: ToldPlace,
    pub(crate) bytes: Vec<u8>,
    pub(crate) verdicts: Vec<ToldVerdict>,
}

/// A code, with nothing else to say.
pub(crate) fn coded(alloc: Global, code: u32) -> Done
    ensures { result.code ≡ code }
{
    Done {
        code,
        number: 0,
        seen: UNSEEN,
        verdict: ACCEPTED,
        place: NOWHERE,
        bytes: Vec::new(alloc),
        verdicts: Vec::new(alloc),
    }
}

/// It is done, with a number.
pub(crate) fn numbered(alloc: Global, number: u64) -> Done
    ensures code { result.code ≡ ok }
    ensures number { result.number ≡ number }
{
    let mut done = coded(alloc, OK);
    done.number = number;
    done
}

/// A copy of bytes, or want of memory.
pub(crate) fn copied(alloc: Global, bytes: &[u8]) -> Done
    ensures code { (result.code ≡ ok) ⊎ (result.code ≡ host_memory) }
    ensures copy { result.code ≡ ok → result.bytes.items ≡ bytes.now }
{
    match Vec::from_slice(alloc, bytes) {
        Ok(bytes) => {
            let mut done = coded(alloc, OK);
            done.bytes = bytes;
            done
        }
        Err(_) => coded(alloc, HOST_MEMORY),
    }
}
