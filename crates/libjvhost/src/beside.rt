//! The same calls beside a host's library. They change nothing of the host.

ghost use Rattle.std.specs.Prelude.{◌≡◌, ◌≢◌, map};
ghost use Rattle.jv_limits.specs.Bytes.{bytes_of};
ghost use Rattle.libjvhost.specs.Calls.{Checks, Judges, OverHost};
ghost use Rattle.libjvhost.specs.Codes.{ok, wrong_size};
ghost use Rattle.libjvhost.specs.Handles.{host_of, library_of};
ghost use Rattle.libjvhost.specs.Told.{budget_told, files_told};

use crate::codes::WRONG_SIZE;
use crate::handle::{JvHost, perform};
use crate::jobs::Job;
use crate::room::{hand_on, hand_verdicts_on};
use crate::told::{GUEST_SIZE, Guest, SEEN_SIZE, Seen, ToldVerdict};
use std::alloc::Global;

/// Judges files as those of one guest of the host, beside its library, and tells the verdict on each.
#[unsafe(no_mangle)]
pub extern "C" fn jvhost_check_beside(
    alloc: Global,
    host: &mut JvHost,
    files: &[&[u8]],
    verdicts: &mut [ToldVerdict],
) -> u32
    ensures checks { OverHost (host_of host.old) (host_of host.new) result (λ old new. (new ≡ old)
        × Checks (library_of host.old) (map bytes_of files.now) result verdicts.old verdicts.new) }
    ensures same { result ≢ ok → verdicts.new ≡ verdicts.old }
{
    let done = perform(alloc, host, Job::Check(files, verdicts.len()));
    hand_verdicts_on(&done, verdicts)
}

/// Admits one guest to a host of its own, on this one's library, gives it a turn of at most so many steps, and says what it shows then.
#[unsafe(no_mangle)]
pub extern "C" fn jvhost_judge_beside(
    alloc: Global,
    host: &mut JvHost,
    guest: &Guest<'_>,
    steps: u32,
    seen: &mut Seen,
    output: &mut [u8],
) -> u32
    ensures guest { guest.now.size ≢ 72 → (result ≡ wrong_size) × (host_of host.new ≡ host_of host.old) }
    ensures size { seen.old.size ≢ 48 → (result ≡ wrong_size) × (host_of host.new ≡ host_of host.old) }
    ensures judges { guest.now.size ≡ 72 → seen.old.size ≡ 48
        → OverHost (host_of host.old) (host_of host.new) result (λ old new. (new ≡ old)
        × Judges (files_told (library_of host.old) guest.now) (budget_told guest.now) steps result seen.new output.old output.new) }
    ensures seen { result ≢ ok → seen.new ≡ seen.old }
    ensures same { result ≢ ok → output.new ≡ output.old }
{
    if guest.size != GUEST_SIZE || seen.size != SEEN_SIZE {
        return WRONG_SIZE;
    }
    let done = perform(alloc, host, Job::Judge(*guest, steps, output.len()));
    hand_on(&done, seen, output)
}
