//! Calls without a host.

ghost use Rattle.std.specs.Prelude.{◌≡◌, ◌≢◌, ◌⊎◌, [], map};
ghost use Rattle.jv_limits.specs.Bytes.{bytes_of};
ghost use Rattle.libjvhost.specs.Calls.{Checks, Judges};
ghost use Rattle.libjvhost.specs.Codes.{ok, host_memory, library_broken, wrong_size};
ghost use Rattle.libjvhost.specs.Told.{budget_told, files_told};

use crate::checking::{check, check_refusal};
use crate::codes::{HOST_MEMORY, OK, WRONG_SIZE};
use crate::judging::judge;
use crate::room::{hand_on, hand_verdicts_on};
use crate::seed::state_of;
use crate::told::{GUEST_SIZE, Guest, SEEN_SIZE, Seen, ToldVerdict};
use jv_host::KnownLibrary;
use jv_loader::system_files;
use std::alloc::Global;

/// Judges files as those of one guest, and tells the verdict on each.
#[unsafe(no_mangle)]
pub extern "C" fn jvhost_check_seeded(
    alloc: Global,
    seed: u64,
    more_seed: u64,
    files: &[&[u8]],
    verdicts: &mut [ToldVerdict],
) -> u32
    ensures checks { Checks [] (map bytes_of files.now) result verdicts.old verdicts.new }
    ensures whole { result ≢ library_broken }
{
    let refusal = check_refusal(files, verdicts.len());
    if refusal != OK {
        return refusal;
    }
    let (Some(state), Ok(system)) = (state_of(seed, more_seed), system_files(alloc)) else {
        return HOST_MEMORY;
    };
    let done = check(
        alloc,
        state,
        &system,
        &mut KnownLibrary::new(),
        files,
        verdicts.len(),
    );
    hand_verdicts_on(&done, verdicts)
}

/// Admits one guest to a host of its own, gives it a turn of at most so many steps, and says what it shows then.
#[unsafe(no_mangle)]
pub extern "C" fn jvhost_judge_seeded(
    alloc: Global,
    seed: u64,
    more_seed: u64,
    guest: &Guest<'_>,
    steps: u32,
    seen: &mut Seen,
    output: &mut [u8],
) -> u32
    ensures guest { guest.now.size ≢ 72 → result ≡ wrong_size }
    ensures size { seen.old.size ≢ 48 → result ≡ wrong_size }
    ensures judges { guest.now.size ≡ 72 → seen.old.size ≡ 48 → (result ≡ host_memory)
        ⊎ Judges (files_told [] guest.now) (budget_told guest.now) steps result seen.new output.old output.new }
    ensures seen { result ≢ ok → seen.new ≡ seen.old }
    ensures same { result ≢ ok → output.new ≡ output.old }
{
    if guest.size != GUEST_SIZE || seen.size != SEEN_SIZE {
        return WRONG_SIZE;
    }
    let (Some(state), Ok(system)) = (state_of(seed, more_seed), system_files(alloc)) else {
        return HOST_MEMORY;
    };
    let done = judge(alloc, state, &system, *guest, steps, output.len());
    hand_on(&done, seen, output)
}
