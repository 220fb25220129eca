//! Hosts, and what changes them.

ghost use Rattle.std.specs.Prelude.{◌≡◌, ◌≢◌, [], Some, None, IsSome, map};
ghost use Rattle.libjvhost.specs.Calls.{OverHost, Admits, Makes, Turns, Runs, Feeds, new_host};
ghost use Rattle.jv_limits.specs.Bytes.{bytes_of};
ghost use Rattle.libjvhost.specs.Codes.{ok, has_host, host_memory, no_library, wrong_size};
ghost use Rattle.libjvhost.specs.Handles.{host_of, library_of};
ghost use Rattle.libjvhost.specs.Told.{budget_told, files_told};

use crate::codes::{HAS_HOST, HOST_MEMORY, NO_LIBRARY, OK, WRONG_SIZE, admit_code};
use crate::handle::{JvHost, close, perform};
use crate::jobs::Job;
use crate::kept::make;
use crate::seed::state_of;
use crate::told::{FAULT_SIZE, GUEST_SIZE, Guest, ToldFault, told_library_fault};
use jv_host::GuestId;
use jv_limits::first_file_refusal;
use jv_loader::{LibraryFault, SystemFiles, system_files, system_with_library};
use std::alloc::Global;
use std::hash::RandomState;

/// Puts a host without a guest in the place of what a handle holds.
fn hold(alloc: Global, host: &mut JvHost, state: RandomState, system: SystemFiles) -> u32
    ensures made { result ≡ ok → host_of host.new ≡ Some (new_host system) }
    ensures refused { result ≢ ok → (result ≡ host_memory) × (host_of host.new ≡ host_of host.old) }
{
    match make(alloc, state, system) {
        Some((owned, room)) => {
            *host = JvHost::start(owned, room);
            OK
        }
        None => HOST_MEMORY,
    }
}

/// A host without a guest, whose tables are hashed with the seed.
#[unsafe(no_mangle)]
pub extern "C" fn jvhost_new_seeded(
    alloc: Global,
    host: &mut JvHost,
    seed: u64,
    more_seed: u64,
) -> u32
    ensures held { IsSome (host_of host.old) → (result ≡ has_host) × (host_of host.new ≡ host_of host.old) }
    ensures made { host_of host.old ≡ None → result ≡ ok → host_of host.new ≡ Some (new_host []) }
    ensures refused { host_of host.old ≡ None → result ≢ ok → (result ≡ host_memory) × (host_of host.new ≡ None) }
{
    if host.holds != 0 {
        return HAS_HOST;
    }
    match (state_of(seed, more_seed), system_files(alloc)) {
        (Some(state), Ok(system)) => hold(alloc, host, state, system),
        _ => HOST_MEMORY,
    }
}

/// A host without a guest, on the library of files, which are copied, and whose tables are hashed with the seed.
#[unsafe(no_mangle)]
pub extern "C" fn jvhost_new_with_library_seeded(
    alloc: Global,
    host: &mut JvHost,
    seed: u64,
    more_seed: u64,
    files: &[&[u8]],
    fault: &mut ToldFault,
) -> u32
    ensures size { fault.old.size ≢ 24 → (result ≡ wrong_size) × (host_of host.new ≡ host_of host.old) }
    ensures held { fault.old.size ≡ 24 → IsSome (host_of host.old) → (result ≡ has_host) × (host_of host.new ≡ host_of host.old) }
    ensures makes { fault.old.size ≡ 24 → host_of host.old ≡ None
        → Makes (map bytes_of files.now) result (host_of host.new) fault.new }
    ensures fault { result ≢ no_library → fault.new ≡ fault.old }
{
    if fault.size != FAULT_SIZE {
        return WRONG_SIZE;
    }
    if host.holds > 0 {
        return HAS_HOST;
    }
    if let Some(refusal) = first_file_refusal(files) {
        return admit_code(refusal);
    }
    let Some(state) = state_of(seed, more_seed) else {
        return HOST_MEMORY;
    };
    match system_with_library(alloc, state, files) {
        Ok(system) => hold(alloc, host, state, system),
        Err(LibraryFault::OutOfMemory) => HOST_MEMORY,
        Err(found) => {
            *fault = told_library_fault(found);
            NO_LIBRARY
        }
    }
}

/// Ends a host, if there is one.
#[unsafe(no_mangle)]
pub extern "C" fn jvhost_end(alloc: Global, host: &mut JvHost)
    ensures { host_of host.new ≡ None }
{
    close(alloc, host);
}

/// Admits a guest, at its start.
#[unsafe(no_mangle)]
pub extern "C" fn jvhost_admit(
    alloc: Global,
    host: &mut JvHost,
    guest: &Guest<'static>,
    id: &mut u32,
) -> u32
    ensures size { guest.now.size ≢ 72 → (result ≡ wrong_size) × (host_of host.new ≡ host_of host.old) }
    ensures admits { guest.now.size ≡ 72 → OverHost (host_of host.old) (host_of host.new) result (λ old new.
        Admits (files_told (library_of host.old) guest.now) (budget_told guest.now) old new result id.new) }
    ensures id { result ≢ ok → id.new ≡ id.old }
{
    if guest.size != GUEST_SIZE {
        return WRONG_SIZE;
    }
    let done = perform(alloc, host, Job::Admit(*guest));
    if done.code == OK {
        *id = done.number as u32;
    }
    done.code
}

/// Takes at most so many steps of a guest.
#[unsafe(no_mangle)]
pub extern "C" fn jvhost_turn(
    alloc: Global,
    host: &mut JvHost,
    id: u32,
    steps: u32,
    taken: &mut u64,
) -> u32
    ensures turns { OverHost (host_of host.old) (host_of host.new) result (λ old new. Turns id steps old new result taken.new) }
    ensures taken { result ≢ ok → taken.new ≡ taken.old }
{
    let done = perform(alloc, host, Job::Turn(GuestId(id), steps));
    if done.code == OK {
        *taken = done.number;
    }
    done.code
}

/// Takes at most so many rounds, in each of which each guest has a turn of at most so many steps.
#[unsafe(no_mangle)]
pub extern "C" fn jvhost_run(
    alloc: Global,
    host: &mut JvHost,
    steps: u32,
    rounds: u32,
    taken: &mut u32,
) -> u32
    ensures runs { OverHost (host_of host.old) (host_of host.new) result (λ old new. Runs steps rounds old new result taken.new) }
    ensures taken { result ≢ ok → taken.new ≡ taken.old }
{
    let done = perform(alloc, host, Job::Run(steps, rounds));
    if done.code == OK {
        *taken = done.number as u32;
    }
    done.code
}

/// The bytes come to a guest's input.
#[unsafe(no_mangle)]
pub extern "C" fn jvhost_feed(alloc: Global, host: &mut JvHost, id: u32, bytes: &[u8]) -> u32
    ensures { OverHost (host_of host.old) (host_of host.new) result (λ old new. Feeds id bytes.now old new result) }
{
    perform(alloc, host, Job::Feed(GuestId(id), bytes)).code
}
