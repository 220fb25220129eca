//! What a guest shows.

ghost use Rattle.std.specs.Prelude.{◌≡◌, ◌≢◌, length, take, drop};
ghost use Rattle.libjvhost.specs.Calls.{OverHost, Observes, Copies, Places, TellsVerdict, IsFilled, end_class, last_class};
ghost use Rattle.libjvhost.specs.Codes.{ok, wrong_size};
ghost use Rattle.libjvhost.specs.Handles.{host_of};
ghost use Rattle.libjvhost.specs.Told.{AreNumbers, IsPlaceTold, place_names};

use crate::codes::{OK, WRONG_SIZE};
use crate::handle::{JvHost, perform};
use crate::jobs::Job;
use crate::room::fill;
use crate::told::{PLACE_SIZE, SEEN_SIZE, Seen, ToldPlace, ToldVerdict};
use jv_host::GuestId;
use std::alloc::Global;

/// What a guest shows, in numbers.
#[unsafe(no_mangle)]
pub extern "C" fn jvhost_observe(alloc: Global, host: &mut JvHost, id: u32, seen: &mut Seen) -> u32
    ensures size { seen.old.size ≢ 48 → (result ≡ wrong_size) × (host_of host.new ≡ host_of host.old) }
    ensures observes { seen.old.size ≡ 48 → OverHost (host_of host.old) (host_of host.new) result (λ old new.
        Observes id old new result (AreNumbers seen.new)) }
    ensures seen { result ≢ ok → seen.new ≡ seen.old }
{
    if seen.size != SEEN_SIZE {
        return WRONG_SIZE;
    }
    let done = perform(alloc, host, Job::Observe(GuestId(id)));
    if done.code == OK {
        *seen = done.seen;
    }
    done.code
}

/// Copies what a guest wrote, from a place on, as much as there is and as fits.
#[unsafe(no_mangle)]
pub extern "C" fn jvhost_output(
    alloc: Global,
    host: &mut JvHost,
    id: u32,
    from: usize,
    room: &mut [u8],
    copied: &mut usize,
) -> u32
    ensures copies { OverHost (host_of host.old) (host_of host.new) result (λ old new. Copies id old new result (λ o.
        IsFilled (drop from o.output) room.old room.new × (copied.new ≡ length (take (length room.old) (drop from o.output))))) }
    ensures room { result ≢ ok → room.new ≡ room.old }
    ensures copied { result ≢ ok → copied.new ≡ copied.old }
{
    let done = perform(alloc, host, Job::Output(GuestId(id), from, room.len()));
    if done.code == OK {
        fill(&done.bytes, room);
        *copied = done.bytes.len();
    }
    done.code
}

/// Copies the name of the class of the last object that was thrown, as much as fits, and says how long the name is.
#[unsafe(no_mangle)]
pub extern "C" fn jvhost_last(
    alloc: Global,
    host: &mut JvHost,
    id: u32,
    room: &mut [u8],
    count: &mut usize,
) -> u32
    ensures copies { OverHost (host_of host.old) (host_of host.new) result (λ old new. Copies id old new result (λ o.
        IsFilled (last_class o.last) room.old room.new × (count.new ≡ length (last_class o.last)))) }
    ensures room { result ≢ ok → room.new ≡ room.old }
    ensures count { result ≢ ok → count.new ≡ count.old }
{
    let done = perform(alloc, host, Job::Last(GuestId(id)));
    if done.code == OK {
        fill(&done.bytes, room);
        *count = done.bytes.len();
    }
    done.code
}

/// Copies the name of the class of the object by which a guest ended, as much as fits, and says how long the name is.
#[unsafe(no_mangle)]
pub extern "C" fn jvhost_end_class(
    alloc: Global,
    host: &mut JvHost,
    id: u32,
    room: &mut [u8],
    count: &mut usize,
) -> u32
    ensures copies { OverHost (host_of host.old) (host_of host.new) result (λ old new. Copies id old new result (λ o.
        IsFilled (end_class o.end) room.old room.new × (count.new ≡ length (end_class o.end)))) }
    ensures room { result ≢ ok → room.new ≡ room.old }
    ensures count { result ≢ ok → count.new ≡ count.old }
{
    let done = perform(alloc, host, Job::EndClass(GuestId(id)));
    if done.code == OK {
        fill(&done.bytes, room);
        *count = done.bytes.len();
    }
    done.code
}

/// Tells where the last object was thrown, and copies the names of the class and the method and the descriptor, one behind the other, as
/// much as fits.
#[unsafe(no_mangle)]
pub extern "C" fn jvhost_place(
    alloc: Global,
    host: &mut JvHost,
    id: u32,
    place: &mut ToldPlace,
    room: &mut [u8],
) -> u32
    ensures size { place.old.size ≢ 40 → (result ≡ wrong_size) × (host_of host.new ≡ host_of host.old) }
    ensures places { place.old.size ≡ 40 → OverHost (host_of host.old) (host_of host.new) result (λ old new.
        Places id old new result (λ p. IsPlaceTold place.new p × IsFilled (place_names p) room.old room.new)) }
    ensures place { result ≢ ok → place.new ≡ place.old }
    ensures room { result ≢ ok → room.new ≡ room.old }
{
    if place.size != PLACE_SIZE {
        return WRONG_SIZE;
    }
    let done = perform(alloc, host, Job::Place(GuestId(id)));
    if done.code == OK {
        *place = done.place;
        fill(&done.bytes, room);
    }
    done.code
}

/// The verdict on one of a guest's files.
#[unsafe(no_mangle)]
pub extern "C" fn jvhost_verdict(
    alloc: Global,
    host: &mut JvHost,
    id: u32,
    file: usize,
    verdict: &mut ToldVerdict,
) -> u32
    ensures tells { OverHost (host_of host.old) (host_of host.new) result (λ old new.
        TellsVerdict id file old new result verdict.new) }
    ensures verdict { result ≢ ok → verdict.new ≡ verdict.old }
{
    let done = perform(alloc, host, Job::Verdict(GuestId(id), file));
    if done.code == OK {
        *verdict = done.verdict;
    }
    done.code
}
