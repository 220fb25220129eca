//! What is asked of the host behind a handle, and what comes of it.

ghost use Rattle.std.specs.Prelude.{◌≡◌, ◌⊎◌, IfOk, take, drop};
ghost use Rattle.jv_host.specs.Showing.{observed_of, seen_place};
ghost use Rattle.libjvhost.specs.Codes.{ok, host_memory};
ghost use Rattle.libjvhost.specs.Told.{AreNumbers, budget_told, files_told, place_names};
ghost use Rattle.libjvhost.specs.Calls.{Admits, Turns, Runs, Feeds, Observes, Copies, Places, TellsVerdict, end_class, last_class};
ghost use Rattle.libjvhost.specs.Inside.Jobs.{Does, IsPlaceIn};

use crate::checking::check;
use crate::codes::{HOST_MEMORY, NO_FILE, NO_GUEST, NO_PLACE, OK, admit_code, feed_code};
use crate::done::{Done, coded, copied, numbered};
use crate::judging::judge_knowing;
use crate::room::{front_of, rest_of};
use crate::told::{Guest, budget_of, files_of, seen_of, told_place, told_verdict};
use jv_host::{GuestEnd, GuestId, Host, Observation, ThrowPlace};
use jv_loader::SystemFiles;
use jv_store::Cells;
use std::alloc::{AllocError, Global};
use std::hash::RandomState;

/// What is asked of a host. What it brings has to stay for the call, but what a guest that is admitted does.
#[derive(Drop)]
pub enum Job<'j> {
    /// To admit a guest.
    Admit(Guest<'static>),
    /// To give a guest a turn.
    Turn(GuestId, u32),
    /// To give turns in rounds.
    Run(u32, u32),
    /// To feed a guest.
    Feed(GuestId, &'j [u8]),
    /// To say in numbers what a guest shows.
    Observe(GuestId),
    /// To copy what a guest wrote, from a place on and up to a limit.
    Output(GuestId, usize, usize),
    /// To copy the name of the class of the last object that was thrown.
    Last(GuestId),
    /// To copy the name of the class of the object by which a guest ended.
    EndClass(GuestId),
    /// To tell a verdict.
    Verdict(GuestId, usize),
    /// To tell where the last object was thrown, and to copy the names.
    Place(GuestId),
    /// To judge files beside its library, with room for so many verdicts.
    Check(&'j [&'j [u8]], usize),
    /// To judge one guest beside its library, with so many steps and room for so many bytes.
    Judge(Guest<'j>, u32, usize),
}

fn admit<'a>(
    alloc: Global,
    system: &'a SystemFiles,
    host: &mut Host<'a, Cells>,
    guest: Guest<'a>,
) -> Done
    ensures { Admits (files_told system.now guest.entry) (budget_told guest.entry) host.old host.new result.code result.number }
{
    match host.admit(files_of(system, guest), budget_of(&guest)) {
        Ok(id) => numbered(alloc, u64::from(id.0)),
        Err(fault) => coded(alloc, admit_code(fault)),
    }
}

fn turn(alloc: Global, host: &mut Host<'_, Cells>, id: GuestId, n: u32) -> Done
    ensures { Turns id.0 n host.old host.new result.code result.number }
{
    match host.turn(id, n) {
        Ok(taken) => numbered(alloc, taken),
        Err(_) => coded(alloc, NO_GUEST),
    }
}

fn run(alloc: Global, host: &mut Host<'_, Cells>, n: u32, rounds: u32) -> Done
    ensures { Runs n rounds host.old host.new result.code result.number }
{
    match host.run(n, rounds) {
        Ok(taken) => numbered(alloc, u64::from(taken)),
        Err(_) => coded(alloc, HOST_MEMORY),
    }
}

fn feed(alloc: Global, host: &mut Host<'_, Cells>, id: GuestId, bytes: &[u8]) -> Done
    ensures { Feeds id.0 bytes.now host.old host.new result.code }
{
    match host.feed(id, bytes) {
        Ok(()) => coded(alloc, OK),
        Err(fault) => coded(alloc, feed_code(fault)),
    }
}

fn observe(alloc: Global, host: &Host<'_, Cells>, id: GuestId) -> Done
    ensures { Observes id.0 host.now host.now result.code (AreNumbers result.seen) }
{
    match host.observe(id) {
        Ok(shown) => {
            let mut done = coded(alloc, OK);
            done.seen = seen_of(&shown);
            done
        }
        Err(_) => coded(alloc, NO_GUEST),
    }
}

fn output(alloc: Global, host: &Host<'_, Cells>, id: GuestId, from: usize, most: usize) -> Done
    ensures { Copies id.0 host.now host.now result.code (λ o. result.bytes.items ≡ take most (drop from o.output)) }
{
    match host.observe(id) {
        Ok(shown) => copied(alloc, front_of(rest_of(shown.output, from), most)),
        Err(_) => coded(alloc, NO_GUEST),
    }
}

/// The name of the class of the last object that was thrown, if one was.
fn last_class<'g>(shown: &Observation<'g>) -> &'g [u8]
    ensures { result.now ≡ last_class (observed_of shown.now).last }
{
    match shown.last {
        Some(name) => name,
        None => &[],
    }
}

fn last(alloc: Global, host: &Host<'_, Cells>, id: GuestId) -> Done
    ensures { Copies id.0 host.now host.now result.code (λ o. result.bytes.items ≡ last_class o.last) }
{
    match host.observe(id) {
        Ok(shown) => copied(alloc, last_class(&shown)),
        Err(_) => coded(alloc, NO_GUEST),
    }
}

/// The name of the class of the object by which the guest ended, if it did by one.
fn end_class<'g>(shown: &Observation<'g>) -> &'g [u8]
    ensures { result.now ≡ end_class (observed_of shown.now).end }
{
    match shown.end {
        GuestEnd::Threw(name) => name,
        _ => &[],
    }
}

fn end(alloc: Global, host: &Host<'_, Cells>, id: GuestId) -> Done
    ensures { Copies id.0 host.now host.now result.code (λ o. result.bytes.items ≡ end_class o.end) }
{
    match host.observe(id) {
        Ok(shown) => copied(alloc, end_class(&shown)),
        Err(_) => coded(alloc, NO_GUEST),
    }
}

fn verdict(alloc: Global, host: &Host<'_, Cells>, id: GuestId, file: usize) -> Done
    ensures { TellsVerdict id.0 file host.now host.now result.code result.verdict }
{
    match host.observe(id) {
        Ok(shown) => match shown.verdicts.get(file) {
            Some(found) => {
                let mut done = coded(alloc, OK);
                done.verdict = told_verdict(*found);
                done
            }
            None => coded(alloc, NO_FILE),
        },
        Err(_) => coded(alloc, NO_GUEST),
    }
}

/// The names of a place, one behind the other.
fn place_names(alloc: Global, place: ThrowPlace<'_>) -> Result<Vec<u8>, AllocError>
    ensures { IfOk result (λ names. names.items ≡ place_names (seen_place place.entry)) }
{
    let mut names = Vec::from_slice(alloc, place.class)?;
    names.extend_from_slice(place.method)?;
    names.extend_from_slice(place.descriptor)?;
    Ok(names)
}

/// A place, with its names, or want of memory.
fn placed(alloc: Global, place: ThrowPlace<'_>) -> Done
    ensures code { (result.code ≡ ok) ⊎ (result.code ≡ host_memory) }
    ensures told { result.code ≡ ok → IsPlaceIn result (seen_place place.entry) }
{
    match place_names(alloc, place) {
        Ok(names) => {
            let mut done = coded(alloc, OK);
            done.place = told_place(place);
            done.bytes = names;
            done
        }
        Err(_) => coded(alloc, HOST_MEMORY),
    }
}

fn place(alloc: Global, host: &Host<'_, Cells>, id: GuestId) -> Done
    ensures { Places id.0 host.now host.now result.code (IsPlaceIn result) }
{
    match host.observe(id) {
        Ok(shown) => match shown.place {
            Some(place) => placed(alloc, place),
            None => coded(alloc, NO_PLACE),
        },
        Err(_) => coded(alloc, NO_GUEST),
    }
}

/// Does a job.
pub(crate) fn do_job<'a>(
    alloc: Global,
    state: RandomState,
    system: &'a SystemFiles,
    host: &mut Host<'a, Cells>,
    job: Job<'_>,
) -> Done
    ensures { Does job.entry system.now host.old host.new result }
{
    match job {
        Job::Admit(guest) => admit(alloc, system, host, guest),
        Job::Turn(id, n) => turn(alloc, host, id, n),
        Job::Run(n, rounds) => run(alloc, host, n, rounds),
        Job::Feed(id, bytes) => feed(alloc, host, id, bytes),
        Job::Observe(id) => observe(alloc, host, id),
        Job::Output(id, from, most) => output(alloc, host, id, from, most),
        Job::Last(id) => last(alloc, host, id),
        Job::EndClass(id) => end(alloc, host, id),
        Job::Verdict(id, file) => verdict(alloc, host, id, file),
        Job::Place(id) => place(alloc, host, id),
        Job::Check(files, room) => {
            let mut known = host.known().about(system);
            let done = check(alloc, state, system, &mut known, files, room);
            host.know(known);
            done
        }
        Job::Judge(guest, n, room) => {
            let mut known = host.known().about(system);
            let done = judge_knowing(alloc, state, system, &mut known, guest, n, room);
            host.know(known);
            done
        }
    }
}
