//! One guest, alone in a host of its own.

ghost use Rattle.std.specs.Prelude.{◌≡◌, ◌⊎◌, ℕ, [], take};
ghost use Rattle.jv_host.specs.Started.{budget_of};
ghost use Rattle.jv_host.specs.Files.{guest_of};
ghost use Rattle.jv_host.specs.Calls.{IsTurn};
ghost use Rattle.libjvhost.specs.Calls.{ShowsSome};
ghost use Rattle.libjvhost.specs.Codes.{ok, host_memory};
ghost use Rattle.libjvhost.specs.Inside.Jobs.{JudgesSo};
ghost use Rattle.libjvhost.specs.Told.{AreNumbers, budget_told, files_told};

use crate::codes::{HOST_MEMORY, admit_code};
use crate::done::{Done, coded, copied};
use crate::room::front_of;
use crate::told::{Guest, budget_of, files_of, seen_of};
use jv_host::{Budget, GuestFiles, GuestId, Host, KnownLibrary};
use jv_loader::SystemFiles;
use jv_store::Cells;
use std::alloc::Global;
use std::hash::RandomState;

/// Says what a guest shows, with as many of its bytes as there is room for.
fn look(alloc: Global, host: &Host<'_, Cells>, id: GuestId, room: usize) -> Done
    ensures code { (result.code ≡ ok) ⊎ (result.code ≡ host_memory) }
    ensures shown { result.code ≡ ok → ShowsSome host.now id.0 (λ o.
        AreNumbers result.seen o × (result.bytes.items ≡ take room o.output)) }
{
    match host.observe(id) {
        Ok(shown) => {
            let mut done = copied(alloc, front_of(shown.output, room));
            done.seen = seen_of(&shown);
            done
        }
        Err(_) => coded(alloc, HOST_MEMORY),
    }
}

/// Gives a guest a turn, and says what it shows then.
fn turn_and_look(
    alloc: Global,
    host: &mut Host<'_, Cells>,
    id: GuestId,
    n: u32,
    room: usize,
) -> Done
    ensures code { (result.code ≡ ok) ⊎ (result.code ≡ host_memory) }
    ensures turn { result.code ≡ ok → (k : ℕ) × IsTurn host.old host.new id.0 n k }
    ensures shown { result.code ≡ ok → ShowsSome host.new id.0 (λ o.
        AreNumbers result.seen o × (result.bytes.items ≡ take room o.output)) }
{
    match host.turn(id, n) {
        Ok(_taken) => look(alloc, host, id, room),
        Err(_) => coded(alloc, HOST_MEMORY),
    }
}

/// Admits a guest to an empty host, gives it a turn, and says what it shows then.
fn play<'a>(
    alloc: Global,
    host: &mut Host<'a, Cells>,
    files: GuestFiles<'a>,
    budget: Budget,
    n: u32,
    room: usize,
) -> Done
    requires { host.old ≡ [] }
    ensures { JudgesSo (guest_of files.entry) (budget_of budget) n room result }
{
    match host.admit(files, budget) {
        Ok(id) => turn_and_look(alloc, host, id, n, room),
        Err(fault) => coded(alloc, admit_code(fault)),
    }
}

/// The same in a host of its own, on what a host gives.
pub(crate) fn judge<'a>(
    alloc: Global,
    state: RandomState,
    system: &'a SystemFiles,
    guest: Guest<'a>,
    n: u32,
    room: usize,
) -> Done
    ensures { JudgesSo (files_told system.now guest.entry) (budget_told guest.entry) n room result }
{
    let mut host = Host::new(alloc, state);
    let (files, budget) = (files_of(system, guest), budget_of(&guest));
    play(alloc, &mut host, files, budget, n, room)
}

/// The same where something is known of the library: that is used, and what is found of it is kept.
pub(crate) fn judge_knowing<'k, 'a>(
    alloc: Global,
    state: RandomState,
    system: &'k SystemFiles,
    known: &mut KnownLibrary<'k>,
    guest: Guest<'a>,
    n: u32,
    room: usize,
) -> Done
where
    'k: 'a,
    ensures { JudgesSo (files_told system.now guest.entry) (budget_told guest.entry) n room result }
{
    let mut host = Host::new(alloc, state);
    // For as long as the guest alone.
    let here: &'a SystemFiles = system;
    host.know(known.about(here));
    let (files, budget) = (files_of(system, guest), budget_of(&guest));
    let done = play(alloc, &mut host, files, budget, n, room);
    *known = host.known().about(system);
    done
}
