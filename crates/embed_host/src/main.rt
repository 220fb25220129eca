//! A host in a program: one guest is admitted, has a turn, is fed while it runs, and is looked at. The gate runs it in `data`.
#![tactic(auto)]

use jv_host::{Budget, GuestEnd, GuestFiles, GuestId, Host};
use jv_loader::{SystemFiles, system_files};
use jv_store::Cells;
use std::alloc::Global;
use std::hash::RandomState;
use std::process::ExitCode;
use std::random::RandomSource;
use std::rt::Files;
use std::{fs, str};

/// What the guest may use.
const BUDGET: Budget = Budget {
    cells: 65_536,
    words: 65_536,
    output: 65_536,
};

/// Prints how many steps the guest has taken, what it has written, and whether it has ended.
fn show<R: Print>(rt: &R, host: &Host<'_, Cells>, id: GuestId) -> Option<()> {
    let seen = host.observe(id).ok()?;
    let output = str::from_utf8(seen.output).ok()?;
    let ended = !matches!(seen.end, GuestEnd::Running);
    println!(rt; "steps {}, output {output:?}, ended {ended}", seen.steps).ok()
}

/// Hosts a class that writes what it reads, up to a full stop.
fn echo<'a, R: Print>(rt: &R, host: &mut Host<'a, Cells>, files: GuestFiles<'a>) -> Option<()> {
    let id = host.admit(files, BUDGET).ok()?; // a refused guest leaves the host as it was
    host.turn(id, 100).ok()?; // at most 100 steps of this guest: nothing waits, so it asks again
    show(rt, host, id)?;
    host.feed(id, b"Hello").ok()?; // seen from its next step on
    host.run(100, 10).ok()?; // ten rounds, in which each guest has a turn
    show(rt, host, id)?;
    host.feed(id, b" again.").ok()?;
    host.run(100, 10).ok()?;
    show(rt, host, id)
}

fn host_class<R: Print>(
    rt: &R,
    alloc: Global,
    state: RandomState,
    system: &SystemFiles,
    class: &[u8],
) -> Option<()> {
    let classes = [class];
    let files = GuestFiles {
        system,
        files: &classes,
        main: b"Echo",
        input: b"",
    };
    let mut host = Host::new(alloc, state);
    echo(rt, &mut host, files)
}

fn embed<R: Print + Files + RandomSource + AllocGlobal>(rt: &R) -> Option<()> {
    let class = fs::read(rt, "Echo.class").ok()?;
    let system = system_files(rt.alloc()).ok()?;
    let state = RandomState::new(rt).ok()?;
    host_class(rt, rt.alloc(), state, &system, &class)
}

fn main(rt: HostRuntime) -> ExitCode {
    match embed(&rt) {
        Some(()) => ExitCode::SUCCESS,
        None => ExitCode::FAILURE,
    }
}
