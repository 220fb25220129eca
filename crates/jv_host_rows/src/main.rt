//! Goes through the table of guests in the file that its word names, and shows what a host answers to each line: worked rows of the
//! verifier, of the machine, of feeds and of hosts, and damaged files. The gate runs it on `data/rows`, and compares what it shows with
//! `stdout`; `scripts/host-rows/run` writes both.
//!
//! A row is some lines, the first of which is its name; rows stand apart by an empty line. A line `guest` says what a guest brings, and one
//! `beside` which files each guest of the row brings behind its own; neither is shown. Each other line is a call on the host, and is shown
//! with its answer. Each row is played in one host over blocks that can be refused, and in one over cells; where the answers differ, both
//! are shown. Behind a row that ends with the line `damage` its first guest's file is damaged in many ways, and how often what came of it
//! is shown. Where a host has no memory for a call, that is shown with what its guests show then, and the call is made again:
//! `scripts/refused-rows/run` refuses each allocation of some rows in turn.
#![tactic(auto)]

mod brought;
mod calls;
mod damage;
mod shown;

use brought::{Brought, Lent, beside_in, brought_in, lent_of};
use damage::write_damage;
use jv_host::Host;
use jv_loader::{SystemFiles, system_files};
use jv_store::{Blocks, Cells, Store};
use std::alloc::{AllocError, Global};
use std::hash::RandomState;
use std::process::ExitCode;
use std::random::RandomSource;
use std::rt::{Env, Files};
use std::{env, fs, str};

/// What every host is made of: the system's files, and a state to hash with.
#[derive(Drop)]
pub(crate) struct Prepared {
    pub(crate) system: SystemFiles,
    pub(crate) state: RandomState,
}

/// What a host answers to the calls of a row.
fn answers_to<'a, S: Store>(
    alloc: Global,
    prepared: &'a Prepared,
    lent: &'a [Lent<'a>],
    row: &str,
) -> Result<String, AllocError> {
    let mut host: Host<'a, S> = Host::new(alloc, prepared.state);
    let mut out = String::new(alloc);
    for line in row.lines() {
        calls::answer(&mut out, &mut host, lent, line)?;
    }
    Ok(out)
}

/// Shows the answers to a row of guests that are lent.
fn show_lent(
    out: &mut String,
    prepared: &Prepared,
    lent: &[Lent<'_>],
    row: &str,
) -> Result<(), AllocError> {
    let alloc = *out.allocator();
    let cells = answers_to::<Cells>(alloc, prepared, lent, row)?;
    let blocks = answers_to::<Blocks>(alloc, prepared, lent, row)?;
    out.push_str(&cells)?;
    if cells.as_str() != blocks.as_str() {
        out.push_str("over blocks that can be refused\n")?;
        out.push_str(&blocks)?;
    }
    if row.ends_with("\ndamage") {
        write_damage(out, prepared, lent)?;
    }
    Ok(())
}

/// Shows the answers to a row.
fn show_row(out: &mut String, prepared: &Prepared, row: &str) -> Result<(), AllocError> {
    let alloc = *out.allocator();
    let brought: Vec<Brought> = brought_in(alloc, row)?;
    let beside = beside_in(alloc, row)?;
    let mut lent = Vec::new(alloc);
    for guest in &brought {
        lent.push(lent_of(alloc, &prepared.system, guest, &beside)?)?;
    }
    show_lent(out, prepared, &lent, row)
}

fn show_table(out: &mut String, prepared: &Prepared, table: &str) -> Result<(), AllocError> {
    for row in table.split("\n\n") {
        show_row(out, prepared, row)?;
    }
    Ok(())
}

fn prepared_with<R: RandomSource + AllocGlobal>(rt: &R) -> Option<Prepared> {
    let system = system_files(rt.alloc()).ok()?;
    let state = RandomState::new(rt).ok()?;
    Some(Prepared { system, state })
}

/// Shows the answers to the table in the file that the word names.
fn show<R: Files + Env + RandomSource + AllocGlobal>(rt: &R, out: &mut String) -> Option<()> {
    let words = env::args(rt).ok()?.collect::<Vec<String>>(rt.alloc()).ok()?;
    let bytes = fs::read(rt, words.get(1)?.as_str()).ok()?;
    let prepared = prepared_with(rt)?;
    show_table(out, &prepared, str::from_utf8(&bytes).ok()?).ok()
}

fn main(rt: HostRuntime) -> ExitCode {
    let mut out = String::new(rt.alloc());
    if show(&rt, &mut out).is_none() || rt.print(out.as_str()).is_err() {
        return ExitCode::FAILURE;
    }
    ExitCode::SUCCESS
}
