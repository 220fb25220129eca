//! Instructions with the distances to their labels, and exception tables with the offsets of theirs.

ghost use Rattle.std.specs.Prelude.{◌≡◌, ◌+◌, ◌<◌, length, map};
ghost use Rattle.jv_asm_builder.specs.Faults.{IsAnswer, each};
ghost use Rattle.jv_asm_builder.specs.Assembly.{Branch, TableSwitch, LookupSwitch, step_size, steps_end, offset_in, distance_in, case_in, code_in, handler_in};
ghost use Rattle.jv_asm_builder.specs.Inside.Behind.{near_distance_in, step_behind, table_behind};
ghost use Rattle.jv_asm_builder.specs.Inside.Kept.{step_kept};

use crate::fault::BuilderFault;
use crate::step::{BuilderStep, HandlerLabels, Label};
use jv_asm::{Handler, Item, put_item};
use std::alloc::Global;

/// The offset of a label.
fn offset(places: &[Option<u16>], label: Label) -> Result<u16, BuilderFault>
    ensures { result ≡ offset_in places.now label }
{
    match places.get(label.number).copied() {
        Some(Some(offset)) => Ok(offset),
        _ => Err(BuilderFault::Unplaced),
    }
}

/// How far a label is from an offset.
fn distance(places: &[Option<u16>], at: u16, label: Label) -> Result<i32, BuilderFault>
    ensures { result ≡ distance_in places.now at label }
{
    match offset(places, label) {
        Ok(offset) => Ok(i32::from(offset) - i32::from(at)),
        Err(fault) => Err(fault),
    }
}

/// The same in two bytes.
fn near_distance(places: &[Option<u16>], at: u16, label: Label) -> Result<i16, BuilderFault>
    ensures { result ≡ near_distance_in places.now at label }
{
    match distance(places, at, label) {
        Ok(distance) => match i16::try_from(distance) {
            Ok(distance) => Ok(distance),
            Err(_) => Err(BuilderFault::TooLarge),
        },
        Err(fault) => Err(fault),
    }
}

/// A key and the distance of its label.
fn pair(places: &[Option<u16>], at: u16, case: (i32, Label)) -> Result<(i32, i32), BuilderFault>
    ensures { result ≡ case_in (distance_in places.now at) case }
{
    match distance(places, at, case.1) {
        Ok(distance) => Ok((case.0, distance)),
        Err(fault) => Err(fault),
    }
}

fn distances(
    alloc: Global,
    places: &[Option<u16>],
    at: u16,
    labels: &[Label],
) -> Result<Vec<i32>, BuilderFault>
    ensures { IsAnswer (each (distance_in places.now at) labels.now) (λ v. v.items) result }
{
    let mut distances = Vec::new(alloc);
    for label in labels {
        let next = distance(places, at, *label)?;
        distances.push(next)?;
    }
    Ok(distances)
}

fn pairs(
    alloc: Global,
    places: &[Option<u16>],
    at: u16,
    cases: &[(i32, Label)],
) -> Result<Vec<(i32, i32)>, BuilderFault>
    ensures { IsAnswer (each (case_in (distance_in places.now at)) cases.now) (λ v. v.items) result }
{
    let mut pairs = Vec::new(alloc);
    for case in cases {
        let next = pair(places, at, *case)?;
        pairs.push(next)?;
    }
    Ok(pairs)
}

fn handler(places: &[Option<u16>], labels: HandlerLabels) -> Result<Handler, BuilderFault>
    ensures { IsAnswer (handler_in places.now labels) (λ h. h) result }
{
    let start_pc = offset(places, labels.start)?;
    let end_pc = offset(places, labels.end)?;
    let handler_pc = offset(places, labels.handler)?;
    Ok(Handler {
        start_pc,
        end_pc,
        handler_pc,
        catch_type: labels.catch_type,
    })
}

/// An exception table.
pub(crate) fn handlers(
    alloc: Global,
    places: &[Option<u16>],
    handlers: &[HandlerLabels],
) -> Result<Vec<Handler>, BuilderFault>
    ensures { IsAnswer (each (handler_in places.now) handlers.now) (λ v. v.items) result }
{
    let mut table = Vec::new(alloc);
    for labels in handlers {
        let next = handler(places, *labels)?;
        table.push(next)?;
    }
    Ok(table)
}

fn put_branch(
    out: &mut Vec<u8>,
    places: &[Option<u16>],
    opcode: u8,
    target: Label,
) -> Result<(), BuilderFault>
    requires { length out.old.items < 65536 }
    ensures { IsAnswer (step_behind places.now out.old.items (Branch opcode target)) (λ _. out.new.items) result }
{
    let distance = near_distance(places, out.len() as u16, target)?;
    put_item(out, &Item::SignedHalf(opcode, distance))?;
    Ok(())
}

fn put_tableswitch(
    alloc: Global,
    out: &mut Vec<u8>,
    places: &[Option<u16>],
    default: Label,
    bounds: (i32, i32),
    targets: &[Label],
) -> Result<(), BuilderFault>
    requires { length out.old.items + step_size (length out.old.items) (TableSwitch default bounds.0 bounds.1 targets.now) < 65536 }
    ensures { IsAnswer (table_behind places.now out.old.items default bounds targets.now) (λ _. out.new.items) result }
{
    let at = out.len() as u16;
    let default = distance(places, at, default)?;
    let distances = distances(alloc, places, at, targets)?;
    put_item(
        out,
        &Item::Tableswitch(default, bounds.0, bounds.1, &distances),
    )?;
    Ok(())
}

fn put_lookupswitch(
    alloc: Global,
    out: &mut Vec<u8>,
    places: &[Option<u16>],
    default: Label,
    cases: &[(i32, Label)],
) -> Result<(), BuilderFault>
    requires { length out.old.items + step_size (length out.old.items) (LookupSwitch default cases.now) < 65536 }
    ensures { IsAnswer (step_behind places.now out.old.items (LookupSwitch default cases.now)) (λ _. out.new.items) result }
{
    let at = out.len() as u16;
    let default = distance(places, at, default)?;
    let pairs = pairs(alloc, places, at, cases)?;
    put_item(out, &Item::Lookupswitch(default, &pairs))?;
    Ok(())
}

/// A step behind those before it.
fn put_step(
    alloc: Global,
    out: &mut Vec<u8>,
    places: &[Option<u16>],
    step: &BuilderStep<'_>,
) -> Result<(), BuilderFault>
    requires { length out.old.items + step_size (length out.old.items) (step_kept step.now) < 65536 }
    ensures { IsAnswer (step_behind places.now out.old.items (step_kept step.now)) (λ _. out.new.items) result }
{
    match step {
        BuilderStep::Unlabelled(item) => Ok(put_item(out, item)?),
        BuilderStep::Branch(opcode, target) => put_branch(out, places, *opcode, *target),
        BuilderStep::Tableswitch(default, low, high, targets) => {
            put_tableswitch(alloc, out, places, *default, (*low, *high), targets)
        }
        BuilderStep::Lookupswitch(default, cases) => {
            put_lookupswitch(alloc, out, places, *default, cases)
        }
    }
}

/// The bytes of steps.
pub(crate) fn code(
    alloc: Global,
    places: &[Option<u16>],
    steps: &[BuilderStep<'_>],
) -> Result<Vec<u8>, BuilderFault>
    requires { steps_end 0 (map step_kept steps.now) < 65536 }
    ensures { IsAnswer (code_in places.now (map step_kept steps.now)) (λ v. v.items) result }
{
    let mut out = Vec::new(alloc);
    for step in steps {
        put_step(alloc, &mut out, places, step)?;
    }
    Ok(out)
}
