//! What goes on from an instruction to where it doesn't flow (JVMS 4.10.1.6, 4.10.1.9), for those who want to know why.

ghost use Rattle.std.specs.Prelude.{◌≡◌, ◌<◌, ◌∷◌, ℕ, ℤ, List, None, Some, IfOk, IfSome, OnOk, length, map, slice_get};
ghost use Rattle.std.specs.Option.{option_map};
ghost use Rattle.jv_code.specs.Insns.{Instruction, instruction_of};
ghost use Rattle.jv_code.specs.Successors.{jump_distances};
ghost use Rattle.jv_code.specs.Switches.{distances_in, pair_distance, pairs_in};
ghost use Rattle.jv_meaning_typing.specs.Environment.{Environment};
ghost use Rattle.jv_meaning_typing.specs.Rule.{handler_frame, without_object};
ghost use Rattle.jv_meaning_typing.specs.Typing.{covers, handles, target_holds};
ghost use Rattle.jv_verify_types.specs.Mapped.{thrown_frame};
ghost use Rattle.jv_verify_types.specs.Numbered.{frame_of, with_locals};
ghost use Rattle.jv_verify_types.specs.Typed.{typed, typed_all};
ghost use Rattle.jv_verify_pass.specs.Before.{seen_unmet};
ghost use Rattle.jv_verify_pass.specs.Onward.{map_there, unmet, unmet_behind};
ghost use Rattle.jv_verify_pass.specs.Pass.{InPass, IsOfPass, maps_of, names_in};
ghost use Rattle.jv_verify_pass.specs.Inside.Settled.{IsLeft};
ghost use Rattle.jv_verify_pass.specs.Inside.Unmet.{BeginsUnmet, IsFirstUnhandled, IsFirstUntaken, IsUnhandled, LeavesUnmet};

use crate::before::map_frame;
use crate::difference::{Difference, first_difference};
use crate::named::{NamedFrame, named_frame};
use crate::pass::Pass;
use jv_code::{Insn, jump_distance, target_of};
use jv_format::Handler;
use jv_stackmap::VerificationTypeOf;
use jv_verify_flow::{apply, frame_flows, stack_flows, thrown_flows};
use jv_verify_frame::TypeFrame;
use jv_verify_rules::{constructed_object, keeps_local_count};
use jv_verify_types::Item;
use std::alloc::{AllocError, Global};

/// A frame that goes on to an offset where it doesn't flow into the frame of the stack map.
pub struct NamedUnmet<'a> {
    /// The frame.
    pub frame: NamedFrame<'a>,
    /// The offset; `None` where a jump goes to none.
    pub to: Option<u32>,
    /// The stack map's frame there, where it has one.
    pub map: Option<NamedFrame<'a>>,
    /// The first place at which the frame doesn't flow into that one.
    pub differ: Option<Difference>,
}

impl Drop for NamedUnmet<'_> {
    fn drop(self) {
        let NamedUnmet {
            frame: _,
            to: _,
            map: _,
            differ: _,
        } = self;
    }
}

/// The frame of the stack map at an offset, where there is one.
fn map_there(
    alloc: Global,
    pass: &Pass<'_, '_, '_, '_, '_>,
    to: Option<u32>,
) -> Result<Option<TypeFrame>, AllocError>
    ensures frame { InPass pass.now (λ env. IfOk result (λ found.
        option_map (frame_of (names_in pass.now)) found ≡ map_there (maps_of pass.now) to)) }
    ensures locals { IfOk result (λ found. IfSome found (λ f. length f.locals ≡ pass.now.max_locals)) }
{
    match to {
        Some(offset) => map_frame(alloc, pass, offset),
        None => Ok(None),
    }
}

/// A frame that goes on to an offset, with the frame of the stack map there.
fn unmet<'a>(
    alloc: Global,
    pass: &Pass<'_, '_, '_, '_, 'a>,
    frame: &TypeFrame,
    to: Option<u32>,
) -> Result<NamedUnmet<'a>, AllocError>
    requires { length frame.now.locals ≡ pass.now.max_locals }
    ensures { InPass pass.now (λ env. IfOk result (λ found.
        seen_unmet found ≡ unmet env (maps_of pass.now) (frame_of (names_in pass.now) frame.now) to)) }
{
    let names = pass.types.names();
    let count = pass.max_locals;
    let named = named_frame(alloc, names, frame, count)?;
    let Some(there) = map_there(alloc, pass, to)? else {
        return Ok(NamedUnmet {
            frame: named,
            to,
            map: None,
            differ: None,
        });
    };
    let differ = first_difference(names, frame, &there, count);
    let map = named_frame(alloc, names, &there, count)?;
    Ok(NamedUnmet {
        frame: named,
        to,
        map: Some(map),
        differ,
    })
}

/// Whether a handler covers an offset.
fn covers(handler: Handler, offset: u32) -> bool
    ensures { result ≡ covers handler offset }
{
    u32::from(handler.start_pc) <= offset && offset < u32::from(handler.end_pc)
}

/// Whether what a handler begins with flows to a frame of the map there.
fn handles(
    pass: &Pass<'_, '_, '_, '_, '_>,
    frame: &TypeFrame,
    object: Option<Item>,
    handler: Handler,
) -> bool
    requires { length frame.now.locals ≡ pass.now.max_locals }
    ensures { (env : Environment) (insn : Instruction) → IsOfPass pass.now env → IsLeft env insn (names_in pass.now) frame.now object
        → result ≡ handles env (maps_of pass.now) (handler_frame env insn (frame_of (names_in pass.now) frame.now)) handler }
{
    // Reads a field, so that the invariant is known.
    let _types = &pass.types;
    let Some(thrown) = pass.catch_type(handler.catch_type) else {
        return false;
    };
    let Some((_, map)) = pass.map_at(u32::from(handler.handler_pc)) else {
        return false;
    };
    thrown_flows(pass.types, frame, object, thrown, &map)
}

/// Whether a handler covers an instruction, and doesn't hold.
fn is_unhandled(
    pass: &Pass<'_, '_, '_, '_, '_>,
    frame: &TypeFrame,
    object: Option<Item>,
    offset: u32,
    handler: Handler,
) -> bool
    requires { length frame.now.locals ≡ pass.now.max_locals }
    ensures { IsUnhandled pass.now offset frame.now object handler result }
{
    if !covers(handler, offset) {
        return false;
    }
    !handles(pass, frame, object, handler)
}

/// The first handler that covers an instruction, and doesn't hold.
fn first_unhandled(
    pass: &Pass<'_, '_, '_, '_, '_>,
    frame: &TypeFrame,
    object: Option<Item>,
    offset: u32,
) -> Option<Handler>
    requires { length frame.now.locals ≡ pass.now.max_locals }
    ensures { IsFirstUnhandled pass.now offset frame.now object result }
{
    for place in 0..pass.handlers.len() {
        let Some(handler) = pass.handlers.handler(place) else {
            unreachable!();
        };
        if is_unhandled(pass, frame, object, offset, handler) {
            return Some(handler);
        }
    }
    None
}

/// An object cannot be used any more.
fn lose_object(frame: &mut TypeFrame, object: Option<Item>)
    ensures locals { (names : List (List ℕ)) → typed_all names frame.new.locals
        ≡ without_object (option_map (typed names) object) (typed_all names frame.old.locals) }
    ensures same { frame.new ≡ with_locals frame.new.locals frame.old }
    ensures count { length frame.new.locals ≡ length frame.old.locals }
{
    if let Some(object) = object {
        frame.replace_locals(object, VerificationTypeOf::Top);
    }
}

/// Makes the frame before an instruction what a handler begins with that catches this.
fn begin(frame: &mut TypeFrame, object: Option<Item>, thrown: Item) -> Result<(), AllocError>
    ensures ok { OnOk result ((names : List (List ℕ)) → frame_of names frame.new ≡ thrown_frame names frame.old object thrown) }
    ensures count { OnOk result (length frame.new.locals ≡ length frame.old.locals) }
{
    lose_object(frame, object);
    frame.clear_stack();
    frame.push(thrown)
}

/// What a handler begins with that doesn't hold.
fn unmet_at<'a>(
    alloc: Global,
    pass: &Pass<'_, '_, '_, '_, 'a>,
    frame: &mut TypeFrame,
    object: Option<Item>,
    handler: Handler,
) -> Result<Option<NamedUnmet<'a>>, AllocError>
    requires { length frame.old.locals ≡ pass.now.max_locals }
    ensures { BeginsUnmet pass.now frame.old object handler result }
{
    // Reads a field, so that the invariant is known.
    let _types = &pass.types;
    let Some(thrown) = pass.catch_type(handler.catch_type) else {
        return Ok(None);
    };
    begin(frame, object, thrown)?;
    let found = unmet(alloc, pass, frame, Some(u32::from(handler.handler_pc)))?;
    Ok(Some(found))
}

/// How many distances a tableswitch can jump.
#[tactic(auto, using(jv_code::proofs::Distances::distances_count))]
fn table_count(distances: &[u8]) -> usize
    ensures { (default : ℤ) → result ≡ length (default ∷ distances_in distances.now) }
{
    1 + distances.len() / 4
}

/// How many distances a lookupswitch can jump.
#[tactic(auto, using(jv_code::proofs::Pairs::pairs_count))]
fn lookup_count(pairs: &[u8]) -> usize
    ensures { (default : ℤ) → result ≡ length (default ∷ map pair_distance (pairs_in pairs.now)) }
{
    1 + pairs.len() / 8
}

/// How many distances an instruction can jump.
fn jump_count(insn: &Insn<&[u8]>) -> usize
    ensures { result ≡ length (jump_distances (instruction_of insn.now)) }
{
    match *insn {
        Insn::Branch(..) | Insn::Goto(..) => 1,
        Insn::TableSwitch(_, _, _, _, distances) => table_count(distances),
        Insn::LookupSwitch(_, _, pairs) => lookup_count(pairs),
        _ => 0,
    }
}

/// The distance at a place, of those that an instruction can jump.
fn distance_at(insn: &Insn<&[u8]>, place: usize) -> i32
    requires { place < length (jump_distances (instruction_of insn.now)) }
    ensures { slice_get (jump_distances (instruction_of insn.now)) place ≡ Some result }
{
    match jump_distance(insn, place) {
        Some(distance) => distance,
        None => unreachable!(),
    }
}

/// Whether what is left flows to a frame of the map at a target.
fn target_holds(pass: &Pass<'_, '_, '_, '_, '_>, left: &TypeFrame, target: Option<u32>) -> bool
    requires { length left.now.locals ≡ pass.now.max_locals }
    ensures { InPass pass.now (λ env. result ≡ target_holds env (maps_of pass.now) (frame_of (names_in pass.now) left.now) target) }
{
    // Reads a field, so that the invariant is known.
    let _types = &pass.types;
    let Some(offset) = target else {
        return false;
    };
    match pass.map_at(offset) {
        Some((_, map)) => {
            let stack = stack_flows(pass.types, left, &map);
            frame_flows(pass.types, left, &map, stack)
        }
        None => false,
    }
}

/// The first target at which what an instruction leaves doesn't hold.
fn first_untaken(
    pass: &Pass<'_, '_, '_, '_, '_>,
    left: &TypeFrame,
    offset: u32,
    insn: &Insn<&[u8]>,
) -> Option<Option<u32>>
    requires { length left.now.locals ≡ pass.now.max_locals }
    ensures { IsFirstUntaken pass.now offset (instruction_of insn.now) left.now result }
{
    for place in 0..jump_count(insn) {
        let distance = distance_at(insn, place);
        let target = target_of(offset, distance);
        if !target_holds(pass, left, target) {
            return Some(target);
        }
    }
    None
}

/// What an instruction leaves, at the first target at which it doesn't hold.
fn unmet_left<'a>(
    alloc: Global,
    pass: &Pass<'_, '_, '_, '_, 'a>,
    left: &TypeFrame,
    offset: u32,
    insn: &Insn<&[u8]>,
) -> Result<Option<NamedUnmet<'a>>, AllocError>
    requires { length left.now.locals ≡ pass.now.max_locals }
    ensures { LeavesUnmet pass.now offset (instruction_of insn.now) left.now result }
{
    let Some(target) = first_untaken(pass, left, offset, insn) else {
        return Ok(None);
    };
    let found = unmet(alloc, pass, left, target)?;
    Ok(Some(found))
}

/// What goes on from an instruction, behind the frame before it, to where it doesn't flow. The frame is then of no more use.
///
/// # Errors
///
/// Where the host had no memory for the frames.
pub(crate) fn unmet_behind<'a>(
    alloc: Global,
    pass: &Pass<'_, '_, '_, '_, 'a>,
    frame: &mut TypeFrame,
    offset: u32,
    insn: &Insn<&[u8]>,
) -> Result<Option<NamedUnmet<'a>>, AllocError>
    requires locals { length frame.old.locals ≡ pass.now.max_locals }
    requires offset { offset < 65536 }
    requires method { (env : Environment) × IsOfPass pass.now env }
    ensures { InPass pass.now (λ env. IfOk result (λ found. option_map seen_unmet found
        ≡ unmet_behind env (maps_of pass.now) offset (instruction_of insn.now) (frame_of (names_in pass.now) frame.old))) }
{
    // Reads a field, so that the invariant is known.
    let _types = &pass.types;
    keeps_local_count();
    let object = constructed_object(pass.context, frame, insn);
    if let Some(handler) = first_unhandled(pass, frame, object, offset) {
        return unmet_at(alloc, pass, frame, object, handler);
    }
    if !apply(pass.context, frame, offset as u16, insn)? {
        return Ok(None);
    }
    unmet_left(alloc, pass, frame, offset, insn)
}
