//! A step over an instruction.

ghost use Rattle.std.specs.Prelude.{◌≡◌, ◌+◌, ◌<◌, ◌≤◌, ℕ, List, None, Some, IfOk, OnOk, IsTrue};
ghost use Rattle.std.specs.Option.{option_map};
ghost use Rattle.jv_code.specs.Insns.{instruction_of};
ghost use Rattle.jv_meaning_typing.specs.Environment.{Environment, instruction_at};
ghost use Rattle.jv_meaning_typing.specs.Rule.{without_object};
ghost use Rattle.jv_meaning_typing.specs.Typing.{handlers_hold};
ghost use Rattle.jv_verify_types.specs.Typed.{typed, typed_all};
ghost use Rattle.jv_verify_types.specs.Numbered.{frame_of};
ghost use Rattle.jv_verify_pass.specs.Pass.{IsFrameAt, IsOfPass, InPass, maps_of, names_in, Tests};
ghost use Rattle.jv_verify_pass.specs.Inside.Changes.{may_change, may_change_at};
ghost use Rattle.jv_verify_pass.specs.Inside.Seen.{IsSeen, NotesWrites};
ghost use Rattle.jv_verify_pass.specs.Inside.Walk.{Reaches, IsStep, when_falls, IsMerged};

use crate::changes::{copies_changed, stored_index};
use crate::merging::{flows_to_map, set_frame};
use crate::pass::Pass;
use crate::seen::Seen;
use crate::targets::targets_hold;
use jv_code::{Insn, stands_in_list, starts_apart};
use jv_meaning_typing::VerifyRule;
use jv_verify_flow::apply;
use jv_verify_frame::TypeFrame;
use jv_verify_known::Known;
use jv_verify_rules::{
    constructed_object, keeps_local_count, keeps_locals, leaves_below, writes_there,
};
use jv_verify_types::Item;
use std::alloc::{AllocError, Global};

/// Makes what falls into an instruction, or none does, the frame before it, and says whether there is one. It may be known that the stack
/// map has none there.
fn merge(
    pass: &Pass<'_, '_, '_, '_, '_>,
    seen: &mut Seen,
    frame: &mut TypeFrame,
    falls: bool,
    bare: bool,
    offset: u32,
) -> Result<bool, AllocError>
    requires seen { IsSeen pass.now seen.old offset frame.old }
    requires bare { IsTrue bare → IsFrameAt pass.now offset None }
    ensures merged { IsMerged pass.now offset falls frame.old frame.new result }
    ensures seen { OnOk result (IsSeen pass.now seen.new offset frame.new) }
{
    // Reads a field, so that the invariant is known.
    let _types = &pass.types;
    let Some((place, map)) = pass.map_unless(bare, offset) else {
        return Ok(falls);
    };
    if falls && !flows_to_map(pass, seen, frame, place, &map) {
        return Ok(false);
    }
    set_frame(pass, seen, frame, place, &map)?;
    Ok(true)
}

/// An object that is constructed, where a local variable holds it.
fn object_in_locals(frame: &TypeFrame, object: Option<Item>) -> Option<Item>
    ensures { (names : List (List ℕ)) → without_object (option_map (typed names) result) (typed_all names frame.now.locals)
        ≡ without_object (option_map (typed names) object) (typed_all names frame.now.locals) }
{
    let Some(constructed) = object else {
        return None;
    };
    if frame.has_in_locals(constructed) {
        Some(constructed)
    } else {
        None
    }
}

/// Whether the handlers that cover an instruction hold.
fn is_handled(
    pass: &Pass<'_, '_, '_, '_, '_>,
    seen: &mut Seen,
    frame: &TypeFrame,
    offset: u32,
    insn: &Insn<&[u8]>,
) -> Result<bool, AllocError>
    requires seen { IsSeen pass.now seen.old offset frame.now }
    ensures hold { IfOk result (Tests pass.now (λ env maps f. handlers_hold env maps offset (instruction_of insn.now) f) frame.now) }
    ensures seen { IfOk result (λ hold. IsTrue hold → IsSeen pass.now seen.new offset frame.now) }
{
    let object = object_in_locals(frame, constructed_object(pass.context, frame, insn));
    seen.openings
        .hold(pass, &mut seen.known, frame, object, offset)
}

/// Notes that the next write may be to these local variables, or to those that an instruction stores into.
fn note_writes(known: &mut Known, copies: &[u16], insn: &Insn<&[u8]>)
    ensures { NotesWrites (may_change_at copies.now (instruction_of insn.now)) known.old known.new }
{
    match stored_index(insn) {
        Some(index) => {
            known.write(index.saturating_sub(1));
            known.write(index);
            known.write(index.saturating_add(1));
        }
        None => {
            for k in 0..copies.len() {
                known.write(copies[k]);
            }
        }
    }
}

/// Notes where an instruction can change local variables.
fn note(
    alloc: Global,
    pass: &Pass<'_, '_, '_, '_, '_>,
    known: &mut Known,
    frame: &TypeFrame,
    offset: u16,
    insn: &Insn<&[u8]>,
) -> Result<(), AllocError>
    ensures { OnOk result (InPass pass.now (λ env.
        NotesWrites (may_change env offset (instruction_of insn.now) (frame_of (names_in pass.now) frame.now)) known.old known.new)) }
{
    // Reads a field, so that the invariant is known.
    let _types = &pass.types;
    if keeps_locals(insn) {
        return Ok(());
    }
    let copies = copies_changed(alloc, pass, frame, offset, insn)?;
    note_writes(known, &copies, insn);
    Ok(())
}

/// Goes over an instruction, and answers the first rule that is broken there, if one is. The frame is what falls into the instruction,
/// where it falls, and then what is left. It may be known that the stack map has no frame there.
///
/// # Errors
///
/// Where the host had no memory for a stack, or for what is known; the frame is then of no more use.
pub(crate) fn step(
    alloc: Global,
    pass: &Pass<'_, '_, '_, '_, '_>,
    seen: &mut Seen,
    frame: &mut TypeFrame,
    falls: bool,
    bare: bool,
    offset: u32,
    insn: &Insn<&[u8]>,
) -> Result<Option<VerifyRule>, AllocError>
    requires seen { IsSeen pass.now seen.old offset frame.old }
    requires bare { IsTrue bare → IsFrameAt pass.now offset None }
    requires offset { offset < 65536 }
    requires method { (env : Environment) × IsOfPass pass.now env }
    ensures step { (env : Environment) → IsOfPass pass.now env → instruction_at env offset ≡ Some (instruction_of insn.now)
        → Reaches env (maps_of pass.now) offset (when_falls falls (frame_of (names_in pass.now) frame.old))
        → IfOk result (IsStep env (maps_of pass.now) offset (instruction_of insn.now) (frame_of (names_in pass.now) frame.new)) }
    ensures seen { IfOk result (λ found. found ≡ None → (later : ℕ) → offset ≤ later → IsSeen pass.now seen.new later frame.new) }
{
    // Reads a field, so that the invariant is known.
    let _types = &pass.types;
    stands_in_list();
    starts_apart();
    keeps_local_count();
    writes_there();
    leaves_below();
    if !merge(pass, seen, frame, falls, bare, offset)? {
        return Ok(Some(VerifyRule::Merge));
    }
    if !is_handled(pass, seen, frame, offset, insn)? {
        return Ok(Some(VerifyRule::CoveredHandler));
    }
    seen.stacks.go_into(pass, frame, insn);
    note(alloc, pass, &mut seen.known, frame, offset as u16, insn)?;
    seen.known.stays_beside_writes();
    if !apply(pass.context, frame, offset as u16, insn)? {
        return Ok(Some(VerifyRule::Instruction));
    }
    seen.stacks.go_behind(frame.height());
    if !targets_hold(pass, seen, frame, offset, insn) {
        return Ok(Some(VerifyRule::BranchTarget));
    }
    Ok(None)
}
