//! The pass over a method's code.

ghost use Rattle.std.specs.Prelude.{◌≡◌, ◌≤◌, IfOk, OnOk, Some, length};
ghost use Rattle.jv_code.specs.Places.{IsStartOrEnd};
ghost use Rattle.jv_meaning_typing.specs.Environment.{Environment};
ghost use Rattle.jv_verify_types.specs.Numbered.{frame_of};
ghost use Rattle.jv_verify_pass.specs.Pass.{InPass, IsOfPass, maps_of, names_in};
ghost use Rattle.jv_verify_pass.specs.Found.{IsFound};
ghost use Rattle.jv_verify_pass.specs.Inside.Seen.{IsSeen};
ghost use Rattle.jv_verify_pass.specs.Inside.Walk.{HasLocals, IsWalked, IsWalkedFrom, Reaches};

use crate::fault::CodeFault;
use crate::pass::Pass;
use crate::seen::Seen;
use crate::setting::set_to_initial;
use crate::step::step;
use jv_code::{falls_through, stands_in_list, starts_apart};
use jv_meaning_typing::VerifyRule;
use jv_verify_frame::TypeFrame;
use std::alloc::{AllocError, Global};

/// How far a walk over the instructions came.
#[derive(Clone, Copy)]
pub(crate) enum Walked {
    /// To the first rule that is broken.
    Broken(CodeFault),
    /// To its end, into which what is left falls, or doesn't.
    Reached(bool),
}

/// Goes over the instructions from the first on, before which the frame stands, up to an offset.
fn walk(
    alloc: Global,
    pass: &Pass<'_, '_, '_, '_, '_>,
    seen: &mut Seen,
    frame: &mut TypeFrame,
    end: u32,
) -> Result<Walked, AllocError>
    requires seen { IsSeen pass.now seen.old 0 frame.old }
    requires method { (env : Environment) × IsOfPass pass.now env }
    requires end { IsStartOrEnd pass.now.context.code end }
    requires within { end ≤ length pass.now.context.code }
    ensures found { IsWalkedFrom pass.now frame.old end frame.new result }
    ensures locals { IfOk result (HasLocals pass.now.max_locals frame.new) }
{
    stands_in_list();
    starts_apart();
    let code = pass.context.code();
    let size = code.size();
    let mut falls = true;
    let mut bare_until = pass.first_map();
    let mut offset = 0;
    while offset < end {
        let (insn, next) = code.insn_at(offset);
        let bare = offset < bare_until;
        if let Some(rule) = step(alloc, pass, seen, frame, falls, bare, offset, &insn)? {
            return Ok(Walked::Broken(CodeFault { offset, rule }));
        }
        falls = falls_through(&insn);
        if falls && next == size {
            return Ok(Walked::Broken(CodeFault {
                offset,
                rule: VerifyRule::EndOfCode,
            }));
        }
        bare_until = pass.bare_behind(offset, bare_until);
        offset = next;
    }
    Ok(Walked::Reached(falls))
}

/// Makes a frame the one before the first instruction of a method, and answers what is known beside it.
pub(crate) fn begin(
    alloc: Global,
    frame: &mut TypeFrame,
    pass: &Pass<'_, '_, '_, '_, '_>,
) -> Result<Seen, AllocError>
    ensures seen { IfOk result (λ seen. IsSeen pass.now seen 0 frame.new) }
    ensures begun { OnOk result (InPass pass.now (λ env.
        Reaches env (maps_of pass.now) 0 (Some (frame_of (names_in pass.now) frame.new)))) }
{
    stands_in_list();
    starts_apart();
    frame.renew(pass.max_locals)?;
    set_to_initial(frame, pass.initial, pass.words);
    let seen = Seen::new(alloc, pass)?;
    Ok(seen)
}

/// Goes over the instructions of a method up to an offset, in a frame that is made anew.
pub(crate) fn walk_to(
    alloc: Global,
    frame: &mut TypeFrame,
    pass: &Pass<'_, '_, '_, '_, '_>,
    end: u32,
) -> Result<Walked, AllocError>
    requires method { (env : Environment) × IsOfPass pass.now env }
    requires end { IsStartOrEnd pass.now.context.code end }
    requires within { end ≤ length pass.now.context.code }
    ensures found { (env : Environment) → IsOfPass pass.now env
        → IfOk result (IsWalked env (maps_of pass.now) end (frame_of (names_in pass.now) frame.new)) }
    ensures locals { IfOk result (HasLocals pass.now.max_locals frame.new) }
{
    let mut seen = begin(alloc, frame, pass)?;
    walk(alloc, pass, &mut seen, frame, end)
}

/// Frames of one method after another, with the local variables of the largest: memory for these is taken once.
pub struct FrameRoom {
    frame: TypeFrame,
}

impl Drop for FrameRoom {
    fn drop(self) {
        let FrameRoom { frame: _ } = self;
    }
}

impl FrameRoom {
    /// Without local variables yet.
    ///
    /// # Errors
    ///
    /// Where the host had no memory for it.
    pub fn new(alloc: Global) -> Result<FrameRoom, AllocError> {
        let frame = TypeFrame::new(alloc, 0)?;
        Ok(FrameRoom { frame })
    }
}

/// Checks the code of a method whose handlers and stack map keep their rules: the first rule that is broken at the least
/// offset, if one is. Its frames stand in the room.
///
/// # Errors
///
/// Where the host had no memory for the frame, or for what is known of it.
pub fn check_code(
    alloc: Global,
    room: &mut FrameRoom,
    pass: &Pass<'_, '_, '_, '_, '_>,
) -> Result<Option<CodeFault>, AllocError>
    requires { (env : Environment) × IsOfPass pass.now env }
    ensures { (env : Environment) → IsOfPass pass.now env → IfOk result (IsFound env (maps_of pass.now)) }
{
    stands_in_list();
    starts_apart();
    let size = pass.context.code().size();
    match walk_to(alloc, &mut room.frame, pass, size)? {
        Walked::Broken(fault) => Ok(Some(fault)),
        Walked::Reached(_) => Ok(None),
    }
}
