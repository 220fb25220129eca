//! The frames before an instruction, for those who want to know what the rules saw there (JVMS 4.10.1.6).

ghost use Rattle.std.specs.Prelude.{◌≡◌, length, IfOk, IfSome};
ghost use Rattle.std.specs.Option.{option_map};
ghost use Rattle.jv_code.specs.Places.{IsStart};
ghost use Rattle.jv_meaning_typing.specs.Environment.{Environment};
ghost use Rattle.jv_meaning_typing.specs.Typing.{frame_at};
ghost use Rattle.jv_verify_types.specs.Numbered.{frame_of};
ghost use Rattle.jv_verify_pass.specs.Before.{AreBefore, IsTypedTo, frame_before, seen_frame};
ghost use Rattle.jv_verify_pass.specs.Pass.{InPass, IsOfPass, maps_of, names_in};
ghost use Rattle.jv_verify_pass.specs.Inside.Unmet.{GoesOnUnmet};
ghost use Rattle.jv_verify_pass.specs.Inside.Walk.{when_falls};

use crate::named::{NamedFrame, named_frame};
use crate::onward::{NamedUnmet, unmet_behind};
use crate::pass::Pass;
use crate::setting::set_to_map;
use crate::walk::{Walked, walk_to};
use jv_code::{stands_in_list, starts_apart};
use jv_verify_frame::TypeFrame;
use std::alloc::{AllocError, Global};

/// The frames before an instruction: the one that falls into it, where one does, and that of the stack map, where it has one there.
/// The latter is then the frame before the instruction, and the former is to flow into it. And what goes on from the instruction to where
/// it doesn't flow: the first of what its handlers begin with, else of what it leaves to its targets.
pub struct FramesBefore<'a> {
    /// What falls into it.
    pub falling: Option<NamedFrame<'a>>,
    /// The frame of the stack map.
    pub map: Option<NamedFrame<'a>>,
    /// What goes on to where it doesn't flow.
    pub unmet: Option<NamedUnmet<'a>>,
}

impl Drop for FramesBefore<'_> {
    fn drop(self) {
        let FramesBefore {
            falling: _,
            map: _,
            unmet: _,
        } = self;
    }
}

/// A frame with names for numbers, where it falls.
pub(crate) fn falling_named<'a>(
    alloc: Global,
    pass: &Pass<'_, '_, '_, '_, 'a>,
    frame: &TypeFrame,
    falls: bool,
) -> Result<Option<NamedFrame<'a>>, AllocError>
    requires { length frame.now.locals ≡ pass.now.max_locals }
    ensures { IfOk result (λ found. option_map seen_frame found ≡ when_falls falls (frame_of (names_in pass.now) frame.now)) }
{
    if !falls {
        return Ok(None);
    }
    let named = named_frame(alloc, pass.types.names(), frame, pass.max_locals)?;
    Ok(Some(named))
}

/// The frame of the stack map at an offset, where there is one.
pub(crate) fn map_frame(
    alloc: Global,
    pass: &Pass<'_, '_, '_, '_, '_>,
    offset: u32,
) -> Result<Option<TypeFrame>, AllocError>
    ensures frame { InPass pass.now (λ env. IfOk result (λ found.
        option_map (frame_of (names_in pass.now)) found ≡ frame_at (maps_of pass.now) offset)) }
    ensures locals { IfOk result (λ found. IfSome found (λ f. length f.locals ≡ pass.now.max_locals)) }
{
    let Some((_, map)) = pass.map_at(offset) else {
        return Ok(None);
    };
    let mut frame = TypeFrame::new(alloc, pass.max_locals)?;
    set_to_map(pass.types, &mut frame, &map)?;
    Ok(Some(frame))
}

/// The frame of the stack map at an offset, with names for numbers, where there is one.
pub(crate) fn map_named<'a>(
    alloc: Global,
    pass: &Pass<'_, '_, '_, '_, 'a>,
    offset: u32,
) -> Result<Option<NamedFrame<'a>>, AllocError>
    ensures { InPass pass.now (λ env. IfOk result (λ found. option_map seen_frame found ≡ frame_at (maps_of pass.now) offset)) }
{
    let Some(frame) = map_frame(alloc, pass, offset)? else {
        return Ok(None);
    };
    let named = named_frame(alloc, pass.types.names(), &frame, pass.max_locals)?;
    Ok(Some(named))
}

/// Makes what falls into an instruction, or doesn't, the frame before it, and says whether there is one.
fn set_before(
    pass: &Pass<'_, '_, '_, '_, '_>,
    frame: &mut TypeFrame,
    falls: bool,
    offset: u32,
) -> Result<bool, AllocError>
    requires { length frame.old.locals ≡ pass.now.max_locals }
    ensures before { InPass pass.now (λ env. IfOk result (λ there. when_falls there (frame_of (names_in pass.now) frame.new)
        ≡ frame_before (when_falls falls (frame_of (names_in pass.now) frame.old)) (frame_at (maps_of pass.now) offset))) }
    ensures locals { IfOk result (λ _. length frame.new.locals ≡ pass.now.max_locals) }
{
    let Some((_, map)) = pass.map_at(offset) else {
        return Ok(falls);
    };
    set_to_map(pass.types, frame, &map)?;
    Ok(true)
}

/// What goes on from an instruction to where it doesn't flow, where this falls into it, or doesn't. The frame is then of no more use.
fn unmet_from<'a>(
    alloc: Global,
    pass: &Pass<'_, '_, '_, '_, 'a>,
    frame: &mut TypeFrame,
    falls: bool,
    offset: u32,
) -> Result<Option<NamedUnmet<'a>>, AllocError>
    requires locals { length frame.old.locals ≡ pass.now.max_locals }
    requires start { IsStart pass.now.context.code offset }
    requires method { (env : Environment) × IsOfPass pass.now env }
    ensures { GoesOnUnmet pass.now offset (λ names. when_falls falls (frame_of names frame.old)) result }
{
    stands_in_list();
    if !set_before(pass, frame, falls, offset)? {
        return Ok(None);
    }
    let code = pass.context.code();
    // Its clauses tell that the code is short.
    let _few = code.size();
    let (insn, _next) = code.insn_at(offset);
    unmet_behind(alloc, pass, frame, offset, &insn)
}

/// The frames before the instruction at an offset of a method whose handlers and stack map keep their rules, and whose instructions
/// below are type safe. It costs what it does to check these.
///
/// # Errors
///
/// Where the host had no memory for the frames, or for what is known of them.
pub fn frames_before<'a>(
    alloc: Global,
    pass: &Pass<'_, '_, '_, '_, 'a>,
    offset: u32,
) -> Result<FramesBefore<'a>, AllocError>
    requires { (env : Environment) × (IsOfPass pass.now env × IsTypedTo env (maps_of pass.now) offset) }
    ensures { (env : Environment) → IsOfPass pass.now env → IfOk result (AreBefore env (maps_of pass.now) offset) }
{
    stands_in_list();
    starts_apart();
    let mut frame = TypeFrame::new(alloc, 0)?;
    let Walked::Reached(falls) = walk_to(alloc, &mut frame, pass, offset)? else {
        unreachable!();
    };
    let falling = falling_named(alloc, pass, &frame, falls)?;
    let map = map_named(alloc, pass, offset)?;
    let unmet = unmet_from(alloc, pass, &mut frame, falls, offset)?;
    Ok(FramesBefore {
        falling,
        map,
        unmet,
    })
}
