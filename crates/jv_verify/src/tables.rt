//! A method whose code was read, by its tables and then by its instructions.

ghost use Rattle.std.specs.Prelude.{◌≡◌, ◌<◌, ◌≤◌, IfOk, IsTrue};
ghost use Rattle.jv_meaning_typing.specs.Environment.{Environment};
ghost use Rattle.jv_meaning_typing.specs.Typing.{HandlersKeepRules};
ghost use Rattle.jv_verify_pass.specs.Before.{TookAll};
ghost use Rattle.jv_verify.specs.Judged.{IsVerdictOnMethod};
ghost use Rattle.jv_verify.specs.Inside.Typed.{AreFramedInEach, IsSomeTyped, IsSomeTypedBelow, StandInEach};
ghost use Rattle.jv_verify.specs.Inside.Read.{IsOfRead, IsVerdictBehindHandlers};

use crate::read::ReadMethod;
use jv_code::Starts;
use jv_meaning_typing::VerifyRule;
use jv_verify_pass::{CodeFault, FrameRoom, FrameSink, FramesBefore};
use std::alloc::{AllocError, Global};

/// A rule on the whole code is broken, which is at offset 0.
pub(crate) fn broken(rule: VerifyRule) -> CodeFault
    ensures offset { result.offset ≡ 0 }
    ensures rule { result.rule ≡ rule }
{
    CodeFault { offset: 0, rule }
}

/// Checks a method whose handlers are right, with these starts of its instructions.
fn check_frames<'a>(
    alloc: Global,
    room: &mut FrameRoom,
    method: &ReadMethod<'_, '_, '_, 'a>,
    starts: &Starts<'a>,
) -> Result<Option<CodeFault>, AllocError>
    requires starts { starts.now ≡ method.now.body.code }
    requires some { (env : Environment) × (IsOfRead method.now env × HandlersKeepRules env) }
    ensures { IsVerdictBehindHandlers method.now result }
{
    let Some(frames) = method.map_frames(alloc, starts)? else {
        return Ok(Some(broken(VerifyRule::MapFrames)));
    };
    method.check_instructions(alloc, room, starts, &frames)
}

/// Checks a method whose code was read.
pub(crate) fn check_tables(
    alloc: Global,
    room: &mut FrameRoom,
    method: &ReadMethod<'_, '_, '_, '_>,
) -> Result<Option<CodeFault>, AllocError>
    requires { (env : Environment) × IsOfRead method.now env }
    ensures { (env : Environment) → IsOfRead method.now env → IfOk result (IsVerdictOnMethod method.now.class.types.world env.site) }
{
    let starts = method.starts(alloc)?;
    if method.handlers_keep_rules(&starts) {
        check_frames(alloc, room, method, &starts)
    } else {
        Ok(Some(broken(VerifyRule::HandlerTable)))
    }
}

/// What stands before the instruction at an offset of a method whose code was read.
pub(crate) fn frames_in_tables<'a>(
    alloc: Global,
    method: &ReadMethod<'_, '_, '_, 'a>,
    offset: u32,
) -> Result<FramesBefore<'a>, AllocError>
    requires { IsSomeTyped (IsOfRead method.now) offset }
    ensures { StandInEach (IsOfRead method.now) method.now.class.types.world offset result }
{
    let starts = method.starts(alloc)?;
    let Some(frames) = method.map_frames(alloc, &starts)? else {
        unreachable!();
    };
    method.frames_before(alloc, &starts, &frames, offset)
}

/// Tells a sink of the instructions of a method whose code was read from the first on up to an end, each with the frames before it.
pub(crate) fn tell_in_tables<'a, S: FrameSink<'a>>(
    alloc: Global,
    method: &ReadMethod<'_, '_, '_, 'a>,
    end: u32,
    sink: &mut S,
) -> Result<u32, AllocError>
    requires { IsSomeTypedBelow (IsOfRead method.now) end }
    ensures took { IfOk result (λ stop. TookAll S.takes sink.old sink.new
        (AreFramedInEach (IsOfRead method.now) method.now.class.types.world end stop)) }
    ensures within { IfOk result (λ stop. stop ≤ end) }
    ensures full { IfOk result (λ stop. stop < end → IsTrue (S.full sink.new)) }
{
    let starts = method.starts(alloc)?;
    let Some(frames) = method.map_frames(alloc, &starts)? else {
        unreachable!();
    };
    method.tell_frames(alloc, &starts, &frames, end, sink)
}
