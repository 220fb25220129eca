//! A walk over the instructions of a method that tells a sink of each, with the frames before it (JVMS 4.10.1.6).

ghost use Rattle.std.specs.Prelude.{◌≡◌, ◌≤◌, ◌<◌, ◌↔◌, IfOk, IsTrue, OnOk, Some, false, length};
ghost use Rattle.jv_code.specs.Insns.{instruction_of};
ghost use Rattle.jv_meaning_typing.specs.Environment.{Environment};
ghost use Rattle.jv_verify_types.specs.Numbered.{frame_of};
ghost use Rattle.jv_verify_pass.specs.Before.{AreFramed, IsTypedBelow, TookAll};
ghost use Rattle.jv_verify_pass.specs.Pass.{InPass, IsOfPass, maps_of, names_in};
ghost use Rattle.jv_verify_pass.specs.Inside.Seen.{IsSeen};
ghost use Rattle.jv_verify_pass.specs.Inside.Taken.{TakesFramed};
ghost use Rattle.jv_verify_pass.specs.Inside.Walk.{Reaches, when_falls};

use crate::before::{falling_named, map_named};
use crate::pass::Pass;
use crate::seen::Seen;
use crate::sink::{FrameSink, FramedInsn};
use crate::step::step;
use crate::walk::begin;
use jv_code::{Insn, falls_through, stands_in_list, starts_apart};
use jv_verify_frame::TypeFrame;
use std::alloc::{AllocError, Global};

/// Tells a sink of the instruction at an offset, into which this falls, or doesn't.
fn tell<'a, S: FrameSink<'a>>(
    alloc: Global,
    pass: &Pass<'_, '_, '_, '_, 'a>,
    frame: &TypeFrame,
    falls: bool,
    offset: u32,
    insn: Insn<&'a [u8]>,
    sink: &mut S,
) -> Result<(), AllocError>
    requires { length frame.now.locals ≡ pass.now.max_locals }
    ensures { OnOk result (TakesFramed pass.now offset (instruction_of insn.entry)
        (when_falls falls (frame_of (names_in pass.now) frame.now)) (λ f. S.takes sink.old f sink.new)) }
{
    let falling = falling_named(alloc, pass, frame, falls)?;
    let map = map_named(alloc, pass, offset)?;
    sink.take(
        alloc,
        &FramedInsn {
            offset,
            insn,
            falling,
            map,
        },
    )
}

/// Whether a walk to an end goes on at an offset: it is below the end, and the sink wants more.
fn goes_on<'a, S: FrameSink<'a>>(sink: &S, offset: u32, end: u32) -> bool
    ensures { IsTrue result ↔ ((offset < end) × (S.full sink.now ≡ false)) }
{
    offset < end && !sink.is_full()
}

/// Tells a sink of the instructions from the first on, before which the frame stands, up to an end or as long as the sink wants more, and
/// answers the offset behind the last of which it was told.
fn tell_from<'a, S: FrameSink<'a>>(
    alloc: Global,
    pass: &Pass<'_, '_, '_, '_, 'a>,
    seen: &mut Seen,
    frame: &mut TypeFrame,
    end: u32,
    sink: &mut S,
) -> Result<u32, AllocError>
    requires seen { IsSeen pass.now seen.old 0 frame.old }
    requires begun { InPass pass.now (λ env. Reaches env (maps_of pass.now) 0 (Some (frame_of (names_in pass.now) frame.old))) }
    requires typed { (env : Environment) × (IsOfPass pass.now env × IsTypedBelow env (maps_of pass.now) end) }
    ensures took { IfOk result (λ stop. TookAll S.takes sink.old sink.new (λ all.
        InPass pass.now (λ env. AreFramed env (maps_of pass.now) 0 stop all))) }
    ensures within { IfOk result (λ stop. stop ≤ end) }
    ensures full { IfOk result (λ stop. stop < end → IsTrue (S.full sink.new)) }
{
    stands_in_list();
    starts_apart();
    let code = pass.context.code();
    // Its clauses tell that the code is short.
    let _size = code.size();
    let mut falls = true;
    let mut offset = 0;
    'instructions: while goes_on(sink, offset, end) {
        let (insn, next) = code.insn_at(offset);
        tell(alloc, pass, frame, falls, offset, insn, sink)?;
        if let Some(_rule) = step(alloc, pass, seen, frame, falls, false, offset, &insn)? {
            unreachable!();
        }
        falls = falls_through(&insn);
        offset = next;
    }
    Ok(offset)
}

/// Tells a sink of the instructions of a method from the first on, each with the frames before it, up to an end or as long as the sink
/// wants more, and answers the offset behind the last of which it was told, in bytes. The method's handlers and its stack map keep their
/// rules, and its instructions below the end are type safe. It costs what it does to check these once, and what the sink does.
///
/// # Errors
///
/// Where the host had no memory for the frames, or for what is known of them, or the sink says so.
pub fn tell_frames<'a, S: FrameSink<'a>>(
    alloc: Global,
    pass: &Pass<'_, '_, '_, '_, 'a>,
    end: u32,
    sink: &mut S,
) -> Result<u32, AllocError>
    requires { (env : Environment) × (IsOfPass pass.now env × IsTypedBelow env (maps_of pass.now) end) }
    ensures took { IfOk result (λ stop. TookAll S.takes sink.old sink.new (λ all.
        InPass pass.now (λ env. AreFramed env (maps_of pass.now) 0 stop all))) }
    ensures within { IfOk result (λ stop. stop ≤ end) }
    ensures full { IfOk result (λ stop. stop < end → IsTrue (S.full sink.new)) }
{
    let mut frame = TypeFrame::new(alloc, 0)?;
    let mut seen = begin(alloc, &mut frame, pass)?;
    tell_from(alloc, pass, &mut seen, &mut frame, end, sink)
}
