//! The code of a method against all rules, in their order.

ghost use Rattle.std.specs.Prelude.{◌≡◌, ◌<◌, ◌≤◌, IfOk, IsTrue};
ghost use Rattle.jv_class_structure.specs.Seen.{seen_code, seen_method};
ghost use Rattle.jv_meaning_typing.specs.Uses.{Site};
ghost use Rattle.jv_verify_pass.specs.Before.{TookAll};
ghost use Rattle.jv_verify.specs.Judged.{IsMethodOf};
ghost use Rattle.jv_verify.specs.Inside.Known.{HasEnvironment, IsEnvironmentOf, IsEnvironmentWith, IsVerdictWith, IsVerdictOn};
ghost use Rattle.jv_verify.specs.Inside.Typed.{AreFramedInEach, IsSomeTyped, IsSomeTypedBelow, StandInEach};

use crate::entries::{initial_items, words_within};
use crate::known::{is_named_init, is_static, known_types};
use crate::read::ReadMethod;
use crate::tables::{broken, check_tables, frames_in_tables, tell_in_tables};
use jv_class_structure::{Method, MethodCode};
use jv_code::Code;
use jv_meaning_typing::VerifyRule;
use jv_verify_pass::{CodeFault, FrameRoom, FrameSink, FramesBefore};
use jv_verify_types::{CurrentClass, MethodTypes};
use std::alloc::{AllocError, Global};

/// Checks a method whose body has this code, and whose descriptor says these types.
fn check_typed<'a>(
    alloc: Global,
    room: &mut FrameRoom,
    class: &CurrentClass<'_, '_, 'a>,
    method: &Method<'a>,
    body: &MethodCode<'a>,
    code: &Code<'a>,
    types: MethodTypes<'_>,
) -> Result<Option<CodeFault>, AllocError>
    requires code { code.now.bytes.now ≡ body.now.code.now }
    requires some { HasEnvironment class.now (seen_method method.now) (seen_code body.now) types }
    ensures { IsVerdictWith class.now (seen_method method.now) (seen_code body.now) types.entry result }
{
    let is_init = is_named_init(class, method);
    let items = initial_items(alloc, class, is_static(method), is_init, types.arguments)?;
    let Some(count) = words_within(&items, body.max_locals) else {
        unreachable!();
    };
    let read = ReadMethod::new(class, body, code, &items, count, is_init, types.result);
    check_tables(alloc, room, &read)
}

/// Checks the code of a method of the current class: the first rule that it breaks (JVMS 4.10.1), and where; `None` where it
/// has a typing.
///
/// # Errors
///
/// Where the host had no memory for its frames.
pub fn check_method<'a>(
    alloc: Global,
    room: &mut FrameRoom,
    class: &CurrentClass<'_, '_, 'a>,
    method: &Method<'a>,
    code: &MethodCode<'a>,
) -> Result<Option<CodeFault>, AllocError>
    requires { (site : Site) × IsMethodOf class.now (seen_method method.now) (seen_code code.now) site }
    ensures { IsVerdictOn class.now (seen_method method.now) (seen_code code.now) result }
{
    let Some(types) = known_types(class, method, code) else {
        return Ok(Some(broken(VerifyRule::Code)));
    };
    match Code::read(code.code) {
        Ok(read) => check_typed(alloc, room, class, method, code, &read, types),
        Err(_) => Ok(Some(broken(VerifyRule::Code))),
    }
}

/// What stands before the instruction at an offset of a method whose body has this code, and whose descriptor says these types.
fn frames_typed<'a>(
    alloc: Global,
    class: &CurrentClass<'_, '_, 'a>,
    method: &Method<'a>,
    body: &MethodCode<'a>,
    code: &Code<'a>,
    types: MethodTypes<'_>,
    offset: u32,
) -> Result<FramesBefore<'a>, AllocError>
    requires code { code.now.bytes.now ≡ body.now.code.now }
    requires some { IsSomeTyped (IsEnvironmentWith class.now (seen_method method.now) (seen_code body.now) types) offset }
    ensures { StandInEach (IsEnvironmentWith class.now (seen_method method.now) (seen_code body.now) types.entry)
        class.now.types.world offset result }
{
    let is_init = is_named_init(class, method);
    let items = initial_items(alloc, class, is_static(method), is_init, types.arguments)?;
    let Some(count) = words_within(&items, body.max_locals) else {
        unreachable!();
    };
    let read = ReadMethod::new(class, body, code, &items, count, is_init, types.result);
    frames_in_tables(alloc, &read, offset)
}

/// What stands before the instruction at an offset of a method of the current class (JVMS 4.10.1.6), below which all are type safe.
///
/// # Errors
///
/// Where the host had no memory for its frames.
pub fn frames_in_method<'a>(
    alloc: Global,
    class: &CurrentClass<'_, '_, 'a>,
    method: &Method<'a>,
    body: &MethodCode<'a>,
    offset: u32,
) -> Result<FramesBefore<'a>, AllocError>
    requires { IsSomeTyped (IsEnvironmentOf class.now (seen_method method.now) (seen_code body.now)) offset }
    ensures { StandInEach (IsEnvironmentOf class.now (seen_method method.now) (seen_code body.now)) class.now.types.world offset result }
{
    let Some(types) = known_types(class, method, body) else {
        unreachable!();
    };
    let Ok(code) = Code::read(body.code) else {
        unreachable!();
    };
    frames_typed(alloc, class, method, body, &code, types, offset)
}

/// Tells a sink of the instructions of a method whose body has this code, and whose descriptor says these types, from the first on up to
/// an end, each with the frames before it.
fn tell_typed<'a, S: FrameSink<'a>>(
    alloc: Global,
    class: &CurrentClass<'_, '_, 'a>,
    method: &Method<'a>,
    body: &MethodCode<'a>,
    types: MethodTypes<'_>,
    end: u32,
    sink: &mut S,
) -> Result<u32, AllocError>
    requires { IsSomeTypedBelow (IsEnvironmentWith class.now (seen_method method.now) (seen_code body.now) types) end }
    ensures took { IfOk result (λ stop. TookAll S.takes sink.old sink.new
        (AreFramedInEach (IsEnvironmentWith class.now (seen_method method.now) (seen_code body.now) types.entry)
        class.now.types.world end stop)) }
    ensures within { IfOk result (λ stop. stop ≤ end) }
    ensures full { IfOk result (λ stop. stop < end → IsTrue (S.full sink.new)) }
{
    let Ok(code) = Code::read(body.code) else {
        unreachable!();
    };
    let is_init = is_named_init(class, method);
    let items = initial_items(alloc, class, is_static(method), is_init, types.arguments)?;
    let Some(count) = words_within(&items, body.max_locals) else {
        unreachable!();
    };
    let read = ReadMethod::new(class, body, &code, &items, count, is_init, types.result);
    tell_in_tables(alloc, &read, end, sink)
}

/// Tells a sink of the instructions of a method of the current class, which are type safe below an end (JVMS 4.10.1.6), from the first on
/// up to that end, each with the frames before it, as long as it wants more; and answers the offset behind the last, in bytes.
///
/// # Errors
///
/// Where the host had no memory for its frames, or the sink says so.
pub(crate) fn tell_in_method<'a, S: FrameSink<'a>>(
    alloc: Global,
    class: &CurrentClass<'_, '_, 'a>,
    method: &Method<'a>,
    body: &MethodCode<'a>,
    end: u32,
    sink: &mut S,
) -> Result<u32, AllocError>
    requires { IsSomeTypedBelow (IsEnvironmentOf class.now (seen_method method.now) (seen_code body.now)) end }
    ensures took { IfOk result (λ stop. TookAll S.takes sink.old sink.new
        (AreFramedInEach (IsEnvironmentOf class.now (seen_method method.now) (seen_code body.now)) class.now.types.world end stop)) }
    ensures within { IfOk result (λ stop. stop ≤ end) }
    ensures full { IfOk result (λ stop. stop < end → IsTrue (S.full sink.new)) }
{
    let Some(types) = known_types(class, method, body) else {
        unreachable!();
    };
    tell_typed(alloc, class, method, body, types, end, sink)
}
