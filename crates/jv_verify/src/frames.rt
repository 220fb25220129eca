//! The frames before the instructions of a method.

ghost use Rattle.std.specs.Prelude.{◌≡◌, ◌<◌, ◌≤◌, Some, false, length, IfOk, IsTrue};
ghost use Rattle.jv_class.specs.Class.{class_of};
ghost use Rattle.jv_class_structure.specs.Parts.{methods_of};
ghost use Rattle.jv_meaning_world.specs.Numbers.{HoldsAtNumber};
ghost use Rattle.jv_verify_pass.specs.Before.{TookAll};
ghost use Rattle.jv_verify.specs.Frames.{AreBeforeIn, AreFramedIn, IsTypedBelowIn, IsTypedIn};
ghost use Rattle.jv_verify.specs.Inside.Shown.{AreMethodsOf};

use crate::check::{frames_in_method, tell_in_method};
use jv_class::ClassFile;
use jv_link::class_at;
use jv_loader::Classes;
use jv_verify_pass::{FrameSink, FramesBefore};
use jv_verify_types::{ConstantTypes, CurrentClass};
use std::alloc::{AllocError, Global};
use std::hash::RandomState;

/// What stands before the instruction at an offset of a method, by its number, of the current class, which is that of a file.
fn frames_in_class<'a>(
    alloc: Global,
    class: &CurrentClass<'_, '_, 'a>,
    file: &ClassFile<'a>,
    method: u16,
    offset: u32,
) -> Result<FramesBefore<'a>, AllocError>
    requires methods { AreMethodsOf class.now.by (methods_of file.now) }
    requires typed { IsTypedIn class.now.types.world class.now.by method offset }
    ensures { IfOk result (AreBeforeIn class.now.types.world class.now.by method offset) }
{
    let Some(method) = file.method(usize::from(method)) else {
        unreachable!();
    };
    let Some(body) = method.code() else {
        unreachable!();
    };
    frames_in_method(alloc, class, &method, &body, offset)
}

/// The frames before an instruction (JVMS 4.10.1.6), by its offset, of a method, by its number, of the class with a number, one of a
/// guest's: the one that falls into it, where one does, and that of the stack map, where it has one there. The instructions below are
/// type safe, as they are where the method is accepted, or breaks a rule at this instruction or behind it. Names are hashed with the
/// state. It costs what it does to check these instructions.
///
/// # Errors
///
/// Where the host had no memory for what is known of the class, or for the frames.
pub fn frames_before<'a>(
    alloc: Global,
    state: RandomState,
    classes: &Classes<'a>,
    class: usize,
    method: u16,
    offset: u32,
) -> Result<FramesBefore<'a>, AllocError>
    requires class { class < length classes.now.world }
    requires guest { HoldsAtNumber classes.now.world class (λ l. l.by_system ≡ false) }
    requires typed { HoldsAtNumber classes.now.world class (λ l. IsTypedIn classes.now.world l method offset) }
    ensures { IfOk result (λ found. HoldsAtNumber classes.now.world class (λ l. AreBeforeIn classes.now.world l method offset found)) }
{
    let Some(file) = class_at(classes.table(), class).file() else {
        unreachable!();
    };
    let constants = ConstantTypes::new(alloc, state, classes.table(), file.pool())?;
    let current = CurrentClass::new(alloc, classes, class, file, &constants)?;
    frames_in_class(alloc, &current, file, method, offset)
}

/// Tells a sink of the instructions of a method, by its number, of the current class, which is that of the file, from the first on up to
/// an end, each with the frames before it (JVMS 4.10.1.6), as long as it wants more; and answers the offset behind the last of which it
/// was told, in bytes. An instruction starts at the end, or the code ends there, and those below it are type safe. It costs what it does
/// to check these once, and what the sink does.
///
/// # Errors
///
/// Where the host had no memory for the frames, or for what is known of them, or the sink says so.
pub fn tell_frames<'a, S: FrameSink<'a>>(
    alloc: Global,
    class: &CurrentClass<'_, '_, 'a>,
    file: &ClassFile<'a>,
    number: u16,
    end: u32,
    sink: &mut S,
) -> Result<u32, AllocError>
    requires file { class_of file.now ≡ Some class.now.by.class }
    requires typed { IsTypedBelowIn class.now.types.world class.now.by number end }
    ensures took { IfOk result (λ stop. TookAll S.takes sink.old sink.new
        (AreFramedIn class.now.types.world class.now.by number stop)) }
    ensures within { IfOk result (λ stop. stop ≤ end) }
    ensures full { IfOk result (λ stop. stop < end → IsTrue (S.full sink.new)) }
{
    let Some(method) = file.method(usize::from(number)) else {
        unreachable!();
    };
    let Some(body) = method.code() else {
        unreachable!();
    };
    tell_in_method(alloc, class, &method, &body, end, sink)
}
