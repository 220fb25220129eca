//! Steps of the method that runs, by the opcode at hand.

ghost use Rattle.std.specs.Prelude.{◌≡◌, ◌+◌, ◌<◌, ◌≤◌, IfOk, IsOk, IsTrue, OnOk, OnErr, get_or};
ghost use Rattle.jv_link_cache.specs.Linked.{IsLinked};
ghost use Rattle.jv_interp_members.specs.Methods.{AreMethods};
ghost use Rattle.jv_interp_objects.specs.Texts.{AreTexts};
ghost use Rattle.jv_interp_control.specs.Standing.{kept};
ghost use Rattle.jv_interp_control.specs.Acting.{AreAsBefore};
ghost use Rattle.jv_interp_steps.specs.Stepping.{CanStepIn, SteppedIn};

use crate::decoding::{count_behind, decode, index_behind, opcode_at};
use crate::instructions::{step_by, step_known};
use crate::opcodes::value_returned;
use jv_code::{Insn, Invocation};
use jv_interp_control::{Control, Frames};
use jv_interp_held::Held;
use jv_interp_instructions::{
    AnyInstruction, InterfaceCalls, Objects, Returns, SpecialCalls, StaticCalls, VirtualCalls,
};
use jv_interp_members::Methods;
use jv_interp_objects::Texts;
use jv_interp_words::{Registers, opcodes};
use jv_link_cache::Linked;
use jv_loader::Classes;
use jv_store::{OutOfMemory, Store};

/// A step at any instruction.
#[inline(never)]
fn step_decoded<'a, 'l, S: Store>(
    classes: &Classes<'a>,
    linked: &mut Linked<'a>,
    methods: &Methods<'a>,
    texts: &Texts<'a>,
    verified: &[bool],
    frames: &mut Frames,
    control: &mut Control,
    held: &mut Held,
    store: &mut S,
    at: &mut Registers<'l>,
    goes_on: &mut bool,
) -> Result<(), OutOfMemory>
    requires can { CanStepIn classes.now.world verified.now texts.now.names at.old
        (kept frames.old control.old held.old (S.content store.old)) }
    requires linked { IsLinked classes.now.world linked.old }
    requires methods { AreMethods classes.now.world methods.now }
    requires texts { AreTexts classes.now.world texts.now }
    requires cells { held.old.cells ≤ S.room_left store.old }
    requires few { held.old.cells < 2147483648 }
    ensures stepped { OnOk result (SteppedIn classes.now.world verified.now texts.now.names at.old
        (kept frames.old control.old held.old (S.content store.old)) at.new
        (kept frames.new control.new held.new (S.content store.new)) goes_on.new) }
    ensures same { at.new ≡ record at.old { pc = at.new.pc; top = at.new.top } }
    ensures fewer { held.new.cells ≤ held.old.cells }
    ensures room { OnOk result (S.room_left store.old + held.new.cells ≡ S.room_left store.new + held.old.cells) }
    ensures linked { IsLinked classes.now.world linked.new }
    ensures refused_at { OnErr result (at.new ≡ at.old) }
    ensures refused_frames { OnErr result (AreAsBefore frames.old frames.new) }
    ensures refused_control { OnErr result (control.new ≡ control.old) }
    ensures refused { OnErr result (held.new ≡ held.old) }
    ensures refused_content { OnErr result (S.content store.new ≡ S.content store.old) }
    ensures refused_room { OnErr result (S.room_left store.new ≡ S.room_left store.old) }
    ensures sure { IsTrue S.SURE → IsOk result }
{
    let (site, insn, next) = decode(methods, at.method, at.pc);
    match step_by::<AnyInstruction, S>(
        classes, linked, methods, texts, verified, frames, control, held, store, at, site, insn,
        next,
    ) {
        Ok(goes) => {
            *goes_on = goes;
            Ok(())
        }
        Err(refused) => Err(refused),
    }
}

/// The same, with registers of its own, so that those of the loop need no place in memory.
#[inline(always)]
fn step_apart<'a, 'l, S: Store>(
    classes: &Classes<'a>,
    linked: &mut Linked<'a>,
    methods: &Methods<'a>,
    texts: &Texts<'a>,
    verified: &[bool],
    frames: &mut Frames,
    control: &mut Control,
    held: &mut Held,
    store: &mut S,
    at: &mut Registers<'l>,
    goes_on: &mut bool,
) -> Result<(), OutOfMemory>
    requires can { CanStepIn classes.now.world verified.now texts.now.names at.old
        (kept frames.old control.old held.old (S.content store.old)) }
    requires linked { IsLinked classes.now.world linked.old }
    requires methods { AreMethods classes.now.world methods.now }
    requires texts { AreTexts classes.now.world texts.now }
    requires cells { held.old.cells ≤ S.room_left store.old }
    requires few { held.old.cells < 2147483648 }
    ensures stepped { OnOk result (SteppedIn classes.now.world verified.now texts.now.names at.old
        (kept frames.old control.old held.old (S.content store.old)) at.new
        (kept frames.new control.new held.new (S.content store.new)) goes_on.new) }
    ensures fewer { held.new.cells ≤ held.old.cells }
    ensures room { OnOk result (S.room_left store.old + held.new.cells ≡ S.room_left store.new + held.old.cells) }
    ensures linked { IsLinked classes.now.world linked.new }
    ensures refused_at { OnErr result (at.new ≡ at.old) }
    ensures refused_frames { OnErr result (AreAsBefore frames.old frames.new) }
    ensures refused_control { OnErr result (control.new ≡ control.old) }
    ensures refused { OnErr result (held.new ≡ held.old) }
    ensures refused_content { OnErr result (S.content store.new ≡ S.content store.old) }
    ensures refused_room { OnErr result (S.room_left store.new ≡ S.room_left store.old) }
    ensures sure { IsTrue S.SURE → IsOk result }
{
    let mut own = *at;
    let mut goes = true;
    let result = step_decoded(
        classes, linked, methods, texts, verified, frames, control, held, store, &mut own,
        &mut goes,
    );
    at.pc = own.pc;
    at.top = own.top;
    *goes_on = goes;
    result
}

/// The same, where the opcode says which instruction it is, but for what is read behind it; one more than the opcode was read.
#[inline(always)]
fn step_at_hand<'a, 'l, S: Store>(
    classes: &Classes<'a>,
    linked: &mut Linked<'a>,
    methods: &Methods<'a>,
    texts: &Texts<'a>,
    verified: &[bool],
    frames: &mut Frames,
    control: &mut Control,
    held: &mut Held,
    store: &mut S,
    at: &mut Registers<'l>,
    read: u16,
    goes_on: &mut bool,
) -> Result<(), OutOfMemory>
    requires read { read ≡ get_or at.old.code.now at.old.pc 0 + 1 }
    requires can { CanStepIn classes.now.world verified.now texts.now.names at.old
        (kept frames.old control.old held.old (S.content store.old)) }
    requires linked { IsLinked classes.now.world linked.old }
    requires methods { AreMethods classes.now.world methods.now }
    requires texts { AreTexts classes.now.world texts.now }
    requires cells { held.old.cells ≤ S.room_left store.old }
    requires few { held.old.cells < 2147483648 }
    ensures stepped { OnOk result (SteppedIn classes.now.world verified.now texts.now.names at.old
        (kept frames.old control.old held.old (S.content store.old)) at.new
        (kept frames.new control.new held.new (S.content store.new)) goes_on.new) }
    ensures fewer { held.new.cells ≤ held.old.cells }
    ensures room { OnOk result (S.room_left store.old + held.new.cells ≡ S.room_left store.new + held.old.cells) }
    ensures linked { IsLinked classes.now.world linked.new }
    ensures refused_at { OnErr result (at.new ≡ at.old) }
    ensures refused_frames { OnErr result (AreAsBefore frames.old frames.new) }
    ensures refused_control { OnErr result (control.new ≡ control.old) }
    ensures refused { OnErr result (held.new ≡ held.old) }
    ensures refused_content { OnErr result (S.content store.new ≡ S.content store.old) }
    ensures refused_room { OnErr result (S.room_left store.new ≡ S.room_left store.old) }
    ensures sure { IsTrue S.SURE → IsOk result }
{
    let opcode = opcode_at(at.code, at.pc as usize, read);
    if let Some(kind) = value_returned(opcode) {
        return step_known::<Returns, S>(
            classes,
            linked,
            methods,
            texts,
            verified,
            frames,
            control,
            held,
            store,
            at,
            Insn::ReturnValue(kind),
            1,
            goes_on,
        );
    }
    match opcode {
        opcodes::RETURN => step_known::<Returns, S>(
            classes,
            linked,
            methods,
            texts,
            verified,
            frames,
            control,
            held,
            store,
            at,
            Insn::Return,
            1,
            goes_on,
        ),
        opcodes::INVOKEVIRTUAL => {
            let index = index_behind(at.code, at.pc as usize);
            step_known::<VirtualCalls, S>(
                classes,
                linked,
                methods,
                texts,
                verified,
                frames,
                control,
                held,
                store,
                at,
                Insn::Invoke(Invocation::Virtual, index),
                3,
                goes_on,
            )
        }
        opcodes::INVOKESPECIAL => {
            let index = index_behind(at.code, at.pc as usize);
            step_known::<SpecialCalls, S>(
                classes,
                linked,
                methods,
                texts,
                verified,
                frames,
                control,
                held,
                store,
                at,
                Insn::Invoke(Invocation::Special, index),
                3,
                goes_on,
            )
        }
        opcodes::INVOKESTATIC => {
            let index = index_behind(at.code, at.pc as usize);
            step_known::<StaticCalls, S>(
                classes,
                linked,
                methods,
                texts,
                verified,
                frames,
                control,
                held,
                store,
                at,
                Insn::Invoke(Invocation::Static, index),
                3,
                goes_on,
            )
        }
        opcodes::INVOKEINTERFACE => {
            let index = index_behind(at.code, at.pc as usize);
            let count = count_behind(at.code, at.pc as usize);
            step_known::<InterfaceCalls, S>(
                classes,
                linked,
                methods,
                texts,
                verified,
                frames,
                control,
                held,
                store,
                at,
                Insn::InvokeInterface(index, count),
                5,
                goes_on,
            )
        }
        opcodes::NEW => {
            let index = index_behind(at.code, at.pc as usize);
            step_known::<Objects, S>(
                classes,
                linked,
                methods,
                texts,
                verified,
                frames,
                control,
                held,
                store,
                at,
                Insn::New(index),
                3,
                goes_on,
            )
        }
        _ => step_apart(
            classes, linked, methods, texts, verified, frames, control, held, store, at, goes_on,
        ),
    }
}

/// Executes the instruction at which the method in the registers stands (JVMS 2.11), whose opcode was read, one more than it, and does what
/// its effect asks for. Answers whether the method goes on in the registers; where it doesn't, all frames stand in their records, from
/// which the newest goes on.
///
/// # Errors
///
/// Where the host had no memory for what is made; all is then as it was, but for what linking has found.
#[inline(always)]
pub(crate) fn step_in_method<'a, 'l, S: Store>(
    classes: &Classes<'a>,
    linked: &mut Linked<'a>,
    methods: &Methods<'a>,
    texts: &Texts<'a>,
    verified: &[bool],
    frames: &mut Frames,
    control: &mut Control,
    held: &mut Held,
    store: &mut S,
    at: &mut Registers<'l>,
    read: u16,
) -> Result<bool, OutOfMemory>
    requires read { read ≡ get_or at.old.code.now at.old.pc 0 + 1 }
    requires can { CanStepIn classes.now.world verified.now texts.now.names at.old
        (kept frames.old control.old held.old (S.content store.old)) }
    requires linked { IsLinked classes.now.world linked.old }
    requires methods { AreMethods classes.now.world methods.now }
    requires texts { AreTexts classes.now.world texts.now }
    requires cells { held.old.cells ≤ S.room_left store.old }
    requires few { held.old.cells < 2147483648 }
    ensures stepped { IfOk result (SteppedIn classes.now.world verified.now texts.now.names at.old
        (kept frames.old control.old held.old (S.content store.old)) at.new
        (kept frames.new control.new held.new (S.content store.new))) }
    ensures fewer { held.new.cells ≤ held.old.cells }
    ensures room { OnOk result (S.room_left store.old + held.new.cells ≡ S.room_left store.new + held.old.cells) }
    ensures linked { IsLinked classes.now.world linked.new }
    ensures refused_at { OnErr result (at.new ≡ at.old) }
    ensures refused_frames { OnErr result (AreAsBefore frames.old frames.new) }
    ensures refused_control { OnErr result (control.new ≡ control.old) }
    ensures refused { OnErr result (held.new ≡ held.old) }
    ensures refused_content { OnErr result (S.content store.new ≡ S.content store.old) }
    ensures refused_room { OnErr result (S.room_left store.new ≡ S.room_left store.old) }
    ensures sure { IsTrue S.SURE → IsOk result }
{
    let mut goes_on = true;
    match step_at_hand(
        classes,
        linked,
        methods,
        texts,
        verified,
        frames,
        control,
        held,
        store,
        at,
        read,
        &mut goes_on,
    ) {
        Ok(()) => Ok(goes_on),
        Err(refused) => Err(refused),
    }
}
