//! The instruction at which the method that runs stands, once it is known.

ghost use Rattle.std.specs.Prelude.{◌≡◌, ◌+◌, ◌<◌, ◌≤◌, IfOk, IsOk, IsTrue, OnOk, OnErr, length};
ghost use Rattle.jv_code.specs.Insns.{instruction_of, insn_bytes, insn_fits};
ghost use Rattle.jv_code.specs.Operands.{HasBytes};
ghost use Rattle.jv_link_cache.specs.Linked.{IsLinked};
ghost use Rattle.jv_interp_members.specs.Methods.{AreMethods};
ghost use Rattle.jv_interp_objects.specs.Texts.{AreTexts};
ghost use Rattle.jv_interp_instructions.specs.InGuest.{KeepsCodeRules};
ghost use Rattle.jv_interp_control.specs.Standing.{kept};
ghost use Rattle.jv_interp_control.specs.Acting.{AreAsBefore};
ghost use Rattle.jv_interp_steps.specs.Inside.Decoding.{StandsNext};
ghost use Rattle.jv_interp_steps.specs.Stepping.{CanStepIn, SteppedIn};

use crate::decoding::site_of;
use jv_code::Insn;
use jv_interp_control::{Control, Frames, Program, act};
use jv_interp_held::{Effect, Held};
use jv_interp_instructions::Execution;
use jv_interp_members::Methods;
use jv_interp_objects::Texts;
use jv_interp_words::Registers;
use jv_link::Site;
use jv_link_cache::Linked;
use jv_loader::Classes;
use jv_meaning_machine::execution_keeps;
use jv_store::{OutOfMemory, Store};

/// Executes the instruction at which the method in the registers stands (JVMS 2.11), behind which the next one stands at `next`, and
/// does what its effect asks for. Answers whether the method goes on in the registers; where it doesn't, all frames stand in their
/// records, from which the newest goes on.
///
/// # Errors
///
/// Where the host had no memory for what is made; all is then as it was, but for what linking has found.
#[inline(always)]
pub(crate) fn step_by<'a, 'l, E: Execution, S: Store>(
    classes: &Classes<'a>,
    linked: &mut Linked<'a>,
    methods: &Methods<'a>,
    texts: &Texts<'a>,
    verified: &[bool],
    frames: &mut Frames,
    control: &mut Control,
    held: &mut Held,
    store: &mut S,
    at: &mut Registers<'l>,
    site: Site,
    insn: Insn<&[u8]>,
    next: u32,
) -> Result<bool, OutOfMemory>
    requires can { CanStepIn classes.now.world verified.now texts.now.names at.old
        (kept frames.old control.old held.old (S.content store.old)) }
    requires linked { IsLinked classes.now.world linked.old }
    requires methods { AreMethods classes.now.world methods.now }
    requires texts { AreTexts classes.now.world texts.now }
    requires cells { held.old.cells ≤ S.room_left store.old }
    requires few { held.old.cells < 2147483648 }
    requires stands { StandsNext classes.now.world verified.now texts.now.names at.old
        (kept frames.old control.old held.old (S.content store.old)) site (instruction_of insn) next }
    requires rules { KeepsCodeRules (instruction_of insn) }
    ensures stepped { IfOk result (SteppedIn classes.now.world verified.now texts.now.names at.old
        (kept frames.old control.old held.old (S.content store.old)) at.new
        (kept frames.new control.new held.new (S.content store.new))) }
    ensures same { at.new ≡ record at.old { pc = at.new.pc; top = at.new.top } }
    ensures fewer { held.new.cells ≤ held.old.cells }
    ensures room { OnOk result (S.room_left store.old + held.new.cells ≡ S.room_left store.new + held.old.cells) }
    ensures linked { IsLinked classes.now.world linked.new }
    ensures refused_at { OnErr result (at.new ≡ at.old) }
    ensures refused_frames { OnErr result (AreAsBefore frames.old frames.new) }
    ensures refused_control { OnErr result (control.new ≡ control.old) }
    ensures refused { OnErr result (held.new ≡ held.old) }
    ensures refused_content { OnErr result (S.content store.new ≡ S.content store.old) }
    ensures refused_room { OnErr result (S.room_left store.new ≡ S.room_left store.old) }
    ensures sure { IsTrue S.SURE → IsOk result }
{
    execution_keeps();
    match E::execute(
        classes,
        linked,
        methods,
        texts,
        site,
        &control.states,
        store,
        held,
        &mut frames.words,
        at,
        next,
        insn,
    ) {
        Ok(Effect::Goes) => Ok(true),
        Ok(effect) => {
            let program = Program {
                classes,
                methods,
                texts,
                verified,
            };
            act(&program, linked, frames, control, held, store, *at, effect)
        }
        Err(refused) => Err(refused),
    }
}

/// The same, where the bytes of the instruction are known to stand there: so many. Whether the method goes on is written to `goes_on`: what
/// a function answers beside a fault is kept with it as a pair where many calls meet, and then tested there behind each of them.
#[inline(always)]
pub(crate) fn step_known<'a, 'l, E: Execution, S: Store>(
    classes: &Classes<'a>,
    linked: &mut Linked<'a>,
    methods: &Methods<'a>,
    texts: &Texts<'a>,
    verified: &[bool],
    frames: &mut Frames,
    control: &mut Control,
    held: &mut Held,
    store: &mut S,
    at: &mut Registers<'l>,
    insn: Insn<&[u8]>,
    size: u32,
    goes_on: &mut bool,
) -> Result<(), OutOfMemory>
    requires can { CanStepIn classes.now.world verified.now texts.now.names at.old
        (kept frames.old control.old held.old (S.content store.old)) }
    requires linked { IsLinked classes.now.world linked.old }
    requires methods { AreMethods classes.now.world methods.now }
    requires texts { AreTexts classes.now.world texts.now }
    requires cells { held.old.cells ≤ S.room_left store.old }
    requires few { held.old.cells < 2147483648 }
    requires bytes { HasBytes at.old.code.now at.old.pc (insn_bytes (instruction_of insn)) }
    requires fits { IsTrue (insn_fits at.old.pc (instruction_of insn)) }
    requires size { size ≡ length (insn_bytes (instruction_of insn)) }
    ensures stepped { OnOk result (SteppedIn classes.now.world verified.now texts.now.names at.old
        (kept frames.old control.old held.old (S.content store.old)) at.new
        (kept frames.new control.new held.new (S.content store.new)) goes_on.new) }
    ensures fewer { held.new.cells ≤ held.old.cells }
    ensures room { OnOk result (S.room_left store.old + held.new.cells ≡ S.room_left store.new + held.old.cells) }
    ensures linked { IsLinked classes.now.world linked.new }
    ensures refused_at { OnErr result (at.new ≡ at.old) }
    ensures refused_frames { OnErr result (AreAsBefore frames.old frames.new) }
    ensures refused_control { OnErr result (control.new ≡ control.old) }
    ensures refused { OnErr result (held.new ≡ held.old) }
    ensures refused_content { OnErr result (S.content store.new ≡ S.content store.old) }
    ensures refused_room { OnErr result (S.room_left store.new ≡ S.room_left store.old) }
    ensures sure { IsTrue S.SURE → IsOk result }
{
    let site = site_of(methods, at.method, at.pc);
    let next = at.pc + size;
    match step_by::<E, S>(
        classes, linked, methods, texts, verified, frames, control, held, store, at, site, insn,
        next,
    ) {
        Ok(goes) => {
            *goes_on = goes;
            Ok(())
        }
        Err(refused) => Err(refused),
    }
}
