//! Steps at instructions that, but for a fault or a class that isn't ready, only go on to the next one.

ghost use Rattle.std.specs.Prelude.{◌≡◌, ◌+◌, ◌<◌, ◌≤◌, IsTrue, true, false, get_or, length};
ghost use Rattle.jv_code.specs.Insns.{instruction_of, insn_bytes, insn_fits};
ghost use Rattle.jv_code.specs.Operands.{HasBytes};
ghost use Rattle.jv_link_cache.specs.Linked.{IsLinked};
ghost use Rattle.jv_interp_members.specs.Methods.{AreMethods};
ghost use Rattle.jv_interp_objects.specs.Texts.{AreTexts};
ghost use Rattle.jv_interp_instructions.specs.InGuest.{KeepsCodeRules};
ghost use Rattle.jv_interp_control.specs.Standing.{kept};
ghost use Rattle.jv_interp_control.specs.Acting.{AreAsBefore};
ghost use Rattle.jv_interp_steps.specs.Inside.Decoding.{StandsNext};
ghost use Rattle.jv_interp_steps.specs.Inside.Going.{is_going};
ghost use Rattle.jv_interp_steps.specs.Stepping.{CanStepIn, SteppedIn};

use crate::decoding::{index_behind, index_in_byte, opcode_at, site_of};
use crate::opcodes::{element_loaded, element_stored};
use jv_code::{DivisionOperator, FieldAccess, IndexForm, Insn, NumberKind};
use jv_interp_control::{Control, Frames};
use jv_interp_held::{Effect, Held};
use jv_interp_instructions::{
    Arrays, ConstantLoads, Divisions, Execution, FieldGets, FieldPuts, Objects,
};
use jv_interp_members::Methods;
use jv_interp_objects::Texts;
use jv_interp_words::{Registers, opcodes};
use jv_link::Site;
use jv_link_cache::Linked;
use jv_loader::Classes;
use jv_meaning_machine::execution_keeps;
use jv_store::Store;

/// Whether an effect asks for nothing but to go on.
#[inline(always)]
fn is_going(effect: Effect) -> bool
    ensures { result ≡ is_going effect }
{
    matches!(effect, Effect::Goes)
}

/// Executes the instruction at which the method in the registers stands (JVMS 2.11), behind which the next one stands at `next`. Answers
/// whether it asks for nothing but to go on there; else all is as it was, but for what linking has found.
#[inline(always)]
fn goes_by<'a, 'l, E: Execution, S: Store>(
    classes: &Classes<'a>,
    linked: &mut Linked<'a>,
    methods: &Methods<'a>,
    texts: &Texts<'a>,
    verified: &[bool],
    frames: &mut Frames,
    control: &Control,
    held: &mut Held,
    store: &mut S,
    at: &mut Registers<'l>,
    site: Site,
    insn: Insn<&[u8]>,
    next: u32,
) -> bool
    requires can { CanStepIn classes.now.world verified.now texts.now.names at.old
        (kept frames.old control.now held.old (S.content store.old)) }
    requires linked { IsLinked classes.now.world linked.old }
    requires methods { AreMethods classes.now.world methods.now }
    requires texts { AreTexts classes.now.world texts.now }
    requires cells { held.old.cells ≤ S.room_left store.old }
    requires few { held.old.cells < 2147483648 }
    requires stands { StandsNext classes.now.world verified.now texts.now.names at.old
        (kept frames.old control.now held.old (S.content store.old)) site (instruction_of insn) next }
    requires rules { KeepsCodeRules (instruction_of insn) }
    ensures stepped { IsTrue result → SteppedIn classes.now.world verified.now texts.now.names at.old
        (kept frames.old control.now held.old (S.content store.old)) at.new
        (kept frames.new control.now held.new (S.content store.new)) true }
    ensures fewer { held.new.cells ≤ held.old.cells }
    ensures room { S.room_left store.old + held.new.cells ≡ S.room_left store.new + held.old.cells }
    ensures linked { IsLinked classes.now.world linked.new }
    ensures same_at { result ≡ false → at.new ≡ at.old }
    ensures same_frames { result ≡ false → AreAsBefore frames.old frames.new }
    ensures same_held { result ≡ false → held.new ≡ held.old }
    ensures same_content { result ≡ false → S.content store.new ≡ S.content store.old }
{
    // Only the clauses speak of it.
    let _verified = verified;
    execution_keeps();
    match E::execute(
        classes,
        linked,
        methods,
        texts,
        site,
        &control.states,
        store,
        held,
        &mut frames.words,
        at,
        next,
        insn,
    ) {
        Ok(effect) => is_going(effect),
        Err(_refused) => false,
    }
}

/// The same, where the bytes of the instruction are known to stand there: so many.
#[inline(always)]
fn goes_known<'a, 'l, E: Execution, S: Store>(
    classes: &Classes<'a>,
    linked: &mut Linked<'a>,
    methods: &Methods<'a>,
    texts: &Texts<'a>,
    verified: &[bool],
    frames: &mut Frames,
    control: &Control,
    held: &mut Held,
    store: &mut S,
    at: &mut Registers<'l>,
    insn: Insn<&[u8]>,
    size: u32,
) -> bool
    requires can { CanStepIn classes.now.world verified.now texts.now.names at.old
        (kept frames.old control.now held.old (S.content store.old)) }
    requires linked { IsLinked classes.now.world linked.old }
    requires methods { AreMethods classes.now.world methods.now }
    requires texts { AreTexts classes.now.world texts.now }
    requires cells { held.old.cells ≤ S.room_left store.old }
    requires few { held.old.cells < 2147483648 }
    requires bytes { HasBytes at.old.code.now at.old.pc (insn_bytes (instruction_of insn)) }
    requires fits { IsTrue (insn_fits at.old.pc (instruction_of insn)) }
    requires size { size ≡ length (insn_bytes (instruction_of insn)) }
    ensures stepped { IsTrue result → SteppedIn classes.now.world verified.now texts.now.names at.old
        (kept frames.old control.now held.old (S.content store.old)) at.new
        (kept frames.new control.now held.new (S.content store.new)) true }
    ensures fewer { held.new.cells ≤ held.old.cells }
    ensures room { S.room_left store.old + held.new.cells ≡ S.room_left store.new + held.old.cells }
    ensures linked { IsLinked classes.now.world linked.new }
    ensures same_at { result ≡ false → at.new ≡ at.old }
    ensures same_frames { result ≡ false → AreAsBefore frames.old frames.new }
    ensures same_held { result ≡ false → held.new ≡ held.old }
    ensures same_content { result ≡ false → S.content store.new ≡ S.content store.old }
{
    let site = site_of(methods, at.method, at.pc);
    let next = at.pc + size;
    goes_by::<E, S>(
        classes, linked, methods, texts, verified, frames, control, held, store, at, site, insn,
        next,
    )
}

/// The same, where the opcode was read, one more than it, and is that of an array's element or length, of a division, of a constant, of a
/// field, or of an object's class; at others nothing is done.
#[inline(always)]
pub(crate) fn step_going<'a, 'l, S: Store>(
    classes: &Classes<'a>,
    linked: &mut Linked<'a>,
    methods: &Methods<'a>,
    texts: &Texts<'a>,
    verified: &[bool],
    frames: &mut Frames,
    control: &Control,
    held: &mut Held,
    store: &mut S,
    at: &mut Registers<'l>,
    read: u16,
) -> bool
    requires read { read ≡ get_or at.old.code.now at.old.pc 0 + 1 }
    requires can { CanStepIn classes.now.world verified.now texts.now.names at.old
        (kept frames.old control.now held.old (S.content store.old)) }
    requires linked { IsLinked classes.now.world linked.old }
    requires methods { AreMethods classes.now.world methods.now }
    requires texts { AreTexts classes.now.world texts.now }
    requires cells { held.old.cells ≤ S.room_left store.old }
    requires few { held.old.cells < 2147483648 }
    ensures stepped { IsTrue result → SteppedIn classes.now.world verified.now texts.now.names at.old
        (kept frames.old control.now held.old (S.content store.old)) at.new
        (kept frames.new control.now held.new (S.content store.new)) true }
    ensures fewer { held.new.cells ≤ held.old.cells }
    ensures room { S.room_left store.old + held.new.cells ≡ S.room_left store.new + held.old.cells }
    ensures linked { IsLinked classes.now.world linked.new }
    ensures same_at { result ≡ false → at.new ≡ at.old }
    ensures same_frames { result ≡ false → AreAsBefore frames.old frames.new }
    ensures same_held { result ≡ false → held.new ≡ held.old }
    ensures same_content { result ≡ false → S.content store.new ≡ S.content store.old }
{
    let opcode = opcode_at(at.code, at.pc as usize, read);
    if let Some(kind) = element_loaded(opcode) {
        return goes_known::<Arrays, S>(
            classes,
            linked,
            methods,
            texts,
            verified,
            frames,
            control,
            held,
            store,
            at,
            Insn::ArrayLoad(kind),
            1,
        );
    }
    if let Some(kind) = element_stored(opcode) {
        return goes_known::<Arrays, S>(
            classes,
            linked,
            methods,
            texts,
            verified,
            frames,
            control,
            held,
            store,
            at,
            Insn::ArrayStore(kind),
            1,
        );
    }
    match opcode {
        opcodes::AALOAD => goes_known::<Arrays, S>(
            classes,
            linked,
            methods,
            texts,
            verified,
            frames,
            control,
            held,
            store,
            at,
            Insn::ReferenceArrayLoad,
            1,
        ),
        opcodes::AASTORE => goes_known::<Objects, S>(
            classes,
            linked,
            methods,
            texts,
            verified,
            frames,
            control,
            held,
            store,
            at,
            Insn::ReferenceArrayStore,
            1,
        ),
        opcodes::IDIV => goes_known::<Divisions, S>(
            classes,
            linked,
            methods,
            texts,
            verified,
            frames,
            control,
            held,
            store,
            at,
            Insn::Division(NumberKind::Int, DivisionOperator::Divide),
            1,
        ),
        opcodes::LDIV => goes_known::<Divisions, S>(
            classes,
            linked,
            methods,
            texts,
            verified,
            frames,
            control,
            held,
            store,
            at,
            Insn::Division(NumberKind::Long, DivisionOperator::Divide),
            1,
        ),
        opcodes::IREM => goes_known::<Divisions, S>(
            classes,
            linked,
            methods,
            texts,
            verified,
            frames,
            control,
            held,
            store,
            at,
            Insn::Division(NumberKind::Int, DivisionOperator::Remainder),
            1,
        ),
        opcodes::LREM => goes_known::<Divisions, S>(
            classes,
            linked,
            methods,
            texts,
            verified,
            frames,
            control,
            held,
            store,
            at,
            Insn::Division(NumberKind::Long, DivisionOperator::Remainder),
            1,
        ),
        opcodes::ARRAYLENGTH => goes_known::<Arrays, S>(
            classes,
            linked,
            methods,
            texts,
            verified,
            frames,
            control,
            held,
            store,
            at,
            Insn::ArrayLength,
            1,
        ),
        opcodes::LDC => {
            let index = index_in_byte(at.code, at.pc as usize);
            goes_known::<ConstantLoads, S>(
                classes,
                linked,
                methods,
                texts,
                verified,
                frames,
                control,
                held,
                store,
                at,
                Insn::PoolConstant(index, IndexForm::Byte),
                2,
            )
        }
        opcodes::LDC_W => {
            let index = index_behind(at.code, at.pc as usize);
            goes_known::<ConstantLoads, S>(
                classes,
                linked,
                methods,
                texts,
                verified,
                frames,
                control,
                held,
                store,
                at,
                Insn::PoolConstant(index, IndexForm::Half),
                3,
            )
        }
        opcodes::LDC2_W => {
            let index = index_behind(at.code, at.pc as usize);
            goes_known::<ConstantLoads, S>(
                classes,
                linked,
                methods,
                texts,
                verified,
                frames,
                control,
                held,
                store,
                at,
                Insn::PoolLongConstant(index),
                3,
            )
        }
        opcodes::GETSTATIC => {
            let index = index_behind(at.code, at.pc as usize);
            goes_known::<FieldGets, S>(
                classes,
                linked,
                methods,
                texts,
                verified,
                frames,
                control,
                held,
                store,
                at,
                Insn::Field(FieldAccess::GetStatic, index),
                3,
            )
        }
        opcodes::PUTSTATIC => {
            let index = index_behind(at.code, at.pc as usize);
            goes_known::<FieldPuts, S>(
                classes,
                linked,
                methods,
                texts,
                verified,
                frames,
                control,
                held,
                store,
                at,
                Insn::Field(FieldAccess::PutStatic, index),
                3,
            )
        }
        opcodes::GETFIELD => {
            let index = index_behind(at.code, at.pc as usize);
            goes_known::<FieldGets, S>(
                classes,
                linked,
                methods,
                texts,
                verified,
                frames,
                control,
                held,
                store,
                at,
                Insn::Field(FieldAccess::GetField, index),
                3,
            )
        }
        opcodes::PUTFIELD => {
            let index = index_behind(at.code, at.pc as usize);
            goes_known::<FieldPuts, S>(
                classes,
                linked,
                methods,
                texts,
                verified,
                frames,
                control,
                held,
                store,
                at,
                Insn::Field(FieldAccess::PutField, index),
                3,
            )
        }
        opcodes::CHECKCAST => {
            let index = index_behind(at.code, at.pc as usize);
            goes_known::<Objects, S>(
                classes,
                linked,
                methods,
                texts,
                verified,
                frames,
                control,
                held,
                store,
                at,
                Insn::CheckCast(index),
                3,
            )
        }
        opcodes::INSTANCEOF => {
            let index = index_behind(at.code, at.pc as usize);
            goes_known::<Objects, S>(
                classes,
                linked,
                methods,
                texts,
                verified,
                frames,
                control,
                held,
                store,
                at,
                Insn::InstanceOf(index),
                3,
            )
        }
        _ => false,
    }
}
