//! All instructions.

ghost use Rattle.std.specs.Prelude.{◌≡◌, ◌+◌, ◌≤◌, true, IfOk, IsOk, IsTrue, OnOk, OnErr};
ghost use Rattle.jv_code.specs.Insns.{instruction_of};
ghost use Rattle.jv_link_cache.specs.Linked.{IsLinked};
ghost use Rattle.jv_interp_members.specs.Known.{known};
ghost use Rattle.jv_interp_words.specs.Going.{CanWork, StaysIn};
ghost use Rattle.jv_interp_heap.specs.ObjectsInBlocks.{Blocks};
ghost use Rattle.jv_interp_members.specs.Methods.{AreMethods};
ghost use Rattle.jv_interp_objects.specs.Texts.{AreTexts};
ghost use Rattle.jv_interp_held.specs.Executing.{IsUnmoved, place};
ghost use Rattle.jv_interp_held.specs.declared.held.Held.{Held};
ghost use Rattle.jv_interp_instructions.specs.OnWords.{works_on_words, DoneOnWords, KeysRise};
ghost use Rattle.jv_interp_instructions.specs.InGuest.{CanExecuteAt, ExecutedAt, KeepsCodeRules};

use crate::array_loads::{execute_array_length, execute_array_load, execute_reference_array_load};
use crate::array_stores::execute_array_store;
use crate::calls::{execute_interface_invocation, execute_invocation};
use crate::fields::execute_field;
use crate::long_constants::execute_pool_long_constant;
use crate::new_arrays::execute_new_array;
use crate::on_words::execute_on_words;
use crate::pool_constants::execute_pool_constant;
use jv_code::Insn;
use jv_interp_held::{ClassState, Effect, Held};
use jv_interp_members::{Current, Methods};
use jv_interp_objects::{
    Texts, aastore, anewarray, athrow, checkcast, create, instanceof, multianewarray,
};
use jv_interp_words::Registers;
use jv_link::Site;
use jv_link_cache::Linked;
use jv_loader::Classes;
use jv_meaning_machine::execution_keeps;
use jv_store::{OutOfMemory, Store};

/// An instruction that works on words alone, or a return.
#[inline(always)]
fn execute_in_words<'l>(
    words: &mut [u32],
    at: &mut Registers<'l>,
    next: u32,
    insn: Insn<&[u8]>,
) -> Effect
    requires works { works_on_words (instruction_of insn) ≡ true }
    requires can { CanWork (instruction_of insn) next at.old words.old }
    requires keys { KeysRise (instruction_of insn) }
    ensures done { DoneOnWords (instruction_of insn.entry) next at.old words.old at.new words.new result }
    ensures stays { StaysIn at.old at.new words.new }
    ensures unmoved { (held : Held) (blocks : Blocks) → IsUnmoved result (place at.old words.old held blocks)
        (place at.new words.new held blocks) }
{
    match execute_on_words(words, at, next, insn) {
        Some(effect) => effect,
        None => unreachable!(),
    }
}

/// Executes an instruction (JVMS 6.5) of the method at a site, behind which the next one stands at `next`, and answers its effect.
///
/// # Errors
///
/// Where the host had no memory for what it makes; all is then as it was, but for what linking has found.
#[inline(never)]
pub fn execute<'a, 'l, S: Store>(
    classes: &Classes<'a>,
    linked: &mut Linked<'a>,
    methods: &Methods<'a>,
    texts: &Texts<'a>,
    site: Site,
    states: &[ClassState],
    store: &mut S,
    held: &mut Held,
    words: &mut [u32],
    at: &mut Registers<'l>,
    next: u32,
    insn: Insn<&[u8]>,
) -> Result<Effect, OutOfMemory>
    requires methods { AreMethods classes.now.world methods.now }
    requires texts { AreTexts classes.now.world texts.now }
    requires can { CanExecuteAt states.now (instruction_of insn) next (known classes.now.world linked.old site) texts.now.names
        at.old words.old held.old (S.content store.old) }
    requires rules { KeepsCodeRules (instruction_of insn) }
    requires cells { held.old.cells ≤ S.room_left store.old }
    ensures done { IfOk result (ExecutedAt states.now (instruction_of insn.entry) next (known classes.now.world linked.old site)
        texts.now.names (place at.old words.old held.old (S.content store.old))
        (place at.new words.new held.new (S.content store.new))) }
    ensures stays { StaysIn at.old at.new words.new }
    ensures room { OnOk result (S.room_left store.old + held.new.cells ≡ S.room_left store.new + held.old.cells) }
    ensures linked { IsLinked classes.now.world linked.new }
    ensures refused_at { OnErr result (at.new ≡ at.old) }
    ensures refused_words { OnErr result (words.new ≡ words.old) }
    ensures refused_held { OnErr result (held.new ≡ held.old) }
    ensures refused { OnErr result (S.content store.new ≡ S.content store.old) }
    ensures refused_room { OnErr result (S.room_left store.new ≡ S.room_left store.old) }
    ensures sure { IsTrue S.SURE → IsOk result }
    ensures unmoved { IfOk result (λ effect. IsUnmoved effect (place at.old words.old held.old (S.content store.old))
        (place at.new words.new held.new (S.content store.new))) }
{
    execution_keeps();
    let current = Current {
        classes,
        methods,
        states,
        site,
        next,
    };
    match insn {
        Insn::PoolConstant(index, _form) => execute_pool_constant(
            current, texts, store, held, words, at, index,
        ),
        Insn::PoolLongConstant(index) => Ok(execute_pool_long_constant(
            current, store, held, words, at, index,
        )),
        Insn::ArrayLoad(kind) => Ok(execute_array_load(store, held, words, at, next, kind)),
        Insn::ReferenceArrayLoad => {
            Ok(execute_reference_array_load(store, held, words, at, next))
        }
        Insn::ArrayStore(kind) => Ok(execute_array_store(store, held, words, at, next, kind)),
        Insn::ReferenceArrayStore => Ok(aastore(classes, store, held, words, at, next)),
        Insn::Field(access, index) => Ok(execute_field(
            current, linked, store, held, words, at, access, index,
        )),
        Insn::Invoke(how, index) => execute_invocation(
            current, linked, store, held, words, at, how, index,
        ),
        Insn::InvokeInterface(index, _count) => Ok(execute_interface_invocation(
            current, linked, store, held, words, at, index,
        )),
        Insn::New(index) => create(current, linked, store, held, words, at, index),
        Insn::NewArray(element) => { execute_new_array(store, held, words, at, next, element) }
        Insn::NewReferenceArray(index) => anewarray(current, linked, store, held, words, at, index),
        Insn::NewMultiArray(index, dimensions) => multianewarray(
            current, linked, store, held, words, at, index, dimensions,
        ),
        Insn::ArrayLength => Ok(execute_array_length(store, held, words, at, next)),
        Insn::Throw => Ok(athrow(words, at)),
        Insn::CheckCast(index) => Ok(checkcast(current, linked, store, held, words, at, index)),
        Insn::InstanceOf(index) => Ok(instanceof(current, linked, store, held, words, at, index)),
        _ => Ok(execute_in_words(words, at, next, insn)),
    }
}
