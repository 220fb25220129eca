//! Constants of a class's pool that are pushed.

ghost use Rattle.std.specs.Prelude.{◌≡◌, ◌+◌, ◌≤◌, ◌<◌, ℕ, List, length, Some, IfOk, IfSome, IsOk, IsTrue, OnOk, OnErr};
ghost use Rattle.jv_code.specs.declared.insn.Insn.TheVariants.{PoolConstant as PoolConstantInsn};
ghost use Rattle.jv_code.specs.declared.kinds.IndexForm.{IndexForm};
ghost use Rattle.jv_interp_members.specs.Known.{Known};
ghost use Rattle.jv_interp_words.specs.Going.{StaysIn};
ghost use Rattle.jv_interp_objects.specs.Texts.{AreTexts};
ghost use Rattle.jv_interp_held.specs.Executing.{IsUnmoved, place};
ghost use Rattle.jv_interp_instructions.specs.InGuest.{CanExecute, Executed};
ghost use Rattle.jv_interp_instructions.specs.PoolConstants.{IsConstantOf, IsOfSite};
ghost use Rattle.jv_interp_instructions.specs.declared.pool_constants.PoolConstant.TheVariants.{Int};

use jv_interp_held::{Effect, Held};
use jv_interp_members::Current;
use jv_interp_objects::{Texts, push_int, push_string};
use jv_interp_words::Registers;
use jv_link::class_at;
use jv_loader::Classes;
use jv_meaning_machine::execution_keeps;
use jv_pool::Constant;
use jv_store::{OutOfMemory, Store};

/// A constant of one word that can be pushed (JVMS 6.5, ldc): an int by its bits, or the text of a string.
#[derive(Clone, Copy)]
pub enum PoolConstant<'a> {
    Int(u32),
    String(&'a [u8]),
}

/// The constant at an index of the class with a number, where it can be pushed.
#[inline(always)]
fn constant_of<'a>(classes: &Classes<'a>, class: usize, index: u16) -> Option<PoolConstant<'a>>
    requires { class < length classes.now.world }
    ensures { IsConstantOf classes.now.world class index result }
{
    let Some(file) = class_at(classes.table(), class).file() else {
        return None;
    };
    let pool = file.pool();
    if let Some(number) = pool.integer_index(index) {
        return Some(PoolConstant::Int(pool.integer(number).cast_unsigned()));
    }
    match pool.string_index(index) {
        Some(text) => Some(PoolConstant::String(pool.string(text))),
        None => None,
    }
}

/// `ldc` and `ldc_w` of a string, by themselves: so an int needs none of what it needs.
///
/// # Errors
///
/// Where the host had no memory for a string; all is then as it was.
#[inline(never)]
fn execute_other_constant<'a, 'l, S: Store>(
    current: Current<'_, 'a>,
    texts: &Texts<'a>,
    store: &mut S,
    held: &mut Held,
    words: &mut [u32],
    at: &mut Registers<'l>,
    index: u16,
) -> Result<Effect, OutOfMemory>
    requires can { (form : IndexForm) × (k : Known) × IsOfSite current.classes.now.world current.site k × AreTexts k.world texts.now
        × CanExecute (PoolConstantInsn index form) current.next k texts.now.names at.old words.old held.old (S.content store.old) }
    requires cells { held.old.cells ≤ S.room_left store.old }
    ensures done { IfOk result (λ effect. (form : IndexForm) (k : Known)
        → IsOfSite current.entry.classes.now.world current.entry.site k → AreTexts k.world texts.now
        → Executed (PoolConstantInsn index form) current.entry.next k texts.now.names
        (place at.old words.old held.old (S.content store.old)) (place at.new words.new held.new (S.content store.new)) effect) }
    ensures stays { StaysIn at.old at.new words.new }
    ensures unmoved { IfOk result (λ effect. IsUnmoved effect (place at.old words.old held.old (S.content store.old))
        (place at.new words.new held.new (S.content store.new))) }
    ensures room { OnOk result (S.room_left store.old + held.new.cells ≡ S.room_left store.new + held.old.cells) }
    ensures refused_at { OnErr result (at.new ≡ at.old) }
    ensures refused_words { OnErr result (words.new ≡ words.old) }
    ensures refused_held { OnErr result (held.new ≡ held.old) }
    ensures refused { OnErr result (S.content store.new ≡ S.content store.old) }
    ensures refused_room { OnErr result (S.room_left store.new ≡ S.room_left store.old) }
    ensures sure { IsTrue S.SURE → IsOk result }
{
    execution_keeps();
    match constant_of(current.classes, current.site.class, index) {
        Some(PoolConstant::Int(bits)) => Ok(push_int(words, at, current.next, bits)),
        Some(PoolConstant::String(text)) => {
            let number = texts.number(current.site.class, index);
            let count = texts.count(number);
            push_string(
                store,
                held,
                words,
                at,
                current.next,
                number as usize,
                text,
                count,
            )
        }
        None => unreachable!(),
    }
}

/// The same, with registers of its own, so that those of the loop need no place in memory.
#[inline(always)]
fn execute_apart<'a, 'l, S: Store>(
    current: Current<'_, 'a>,
    texts: &Texts<'a>,
    store: &mut S,
    held: &mut Held,
    words: &mut [u32],
    at: &mut Registers<'l>,
    index: u16,
) -> Result<Effect, OutOfMemory>
    requires can { (form : IndexForm) × (k : Known) × IsOfSite current.classes.now.world current.site k × AreTexts k.world texts.now
        × CanExecute (PoolConstantInsn index form) current.next k texts.now.names at.old words.old held.old (S.content store.old) }
    requires cells { held.old.cells ≤ S.room_left store.old }
    ensures done { IfOk result (λ effect. (form : IndexForm) (k : Known)
        → IsOfSite current.entry.classes.now.world current.entry.site k → AreTexts k.world texts.now
        → Executed (PoolConstantInsn index form) current.entry.next k texts.now.names
        (place at.old words.old held.old (S.content store.old)) (place at.new words.new held.new (S.content store.new)) effect) }
    ensures stays { StaysIn at.old at.new words.new }
    ensures unmoved { IfOk result (λ effect. IsUnmoved effect (place at.old words.old held.old (S.content store.old))
        (place at.new words.new held.new (S.content store.new))) }
    ensures room { OnOk result (S.room_left store.old + held.new.cells ≡ S.room_left store.new + held.old.cells) }
    ensures refused_at { OnErr result (at.new ≡ at.old) }
    ensures refused_words { OnErr result (words.new ≡ words.old) }
    ensures refused_held { OnErr result (held.new ≡ held.old) }
    ensures refused { OnErr result (S.content store.new ≡ S.content store.old) }
    ensures refused_room { OnErr result (S.room_left store.new ≡ S.room_left store.old) }
    ensures sure { IsTrue S.SURE → IsOk result }
{
    let mut own = *at;
    let result = execute_other_constant(current, texts, store, held, words, &mut own, index);
    at.pc = own.pc;
    at.top = own.top;
    result
}

/// The int that the constant at an index of the class with a number is, by its bits.
#[inline(always)]
fn int_of(classes: &Classes<'_>, class: usize, index: u16) -> Option<u32>
    requires { class < length classes.now.world }
    ensures { IfSome result (λ bits. IsConstantOf classes.now.world class index (Some (Int bits))) }
{
    let Some(file) = class_at(classes.table(), class).file() else {
        return None;
    };
    match file.pool().constant(index) {
        Some(Constant::Integer(bits)) => Some(bits),
        _ => None,
    }
}

/// `ldc` and `ldc_w`.
///
/// # Errors
///
/// Where the host had no memory for a string; all is then as it was.
#[inline(always)]
pub(crate) fn execute_pool_constant<'a, 'l, S: Store>(
    current: Current<'_, 'a>,
    texts: &Texts<'a>,
    store: &mut S,
    held: &mut Held,
    words: &mut [u32],
    at: &mut Registers<'l>,
    index: u16,
) -> Result<Effect, OutOfMemory>
    requires can { (form : IndexForm) × (k : Known) × IsOfSite current.classes.now.world current.site k × AreTexts k.world texts.now
        × CanExecute (PoolConstantInsn index form) current.next k texts.now.names at.old words.old held.old (S.content store.old) }
    requires cells { held.old.cells ≤ S.room_left store.old }
    ensures done { IfOk result (λ effect. (form : IndexForm) (k : Known)
        → IsOfSite current.entry.classes.now.world current.entry.site k → AreTexts k.world texts.now
        → Executed (PoolConstantInsn index form) current.entry.next k texts.now.names
        (place at.old words.old held.old (S.content store.old)) (place at.new words.new held.new (S.content store.new)) effect) }
    ensures stays { StaysIn at.old at.new words.new }
    ensures unmoved { IfOk result (λ effect. IsUnmoved effect (place at.old words.old held.old (S.content store.old))
        (place at.new words.new held.new (S.content store.new))) }
    ensures room { OnOk result (S.room_left store.old + held.new.cells ≡ S.room_left store.new + held.old.cells) }
    ensures refused_at { OnErr result (at.new ≡ at.old) }
    ensures refused_words { OnErr result (words.new ≡ words.old) }
    ensures refused_held { OnErr result (held.new ≡ held.old) }
    ensures refused { OnErr result (S.content store.new ≡ S.content store.old) }
    ensures refused_room { OnErr result (S.room_left store.new ≡ S.room_left store.old) }
    ensures sure { IsTrue S.SURE → IsOk result }
{
    execution_keeps();
    if let Some(bits) = int_of(current.classes, current.site.class, index) {
        return Ok(push_int(words, at, current.next, bits));
    }
    execute_apart(current, texts, store, held, words, at, index)
}
