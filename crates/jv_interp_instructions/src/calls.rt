//! Calls of methods.

ghost use Rattle.std.specs.Prelude.{◌≡◌, ◌+◌, ◌≤◌, ℕ, List, IfOk, IsOk, IsTrue, OnOk, OnErr};
ghost use Rattle.jv_code.specs.declared.insn.Insn.TheVariants.{Invoke as InvokeInsn, InvokeInterface as InvokeInterfaceInsn};
ghost use Rattle.jv_code.specs.declared.kinds.Invocation.TheVariants.{Special, Static, Virtual};
ghost use Rattle.jv_link_cache.specs.Linked.{IsLinked};
ghost use Rattle.jv_interp_members.specs.Known.{known_at};
ghost use Rattle.jv_interp_words.specs.Going.{StaysIn};
ghost use Rattle.jv_interp_members.specs.Methods.{AreMethods};
ghost use Rattle.jv_interp_held.specs.Executing.{IsUnmoved, place};
ghost use Rattle.jv_interp_instructions.specs.InGuest.{CanExecute, Executed, CanExecuteAt, ExecutedAt};

use jv_code::Invocation;
use jv_interp_held::{Effect, Held};
use jv_interp_members::{Current, StaticCall, call_special, call_static, call_virtual};
use jv_interp_objects::{array_like, class_name};
use jv_interp_words::Registers;
use jv_link::Use;
use jv_link_cache::Linked;
use jv_meaning_machine::execution_keeps;
use jv_store::{OutOfMemory, Store};

/// `invokevirtual`.
#[inline(always)]
pub(crate) fn execute_invokevirtual<'a, 'l, S: Store>(
    current: Current<'_, 'a>,
    linked: &mut Linked<'a>,
    store: &S,
    held: &mut Held,
    words: &mut [u32],
    at: &mut Registers<'l>,
    index: u16,
) -> Effect
    requires methods { AreMethods current.classes.now.world current.methods.now }
    requires can { (texts : List (List ℕ)) × CanExecuteAt current.states.now (InvokeInsn Virtual index) current.next
        (known_at current linked.old) texts at.old words.old held.old (S.content store.now) }
    ensures done { (texts : List (List ℕ)) → ExecutedAt current.entry.states.now (InvokeInsn Virtual index) current.entry.next
        (known_at current.entry linked.old)
        texts (place at.old words.old held.old (S.content store.now)) (place at.new words.new held.new (S.content store.now)) result }
    ensures stays { StaysIn at.old at.new words.new }
    ensures unmoved { IsUnmoved result (place at.old words.old held.old (S.content store.now))
        (place at.new words.new held.new (S.content store.now)) }
    ensures cells { held.new.cells ≡ held.old.cells }
    ensures linked { IsLinked current.entry.classes.now.world linked.new }
{
    execution_keeps();
    call_virtual(
        current,
        linked,
        store,
        held,
        words,
        at,
        Use::Invokevirtual,
        index,
    )
}

/// `invokespecial`.
#[inline(always)]
pub(crate) fn execute_invokespecial<'a, 'l, S: Store>(
    current: Current<'_, 'a>,
    linked: &mut Linked<'a>,
    store: &S,
    held: &mut Held,
    words: &mut [u32],
    at: &mut Registers<'l>,
    index: u16,
) -> Effect
    requires methods { AreMethods current.classes.now.world current.methods.now }
    requires can { (texts : List (List ℕ)) × CanExecuteAt current.states.now (InvokeInsn Special index) current.next
        (known_at current linked.old) texts at.old words.old held.old (S.content store.now) }
    ensures done { (texts : List (List ℕ)) → ExecutedAt current.entry.states.now (InvokeInsn Special index) current.entry.next
        (known_at current.entry linked.old)
        texts (place at.old words.old held.old (S.content store.now)) (place at.new words.new held.new (S.content store.now)) result }
    ensures stays { StaysIn at.old at.new words.new }
    ensures unmoved { IsUnmoved result (place at.old words.old held.old (S.content store.now))
        (place at.new words.new held.new (S.content store.now)) }
    ensures cells { held.new.cells ≡ held.old.cells }
    ensures linked { IsLinked current.entry.classes.now.world linked.new }
{
    execution_keeps();
    call_special(current, linked, store, held, words, at, index)
}

/// `invokestatic`.
///
/// # Errors
///
/// Where the host had no memory for what it makes; all is then as it was, but for what linking has found.
#[inline(always)]
pub(crate) fn execute_invokestatic<'a, 'l, S: Store>(
    current: Current<'_, 'a>,
    linked: &mut Linked<'a>,
    store: &mut S,
    held: &mut Held,
    words: &mut [u32],
    at: &mut Registers<'l>,
    index: u16,
) -> Result<Effect, OutOfMemory>
    requires methods { AreMethods current.classes.now.world current.methods.now }
    requires can { (texts : List (List ℕ)) × CanExecuteAt current.states.now (InvokeInsn Static index) current.next
        (known_at current linked.old) texts at.old words.old held.old (S.content store.old) }
    requires cells { held.old.cells ≤ S.room_left store.old }
    ensures done { IfOk result (λ effect. (texts : List (List ℕ)) → ExecutedAt current.entry.states.now (InvokeInsn Static index)
        current.entry.next (known_at current.entry linked.old) texts (place at.old words.old held.old (S.content store.old))
        (place at.new words.new held.new (S.content store.new)) effect) }
    ensures stays { StaysIn at.old at.new words.new }
    ensures unmoved { IfOk result (λ effect. IsUnmoved effect (place at.old words.old held.old (S.content store.old))
        (place at.new words.new held.new (S.content store.new))) }
    ensures room { OnOk result (S.room_left store.old + held.new.cells ≡ S.room_left store.new + held.old.cells) }
    ensures linked { IsLinked current.entry.classes.now.world linked.new }
    ensures refused_at { OnErr result (at.new ≡ at.old) }
    ensures refused_words { OnErr result (words.new ≡ words.old) }
    ensures refused_held { OnErr result (held.new ≡ held.old) }
    ensures refused { OnErr result (S.content store.new ≡ S.content store.old) }
    ensures refused_room { OnErr result (S.room_left store.new ≡ S.room_left store.old) }
    ensures sure { IsTrue S.SURE → IsOk result }
{
    execution_keeps();
    match call_static(current, linked, held, words, at, index) {
        StaticCall::Has(effect) => Ok(effect),
        StaticCall::ClassName => Ok(class_name(
            current.classes,
            store,
            held,
            words,
            at,
            current.next,
        )),
        StaticCall::ArrayLike => array_like(store, held, words, at, current.next),
    }
}

/// `invokevirtual`, `invokespecial` and `invokestatic`.
///
/// # Errors
///
/// Where the host had no memory for what it makes; all is then as it was, but for what linking has found.
pub(crate) fn execute_invocation<'a, 'l, S: Store>(
    current: Current<'_, 'a>,
    linked: &mut Linked<'a>,
    store: &mut S,
    held: &mut Held,
    words: &mut [u32],
    at: &mut Registers<'l>,
    how: Invocation,
    index: u16,
) -> Result<Effect, OutOfMemory>
    requires methods { AreMethods current.classes.now.world current.methods.now }
    requires can { (texts : List (List ℕ)) × CanExecuteAt current.states.now (InvokeInsn how index) current.next
        (known_at current linked.old) texts at.old words.old held.old (S.content store.old) }
    requires cells { held.old.cells ≤ S.room_left store.old }
    ensures done { IfOk result (λ effect. (texts : List (List ℕ)) → ExecutedAt current.entry.states.now (InvokeInsn how index)
        current.entry.next (known_at current.entry linked.old) texts (place at.old words.old held.old (S.content store.old))
        (place at.new words.new held.new (S.content store.new)) effect) }
    ensures stays { StaysIn at.old at.new words.new }
    ensures unmoved { IfOk result (λ effect. IsUnmoved effect (place at.old words.old held.old (S.content store.old))
        (place at.new words.new held.new (S.content store.new))) }
    ensures room { OnOk result (S.room_left store.old + held.new.cells ≡ S.room_left store.new + held.old.cells) }
    ensures linked { IsLinked current.entry.classes.now.world linked.new }
    ensures refused_at { OnErr result (at.new ≡ at.old) }
    ensures refused_words { OnErr result (words.new ≡ words.old) }
    ensures refused_held { OnErr result (held.new ≡ held.old) }
    ensures refused { OnErr result (S.content store.new ≡ S.content store.old) }
    ensures refused_room { OnErr result (S.room_left store.new ≡ S.room_left store.old) }
    ensures sure { IsTrue S.SURE → IsOk result }
{
    match how {
        Invocation::Virtual => Ok(execute_invokevirtual(
            current, linked, store, held, words, at, index,
        )),
        Invocation::Special => Ok(execute_invokespecial(
            current, linked, store, held, words, at, index,
        )),
        Invocation::Static => execute_invokestatic(current, linked, store, held, words, at, index),
    }
}

/// `invokeinterface`.
#[inline(always)]
pub(crate) fn execute_invokeinterface<'a, 'l, S: Store>(
    current: Current<'_, 'a>,
    linked: &mut Linked<'a>,
    store: &S,
    held: &Held,
    words: &[u32],
    at: &Registers<'l>,
    index: u16,
) -> Effect
    requires methods { AreMethods current.classes.now.world current.methods.now }
    requires can { (next : ℕ) × (count : ℕ) × (texts : List (List ℕ)) × CanExecute (InvokeInterfaceInsn index count) next
        (known_at current linked.old) texts at.now words.now held.now (S.content store.now) }
    ensures done { (next : ℕ) (count : ℕ) (texts : List (List ℕ)) → Executed (InvokeInterfaceInsn index count) next
        (known_at current.entry linked.old) texts (place at.now words.now held.now (S.content store.now))
        (place at.now words.now held.now (S.content store.now)) result }
    ensures linked { IsLinked current.entry.classes.now.world linked.new }
{
    execution_keeps();
    call_virtual(
        current,
        linked,
        store,
        held,
        words,
        at,
        Use::Invokeinterface,
        index,
    )
}

/// The same, out of line.
pub(crate) fn execute_interface_invocation<'a, 'l, S: Store>(
    current: Current<'_, 'a>,
    linked: &mut Linked<'a>,
    store: &S,
    held: &Held,
    words: &[u32],
    at: &Registers<'l>,
    index: u16,
) -> Effect
    requires methods { AreMethods current.classes.now.world current.methods.now }
    requires can { (next : ℕ) × (count : ℕ) × (texts : List (List ℕ)) × CanExecute (InvokeInterfaceInsn index count) next
        (known_at current linked.old) texts at.now words.now held.now (S.content store.now) }
    ensures done { (next : ℕ) (count : ℕ) (texts : List (List ℕ)) → Executed (InvokeInterfaceInsn index count) next
        (known_at current.entry linked.old) texts (place at.now words.now held.now (S.content store.now))
        (place at.now words.now held.now (S.content store.now)) result }
    ensures linked { IsLinked current.entry.classes.now.world linked.new }
{
    execute_invokeinterface(current, linked, store, held, words, at, index)
}
