//! Fields.

ghost use Rattle.std.specs.Prelude.{◌≡◌, ℕ, List};
ghost use Rattle.jv_code.specs.declared.insn.Insn.TheVariants.{Field as FieldInsn};
ghost use Rattle.jv_code.specs.declared.kinds.FieldAccess.TheVariants.{GetField, GetStatic, PutField, PutStatic};
ghost use Rattle.jv_link_cache.specs.Linked.{IsLinked};
ghost use Rattle.jv_interp_members.specs.Known.{known_at};
ghost use Rattle.jv_interp_words.specs.Going.{StaysIn};
ghost use Rattle.jv_interp_held.specs.Executing.{IsUnmoved, place};
ghost use Rattle.jv_interp_instructions.specs.InGuest.{CanExecuteAt, ExecutedAt};

use jv_code::FieldAccess;
use jv_interp_held::{Effect, Held};
use jv_interp_members::{Current, getfield, getstatic, putfield, putstatic};
use jv_interp_words::Registers;
use jv_link_cache::Linked;
use jv_meaning_machine::execution_keeps;
use jv_store::Store;

/// `getstatic`.
#[inline(always)]
pub(crate) fn execute_getstatic<'a, 'l, S: Store>(
    current: Current<'_, 'a>,
    linked: &mut Linked<'a>,
    store: &mut S,
    held: &mut Held,
    words: &mut [u32],
    at: &mut Registers<'l>,
    index: u16,
) -> Effect
    requires { (texts : List (List ℕ)) × CanExecuteAt current.states.now (FieldInsn GetStatic index) current.next
        (known_at current linked.old)
        texts at.old words.old held.old (S.content store.old) }
    ensures done { (texts : List (List ℕ)) → ExecutedAt current.entry.states.now (FieldInsn GetStatic index) current.entry.next
        (known_at current.entry linked.old) texts
        (place at.old words.old held.old (S.content store.old)) (place at.new words.new held.new (S.content store.new)) result }
    ensures stays { StaysIn at.old at.new words.new }
    ensures unmoved { IsUnmoved result (place at.old words.old held.old (S.content store.old))
        (place at.new words.new held.new (S.content store.new)) }
    ensures cells { held.new.cells ≡ held.old.cells }
    ensures room { S.room_left store.new ≡ S.room_left store.old }
    ensures linked { IsLinked current.entry.classes.now.world linked.new }
{
    execution_keeps();
    getstatic(current, linked, held, words, at, index)
}

/// `putstatic`.
#[inline(always)]
pub(crate) fn execute_putstatic<'a, 'l, S: Store>(
    current: Current<'_, 'a>,
    linked: &mut Linked<'a>,
    store: &mut S,
    held: &mut Held,
    words: &mut [u32],
    at: &mut Registers<'l>,
    index: u16,
) -> Effect
    requires { (texts : List (List ℕ)) × CanExecuteAt current.states.now (FieldInsn PutStatic index) current.next
        (known_at current linked.old)
        texts at.old words.old held.old (S.content store.old) }
    ensures done { (texts : List (List ℕ)) → ExecutedAt current.entry.states.now (FieldInsn PutStatic index) current.entry.next
        (known_at current.entry linked.old) texts
        (place at.old words.old held.old (S.content store.old)) (place at.new words.new held.new (S.content store.new)) result }
    ensures stays { StaysIn at.old at.new words.new }
    ensures unmoved { IsUnmoved result (place at.old words.old held.old (S.content store.old))
        (place at.new words.new held.new (S.content store.new)) }
    ensures cells { held.new.cells ≡ held.old.cells }
    ensures room { S.room_left store.new ≡ S.room_left store.old }
    ensures linked { IsLinked current.entry.classes.now.world linked.new }
{
    execution_keeps();
    putstatic(current, linked, held, words, at, index)
}

/// `getfield`.
#[inline(always)]
pub(crate) fn execute_getfield<'a, 'l, S: Store>(
    current: Current<'_, 'a>,
    linked: &mut Linked<'a>,
    store: &mut S,
    held: &mut Held,
    words: &mut [u32],
    at: &mut Registers<'l>,
    index: u16,
) -> Effect
    requires { (texts : List (List ℕ)) × CanExecuteAt current.states.now (FieldInsn GetField index) current.next
        (known_at current linked.old)
        texts at.old words.old held.old (S.content store.old) }
    ensures done { (texts : List (List ℕ)) → ExecutedAt current.entry.states.now (FieldInsn GetField index) current.entry.next
        (known_at current.entry linked.old) texts
        (place at.old words.old held.old (S.content store.old)) (place at.new words.new held.new (S.content store.new)) result }
    ensures stays { StaysIn at.old at.new words.new }
    ensures unmoved { IsUnmoved result (place at.old words.old held.old (S.content store.old))
        (place at.new words.new held.new (S.content store.new)) }
    ensures cells { held.new.cells ≡ held.old.cells }
    ensures room { S.room_left store.new ≡ S.room_left store.old }
    ensures linked { IsLinked current.entry.classes.now.world linked.new }
{
    execution_keeps();
    getfield(current, linked, store, held, words, at, index)
}

/// `putfield`.
#[inline(always)]
pub(crate) fn execute_putfield<'a, 'l, S: Store>(
    current: Current<'_, 'a>,
    linked: &mut Linked<'a>,
    store: &mut S,
    held: &mut Held,
    words: &mut [u32],
    at: &mut Registers<'l>,
    index: u16,
) -> Effect
    requires { (texts : List (List ℕ)) × CanExecuteAt current.states.now (FieldInsn PutField index) current.next
        (known_at current linked.old)
        texts at.old words.old held.old (S.content store.old) }
    ensures done { (texts : List (List ℕ)) → ExecutedAt current.entry.states.now (FieldInsn PutField index) current.entry.next
        (known_at current.entry linked.old) texts
        (place at.old words.old held.old (S.content store.old)) (place at.new words.new held.new (S.content store.new)) result }
    ensures stays { StaysIn at.old at.new words.new }
    ensures unmoved { IsUnmoved result (place at.old words.old held.old (S.content store.old))
        (place at.new words.new held.new (S.content store.new)) }
    ensures cells { held.new.cells ≡ held.old.cells }
    ensures room { S.room_left store.new ≡ S.room_left store.old }
    ensures linked { IsLinked current.entry.classes.now.world linked.new }
{
    execution_keeps();
    putfield(current, linked, store, held, words, at, index)
}

/// `getstatic`, `putstatic`, `getfield` and `putfield`.
pub(crate) fn execute_field<'a, 'l, S: Store>(
    current: Current<'_, 'a>,
    linked: &mut Linked<'a>,
    store: &mut S,
    held: &mut Held,
    words: &mut [u32],
    at: &mut Registers<'l>,
    access: FieldAccess,
    index: u16,
) -> Effect
    requires { (texts : List (List ℕ)) × CanExecuteAt current.states.now (FieldInsn access index) current.next (known_at current linked.old)
        texts at.old words.old held.old (S.content store.old) }
    ensures done { (texts : List (List ℕ)) → ExecutedAt current.entry.states.now (FieldInsn access index) current.entry.next
        (known_at current.entry linked.old) texts
        (place at.old words.old held.old (S.content store.old)) (place at.new words.new held.new (S.content store.new)) result }
    ensures stays { StaysIn at.old at.new words.new }
    ensures unmoved { IsUnmoved result (place at.old words.old held.old (S.content store.old))
        (place at.new words.new held.new (S.content store.new)) }
    ensures cells { held.new.cells ≡ held.old.cells }
    ensures room { S.room_left store.new ≡ S.room_left store.old }
    ensures linked { IsLinked current.entry.classes.now.world linked.new }
{
    match access {
        FieldAccess::GetStatic => execute_getstatic(current, linked, store, held, words, at, index),
        FieldAccess::PutStatic => execute_putstatic(current, linked, store, held, words, at, index),
        FieldAccess::GetField => execute_getfield(current, linked, store, held, words, at, index),
        FieldAccess::PutField => execute_putfield(current, linked, store, held, words, at, index),
    }
}
