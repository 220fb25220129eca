//! Local variables (JVMS 6.5).

ghost use Rattle.std.specs.Prelude.{◌≡◌};
ghost use Rattle.jv_meaning_typing.specs.ValueRules.{value_kind};
ghost use Rattle.jv_code.specs.declared.insn.Insn.TheVariants.{Load as LoadInsn, Store as StoreInsn, StoreLong as StoreLongInsn, Increment as IncrementInsn};
ghost use Rattle.jv_interp_words.specs.Going.{CanWork, GoesOn, StaysIn};

use crate::registers::Registers;
use jv_code::{IncrementForm, LocalForm, ValueKind, WordKind};

/// The kind of a value of one word.
#[inline(always)]
pub(crate) fn value_kind(kind: WordKind) -> ValueKind
    ensures { result ≡ value_kind kind }
{
    match kind {
        WordKind::Int => ValueKind::Int,
        WordKind::Reference => ValueKind::Reference,
    }
}

/// `iload`, `lload`, `aload`.
#[inline(always)]
pub fn load<'l>(
    words: &mut [u32],
    at: &mut Registers<'l>,
    next: u32,
    kind: ValueKind,
    index: u16,
    form: LocalForm,
)
    requires { CanWork (LoadInsn kind index form) next at.old words.old }
    ensures went { GoesOn (LoadInsn kind index form) next at.old words.old at.new words.new }
    ensures stays { StaysIn at.old at.new words.new }
{
    // Only the clauses speak of it.
    let _form = form;
    at.top = crate::locals::load(words, at.top, kind, at.base, index);
    at.pc = next;
}

/// `istore`, `astore`.
#[inline(always)]
pub fn store<'l>(
    words: &mut [u32],
    at: &mut Registers<'l>,
    next: u32,
    kind: WordKind,
    index: u16,
    form: LocalForm,
)
    requires { CanWork (StoreInsn kind index form) next at.old words.old }
    ensures went { GoesOn (StoreInsn kind index form) next at.old words.old at.new words.new }
    ensures stays { StaysIn at.old at.new words.new }
{
    // Only the clauses speak of it.
    let _form = form;
    let kind_of_value = value_kind(kind);
    at.top = crate::locals::store(words, at.top, kind_of_value, at.base, index);
    at.pc = next;
}

/// `lstore`.
#[inline(always)]
pub fn store_long<'l>(
    words: &mut [u32],
    at: &mut Registers<'l>,
    next: u32,
    index: u16,
    form: LocalForm,
)
    requires { CanWork (StoreLongInsn index form) next at.old words.old }
    ensures went { GoesOn (StoreLongInsn index form) next at.old words.old at.new words.new }
    ensures stays { StaysIn at.old at.new words.new }
{
    // Only the clauses speak of it.
    let _form = form;
    at.top = crate::locals::store(words, at.top, ValueKind::Long, at.base, index);
    at.pc = next;
}

/// `iinc`.
#[inline(always)]
pub fn increment<'l>(
    words: &mut [u32],
    at: &mut Registers<'l>,
    next: u32,
    index: u16,
    by: i32,
    form: IncrementForm,
)
    requires { CanWork (IncrementInsn index by form) next at.old words.old }
    ensures went { GoesOn (IncrementInsn index by form) next at.old words.old at.new words.new }
    ensures stays { StaysIn at.old at.new words.new }
{
    // Only the clauses speak of it.
    let _form = form;
    crate::locals::increment(words, at.top, by, at.base, index);
    at.pc = next;
}
