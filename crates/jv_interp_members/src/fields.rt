//! Fields.

ghost use Rattle.std.specs.Prelude.{◌≡◌, List, ℕ, if◌then◌else◌};
ghost use Rattle.jv_text.specs.declared.descriptor.FieldTypeOf.{FieldTypeOf};
ghost use Rattle.jv_stackmap.specs.Types.{value_type, width};
ghost use Rattle.jv_code.specs.declared.kinds.FieldAccess.TheVariants.{GetStatic, PutStatic, GetField, PutField};
ghost use Rattle.jv_link_cache.specs.FieldUses.{kind_of};
ghost use Rattle.jv_link_cache.specs.Linked.{IsLinked};
ghost use Rattle.jv_interp_words.specs.Going.{StaysIn};
ghost use Rattle.jv_interp_heap.specs.Narrowing.{narrowing_of};
ghost use Rattle.jv_interp_heap.specs.ObjectsInBlocks.{Blocks};
ghost use Rattle.jv_interp_held.specs.Executing.{IsUnmoved, place};
ghost use Rattle.jv_interp_members.specs.Known.{known_at};
ghost use Rattle.jv_interp_members.specs.Using.{CanUseField, UsesField, PutsInField, CanUseStatic, UsesStatic};

use crate::current::Current;
use crate::instance_fields::{get_field, get_long_field, put_field, put_long_field};
use crate::linking::{is_ready, used};
use crate::statics::{get_long_static, get_static, put_long_static, put_static};
use jv_interp_heap::Narrowing;
use jv_interp_held::{Effect, Held};
use jv_interp_words::Registers;
use jv_link::Use;
use jv_link_cache::{FieldKind, Linked};
use jv_meaning_typing::field_is_used;
use jv_store::Store;

/// Whether a field of a kind has two words.
#[inline(always)]
fn is_long(kind: FieldKind) -> bool
    ensures { (type : FieldTypeOf (List ℕ)) → kind ≡ kind_of type → width (value_type type) ≡ (if result then 2 else 1) }
{
    match kind {
        FieldKind::Long => true,
        _ => false,
    }
}

/// What a store into a field of a kind keeps.
#[inline(always)]
fn narrowing_by(kind: FieldKind) -> Narrowing
    ensures { (type : FieldTypeOf (List ℕ)) → kind ≡ kind_of type → narrowing_of type ≡ result }
{
    match kind {
        FieldKind::Boolean => Narrowing::Boolean,
        FieldKind::Byte => Narrowing::Byte,
        FieldKind::Char => Narrowing::Char,
        FieldKind::Short => Narrowing::Short,
        _ => Narrowing::Whole,
    }
}

/// getfield: the value of the field that the constant at an index names, of the object on top, comes to stand in the object's place.
#[inline(always)]
pub fn getfield<'a, 'l, S: Store>(
    current: Current<'_, 'a>,
    linked: &mut Linked<'a>,
    store: &S,
    held: &Held,
    words: &mut [u32],
    at: &mut Registers<'l>,
    index: u16,
) -> Effect
    requires { CanUseField GetField index current.next (known_at current linked.old) at.old words.old held.now (S.content store.now) }
    ensures uses { UsesField GetField index current.entry.next (known_at current.entry linked.old) held.now at.old words.old
        (S.content store.now) at.new words.new result }
    ensures stays { StaysIn at.old at.new words.new }
    ensures unmoved { IsUnmoved result (place at.old words.old held.now (S.content store.now))
        (place at.new words.new held.now (S.content store.now)) }
    ensures linked { IsLinked current.entry.classes.now.world linked.new }
{
    field_is_used();
    let field = match used(current.classes, linked, current.site, Use::Getfield, index) {
        Ok(field) => field,
        Err(class) => return Effect::Raises { class },
    };
    if is_long(field.kind) {
        return get_long_field(store, held, words, at, current.next, field.word as u32);
    }
    get_field(store, held, words, at, current.next, field.word as u32)
}

/// putfield: the value on top is stored in the field that the constant at an index names, of the object below it.
#[inline(always)]
pub fn putfield<'a, 'l, S: Store>(
    current: Current<'_, 'a>,
    linked: &mut Linked<'a>,
    store: &mut S,
    held: &Held,
    words: &[u32],
    at: &mut Registers<'l>,
    index: u16,
) -> Effect
    requires { CanUseField PutField index current.next (known_at current linked.old) at.old words.now held.now (S.content store.old) }
    ensures puts { PutsInField index current.entry.next (known_at current.entry linked.old) held.now words.now at.old
        (S.content store.old) at.new (S.content store.new) result }
    ensures stays { StaysIn at.old at.new words.now }
    ensures unmoved { IsUnmoved result (place at.old words.now held.now (S.content store.old))
        (place at.new words.now held.now (S.content store.new)) }
    ensures room { S.room_left store.new ≡ S.room_left store.old }
    ensures linked { IsLinked current.entry.classes.now.world linked.new }
{
    field_is_used();
    let field = match used(current.classes, linked, current.site, Use::Putfield, index) {
        Ok(field) => field,
        Err(class) => return Effect::Raises { class },
    };
    if is_long(field.kind) {
        return put_long_field(store, held, words, at, current.next, field.word as u32);
    }
    let how = narrowing_by(field.kind);
    put_field(store, held, words, at, current.next, field.word as u32, how)
}

/// getstatic: the value of the field that the constant at an index names comes to stand on top, once its class is initialized or being
/// initialized.
#[inline(always)]
pub fn getstatic<'a, 'l>(
    current: Current<'_, 'a>,
    linked: &mut Linked<'a>,
    held: &Held,
    words: &mut [u32],
    at: &mut Registers<'l>,
    index: u16,
) -> Effect
    requires { CanUseStatic GetStatic index current.next (known_at current linked.old) current.states.now at.old words.old held.now }
    ensures uses { UsesStatic GetStatic index current.entry.next (known_at current.entry linked.old) current.entry.states.now at.old
        words.old held.now
        at.new words.new held.now result }
    ensures stays { StaysIn at.old at.new words.new }
    ensures unmoved { (blocks : Blocks) → IsUnmoved result (place at.old words.old held.now blocks)
        (place at.new words.new held.now blocks) }
    ensures linked { IsLinked current.entry.classes.now.world linked.new }
{
    field_is_used();
    let field = match used(current.classes, linked, current.site, Use::Getstatic, index) {
        Ok(field) => field,
        Err(class) => return Effect::Raises { class },
    };
    if !is_ready(current.states, field.place.class) {
        return Effect::Begins {
            class: field.place.class as u32,
        };
    }
    if is_long(field.kind) {
        return get_long_static(held, words, at, current.next, field.word);
    }
    get_static(held, words, at, current.next, field.word)
}

/// putstatic: the value on top is stored in the field that the constant at an index names, once its class is initialized or being
/// initialized.
#[inline(always)]
pub fn putstatic<'a, 'l>(
    current: Current<'_, 'a>,
    linked: &mut Linked<'a>,
    held: &mut Held,
    words: &[u32],
    at: &mut Registers<'l>,
    index: u16,
) -> Effect
    requires { CanUseStatic PutStatic index current.next (known_at current linked.old) current.states.now at.old words.now held.old }
    ensures uses { UsesStatic PutStatic index current.entry.next (known_at current.entry linked.old) current.entry.states.now at.old
        words.now held.old
        at.new words.now held.new result }
    ensures stays { StaysIn at.old at.new words.now }
    ensures unmoved { (blocks : Blocks) → IsUnmoved result (place at.old words.now held.old blocks)
        (place at.new words.now held.new blocks) }
    ensures same { held.new ≡ record held.old { statics = held.new.statics } }
    ensures linked { IsLinked current.entry.classes.now.world linked.new }
{
    field_is_used();
    let field = match used(current.classes, linked, current.site, Use::Putstatic, index) {
        Ok(field) => field,
        Err(class) => return Effect::Raises { class },
    };
    if !is_ready(current.states, field.place.class) {
        return Effect::Begins {
            class: field.place.class as u32,
        };
    }
    if is_long(field.kind) {
        return put_long_static(held, words, at, current.next, field.word);
    }
    let how = narrowing_by(field.kind);
    put_static(held, words, at, current.next, field.word, how)
}
