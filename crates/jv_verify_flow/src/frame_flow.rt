//! What flows into a frame of the stack map (JVMS 4.10.1.2, 4.10.1.4).

ghost use Rattle.std.specs.Prelude.{◌≡◌, Option, Some, true, slice_get, ◌&&◌, ◌||◌, not, ℕ, List, ◌∷◌, [], IsTrue, map, reverse};
ghost use Rattle.std.specs.List.{list_any};
ghost use Rattle.std.specs.Option.{option_map};
ghost use Rattle.jv_stackmap.specs.Frames.{is_uninitialized_this};
ghost use Rattle.jv_stackmap.specs.declared.verification.VerificationTypeOf.TheVariants as variants;
ghost use Rattle.jv_meaning_world.specs.Flow.{flows};
ghost use Rattle.jv_meaning_world.specs.FrameFlow.{item_flows, frame_flows};
ghost use Rattle.jv_meaning_world.specs.World.{World};
ghost use Rattle.jv_meaning_typing.specs.FrameChanges.{is_same_object};
ghost use Rattle.jv_verify_types.specs.Typed.{typed};
ghost use Rattle.jv_verify_types.specs.Numbered.{Item};
ghost use Rattle.jv_verify_types.specs.Mapped.{EntryTypes, world_of_types, names_of_types, types_of_entries, type_of_entry, local_entry_words, stack_of, flows_to_map, thrown_flows_to_map, has_uninitialized_this, locals_flow_to, stack_flows_to};
ghost use Rattle.jv_verify_flow.specs.Inside.Behind.{left_in, local_flows_to, AreLeft, narrow_item};

use jv_stackmap::{Entries, FrameEntry, MapFrame, VerificationTypeOf};
use jv_text::{Base, Element, FieldTypeOf};
use jv_verify_frame::TypeFrame;
use jv_verify_types::{EntryTypes, Item, TypeNames, words_of};

#[inline(always)]
fn is_same_object(one: Item, other: Item) -> bool
    ensures { (names : List (List ℕ)) → result ≡ is_same_object (typed names one) (typed names other) }
{
    match (one, other) {
        (VerificationTypeOf::UninitializedThis, VerificationTypeOf::UninitializedThis) => true,
        (VerificationTypeOf::Uninitialized(one), VerificationTypeOf::Uninitialized(other)) => {
            one == other
        }
        _ => false,
    }
}

/// The type of a local variable once an object cannot be used any more.
#[inline(always)]
fn left_in(object: Option<Item>, local: Item) -> Item
    ensures { (names : List (List ℕ)) → typed names result ≡ left_in (option_map (typed names) object) (typed names local) }
{
    match object {
        Some(object) if is_same_object(object, local) => VerificationTypeOf::Top,
        _ => local,
    }
}

/// Whether two types that are no classes are known to be one.
#[inline(always)]
fn same_base(one: Base, other: Base) -> bool
    ensures { IsTrue result → one ≡ other }
{
    match (one, other) {
        (Base::Byte, Base::Byte) => true,
        (Base::Char, Base::Char) => true,
        (Base::Int, Base::Int) => true,
        (Base::Long, Base::Long) => true,
        (Base::Boolean, Base::Boolean) => true,
        _ => false,
    }
}

#[inline(always)]
fn same_element(one: Element<u32>, other: Element<u32>) -> bool
    ensures { IsTrue result → one ≡ other }
{
    match (one, other) {
        (Element::Base(one), Element::Base(other)) => same_base(one, other),
        (Element::Class(one), Element::Class(other)) => one == other,
        _ => false,
    }
}

/// Whether two arrays are known to be of one type.
#[inline(always)]
fn same_array(one: FieldTypeOf<u32>, other: FieldTypeOf<u32>) -> bool
    ensures { IsTrue result → one ≡ other }
{
    one.dimensions == other.dimensions && same_element(one.element, other.element)
}

/// Whether two types are known to be one without a look at them as a whole.
#[inline(always)]
fn are_same(one: Item, other: Item) -> bool
    ensures { IsTrue result → one ≡ other }
{
    match (one, other) {
        (VerificationTypeOf::Int, VerificationTypeOf::Int) => true,
        (VerificationTypeOf::Class(one), VerificationTypeOf::Class(other)) => one == other,
        (VerificationTypeOf::Uninitialized(one), VerificationTypeOf::Uninitialized(other)) => {
            one == other
        }
        _ => false,
    }
}

/// Whether two types are known to be one without a look at a table.
#[inline(always)]
fn are_alike(one: Item, other: Item) -> bool
    ensures { IsTrue result → one ≡ other }
{
    match (one, other) {
        (VerificationTypeOf::Int, VerificationTypeOf::Int) => true,
        (VerificationTypeOf::Long, VerificationTypeOf::Long) => true,
        (VerificationTypeOf::Class(one), VerificationTypeOf::Class(other)) => one == other,
        (VerificationTypeOf::Array(one), VerificationTypeOf::Array(other)) => {
            same_array(one, other)
        }
        _ => false,
    }
}

#[inline(always)]
fn is_top(item: Item) -> bool
    ensures { IsTrue result → item ≡ variants.Top }
{
    matches!(item, VerificationTypeOf::Top)
}

/// Whether a local variable flows to an entry, once an object cannot be used any more. Both are looked up here, so that who calls
/// this seldom has neither in memory.
#[inline(never)]
fn local_flows(
    types: &EntryTypes<'_, '_, '_>,
    frame: &TypeFrame,
    object: &Option<Item>,
    at: u16,
    entry: FrameEntry,
) -> bool
    ensures { (local : Item) → slice_get frame.now.locals at ≡ Some local → result ≡ local_flows_to types.now object.now local entry }
{
    let Some(local) = frame.local(at) else {
        return false;
    };
    types
        .names()
        .flows(left_in(*object, local), types.item(entry))
}

/// The same where the types of both are known: to top, and where the two are one, no table is asked.
#[inline(always)]
fn left_flows(
    types: &EntryTypes<'_, '_, '_>,
    frame: &TypeFrame,
    object: &Option<Item>,
    at: u16,
    entry: FrameEntry,
    left: Item,
    item: Item,
) -> bool
    ensures { AreLeft types.now frame.now object.now at entry left item
        → result ≡ flows (world_of_types types.now) (typed (names_of_types types.now) left) (typed (names_of_types types.now) item) }
{
    if is_top(item) {
        return true;
    }
    if are_alike(left, item) {
        return true;
    }
    local_flows(types, frame, object, at, entry)
}

/// Whether an item is an object that is not initialized, and another is top.
#[inline(always)]
fn is_left_unused(from: Item, to: Item) -> bool
    ensures { (world : World) (names : List (List ℕ)) → IsTrue result → item_flows world (typed names from) (typed names to) ≡ true }
{
    match (from, to) {
        (VerificationTypeOf::Uninitialized(_), VerificationTypeOf::Top) => true,
        _ => false,
    }
}

/// Whether a stack item's type flows to another: where the two are one, and from an object that is not initialized to top, no table is
/// asked.
#[inline(always)]
pub fn item_flows(names: &TypeNames<'_, '_>, from: Item, to: Item) -> bool
    ensures { result ≡ item_flows names.now.world (typed names.now.names from) (typed names.now.names to) }
{
    if are_same(from, to) {
        return true;
    }
    if is_left_unused(from, to) {
        return true;
    }
    names.item_flows(from, to)
}

/// Whether an entry stands for one word that no table has to be asked for: top or an int.
#[inline(always)]
fn is_narrow(entry: FrameEntry) -> bool
    ensures { IsTrue result → (t : EntryTypes) → typed (names_of_types t) (narrow_item entry) ≡ type_of_entry t entry }
{
    match entry {
        FrameEntry::Top => true,
        FrameEntry::Int => true,
        _ => false,
    }
}

/// Whether a local variable flows to such an entry: what is left of it once an object cannot be used any more is an int where it was one.
#[inline(always)]
fn narrow_flows(entry: FrameEntry, local: Item) -> bool
    ensures { (world : World) (names : List (List ℕ)) (object : Option Item)
        → result ≡ flows world (left_in (option_map (typed names) object) (typed names local)) (typed names (narrow_item entry)) }
{
    match entry {
        FrameEntry::Top => true,
        _ => matches!(local, VerificationTypeOf::Int),
    }
}

/// Whether the local variables flow to a frame's entries, once an object cannot be used any more.
pub fn locals_flow(
    types: &EntryTypes<'_, '_, '_>,
    frame: &TypeFrame,
    object: Option<Item>,
    map: &MapFrame<'_>,
) -> bool
    requires { map.now.local_words ≡ local_entry_words types.now map.now }
    ensures { result ≡ locals_flow_to types.now frame.now object map.now }
{
    let mut at = map.local_words();
    if usize::from(at) > frame.local_count() {
        return false;
    }
    let mut entries = map.locals();
    while let Some(entry) = entries.next() {
        if is_narrow(entry) {
            at -= 1;
            let Some(local) = frame.local(at) else {
                return false;
            };
            if !narrow_flows(entry, local) {
                return false;
            }
            continue;
        }
        let item = types.item(entry);
        at -= words_of(item);
        let Some(local) = frame.local(at) else {
            return false;
        };
        let left = left_in(object, local);
        if !left_flows(types, frame, &object, at, entry, left, item) {
            return false;
        }
    }
    true
}

/// Whether the stack's items flow to a frame's, one by one.
pub fn stack_flows(types: &EntryTypes<'_, '_, '_>, frame: &TypeFrame, map: &MapFrame<'_>) -> bool
    ensures { result ≡ stack_flows_to types.now (stack_of types.now frame.now) map.now }
{
    let height = frame.height();
    let mut left = height;
    let mut entries = map.stack();
    while let Some(entry) = entries.next() {
        let Some(item) = frame.item(height - left) else {
            return false;
        };
        if !item_flows(types.names(), item, types.item(entry)) {
            return false;
        }
        left -= 1;
    }
    left == 0
}

/// Whether `this` may not be initialized in a frame of the map: whether it is among the local entries.
pub fn has_this(types: &EntryTypes<'_, '_, '_>, map: &MapFrame<'_>) -> bool
    ensures { result ≡ list_any is_uninitialized_this (reverse (types_of_entries types.now map.now.locals)) }
{
    let mut entries = map.locals();
    while let Some(entry) = entries.next() {
        if matches!(types.item(entry), VerificationTypeOf::UninitializedThis) {
            return true;
        }
    }
    false
}

/// Whether a frame of the map may have `this` as the frame before it has it.
pub fn flag_flows(types: &EntryTypes<'_, '_, '_>, frame: &TypeFrame, map: &MapFrame<'_>) -> bool
    ensures { result ≡ (not frame.now.flag_this_uninit || has_uninitialized_this types.now map.now) }
{
    !frame.flag_this_uninit() || has_this(types, map)
}

/// Whether a frame flows into a frame of the map, with as many local variables, where it is known whether its stack does.
pub fn frame_flows(
    types: &EntryTypes<'_, '_, '_>,
    frame: &TypeFrame,
    map: &MapFrame<'_>,
    stack: bool,
) -> bool
    requires words { map.now.local_words ≡ local_entry_words types.now map.now }
    requires stack { stack ≡ stack_flows_to types.now (stack_of types.now frame.now) map.now }
    ensures { result ≡ flows_to_map types.now frame.now map.now }
{
    locals_flow(types, frame, None, map) && stack && flag_flows(types, frame, map)
}

/// Whether what was thrown alone on the stack flows to a frame's stack.
pub fn thrown_stack_flows(types: &EntryTypes<'_, '_, '_>, thrown: Item, map: &MapFrame<'_>) -> bool
    ensures { result ≡ stack_flows_to types.now (typed (names_of_types types.now) thrown ∷ []) map.now }
{
    let mut entries = map.stack();
    let Some(entry) = entries.next() else {
        return false;
    };
    types.names().item_flows(thrown, types.item(entry)) && entries.next().is_none()
}

/// Whether the frame with which a handler begins flows into a frame of the map: that before the instruction, without
/// the object that the instruction constructs, and with what was thrown alone on the stack (JVMS 4.10.1.6).
pub fn thrown_flows(
    types: &EntryTypes<'_, '_, '_>,
    frame: &TypeFrame,
    object: Option<Item>,
    thrown: Item,
    map: &MapFrame<'_>,
) -> bool
    requires { map.now.local_words ≡ local_entry_words types.now map.now }
    ensures { result ≡ thrown_flows_to_map types.now frame.now object thrown map.now }
{
    locals_flow(types, frame, object, map)
        && thrown_stack_flows(types, thrown, map)
        && flag_flows(types, frame, map)
}
