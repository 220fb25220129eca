//! Frames that an instruction begins with: a frame of the stack map, or the initial one (JVMS 4.10.1.6).

ghost use Rattle.std.specs.Prelude.{◌≡◌, ◌≤◌, ℕ, List, [], length, map, reverse, OnOk};
ghost use Rattle.std.specs.List.{list_any};
ghost use Rattle.jv_stackmap.specs.Types.{words};
ghost use Rattle.jv_verify_types.specs.Typed.{typed_all};
ghost use Rattle.jv_verify_types.specs.Numbered.{blank, frame_of, with_locals, with_stack};
ghost use Rattle.jv_verify_pass.specs.Inside.Locals.{is_this};
ghost use Rattle.jv_verify_types.specs.Mapped.{names_of_types, types_of_entries, local_entry_words, frame_by_types, expanded_entries, locals_of, stack_of, HasLocalsOf, IsInitial};

use jv_stackmap::{MapFrame, VerificationTypeOf};
use jv_verify_flow::has_this;
use jv_verify_frame::TypeFrame;
use jv_verify_types::{EntryTypes, Item, words_of};
use std::alloc::AllocError;

/// Gives the local variables, which hold nothing, the types of a frame's entries.
pub(crate) fn set_locals(types: &EntryTypes<'_, '_, '_>, frame: &mut TypeFrame, map: &MapFrame<'_>)
    requires blank { frame.old ≡ blank (length frame.old.locals) }
    requires words { map.now.local_words ≡ local_entry_words types.now map.now }
    requires room { map.now.local_words ≤ length frame.old.locals }
    ensures locals { locals_of types.now frame.new ≡ expanded_entries types.now (length frame.old.locals) map.now.locals }
    ensures count { length frame.new.locals ≡ length frame.old.locals }
    ensures same { frame.new ≡ with_locals frame.new.locals frame.old }
{
    let mut at = map.local_words();
    let mut entries = map.locals();
    while let Some(entry) = entries.next() {
        let item = types.item(entry);
        at -= words_of(item);
        let _has_room = frame.store(at, item);
    }
}

/// Puts a frame's stack on the empty one, the top first.
pub(crate) fn push_items(
    types: &EntryTypes<'_, '_, '_>,
    frame: &mut TypeFrame,
    map: &MapFrame<'_>,
) -> Result<(), AllocError>
    requires { frame.old.stack ≡ [] }
    ensures stack { OnOk result (reverse (stack_of types.now frame.new) ≡ types_of_entries types.now map.now.stack) }
    ensures same { frame.new ≡ with_stack frame.new.stack frame.old }
{
    let mut entries = map.stack();
    while let Some(entry) = entries.next() {
        frame.push(types.item(entry))?;
    }
    Ok(())
}

/// Makes a frame that of the map.
///
/// # Errors
///
/// Where the host had no memory for its stack; the frame is then of no more use.
pub fn set_to_map(
    types: &EntryTypes<'_, '_, '_>,
    frame: &mut TypeFrame,
    map: &MapFrame<'_>,
) -> Result<(), AllocError>
    requires words { map.now.local_words ≡ local_entry_words types.now map.now }
    requires room { map.now.local_words ≤ length frame.old.locals }
    ensures ok { OnOk result (frame_of (names_of_types types.now) frame.new ≡ frame_by_types types.now (length frame.old.locals) map.now) }
    ensures same { length frame.new.locals ≡ length frame.old.locals }
{
    frame.clear();
    set_locals(types, frame, map);
    push_items(types, frame, map)?;
    frame.turn_stack();
    frame.set_flag(has_this(types, map));
    Ok(())
}

/// Gives the local variables, which hold nothing, the types of initial entries, the first first, which have so many words.
fn set_initial_locals(frame: &mut TypeFrame, entries: &[Item], count: u16)
    requires blank { frame.old ≡ blank (length frame.old.locals) }
    requires words { (names : List (List ℕ)) → count ≡ words (typed_all names entries.now) }
    requires room { count ≤ length frame.old.locals }
    ensures locals { HasLocalsOf entries.now frame.old frame.new }
    ensures count { length frame.new.locals ≡ length frame.old.locals }
    ensures same { frame.new ≡ with_locals frame.new.locals frame.old }
{
    let mut at = count;
    let mut left = entries.len();
    while left > 0 {
        left -= 1;
        let item = entries[left];
        at -= words_of(item);
        let _has_room = frame.store(at, item);
    }
}

/// Whether a type is that of `this` where it is not initialized.
pub(crate) fn is_this(item: Item) -> bool
    ensures { result ≡ is_this item }
{
    matches!(item, VerificationTypeOf::UninitializedThis)
}

/// Whether `this` is among initial entries, not initialized.
fn begins_with_this(initial: &[Item]) -> bool
    ensures { result ≡ list_any is_this initial.now }
{
    initial.iter().any(|item| is_this(*item))
}

/// Makes a frame that of initial entries, the first first, which have so many words.
pub fn set_to_initial(frame: &mut TypeFrame, initial: &[Item], count: u16)
    requires words { (names : List (List ℕ)) → count ≡ words (typed_all names initial.now) }
    requires room { count ≤ length frame.old.locals }
    ensures frame { IsInitial initial.now frame.old frame.new }
    ensures same { length frame.new.locals ≡ length frame.old.locals }
{
    frame.clear();
    set_initial_locals(frame, initial, count);
    frame.set_flag(begins_with_this(initial));
}
