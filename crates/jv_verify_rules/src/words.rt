//! The words of the stack within max_stack (JVMS 4.10.1.4).

ghost use Rattle.std.specs.Prelude.{◌≡◌, ◌+◌, nat_le};
ghost use Rattle.jv_meaning_typing.specs.Rule.{within_stack};
ghost use Rattle.jv_verify_types.specs.Numbered.{frame_of, item_words, stack_words};
ghost use Rattle.jv_verify_types.specs.Outcomes.{IsFrame};
ghost use Rattle.jv_verify_rules.specs.Inside.Over.{WithinStack, SettlesTop};

use jv_verify_frame::TypeFrame;
use jv_verify_types::{Item, words_of};
use std::alloc::AllocError;

/// Whether the stack has no more words than it may have.
pub(crate) fn is_within(frame: &TypeFrame, max_stack: u16) -> bool
    ensures { WithinStack max_stack (λ names env. IsFrame names (within_stack env (frame_of names frame.now)) frame.now result) }
{
    frame.stack_words() <= usize::from(max_stack)
}

/// Whether the stack would have no more with an item more.
fn has_room(frame: &TypeFrame, item: Item, max_stack: u16) -> bool
    ensures { result ≡ nat_le (item_words item + stack_words frame.now.stack) max_stack }
{
    match max_stack.checked_sub(words_of(item)) {
        Some(room) => frame.stack_words() <= usize::from(room),
        None => false,
    }
}

/// Puts an item on top, where the stack then has no more words than it may have.
pub(crate) fn push_within(
    frame: &mut TypeFrame,
    item: Item,
    max_stack: u16,
) -> Result<bool, AllocError>
    ensures { SettlesTop max_stack frame.old item frame.new result }
{
    if has_room(frame, item, max_stack) {
        frame.push(item)?;
        Ok(true)
    } else {
        Ok(false)
    }
}
