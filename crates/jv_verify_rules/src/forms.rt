//! Forms of the stack (JVMS 4.10.1.9): pop to swap.

ghost use Rattle.std.specs.Prelude.{◌≡◌, ◌++◌, ℕ, List, OnOk, IfOk};
ghost use Rattle.jv_meaning_typing.specs.FrameChanges.{item_width};
ghost use Rattle.jv_meaning_typing.specs.StackForms.{top_words, taken_words, passed_words};
ghost use Rattle.jv_meaning_typing.specs.ValueRules.{move_words};
ghost use Rattle.jv_verify_types.specs.Typed.{typed, typed_all};
ghost use Rattle.jv_verify_types.specs.Numbered.{frame_of, with_stack};
ghost use Rattle.jv_verify_types.specs.Outcomes.{IsFrame};
ghost use Rattle.jv_verify_rules.specs.Inside.Words.{items_in, arranged_words, IsWord, TakesBelow, TakesWords};

use jv_code::StackForm;
use jv_stackmap::{VerificationTypeOf, Width};
use jv_verify_frame::TypeFrame;
use jv_verify_types::Item;
use std::alloc::AllocError;

/// Items from the top of a stack: none, one, or two, of which the first was on top.
#[derive(Clone, Copy)]
pub(crate) enum Words {
    Nothing,
    One(Item),
    Two(Item, Item),
}

/// How many words an item takes; `None` of top, which no form takes.
fn width_of(item: Item) -> Option<Width>
    ensures { (names : List (List ℕ)) → result ≡ item_width (typed names item) }
{
    match item {
        VerificationTypeOf::Top => None,
        VerificationTypeOf::Long => Some(Width::Two),
        _ => Some(Width::One),
    }
}

/// Takes an item of one word.
fn pop_word(frame: &mut TypeFrame) -> Option<Item>
    ensures { (names : List (List ℕ)) → IsWord names (top_words item_width 1 (typed_all names frame.old.stack)) frame.old frame.new result }
{
    let item = frame.pop()?;
    match width_of(item) {
        Some(Width::One) => Some(item),
        _ => None,
    }
}

/// Takes an item of one word, below one that was taken.
fn pop_below(frame: &mut TypeFrame, first: Item) -> Option<Words>
    ensures { TakesBelow first 1 frame.old frame.new result }
{
    match pop_word(frame) {
        Some(second) => Some(Words::Two(first, second)),
        None => None,
    }
}

/// Takes an item of two words, or two of one.
fn pop_two_words(frame: &mut TypeFrame) -> Option<Words>
    ensures { TakesWords 2 frame.old frame.new result }
{
    match frame.pop() {
        None => None,
        Some(first) => match width_of(first) {
            Some(Width::Two) => Some(Words::One(first)),
            Some(Width::One) => pop_below(frame, first),
            None => None,
        },
    }
}

fn pop_one_word(frame: &mut TypeFrame) -> Option<Words>
    ensures { TakesWords 1 frame.old frame.new result }
{
    match pop_word(frame) {
        Some(item) => Some(Words::One(item)),
        None => None,
    }
}

/// Takes the words that a form drops, copies or swaps.
fn pop_taken(frame: &mut TypeFrame, form: StackForm) -> Option<Words>
    ensures { TakesWords (taken_words form) frame.old frame.new result }
{
    match form {
        StackForm::Pop2 => pop_two_words(frame),
        StackForm::Dup2 => pop_two_words(frame),
        StackForm::Dup2X1 => pop_two_words(frame),
        StackForm::Dup2X2 => pop_two_words(frame),
        StackForm::Pop => pop_one_word(frame),
        StackForm::Dup => pop_one_word(frame),
        StackForm::DupX1 => pop_one_word(frame),
        StackForm::DupX2 => pop_one_word(frame),
        StackForm::Swap => pop_one_word(frame),
    }
}

/// Takes the words below them that a form puts copies under, or swaps them with.
fn pop_passed(frame: &mut TypeFrame, form: StackForm) -> Option<Words>
    ensures { TakesWords (passed_words form) frame.old frame.new result }
{
    match form {
        StackForm::DupX2 => pop_two_words(frame),
        StackForm::Dup2X2 => pop_two_words(frame),
        StackForm::DupX1 => pop_one_word(frame),
        StackForm::Dup2X1 => pop_one_word(frame),
        StackForm::Swap => pop_one_word(frame),
        _ => Some(Words::Nothing),
    }
}

/// Puts words on top.
fn push_words(frame: &mut TypeFrame, words: Words) -> Result<(), AllocError>
    ensures { OnOk result (frame.new ≡ with_stack (items_in words ++ frame.old.stack) frame.old) }
{
    match words {
        Words::Nothing => Ok(()),
        Words::One(item) => frame.push(item),
        Words::Two(top, below) => {
            frame.push(below)?;
            frame.push(top)
        }
    }
}

/// Puts what a form makes of the words that it took and passed in their place.
fn push_arranged(
    frame: &mut TypeFrame,
    form: StackForm,
    taken: Words,
    passed: Words,
) -> Result<(), AllocError>
    ensures { OnOk result (frame.new ≡ with_stack (arranged_words form taken passed ++ frame.old.stack) frame.old) }
{
    match form {
        StackForm::Pop => push_words(frame, passed),
        StackForm::Pop2 => push_words(frame, passed),
        StackForm::Swap => {
            push_words(frame, taken)?;
            push_words(frame, passed)
        }
        _ => {
            push_words(frame, taken)?;
            push_words(frame, passed)?;
            push_words(frame, taken)
        }
    }
}

/// Drops, copies or swaps the words on top of the stack, as the form says; `false` where they are not there, or a
/// long would be cut.
///
/// # Errors
///
/// Where the host had no memory for the copies; the frame is then of no more use.
pub fn move_words(frame: &mut TypeFrame, form: StackForm) -> Result<bool, AllocError>
    ensures { (names : List (List ℕ)) → IfOk result (IsFrame names (move_words form (frame_of names frame.old)) frame.new) }
{
    let Some(taken) = pop_taken(frame, form) else {
        return Ok(false);
    };
    let Some(passed) = pop_passed(frame, form) else {
        return Ok(false);
    };
    push_arranged(frame, form, taken, passed)?;
    Ok(true)
}
