//! Items that are taken from the stack.

ghost use Rattle.std.specs.Prelude.{◌≡◌, ◌∷◌, []};
ghost use Rattle.jv_meaning_typing.specs.FrameChanges.{taken, taken_as_all};
ghost use Rattle.jv_verify_types.specs.Typed.{typed, typed_all};
ghost use Rattle.jv_verify_types.specs.Outcomes.{given, outcome_of, Exchanges, TakesBy};

use jv_verify_frame::TypeFrame;
use jv_verify_types::{Argument, Item, Outcome, TypeNames};

/// Takes an item that flows to a type.
pub fn take_as(types: &TypeNames<'_, '_>, frame: &mut TypeFrame, expected: Item) -> bool
    ensures { TakesBy types.now.names (taken_as_all types.now.world (typed types.now.names expected ∷ [])) frame.old frame.new result }
{
    match frame.pop() {
        None => false,
        Some(item) => types.item_flows(item, expected),
    }
}

/// Takes items that flow to these types, one by one, the last of which stands on top.
pub fn take(types: &TypeNames<'_, '_>, frame: &mut TypeFrame, expected: &[Item]) -> bool
    ensures { TakesBy types.now.names (taken types.now.world (typed_all types.now.names expected.now)) frame.old frame.new result }
{
    let mut left = expected;
    while let Some((item, before)) = left.split_last() {
        if !take_as(types, frame, *item) {
            return false;
        }
        left = before;
    }
    true
}

/// The same of a method's arguments.
pub fn take_arguments(
    types: &TypeNames<'_, '_>,
    frame: &mut TypeFrame,
    expected: &[Argument],
) -> bool
    ensures { TakesBy types.now.names (taken types.now.world (typed_all types.now.names expected.now)) frame.old frame.new result }
{
    let mut left = expected;
    while let Some((argument, before)) = left.split_last() {
        if !take_as(types, frame, argument.item()) {
            return false;
        }
        left = before;
    }
    true
}

fn outcome_of(item: Option<Item>) -> Outcome
    ensures { result ≡ outcome_of item }
{
    match item {
        None => Outcome::Leaves,
        Some(item) => Outcome::Gives(item),
    }
}

/// Takes such items and gives one, or none.
pub fn exchange(
    types: &TypeNames<'_, '_>,
    frame: &mut TypeFrame,
    expected: &[Item],
    gives: Option<Item>,
) -> Outcome
    ensures { Exchanges types.now (typed_all types.now.names expected.now) (given types.now.names gives) frame.old frame.new result }
{
    if take(types, frame, expected) {
        outcome_of(gives)
    } else {
        Outcome::Fails
    }
}

/// Takes a method's arguments, and gives an item, or none.
pub fn exchange_arguments(
    types: &TypeNames<'_, '_>,
    frame: &mut TypeFrame,
    expected: &[Argument],
    gives: Option<Item>,
) -> Outcome
    ensures { Exchanges types.now (typed_all types.now.names expected.now) (given types.now.names gives) frame.old frame.new result }
{
    if take_arguments(types, frame, expected) {
        outcome_of(gives)
    } else {
        Outcome::Fails
    }
}
