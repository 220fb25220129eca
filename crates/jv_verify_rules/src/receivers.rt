//! Objects that a member is used on.

ghost use Rattle.std.specs.Prelude.{◌≡◌};
ghost use Rattle.std.specs.List.{list_all};
ghost use Rattle.jv_meaning_world.specs.FrameFlow.{item_flows};
ghost use Rattle.jv_meaning_typing.specs.FrameChanges.{taken_as_all};
ghost use Rattle.jv_verify_types.specs.Typed.{typed};
ghost use Rattle.jv_verify_types.specs.Outcomes.{given, TakesBy};
ghost use Rattle.jv_verify_rules.specs.Operands.{called_receivers};

use jv_verify_frame::TypeFrame;
use jv_verify_types::{Item, TypeNames};

fn flows_to_guard(types: &TypeNames<'_, '_>, item: Item, guard: Option<Item>) -> bool
    ensures { result ≡ list_all (item_flows types.now.world (typed types.now.names item)) (given types.now.names guard) }
{
    match guard {
        None => true,
        Some(class) => types.item_flows(item, class),
    }
}

/// Whether an item flows to a class, and to the one of a guarded member, if there is one.
pub(crate) fn is_receiver(
    types: &TypeNames<'_, '_>,
    item: Item,
    class: Item,
    guard: Option<Item>,
) -> bool
    ensures { result ≡ list_all (item_flows types.now.world (typed types.now.names item)) (called_receivers types.now class guard) }
{
    types.item_flows(item, class) && flows_to_guard(types, item, guard)
}

/// Takes an object that flows to a class, and to the current one if a guarded member is used on it (JVMS 4.10.1.8).
pub fn take_receiver(
    types: &TypeNames<'_, '_>,
    frame: &mut TypeFrame,
    class: Item,
    guard: Option<Item>,
) -> bool
    ensures { TakesBy types.now.names (taken_as_all types.now.world (called_receivers types.now class guard)) frame.old frame.new result }
{
    match frame.pop() {
        None => false,
        Some(item) => is_receiver(types, item, class, guard),
    }
}
