//! Instructions that name a class or an array (JVMS 4.10.1.9).

ghost use Rattle.std.specs.Prelude.{[], ◌∷◌, replicate};
ghost use Rattle.jv_stackmap.specs.declared.verification.VerificationTypeOf.TheVariants as variants;
ghost use Rattle.jv_meaning_typing.specs.FrameChanges.{taken};
ghost use Rattle.jv_meaning_typing.specs.Named.{object_class_type};
ghost use Rattle.jv_verify_types.specs.Typed.{typed};
ghost use Rattle.jv_verify_types.specs.Outcomes.{Exchanges, TakesBy};

use crate::stack::{exchange, take_as};
use jv_stackmap::VerificationTypeOf;
use jv_verify_frame::TypeFrame;
use jv_verify_types::{Item, Outcome, TypeNames};

/// Takes a class or an array, and gives it as the type to which it is cast.
pub fn cast(types: &TypeNames<'_, '_>, frame: &mut TypeFrame, target: Item) -> Outcome
    ensures { Exchanges types.now (object_class_type ∷ []) (typed types.now.names target ∷ []) frame.old frame.new result }
{
    let object = VerificationTypeOf::Class(types.object());
    exchange(types, frame, &[object], Some(target))
}

/// Takes a class or an array, and gives an int.
pub fn test_instance(types: &TypeNames<'_, '_>, frame: &mut TypeFrame) -> Outcome
    ensures { Exchanges types.now (object_class_type ∷ []) (variants.Int ∷ []) frame.old frame.new result }
{
    let object = VerificationTypeOf::Class(types.object());
    exchange(types, frame, &[object], Some(VerificationTypeOf::Int))
}

/// Takes a length, and gives an array.
pub fn new_reference_array(types: &TypeNames<'_, '_>, frame: &mut TypeFrame, array: Item) -> Outcome
    ensures { Exchanges types.now (variants.Int ∷ []) (typed types.now.names array ∷ []) frame.old frame.new result }
{
    exchange(types, frame, &[VerificationTypeOf::Int], Some(array))
}

/// Takes so many ints.
fn take_ints(types: &TypeNames<'_, '_>, frame: &mut TypeFrame, count: u8) -> bool
    ensures { TakesBy types.now.names (taken types.now.world (replicate count variants.Int)) frame.old frame.new result }
{
    let mut left = count;
    while left > 0 {
        if !take_as(types, frame, VerificationTypeOf::Int) {
            return false;
        }
        left -= 1;
    }
    true
}

/// Takes a length for each of so many dimensions, and gives an array.
pub fn new_multi_array(
    types: &TypeNames<'_, '_>,
    frame: &mut TypeFrame,
    dimensions: u8,
    array: Item,
) -> Outcome
    ensures { Exchanges types.now (replicate dimensions variants.Int) (typed types.now.names array ∷ []) frame.old frame.new result }
{
    if take_ints(types, frame, dimensions) {
        Outcome::Gives(array)
    } else {
        Outcome::Fails
    }
}
