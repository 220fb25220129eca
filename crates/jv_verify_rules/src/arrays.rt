//! Instructions on arrays (JVMS 4.10.1.9).

ghost use Rattle.std.specs.Prelude.{◌≡◌, ℕ, List, ◌∷◌, []};
ghost use Rattle.std.specs.List.{list_any};
ghost use Rattle.jv_stackmap.specs.declared.verification.VerificationTypeOf.TheVariants as variants;
ghost use Rattle.jv_meaning_world.specs.FrameFlow.{item_flows};
ghost use Rattle.jv_meaning_typing.specs.FrameChanges.{taken_as_any};
ghost use Rattle.jv_meaning_typing.specs.NumberRules.{array_of_base, number_arrays, element_number, new_array_type};
ghost use Rattle.jv_meaning_typing.specs.ValueRules.{array_load, array_store};
ghost use Rattle.jv_verify_types.specs.Typed.{typed};
ghost use Rattle.jv_verify_types.specs.Numbered.{frame_of};
ghost use Rattle.jv_verify_types.specs.Outcomes.{IsOutcome, Exchanges, TakesBy};

use crate::stack::{exchange, take};
use jv_code::{ElementType, NumberElement};
use jv_stackmap::VerificationTypeOf;
use jv_text::{Base, Element, FieldTypeOf};
use jv_verify_frame::TypeFrame;
use jv_verify_types::{Item, Outcome, TypeNames};

/// The array of a primitive type.
pub fn array_of_base(base: Base) -> Item
    ensures { (names : List (List ℕ)) → typed names result ≡ array_of_base base }
{
    VerificationTypeOf::Array(FieldTypeOf {
        dimensions: 0,
        element: Element::Base(base),
    })
}

fn flows_to_array_of(types: &TypeNames<'_, '_>, item: Item, base: Base) -> bool
    ensures { result ≡ item_flows types.now.world (typed types.now.names item) (array_of_base base) }
{
    types.item_flows(item, array_of_base(base))
}

/// Whether an item can be an array of such numbers.
fn is_number_array(types: &TypeNames<'_, '_>, item: Item, element: NumberElement) -> bool
    ensures { result ≡ list_any (item_flows types.now.world (typed types.now.names item)) (number_arrays element) }
{
    match element {
        NumberElement::Int => flows_to_array_of(types, item, Base::Int),
        NumberElement::Long => flows_to_array_of(types, item, Base::Long),
        NumberElement::ByteOrBoolean => {
            flows_to_array_of(types, item, Base::Byte)
                || flows_to_array_of(types, item, Base::Boolean)
        }
        NumberElement::Char => flows_to_array_of(types, item, Base::Char),
        NumberElement::Short => flows_to_array_of(types, item, Base::Short),
    }
}

/// Takes an array of such numbers.
fn take_number_array(
    types: &TypeNames<'_, '_>,
    frame: &mut TypeFrame,
    element: NumberElement,
) -> bool
    ensures { TakesBy types.now.names (taken_as_any types.now.world (number_arrays element)) frame.old frame.new result }
{
    match frame.pop() {
        None => false,
        Some(item) => is_number_array(types, item, element),
    }
}

/// The type of such a number on the stack.
fn element_number(element: NumberElement) -> Item
    ensures { (names : List (List ℕ)) → typed names result ≡ element_number element }
{
    match element {
        NumberElement::Long => VerificationTypeOf::Long,
        _ => VerificationTypeOf::Int,
    }
}

/// Loads a number of an array.
pub fn array_load(
    types: &TypeNames<'_, '_>,
    frame: &mut TypeFrame,
    element: NumberElement,
) -> Outcome
    ensures { IsOutcome types.now.names (array_load types.now.world element (frame_of types.now.names frame.old)) frame.new result }
{
    if take(types, frame, &[VerificationTypeOf::Int]) && take_number_array(types, frame, element) {
        Outcome::Gives(element_number(element))
    } else {
        Outcome::Fails
    }
}

/// Stores a number in an array.
pub fn array_store(
    types: &TypeNames<'_, '_>,
    frame: &mut TypeFrame,
    element: NumberElement,
) -> Outcome
    ensures { IsOutcome types.now.names (array_store types.now.world element (frame_of types.now.names frame.old)) frame.new result }
{
    if take(
        types,
        frame,
        &[VerificationTypeOf::Int, element_number(element)],
    ) && take_number_array(types, frame, element)
    {
        Outcome::Leaves
    } else {
        Outcome::Fails
    }
}

/// The array that `newarray` makes.
fn new_array_type(element: ElementType) -> Item
    ensures { (names : List (List ℕ)) → typed names result ≡ new_array_type element }
{
    match element {
        ElementType::Boolean => array_of_base(Base::Boolean),
        ElementType::Char => array_of_base(Base::Char),
        ElementType::Byte => array_of_base(Base::Byte),
        ElementType::Short => array_of_base(Base::Short),
        ElementType::Int => array_of_base(Base::Int),
        ElementType::Long => array_of_base(Base::Long),
    }
}

/// Takes a length and gives an array of numbers.
pub fn new_array(types: &TypeNames<'_, '_>, frame: &mut TypeFrame, element: ElementType) -> Outcome
    ensures { Exchanges types.now (variants.Int ∷ []) (new_array_type element ∷ []) frame.old frame.new result }
{
    exchange(
        types,
        frame,
        &[VerificationTypeOf::Int],
        Some(new_array_type(element)),
    )
}
