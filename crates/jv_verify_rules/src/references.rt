//! Instructions on references (JVMS 4.10.1.9), members aside.

ghost use Rattle.std.specs.Prelude.{◌≡◌, ℕ, List, [], None, if◌then◌else◌};
ghost use Rattle.jv_stackmap.specs.declared.verification.VerificationTypeOf.TheVariants as variants;
ghost use Rattle.std.specs.Option.{option_map};
ghost use Rattle.jv_meaning_typing.specs.FrameChanges.{is_of_kind, with_stack};
ghost use Rattle.jv_meaning_typing.specs.ValueRules.{reference_component, with_component, reference_array_load, is_array_or_null, array_length, take_reference, return_nothing};
ghost use Rattle.jv_verify_types.specs.Typed.{typed};
ghost use Rattle.jv_verify_types.specs.Numbered.{frame_of};
ghost use Rattle.jv_verify_types.specs.Outcomes.{IsOutcome, IsFrame, typed_option, outcome_of_component, Applies, AppliesToAny, Exchanges};
ghost use Rattle.jv_verify_rules.specs.Inside.Objects.{new_object, take_references, stored_reference, return_of};

use crate::stack::{exchange, take};
use crate::variables::{is_of_kind, is_reference, pop_of_kind};
use jv_code::ValueKind;
use jv_stackmap::VerificationTypeOf;
use jv_text::{Base, Element, FieldTypeOf};
use jv_verify_frame::TypeFrame;
use jv_verify_types::{Item, Outcome, TypeNames, value_type};

/// The type of what an array of references holds: null for null; `None` for what is no such array.
fn reference_component(item: Item) -> Option<Item>
    ensures { (names : List (List ℕ)) → typed_option names result ≡ reference_component (typed names item) }
{
    match item {
        VerificationTypeOf::Null => Some(VerificationTypeOf::Null),
        VerificationTypeOf::Array(components) => {
            let component = value_type(components);
            if is_reference(component) {
                Some(component)
            } else {
                None
            }
        }
        _ => None,
    }
}

fn outcome_of_component(component: Option<Item>) -> Outcome
    ensures { result ≡ outcome_of_component component }
{
    match component {
        Some(component) => Outcome::Gives(component),
        None => Outcome::Fails,
    }
}

fn load_component(frame: &mut TypeFrame) -> Outcome
    ensures { AppliesToAny (λ f. with_component f f.stack) frame.old frame.new result }
{
    match frame.pop() {
        Some(array) => outcome_of_component(reference_component(array)),
        None => Outcome::Fails,
    }
}

/// Loads a reference of an array.
pub fn reference_array_load(types: &TypeNames<'_, '_>, frame: &mut TypeFrame) -> Outcome
    ensures { IsOutcome types.now.names (reference_array_load types.now.world (frame_of types.now.names frame.old)) frame.new result }
{
    if take(types, frame, &[VerificationTypeOf::Int]) {
        load_component(frame)
    } else {
        Outcome::Fails
    }
}

/// Stores a reference in an array.
pub fn reference_array_store(types: &TypeNames<'_, '_>, frame: &mut TypeFrame) -> Outcome
    ensures { Exchanges types.now stored_reference [] frame.old frame.new result }
{
    let object = types.object();
    let objects = FieldTypeOf {
        dimensions: 0,
        element: Element::Class(object),
    };
    exchange(
        types,
        frame,
        &[
            VerificationTypeOf::Array(objects),
            VerificationTypeOf::Int,
            VerificationTypeOf::Class(object),
        ],
        None,
    )
}

/// Whether an item is an array or null.
fn is_array_or_null(item: Item) -> bool
    ensures { (names : List (List ℕ)) → result ≡ is_array_or_null (typed names item) }
{
    matches!(
        item,
        VerificationTypeOf::Null | VerificationTypeOf::Array(_)
    )
}

/// Takes an array and gives its length.
pub fn array_length(frame: &mut TypeFrame) -> Outcome
    ensures { AppliesToAny (λ f. option_map (with_stack f) (array_length f.stack)) frame.old frame.new result }
{
    match frame.pop() {
        Some(item) if is_array_or_null(item) => Outcome::Gives(VerificationTypeOf::Int),
        _ => Outcome::Fails,
    }
}

/// Takes a reference.
fn take_reference(frame: &mut TypeFrame) -> bool
    ensures { (names : List (List ℕ)) → IsFrame names (take_reference (frame_of names frame.old)) frame.new result }
{
    match pop_of_kind(frame, ValueKind::Reference) {
        Some(_) => true,
        None => false,
    }
}

/// Takes a reference, of a branch that tests it.
pub fn test_reference(frame: &mut TypeFrame) -> Outcome
    ensures { (names : List (List ℕ)) → IsOutcome names (take_reference (frame_of names frame.old)) frame.new result }
{
    if take_reference(frame) {
        Outcome::Leaves
    } else {
        Outcome::Fails
    }
}

/// Takes two references, of a branch that compares them.
pub fn test_references(frame: &mut TypeFrame) -> Outcome
    ensures { (names : List (List ℕ)) → IsOutcome names (take_references (frame_of names frame.old)) frame.new result }
{
    if take_reference(frame) {
        test_reference(frame)
    } else {
        Outcome::Fails
    }
}

/// Puts what `new` at an offset makes on the stack, where no earlier one is; copies of an earlier one in local
/// variables cannot be used any more.
pub fn new_object(frame: &mut TypeFrame, pc: u16) -> Outcome
    ensures { (names : List (List ℕ)) → IsOutcome names (new_object pc (frame_of names frame.old)) frame.new result }
{
    let object = VerificationTypeOf::Uninitialized(pc);
    if frame.has_on_stack(object) {
        return Outcome::Fails;
    }
    frame.replace_locals(object, VerificationTypeOf::Top);
    Outcome::Gives(object)
}

/// Returns no value, where the method has none to return.
pub fn return_nothing(frame: &TypeFrame, has_result: bool) -> Outcome
    ensures { AppliesToAny (λ f. (if has_result then None else return_nothing None f)) frame.now frame.now result }
{
    if has_result || frame.flag_this_uninit() {
        Outcome::Fails
    } else {
        Outcome::Leaves
    }
}

/// Returns a value of a kind, where the result's type is one of it.
pub fn return_value(
    types: &TypeNames<'_, '_>,
    frame: &mut TypeFrame,
    kind: ValueKind,
    result_type: Item,
) -> Outcome
    ensures { Applies types.now.names (return_of types.now.world kind (typed types.now.names result_type)) frame.old frame.new result }
{
    if is_of_kind(kind, result_type) {
        exchange(types, frame, &[result_type], None)
    } else {
        Outcome::Fails
    }
}
