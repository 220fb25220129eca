//! Reads method descriptors (JVMS 4.3.3).

ghost use Rattle.std.specs.Prelude.{◌≡◌, ◌≢◌, ◌↔◌, ℕ, ◌+◌, ◌≤◌, ◌||◌, List, [], ◌∷◌, ◌++◌, Option, IsTrue, Err, IfOk, IfErr, IfSome, IfNone};
ghost use Rattle.jv_text.specs.declared.descriptor.FieldTypeOf.{FieldTypeOf};
ghost use Rattle.jv_text.specs.declared.descriptor.DescFault.{DescFault};
ghost use Rattle.jv_text.specs.Descriptor.{field_text, is_field_type, field_slots, result_text, is_result_type, MethodDescriptor, slots, is_floating, is_floating_result, IsMethod};
ghost use Rattle.jv_text.specs.Seen.{seen_field_type, seen_result, seen_method_type, HasShape};

use crate::descriptor::{
    BadDescriptor, Base, DescFault, Element, FieldType, MethodShape, MethodType,
};
use crate::field::{field_at, field_type};
use std::alloc::Global;

/// The local variables that a parameter of the type fills.
fn slots_of(t: FieldType<'_>) -> u8
    ensures { result ≡ field_slots (seen_field_type t.entry) }
{
    match t.element {
        Element::Base(Base::Long | Base::Double) if t.dimensions == 0 => 2,
        _ => 1,
    }
}

/// Whether the type is float or double, or an array of one of these.
pub fn is_floating(t: FieldType<'_>) -> bool
    ensures { result ≡ is_floating (seen_field_type t.entry) }
{
    matches!(t.element, Element::Base(Base::Float | Base::Double))
}

/// The answer for some types and one more.
fn or_floating(floating: bool, t: FieldType<'_>) -> bool
    ensures { result ≡ (floating || is_floating (seen_field_type t.entry)) }
{
    floating || is_floating(t)
}

/// The answer for some types and a result.
fn or_floating_result(floating: bool, result_type: Option<FieldType<'_>>) -> bool
    ensures { result ≡ (floating || is_floating_result (seen_result result_type.entry)) }
{
    match result_type {
        Some(t) => or_floating(floating, t),
        None => floating,
    }
}

/// Reads the parameter at the front, after others that fill so many slots. Gives the parameter,
/// the slots of all, at most 255, and what follows.
fn parameter_at(text: &[u8], slots: u8) -> Option<(FieldType<'_>, u8, &[u8])>
    ensures found { IfSome result (λ x. text.now ≡ field_text (seen_field_type x.0) ++ x.2.now) }
    ensures fits { IfSome result (λ x. IsTrue (is_field_type (seen_field_type x.0))) }
    ensures total { IfSome result (λ x. x.1 ≡ slots + field_slots (seen_field_type x.0)) }
    ensures few { IfSome result (λ x. x.1 ≤ 255) }
    ensures none { IfNone result ((t : FieldTypeOf (List ℕ)) (rest : List ℕ)
        → IsTrue (is_field_type t) → slots + field_slots t ≤ 255
        → text.now ≢ field_text t ++ rest) }
{
    let Some((t, rest)) = field_at(text) else {
        return None;
    };
    let Some(total) = slots.checked_add(slots_of(t)) else {
        return None;
    };
    Some((t, total, rest))
}

/// Whether the parameters end here.
fn is_at_end(text: &[u8]) -> bool
    ensures { IsTrue result ↔ ((rest : List ℕ) × (text.now ≡ 41 ∷ rest)) }
{
    matches!(text, [b')', ..])
}

/// The result that is described by all that stands behind the parameters: a field descriptor, or
/// `V`, for which the answer is `Some(None)`.
fn result_type(text: &[u8]) -> Option<Option<FieldType<'_>>>
    ensures found { IfSome result (λ r. text.now ≡ 41 ∷ result_text (seen_result r)) }
    ensures fits { IfSome result (λ r. IsTrue (is_result_type (seen_result r))) }
    ensures none { IfNone result ((r : Option (FieldTypeOf (List ℕ))) → IsTrue (is_result_type r)
        → text.now ≢ 41 ∷ result_text r) }
{
    match text {
        [b')', b'V'] => Some(None),
        [b')', after @ ..] => match field_type(after) {
            Ok(t) => Some(Some(t)),
            Err(_) => None,
        },
        _ => None,
    }
}

/// The slots and the result that a method descriptor describes. Takes no memory.
///
/// `Ok` exactly where `method_type` finds a method type. The parameters fill at most 255 slots; a
/// receiver is not counted here, and who knows of one counts it.
pub fn method_shape(text: &[u8]) -> Result<MethodShape<'_>, BadDescriptor>
    ensures ok { IfOk result (λ s. HasShape text.now s.slots s.floating (seen_result s.result)) }
    ensures few { IfOk result (λ s. s.slots ≤ 255) }
    ensures bad { IfErr result (λ _. (m : MethodDescriptor) → IsMethod text.now m → ⊥) }
{
    let [b'(', after @ ..] = text else {
        return Err(BadDescriptor);
    };
    let mut rest = after;
    let mut slots = 0;
    let mut floating = false;
    while !is_at_end(rest) {
        let Some((parameter, total, after)) = parameter_at(rest, slots) else {
            return Err(BadDescriptor);
        };
        slots = total;
        floating = or_floating(floating, parameter);
        rest = after;
    }
    match result_type(rest) {
        Some(result) => {
            let floating = or_floating_result(floating, result);
            Ok(MethodShape {
                slots,
                floating,
                result,
            })
        }
        None => Err(BadDescriptor),
    }
}

/// The parameters and the result that a method descriptor describes.
///
/// The parameters fill at most 255 slots; a receiver is not counted here, and who knows of one
/// counts it. `OutOfMemory` comes where a growth was refused, and then at once.
pub fn method_type(alloc: Global, text: &[u8]) -> Result<MethodType<'_>, DescFault>
    ensures ok { IfOk result (λ m. IsMethod text.now (seen_method_type m)) }
    ensures bad { result ≡ Err DescFault.BadDescriptor → (m : MethodDescriptor)
        → IsMethod text.now m → ⊥ }
{
    let [b'(', after @ ..] = text else {
        return Err(DescFault::BadDescriptor);
    };
    let mut rest = after;
    let mut parameters = Vec::new(alloc);
    let mut slots = 0;
    while !is_at_end(rest) {
        let Some((parameter, total, after)) = parameter_at(rest, slots) else {
            return Err(DescFault::BadDescriptor);
        };
        parameters.push(parameter)?;
        slots = total;
        rest = after;
    }
    match result_type(rest) {
        Some(result) => Ok(MethodType { parameters, result }),
        None => Err(DescFault::BadDescriptor),
    }
}
