//! The first part of a class that is beyond the profile.

ghost use Rattle.std.specs.Prelude.{◌≡◌, ◌↔◌, ℕ, IfNone, IfSome, IsTrue, slice_get};
ghost use Rattle.std.specs.Option.{option_map};
ghost use Rattle.jv_class_structure.specs.Parts.{fields_of, methods_of};
ghost use Rattle.jv_class_structure.specs.Seen.{seen_field, seen_method};
ghost use Rattle.jv_class.specs.Supported.{AreSupportedFlags, IsSupportedType};
ghost use Rattle.jv_beyond.specs.Inside.Found.{IsFound, IsFoundAt, IsFoundOf};
ghost use Rattle.jv_beyond.specs.Inside.Used.{IsUseFound, NoUseBelow};
ghost use Rattle.jv_beyond.specs.Uses.{IsUse};

use crate::beyond::Beyond;
use crate::code::offset_in;
use crate::supported::{are_supported_flags, is_supported_entry, is_supported_type};
use crate::uses::use_in;
use jv_class_structure::{Field, Method, Parts};
use jv_code::Code;
use jv_pool::Pool;

// ---- at a place

/// The instruction of the method at a place that is beyond the profile.
fn instruction_at(parts: &Parts<'_>, place: usize) -> Option<Beyond>
    ensures { IsFoundAt parts.now 0 place result }
{
    let Some(method) = parts.method(place) else {
        return None;
    };
    match offset_in(&method) {
        Some(offset) => Some(Beyond::Instruction {
            method: place,
            offset,
        }),
        None => None,
    }
}

/// The offset of the first instruction of a method's code that is of the profile and names a constant that is not.
fn use_of(pool: &Pool<'_>, method: &Method<'_>) -> Option<u32>
    ensures found { IfSome result (λ offset. IsUse pool.now (seen_method method.now) offset) }
    ensures first { IfSome result (λ offset. NoUseBelow pool.now (seen_method method.now) offset) }
    ensures none { IfNone result ((offset : ℕ) → IsUse pool.now (seen_method method.now) offset → ⊥) }
{
    let Some(body) = method.code() else {
        return None;
    };
    match Code::read(body.code) {
        Ok(code) => use_in(pool, &code),
        Err(_) => None,
    }
}

/// The first instruction of the method at a place that is of the profile and names a constant that is not.
fn use_at(parts: &Parts<'_>, place: usize) -> Option<Beyond>
    ensures { IsUseFound parts.now place result }
{
    let Some(method) = parts.method(place) else {
        return None;
    };
    match use_of(parts.pool(), &method) {
        Some(offset) => Some(Beyond::Use {
            method: place,
            offset,
        }),
        None => None,
    }
}

/// The field at a place.
pub(crate) fn field_at(parts: &Parts<'_>, place: usize) -> Option<Field>
    ensures { option_map seen_field result ≡ slice_get (fields_of parts.now) place }
{
    match parts.fields().get(place) {
        Some(field) => Some(*field),
        None => None,
    }
}

/// Whether the profile supports the type of the field at a place; also where there is none.
fn is_supported_field(parts: &Parts<'_>, place: usize) -> bool
    ensures { IsTrue result ↔ IfSome (slice_get (fields_of parts.now) place)
        (λ f. IsSupportedType parts.now.constant_pool f.descriptor_index) }
{
    match field_at(parts, place) {
        Some(field) => is_supported_type(parts.pool(), field.descriptor.0),
        None => true,
    }
}

/// Whether the profile supports the flags of the method at a place; also where there is none.
fn has_supported_flags(parts: &Parts<'_>, place: usize) -> bool
    ensures { IsTrue result ↔ IfSome (slice_get (methods_of parts.now) place)
        (λ m. AreSupportedFlags parts.now.constant_pool m.name_index m.access_flags) }
{
    match parts.method(place) {
        Some(method) => are_supported_flags(parts.pool(), method),
        None => true,
    }
}

/// Whether the profile supports the type of the method at a place; also where there is none.
fn has_supported_type(parts: &Parts<'_>, place: usize) -> bool
    ensures { IsTrue result ↔ IfSome (slice_get (methods_of parts.now) place)
        (λ m. IsSupportedType parts.now.constant_pool m.descriptor_index) }
{
    match parts.method(place) {
        Some(method) => is_supported_type(parts.pool(), method.descriptor.0),
        None => true,
    }
}

// ---- the first of each rank

fn first_instruction(parts: &Parts<'_>) -> Option<Beyond>
    ensures { IsFoundOf parts.now 0 result }
{
    for place in 0..parts.method_count() {
        let found = instruction_at(parts, place);
        if found.is_some() {
            return found;
        }
    }
    None
}

fn first_use(parts: &Parts<'_>) -> Option<Beyond>
    ensures { IsFoundOf parts.now 1 result }
{
    for place in 0..parts.method_count() {
        let found = use_at(parts, place);
        if found.is_some() {
            return found;
        }
    }
    None
}

fn first_field(parts: &Parts<'_>) -> Option<Beyond>
    ensures { IsFoundOf parts.now 2 result }
{
    for place in 0..parts.fields().len() {
        if !is_supported_field(parts, place) {
            return Some(Beyond::Field(place));
        }
    }
    None
}

fn first_flags(parts: &Parts<'_>) -> Option<Beyond>
    ensures { IsFoundOf parts.now 3 result }
{
    for place in 0..parts.method_count() {
        if !has_supported_flags(parts, place) {
            return Some(Beyond::MethodFlags(place));
        }
    }
    None
}

fn first_type(parts: &Parts<'_>) -> Option<Beyond>
    ensures { IsFoundOf parts.now 4 result }
{
    for place in 0..parts.method_count() {
        if !has_supported_type(parts, place) {
            return Some(Beyond::MethodType(place));
        }
    }
    None
}

fn first_constant(parts: &Parts<'_>) -> Option<Beyond>
    ensures { IsFoundOf parts.now 5 result }
{
    let pool = parts.pool();
    for index in 1..pool.count() {
        if !is_supported_entry(pool, index) {
            return Some(Beyond::Constant(index));
        }
    }
    None
}

/// The part of a class that is beyond the profile, before which comes no other.
pub(crate) fn first_beyond(parts: &Parts<'_>) -> Option<Beyond>
    ensures { IsFound parts.now result }
{
    if let Some(part) = first_instruction(parts) {
        return Some(part);
    }
    if let Some(part) = first_use(parts) {
        return Some(part);
    }
    if let Some(part) = first_field(parts) {
        return Some(part);
    }
    if let Some(part) = first_flags(parts) {
        return Some(part);
    }
    if let Some(part) = first_type(parts) {
        return Some(part);
    }
    first_constant(parts)
}
