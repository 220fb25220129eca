//! What is said of a part that is beyond the profile.

ghost use Rattle.std.specs.Prelude.{◌≡◌, IfOk, string_bytes};
ghost use Rattle.jv_class_structure.specs.Seen.{seen_field, seen_method};
ghost use Rattle.jv_beyond.specs.Beyond.{IsBeyond};
ghost use Rattle.jv_beyond.specs.Inside.Told.{IsPartTold};
ghost use Rattle.jv_beyond.specs.Text.{feature_of_flags, field_line, field_text, method_line, method_text};
ghost use Rattle.jv_beyond.specs.declared.beyond.Beyond.TheVariants as kinds;

use crate::beyond::Beyond;
use crate::feature::Feature;
use crate::finding::field_at;
use crate::text::{
    ShownCode, ShownConstant, ShownField, ShownMember, ShownMethod, ShownPlace, ShownVariable,
    text_at,
};
use crate::using::tell_use_in;
use bitflags::Flags;
use jv_class_structure::{Field, Method, MethodFlags, Parts};
use jv_lines::Lines;
use jv_pool::Pool;
use std::alloc::{AllocError, Global};

const NATIVE: MethodFlags = MethodFlags(0x0100);

/// A field at a place, as it is printed.
fn shown_field<'a>(pool: &Pool<'a>, place: usize, field: Field) -> ShownField<'a>
    ensures { field_line result.place result.name.now result.descriptor.now ≡ field_text pool.now place (seen_field field) }
{
    ShownField {
        place,
        name: text_at(pool, field.name.0),
        descriptor: text_at(pool, field.descriptor.0),
    }
}

/// A method at a place, as it is printed.
fn shown_method<'a>(pool: &Pool<'a>, place: usize, method: &Method<'a>) -> ShownMethod<'a>
    ensures { method_line result.place result.name.now result.descriptor.now ≡ method_text pool.now place (seen_method method.now) }
{
    ShownMethod {
        place,
        name: text_at(pool, method.name.0),
        descriptor: text_at(pool, method.descriptor.0),
    }
}

fn feature_of_flags(flags: MethodFlags) -> Feature
    ensures { result ≡ feature_of_flags flags.0 }
{
    if flags.intersects(NATIVE) {
        Feature::NativeMethods
    } else {
        Feature::SynchronizedMethods
    }
}

/// The line of source of the instruction at an offset of a method's code, where a file with these bytes says it. Nothing is promised of it.
fn line_at(alloc: Global, bytes: &[u8], method: usize, offset: usize) -> Option<u16> {
    let lines = Lines::read(alloc, bytes);
    lines.at(method, offset.min(65535) as u32)
}

/// What is said of an instruction at an offset of the code of the method at a place, in a file with these bytes.
fn tell_instruction(
    alloc: Global,
    bytes: &[u8],
    parts: &Parts<'_>,
    place: usize,
    offset: usize,
) -> Result<String, AllocError>
    requires { IsBeyond parts.now (kinds.Instruction place offset) }
    ensures { IfOk result (λ text. IsPartTold parts.now (kinds.Instruction place offset) (string_bytes text)) }
{
    let Some(method) = parts.method(place) else {
        return Ok(String::new(alloc));
    };
    let Some(body) = method.code() else {
        return Ok(String::new(alloc));
    };
    let (_, rest) = body.code.split_at(offset.min(body.code.len()));
    let shown = ShownCode {
        method: shown_method(parts.pool(), place, &method),
        place: ShownPlace {
            offset,
            line: line_at(alloc, bytes, place, offset),
            rest,
        },
    };
    shown.to_string(alloc)
}

/// What is said of an instruction at an offset of the code of the method at a place that names a constant, in a file with these bytes.
fn tell_use(
    alloc: Global,
    bytes: &[u8],
    parts: &Parts<'_>,
    place: usize,
    offset: u32,
) -> Result<String, AllocError>
    requires { IsBeyond parts.now (kinds.Use place offset) }
    ensures { IfOk result (λ text. IsPartTold parts.now (kinds.Use place offset) (string_bytes text)) }
{
    let Some(method) = parts.method(place) else {
        return Ok(String::new(alloc));
    };
    let Some(body) = method.code() else {
        return Ok(String::new(alloc));
    };
    let pool = parts.pool();
    let shown = shown_method(pool, place, &method);
    let line = line_at(alloc, bytes, place, offset as usize);
    tell_use_in(alloc, pool, shown, body.code, offset, line)
}

/// What is said of the type of the field at a place.
fn tell_field(alloc: Global, parts: &Parts<'_>, place: usize) -> Result<String, AllocError>
    requires { IsBeyond parts.now (kinds.Field place) }
    ensures { IfOk result (λ text. IsPartTold parts.now (kinds.Field place) (string_bytes text)) }
{
    match field_at(parts, place) {
        Some(field) => {
            let shown = ShownVariable {
                field: shown_field(parts.pool(), place, field),
                feature: Feature::FloatingPoint,
            };
            shown.to_string(alloc)
        }
        None => Ok(String::new(alloc)),
    }
}

/// What is said of the flags of the method at a place.
fn tell_flags(alloc: Global, parts: &Parts<'_>, place: usize) -> Result<String, AllocError>
    requires { IsBeyond parts.now (kinds.MethodFlags place) }
    ensures { IfOk result (λ text. IsPartTold parts.now (kinds.MethodFlags place) (string_bytes text)) }
{
    match parts.method(place) {
        Some(method) => {
            let shown = ShownMember {
                method: shown_method(parts.pool(), place, &method),
                feature: feature_of_flags(method.access_flags),
            };
            shown.to_string(alloc)
        }
        None => Ok(String::new(alloc)),
    }
}

/// What is said of the type of the method at a place.
fn tell_type(alloc: Global, parts: &Parts<'_>, place: usize) -> Result<String, AllocError>
    requires { IsBeyond parts.now (kinds.MethodType place) }
    ensures { IfOk result (λ text. IsPartTold parts.now (kinds.MethodType place) (string_bytes text)) }
{
    match parts.method(place) {
        Some(method) => {
            let shown = ShownMember {
                method: shown_method(parts.pool(), place, &method),
                feature: Feature::FloatingPoint,
            };
            shown.to_string(alloc)
        }
        None => Ok(String::new(alloc)),
    }
}

/// What is said of the constant at an index.
fn tell_constant(alloc: Global, parts: &Parts<'_>, index: u16) -> Result<String, AllocError>
    requires { IsBeyond parts.now (kinds.Constant index) }
    ensures { IfOk result (λ text. IsPartTold parts.now (kinds.Constant index) (string_bytes text)) }
{
    match parts.pool().constant(index) {
        Some(constant) => {
            let shown = ShownConstant {
                pool: parts.pool(),
                index,
                constant,
            };
            shown.to_string(alloc)
        }
        None => Ok(String::new(alloc)),
    }
}

/// What is said of a part that is beyond the profile of the class that a file with these bytes holds.
pub(crate) fn tell(
    alloc: Global,
    bytes: &[u8],
    parts: &Parts<'_>,
    part: Beyond,
) -> Result<String, AllocError>
    requires { IsBeyond parts.now part }
    ensures { IfOk result (λ text. IsPartTold parts.now part (string_bytes text)) }
{
    match part {
        Beyond::Instruction { method, offset } => {
            tell_instruction(alloc, bytes, parts, method, offset)
        }
        Beyond::Use { method, offset } => tell_use(alloc, bytes, parts, method, offset),
        Beyond::Field(place) => tell_field(alloc, parts, place),
        Beyond::MethodFlags(place) => tell_flags(alloc, parts, place),
        Beyond::MethodType(place) => tell_type(alloc, parts, place),
        Beyond::Constant(index) => tell_constant(alloc, parts, index),
    }
}
