//! Fields and methods that constants name (JVMS 4.4.2).

ghost use Rattle.std.specs.Prelude.{◌≡◌, map, reverse, IfOk};
ghost use Rattle.std.specs.Option.{option_map};
ghost use Rattle.jv_text.specs.Seen.{seen_field_type};
ghost use Rattle.jv_pool.specs.Constants.{field_reference_at};
ghost use Rattle.jv_pool.specs.Seen.{seen_member};
ghost use Rattle.jv_operands.specs.Wants.{of_types};
ghost use Rattle.jv_operands.specs.Seen.{seen_want};
ghost use Rattle.jv_operands.specs.Inside.Named.{FindsMethod, callable_at, field_in, field_named_in, interface_callable_at, method_in, method_named_in, seen_field, types_of, wanted_as};

use crate::types::{described, reference_type, value_type};
use crate::want::Want;
use jv_pool::{MemberName, Pool};
use jv_stackmap::VerificationTypeOf;
use jv_text::{DescFault, FieldType, is_array_name, method_type, types_agree};
use std::alloc::{AllocError, Global};

/// A field: how it is named, the class that it is named with, and the type of its values.
#[derive(Clone, Copy)]
pub(crate) struct FieldNamed<'a> {
    pub(crate) reference: MemberName<'a>,
    pub(crate) owner: VerificationTypeOf<&'a [u8]>,
    pub(crate) value: VerificationTypeOf<&'a [u8]>,
}

/// A method: its name, the class or array that it is named with, and what is wanted for its arguments, from the top of the stack down.
#[derive(Drop)]
pub(crate) struct MethodNamed<'a> {
    pub(crate) name: &'a [u8],
    pub(crate) owner: VerificationTypeOf<&'a [u8]>,
    pub(crate) wants: Vec<Want<&'a [u8]>>,
}

/// The reference of a Fieldref constant.
fn field_reference<'a>(pool: &Pool<'a>, index: u16) -> Option<MemberName<'a>>
    ensures { option_map seen_member result ≡ field_reference_at pool.now index }
{
    match pool.fieldref_index(index) {
        Some(field) => Some(pool.field_reference(field)),
        None => None,
    }
}

/// The field of a reference, where it is no array's.
fn field_in<'a>(reference: MemberName<'a>) -> Option<FieldNamed<'a>>
    ensures { option_map seen_field result ≡ field_in (seen_member reference.entry) }
{
    if is_array_name(reference.class) {
        return None;
    }
    let Some(owner) = reference_type(reference.class) else {
        return None;
    };
    match described(reference.descriptor) {
        Some(of) => Some(FieldNamed {
            reference,
            owner,
            value: value_type(of),
        }),
        None => None,
    }
}

/// The field that the constant at an index names.
pub(crate) fn field_named<'a>(pool: &Pool<'a>, index: u16) -> Option<FieldNamed<'a>>
    ensures { option_map seen_field result ≡ field_named_in pool.now index }
{
    match field_reference(pool, index) {
        Some(reference) => field_in(reference),
        None => None,
    }
}

/// The reference of an InterfaceMethodref constant, where it is no array's.
fn interface_reference<'a>(pool: &Pool<'a>, index: u16) -> Option<MemberName<'a>>
    ensures { option_map seen_member result ≡ interface_callable_at pool.now index }
{
    let Some(method) = pool.interface_methodref_index(index) else {
        return None;
    };
    let reference = pool.interface_method_reference(method);
    if is_array_name(reference.class) {
        None
    } else {
        Some(reference)
    }
}

/// The reference of a Methodref constant, or of an InterfaceMethodref constant that is no array's.
fn method_reference<'a>(pool: &Pool<'a>, index: u16) -> Option<MemberName<'a>>
    ensures { option_map seen_member result ≡ callable_at pool.now index }
{
    match pool.methodref_index(index) {
        Some(method) => Some(pool.method_reference(method)),
        None => interface_reference(pool, index),
    }
}

/// These parameters, the last first.
fn turned<'a>(alloc: Global, parameters: &[FieldType<'a>]) -> Result<Vec<FieldType<'a>>, AllocError>
    ensures { IfOk result (λ turned. turned.items ≡ reverse parameters.now) }
{
    parameters.iter().rev().copied().collect(alloc)
}

/// What is wanted for values of these types.
fn typed_wants<'a>(
    alloc: Global,
    types: &[FieldType<'a>],
) -> Result<Vec<Want<&'a [u8]>>, AllocError>
    ensures { IfOk result (λ wants. map seen_want wants.items ≡ map wanted_as types.now) }
{
    let mut wants = Vec::with_capacity(alloc, types.len())?;
    for of in types {
        wants.push(Want::Type(value_type(*of)))?;
    }
    Ok(wants)
}

/// What is wanted for the arguments of a method with these parameters, from the top of the stack down.
fn argument_wants<'a>(
    alloc: Global,
    parameters: &[FieldType<'a>],
) -> Result<Vec<Want<&'a [u8]>>, AllocError>
    ensures { IfOk result (λ wants. map seen_want wants.items ≡ of_types (types_of (map seen_field_type parameters.now))) }
{
    let turned = turned(alloc, parameters)?;
    typed_wants(alloc, &turned)
}

/// The method of a reference.
fn method_in<'a>(
    alloc: Global,
    reference: MemberName<'a>,
) -> Result<Option<MethodNamed<'a>>, AllocError>
    ensures { IfOk result (FindsMethod (method_in (seen_member reference.entry))) }
{
    types_agree();
    let Some(owner) = reference_type(reference.class) else {
        return Ok(None);
    };
    match method_type(alloc, reference.descriptor) {
        Ok(of) => {
            let wants = argument_wants(alloc, &of.parameters)?;
            Ok(Some(MethodNamed {
                name: reference.name,
                owner,
                wants,
            }))
        }
        Err(DescFault::OutOfMemory) => Err(AllocError),
        Err(DescFault::BadDescriptor) => Ok(None),
    }
}

/// The method that the constant at an index names.
pub(crate) fn method_named<'a>(
    alloc: Global,
    pool: &Pool<'a>,
    index: u16,
) -> Result<Option<MethodNamed<'a>>, AllocError>
    ensures { IfOk result (FindsMethod (method_named_in pool.now index)) }
{
    match method_reference(pool, index) {
        Some(reference) => method_in(alloc, reference),
        None => Ok(None),
    }
}
