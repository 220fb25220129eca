//! No two fields, and no two methods, have the same name and descriptor (JVMS 4.5, 4.6).
//!
//! The pool knows for each text the first constant with that text, so that a name and a descriptor
//! come to one number, and these are compared, whatever the length of the texts.

ghost use Rattle.std.specs.Prelude.{◌≡◌, ◌↔◌, IsSome, IsTrue, IfSome, IfOk, OnErr, Err, map, nat_eq, slice_get};
ghost use Rattle.std.specs.List.{All, AllZip, IsDistinct};
ghost use Rattle.jv_pool.specs.Constants.{utf8_at};
ghost use Rattle.jv_class_structure.specs.Seen.{seen_field};
ghost use Rattle.jv_class_structure.specs.Parts.{methods_of};
ghost use Rattle.jv_class.specs.Inside.Reading.{IsKeyOf, IsFieldKey, IsMethodKey, FailsForMemory};
ghost use Rattle.jv_class.specs.Rules.{NoTwoAlike, MembersKeepRules, AreMembersUnlike};
ghost use Rattle.jv_class.specs.Inside.Shown.{shown_field_texts, shown_method_texts, AreShownUnlike};
ghost use Rattle.jv_class.specs.declared.fault.ClassFault.TheVariants.{OutOfMemory};

use crate::fault::ClassFault;
use jv_class_structure::{Field, Parts};
use jv_pool::{Pool, Utf8Index};
use std::alloc::Global;
use std::collections::BTreeSet;

/// The number of a name and a descriptor: another pair of texts has another.
fn key_of(pool: &Pool<'_>, name: Utf8Index, descriptor: Utf8Index) -> u32
    requires name { IsSome (utf8_at pool.now name.0) }
    requires descriptor { IsSome (utf8_at pool.now descriptor.0) }
    ensures { IsKeyOf pool.now name.0 descriptor.0 result }
{
    u32::from(pool.first_alike(name)) * 65536 + u32::from(pool.first_alike(descriptor))
}

/// Whether no two of the numbers are equal.
fn all_differ(alloc: Global, keys: &[u32]) -> Result<bool, ClassFault>
    ensures ok { IfOk result (λ differ. IsTrue differ ↔ IsDistinct nat_eq keys.now) }
    ensures memory { FailsForMemory result }
{
    let mut seen = BTreeSet::new(alloc);
    for key in keys {
        if !seen.insert(*key)? {
            return Ok(false);
        }
    }
    Ok(true)
}

fn field_keys(alloc: Global, pool: &Pool<'_>, fields: &[Field]) -> Result<Vec<u32>, ClassFault>
    requires { All (λ f. IsSome (shown_field_texts pool.now (seen_field f))) fields.now }
    ensures ok { IfOk result (λ keys. AllZip (IsFieldKey pool.now) fields.now keys.items) }
    ensures memory { FailsForMemory result }
{
    let Ok(mut keys) = Vec::with_capacity(alloc, fields.len()) else {
        return Err(ClassFault::OutOfMemory);
    };
    for field in fields {
        keys.push(key_of(pool, field.name, field.descriptor))?;
    }
    Ok(keys)
}

/// The number of the name and the descriptor of the method at a place; 0 where there is none.
fn method_key(parts: &Parts<'_>, place: usize) -> u32
    requires { MembersKeepRules parts.now }
    ensures { IfSome (slice_get (methods_of parts.now) place) (λ m. IsMethodKey parts.now.constant_pool m result) }
{
    match parts.method(place) {
        Some(method) => key_of(parts.pool(), method.name, method.descriptor),
        None => 0,
    }
}

fn method_keys(alloc: Global, parts: &Parts<'_>) -> Result<Vec<u32>, ClassFault>
    requires { MembersKeepRules parts.now }
    ensures ok { IfOk result (λ keys. AllZip (IsMethodKey parts.now.constant_pool) (methods_of parts.now) keys.items) }
    ensures memory { FailsForMemory result }
{
    let Ok(mut keys) = Vec::with_capacity(alloc, parts.method_count()) else {
        return Err(ClassFault::OutOfMemory);
    };
    for place in 0..parts.method_count() {
        keys.push(method_key(parts, place))?;
    }
    Ok(keys)
}

/// Whether no two fields have the same name and descriptor.
fn fields_are_unlike(alloc: Global, pool: &Pool<'_>, fields: &[Field]) -> Result<bool, ClassFault>
    requires { All (λ f. IsSome (shown_field_texts pool.now (seen_field f))) fields.now }
    ensures ok { IfOk result (λ unlike. IsTrue unlike ↔ NoTwoAlike (map (shown_field_texts pool.now) (map seen_field fields.now))) }
    ensures memory { FailsForMemory result }
{
    let keys = field_keys(alloc, pool, fields)?;
    all_differ(alloc, &keys)
}

/// Whether no two methods have the same name and descriptor.
fn methods_are_unlike(alloc: Global, parts: &Parts<'_>) -> Result<bool, ClassFault>
    requires { MembersKeepRules parts.now }
    ensures ok { IfOk result
        (λ unlike. IsTrue unlike ↔ NoTwoAlike (map (shown_method_texts parts.now.constant_pool) (methods_of parts.now))) }
    ensures memory { FailsForMemory result }
{
    let keys = method_keys(alloc, parts)?;
    all_differ(alloc, &keys)
}

/// The same of each as it was read.
fn shown_are_unlike(alloc: Global, parts: &Parts<'_>) -> Result<bool, ClassFault>
    requires { MembersKeepRules parts.now }
    ensures ok { IfOk result (λ unlike. IsTrue unlike ↔ AreShownUnlike parts.now) }
    ensures memory { FailsForMemory result }
{
    if !fields_are_unlike(alloc, parts.pool(), parts.fields())? {
        return Ok(false);
    }
    methods_are_unlike(alloc, parts)
}

/// Whether no two fields, and no two methods, are alike.
pub(crate) fn members_are_unlike(alloc: Global, parts: &Parts<'_>) -> Result<bool, ClassFault>
    requires { MembersKeepRules parts.now }
    ensures ok { IfOk result (λ unlike. IsTrue unlike ↔ AreMembersUnlike parts.now) }
    ensures memory { FailsForMemory result }
{
    shown_are_unlike(alloc, parts)
}
