//! The instruction at an offset of the method with a name and a descriptor.

ghost use Rattle.std.specs.Prelude.{◌≡◌, ◌↔◌, IfOk, IfSome, IsSome, IsTrue, Some, slice_get};
ghost use Rattle.jv_class_structure.specs.Parts.{methods_of};
ghost use Rattle.jv_class_structure.specs.Seen.{seen_method};
ghost use Rattle.jv_pool.specs.Constants.{utf8_at};
ghost use Rattle.jv_place.specs.Inside.Found.{IsAtPlace, IsInMethods, IsOfMethod, text_in};

use crate::code::text_at;
use jv_class::{ClassFile, Method};
use jv_pool::Pool;
use std::alloc::{AllocError, Global};

/// A method by its name and descriptor, and an offset in its code.
#[derive(Clone, Copy)]
pub(crate) struct Wanted<'n> {
    pub(crate) name: &'n [u8],
    pub(crate) descriptor: &'n [u8],
    pub(crate) offset: u32,
}

/// Whether a method has this name and descriptor.
fn is_named(pool: &Pool<'_>, method: &Method<'_>, wanted: Wanted<'_>) -> bool
    requires named { IsSome (utf8_at pool.now method.now.name.0) }
    requires described { IsSome (utf8_at pool.now method.now.descriptor.0) }
    ensures { IsTrue result ↔ (utf8_at pool.now method.now.name.0 ≡ Some wanted.entry.name.now)
        × (utf8_at pool.now method.now.descriptor.0 ≡ Some wanted.entry.descriptor.now) }
{
    pool.utf8(method.name) == wanted.name && pool.utf8(method.descriptor) == wanted.descriptor
}

/// The text of the instruction in the code of a method that is named so.
fn text_of<'a>(
    alloc: Global,
    pool: &Pool<'a>,
    method: &Method<'a>,
    wanted: Wanted<'_>,
) -> Result<Option<String>, AllocError>
    requires named { IsSome (utf8_at pool.now method.now.name.0) }
    requires described { IsSome (utf8_at pool.now method.now.descriptor.0) }
    ensures { IfOk result (λ text. IsOfMethod pool.now (seen_method method.now) wanted.entry (text_in text)) }
{
    if !is_named(pool, method, wanted) {
        return Ok(None);
    }
    match method.code() {
        Some(body) => text_at(alloc, pool, body.code, wanted.offset),
        None => Ok(None),
    }
}

/// The same of the method at a place of a class.
fn text_at_place(
    alloc: Global,
    file: &ClassFile<'_>,
    place: usize,
    wanted: Wanted<'_>,
) -> Result<Option<String>, AllocError>
    ensures { IfOk result (λ text. IsAtPlace file.now place wanted.entry (text_in text)) }
{
    match file.method(place) {
        Some(method) => text_of(alloc, file.pool(), &method, wanted),
        None => Ok(None),
    }
}

/// The same of the method of a class that is named so.
pub(crate) fn text_in(
    alloc: Global,
    file: &ClassFile<'_>,
    wanted: Wanted<'_>,
) -> Result<Option<String>, AllocError>
    ensures { IfOk result (λ text. IsInMethods file.now wanted.entry (text_in text)) }
{
    for place in 0..file.method_count() {
        let text = text_at_place(alloc, file, place, wanted)?;
        if text.is_some() {
            return Ok(text);
        }
    }
    Ok(None)
}
