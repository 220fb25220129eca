//! The line of an offset, in a class file.

use crate::code::line_in;
use crate::reading::{Rest, index_of, is_alike, is_text};
use jv_pool::{Pool, read_pool};
use std::alloc::Global;

/// Passes the fields (4.5).
fn pass_fields(rest: &mut Rest<'_>) -> Option<()> {
    let fields = rest.half()?;
    for _ in 0..fields {
        let _flags_and_texts = rest.bytes(6)?;
        let attributes = rest.half()?;
        for _ in 0..attributes {
            let _attribute = rest.attribute()?;
        }
    }
    Some(())
}

/// A method (4.6): the indices of its name and its descriptor, and the contents of its Code attribute, none where it has no such one.
#[derive(Clone, Copy)]
pub(crate) struct MethodFound<'a> {
    pub(crate) name: u16,
    pub(crate) descriptor: u16,
    pub(crate) code: &'a [u8],
}

/// The next method; of several Code attributes the first (4.7.3).
pub(crate) fn method_in<'a>(pool: &Pool<'a>, rest: &mut Rest<'a>) -> Option<MethodFound<'a>> {
    let _flags = rest.half()?;
    let name = rest.half()?;
    let descriptor = rest.half()?;
    let attributes = rest.half()?;
    let mut code = None;
    for _ in 0..attributes {
        let (attribute, contents) = rest.attribute()?;
        if code.is_none() && is_text(pool, attribute, b"Code".as_slice()) {
            code = Some(contents);
        }
    }
    Some(MethodFound {
        name,
        descriptor,
        code: code.unwrap_or(b"".as_slice()),
    })
}

/// The contents of the Code attribute of the method with this name and descriptor, where the class has it (4.6, 4.7.3).
fn code_of<'a>(
    pool: &Pool<'a>,
    rest: &mut Rest<'a>,
    name: &[u8],
    descriptor: &[u8],
) -> Option<&'a [u8]> {
    let name = index_of(pool, name)?;
    let descriptor = index_of(pool, descriptor)?;
    let methods = rest.half()?;
    for _ in 0..methods {
        let method = method_in(pool, rest)?;
        if is_alike(pool, method.name, name) && is_alike(pool, method.descriptor, descriptor) {
            return Some(method.code);
        }
    }
    None
}

/// Whether the class with an index has this name.
fn is_class(pool: &Pool<'_>, index: u16, name: &[u8]) -> bool {
    match pool.class_index(index) {
        Some(index) => pool.class_name(index) == name,
        None => false,
    }
}

/// The pool of a class file with these bytes, the index of its class, and what begins with the number of its methods (4.1).
pub(crate) fn methods_in<'a>(alloc: Global, bytes: &'a [u8]) -> Option<(Pool<'a>, u16, Rest<'a>)> {
    let mut rest = Rest(bytes);
    let _magic_and_version = rest.bytes(8)?;
    let Ok((pool, taken)) = read_pool(alloc, rest.0) else {
        return None;
    };
    let _pool = rest.bytes(taken)?;
    let _flags = rest.half()?;
    let this = rest.half()?;
    let _super = rest.half()?;
    let interfaces = rest.half()?;
    let _interfaces = rest.bytes(usize::from(interfaces) * 2)?;
    pass_fields(&mut rest)?;
    Some((pool, this, rest))
}

/// The line of source of the instruction at an offset of the method with this name and descriptor, where a file with these bytes holds the
/// class with this name and has a LineNumberTable that says it (JVMS 4.1, 4.7.12). `None` where it doesn't, and for want of memory.
pub fn line_of(
    alloc: Global,
    bytes: &[u8],
    class: &[u8],
    name: &[u8],
    descriptor: &[u8],
    offset: u16,
) -> Option<u16> {
    let (pool, this, mut rest) = methods_in(alloc, bytes)?;
    if !is_class(&pool, this, class) {
        return None;
    }
    let code = code_of(&pool, &mut rest, name, descriptor)?;
    line_in(&pool, code, offset)
}
