//! A pool read, and what its indices name (JVMS 4.4).

use crate::files::HI;
use jv_pool::{Constant, Kind, MemberName, Pool, PoolFault, one_pool, read_pool};
use std::alloc::Global;

/// The pool of `HI`, 109 bytes, and what stands behind it.
fn pool_of_hi() -> &'static [u8] {
    let (_version, behind_it) = HI.split_at(8);
    behind_it
}

/// What is said of bytes as a pool.
fn answer_to(alloc: Global, bytes: &[u8]) -> &'static str {
    match read_pool(alloc, bytes) {
        Ok(_) => "Read",
        Err(PoolFault::BadPool) => "BadPool",
        Err(PoolFault::OutOfMemory) => "Memory",
    }
}

/// Whether that text stands at an index, and the first that is like it there.
fn is_text(pool: &Pool<'_>, index: u16, wanted: &[u8], first: u16) -> bool {
    match pool.utf8_index(index) {
        Some(text) => pool.utf8(text) == wanted && pool.first_alike(text) == first,
        None => false,
    }
}

/// Whether the text at an index may be the name of a method.
fn may_name_a_method(pool: &Pool<'_>, index: u16) -> bool {
    match pool.utf8_index(index) {
        Some(text) => pool.facts(text).method_name,
        None => false,
    }
}

/// Whether the class of that name stands at an index.
fn is_class(pool: &Pool<'_>, index: u16, wanted: &[u8]) -> bool {
    match pool.class_index(index) {
        Some(class) => pool.class_name(class) == wanted,
        None => false,
    }
}

/// Whether the String with that text stands at an index.
fn is_string(pool: &Pool<'_>, index: u16, wanted: &[u8]) -> bool {
    match pool.string_index(index) {
        Some(string) => pool.string(string) == wanted,
        None => false,
    }
}

/// Whether a NameAndType with that descriptor stands at an index.
fn has_descriptor(pool: &Pool<'_>, index: u16, wanted: &[u8]) -> bool {
    match pool.name_and_type_index(index) {
        Some(member) => pool.name_and_type(member).descriptor == wanted,
        None => false,
    }
}

/// Whether a member has this class, name and descriptor.
fn is_member(found: MemberName<'_>, class: &[u8], name: &[u8], descriptor: &[u8]) -> bool {
    found.class == class && found.name == name && found.descriptor == descriptor
}

#[test]
fn law() {
    one_pool();
}

/// Whether these are the kinds of the pool of `HI`.
fn has_kinds(pool: &Pool<'_>) -> bool {
    pool.count() == 14
        && pool.kind(0).is_none()
        && matches!(pool.kind(12), Some(Kind::NameAndType))
        && matches!(pool.kind(13), Some(Kind::Methodref))
        && pool.kind(14).is_none()
        && matches!(pool.constant(13), Some(Constant::Methodref(9, 12)))
}

/// Whether these are the texts and classes of the pool of `HI`.
fn has_texts(pool: &Pool<'_>) -> bool {
    is_text(pool, 1, b"Hi", 1)
        && may_name_a_method(pool, 1)
        && pool.utf8_index(2).is_none()
        && is_class(pool, 2, b"Hi")
        && pool.class_index(1).is_none()
}

/// Whether these are the members of the pool of `HI`.
fn has_members(pool: &Pool<'_>) -> bool {
    let is_write = match pool.methodref_index(13) {
        Some(method) => is_member(pool.method_reference(method), b"host/Io", b"write", b"(I)V"),
        None => false,
    };
    is_write && has_descriptor(pool, 12, b"(I)V") && pool.methodref_index(12).is_none()
}

/// For a run with an allocation refused.
#[test]
fn reads_or_has_no_memory(rt: HostRuntime) {
    let is_right = match read_pool(rt.alloc(), pool_of_hi()) {
        Ok((_, taken)) => taken == 109,
        Err(fault) => matches!(fault, PoolFault::OutOfMemory),
    };
    assert!(rt; is_right);
}

/// Bytes, and what is said of them as a pool. Behind four that are cut, six constants each: the Methodref of the
/// class `A` with a name and a descriptor.
static POOLS: [(&[u8], &str); 10] = [
    (b"", "BadPool"),
    (b"\x00", "BadPool"),
    (b"\x00\x00", "BadPool"),
    (b"\x00\x02", "BadPool"),
    (
        b"\x00\x07\x01\x00\x01A\x07\x00\x01\x01\x00\x06<init>\x01\x00\x03()V\x0c\x00\x03\x00\x04\x0a\x00\x02\x00\x05",
        "Read",
    ),
    (
        b"\x00\x07\x01\x00\x01A\x07\x00\x01\x01\x00\x06<init>\x01\x00\x03()I\x0c\x00\x03\x00\x04\x0a\x00\x02\x00\x05",
        "BadPool",
    ),
    (
        b"\x00\x07\x01\x00\x01A\x07\x00\x01\x01\x00\x08<clinit>\x01\x00\x03()V\x0c\x00\x03\x00\x04\x0a\x00\x02\x00\x05",
        "BadPool",
    ),
    (
        b"\x00\x07\x01\x00\x01A\x07\x00\x01\x01\x00\x01a\x01\x00\x03()I\x0c\x00\x03\x00\x04\x0a\x00\x02\x00\x05",
        "Read",
    ),
    (
        b"\x00\x07\x01\x00\x01A\x07\x00\x01\x01\x00\x01a\x01\x00\x01I\x0c\x00\x03\x00\x04\x0a\x00\x02\x00\x05",
        "BadPool",
    ),
    (
        b"\x00\x07\x01\x00\x01A\x07\x00\x01\x01\x00\x00\x01\x00\x03()V\x0c\x00\x03\x00\x04\x0a\x00\x02\x00\x05",
        "BadPool",
    ),
];

#[test]
fn answers(rt: HostRuntime) {
    for (bytes, wanted) in &POOLS {
        assert!(rt; answer_to(rt.alloc(), bytes) == *wanted, "{bytes:?}");
    }
}

/// Integer -2, Long 2^32 + 1 at 2 and 3, `A` at 4 and 10, its Class, `f`, `I`, their NameAndType, a
/// Fieldref, a String, a Float.
const NUMBERS: &[u8] = b"\x00\x0d\x03\xff\xff\xff\xfe\x05\x00\x00\x00\x01\x00\x00\x00\x01\
\x01\x00\x01A\x07\x00\x04\x01\x00\x01f\x01\x00\x01I\x0c\x00\x06\x00\x07\
\x09\x00\x05\x00\x08\x01\x00\x01A\x08\x00\x0a\x04\x7f\x80\x00\x00";

/// Whether that int stands at an index.
fn is_integer(pool: &Pool<'_>, index: u16, wanted: i32) -> bool {
    match pool.integer_index(index) {
        Some(integer) => pool.integer(integer) == wanted,
        None => false,
    }
}

/// Whether that long stands at an index.
fn is_long(pool: &Pool<'_>, index: u16, wanted: i64) -> bool {
    match pool.long_index(index) {
        Some(long) => pool.long(long) == wanted,
        None => false,
    }
}

/// Whether these are the numbers of the pool of `NUMBERS`.
fn has_numbers(pool: &Pool<'_>) -> bool {
    is_integer(pool, 1, -2)
        && is_long(pool, 2, 0x1_0000_0001)
        && pool.kind(3).is_none()
        && matches!(pool.kind(12), Some(Kind::Float))
}

/// Whether these are the texts that are alike in the pool of `NUMBERS`, and its field.
fn has_names(pool: &Pool<'_>) -> bool {
    let is_field = match pool.fieldref_index(9) {
        Some(field) => is_member(pool.field_reference(field), b"A", b"f", b"I"),
        None => false,
    };
    is_field
        && is_text(pool, 10, b"A", 4)
        && is_string(pool, 11, b"A")
        && pool.interface_methodref_index(9).is_none()
}

/// Whether the method `m` of the interface `A` is at index 6.
fn has_interface_method(pool: &Pool<'_>) -> bool {
    match pool.interface_methodref_index(6) {
        Some(m) => is_member(pool.interface_method_reference(m), b"A", b"m", b"()V"),
        None => false,
    }
}

/// A pool that is read.
#[derive(Clone, Copy, Debug)]
enum Example {
    OfAFile,
    Empty,
    WithNumbers,
    OfAnInterface,
}

static EXAMPLES: [(Example, &[u8]); 3] = [
    (Example::Empty, b"\x00\x01more"),
    (Example::WithNumbers, NUMBERS),
    (
        Example::OfAnInterface,
        b"\x00\x07\x01\x00\x01A\x07\x00\x01\x01\x00\x01m\x01\x00\x03()V\
\x0c\x00\x03\x00\x04\x0b\x00\x02\x00\x05",
    ),
];

/// Whether a pool has what its example has, and as many bytes were taken.
fn is_example(example: Example, pool: &Pool<'_>, taken: usize) -> bool {
    match example {
        Example::OfAFile => {
            taken == 109 && has_kinds(pool) && has_texts(pool) && has_members(pool)
        }
        Example::Empty => taken == 2 && pool.kind(1).is_none(),
        Example::WithNumbers => has_numbers(pool) && has_names(pool),
        Example::OfAnInterface => has_interface_method(pool),
    }
}

/// Whether bytes are read as the pool of an example.
fn is_read(alloc: Global, example: Example, bytes: &[u8]) -> bool {
    match read_pool(alloc, bytes) {
        Ok((pool, taken)) => is_example(example, &pool, taken),
        Err(_) => false,
    }
}

#[test]
fn examples(rt: HostRuntime) {
    assert!(rt; is_read(rt.alloc(), Example::OfAFile, pool_of_hi()));
    for (example, bytes) in &EXAMPLES {
        assert!(rt; is_read(rt.alloc(), *example, bytes), "{example:?}");
    }
}
