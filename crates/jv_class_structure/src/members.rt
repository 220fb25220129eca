//! Reads fields and methods (JVMS 4.5, 4.6, 4.7.3).

ghost use Rattle.std.specs.Prelude.{◌≡◌, ◌<◌, length, IfSome};
ghost use Rattle.jv_format.specs.Format.{Finds, half};
ghost use Rattle.jv_format.specs.Readers.{both, enclosed, contents, such_that};
ghost use Rattle.jv_format.specs.Handlers.{handlers_of};
ghost use Rattle.jv_class_structure.specs.Flags.{has, acc_static};
ghost use Rattle.jv_class_structure.specs.Seen.{seen_field, seen_code, unpacked, seen_method};
ghost use Rattle.jv_class_structure.specs.Packed.{handlers_kept, code_front, code_in};
ghost use Rattle.jv_class_structure.specs.Inside.Kept.{seen_map, seen_found, seen_codes};
ghost use Rattle.jv_class_structure.specs.Inside.Within.{IsFoundIn};
ghost use Rattle.jv_class_structure.specs.Inside.Reading.{three, values_kept, field_kept, code_text, stack_maps_kept, code_kept, is_code, is_utf8, held_kept, method_attribute_kept, counted_codes, codes_kept, method_kept};

use crate::attributes::{
    FoundMap, contents_at, is_text, is_utf8, one_more, stack_maps_at, values_at,
};
use crate::flags::{FieldFlags, MethodFlags};
use crate::member::{Field, Method, MethodCode, PackedCode};
use bitflags::Flags;
use jv_format::{ExceptionTable, bytes_at, half_at};
use jv_pool::{Pool, Utf8Index};

/// Three numbers, and what follows them.
pub fn three_at(bytes: &[u8]) -> Option<((u16, u16, u16), &[u8])>
    ensures { Finds three bytes.now (λ x. ((x.0.0, (x.0.1, x.0.2)), x.1.now)) result }
{
    let Some((first, rest)) = half_at(bytes) else {
        return None;
    };
    let Some((second, rest)) = half_at(rest) else {
        return None;
    };
    let Some((third, rest)) = half_at(rest) else {
        return None;
    };
    Some(((first, second, third), rest))
}

// ---- fields

fn is_static(flags: u16) -> bool
    ensures { result ≡ has flags acc_static }
{
    FieldFlags(flags).intersects(FieldFlags::STATIC)
}

/// The value that the attributes at the front tell of a field with these flags, and what follows.
fn constant_value_at<'a>(
    pool: &Pool<'_>,
    flags: u16,
    bytes: &'a [u8],
) -> Option<(Option<u16>, &'a [u8])>
    ensures { Finds (values_kept pool.now (has flags acc_static)) bytes.now (λ x. (x.0, x.1.now)) result }
{
    values_at(pool, is_static(flags), bytes)
}

/// The field at the front, and what follows it.
pub fn field_at<'a>(pool: &Pool<'_>, bytes: &'a [u8]) -> Option<(Field, &'a [u8])>
    ensures { Finds (field_kept pool.now) bytes.now (λ x. (seen_field x.0, x.1.now)) result }
{
    let Some(((flags, name, descriptor), rest)) = three_at(bytes) else {
        return None;
    };
    let Some((constant_value, rest)) = constant_value_at(pool, flags, rest) else {
        return None;
    };
    let field = Field {
        access_flags: FieldFlags(flags),
        name: Utf8Index(name),
        descriptor: Utf8Index(descriptor),
        constant_value,
    };
    Some((field, rest))
}

// ---- Code

fn limits_at(bytes: &[u8]) -> Option<((u16, u16), &[u8])>
    ensures { Finds (both half half) bytes.now (λ x. ((x.0.0, x.0.1), x.1.now)) result }
{
    let Some((max_stack, rest)) = half_at(bytes) else {
        return None;
    };
    let Some((max_locals, rest)) = half_at(rest) else {
        return None;
    };
    Some(((max_stack, max_locals), rest))
}

/// Instructions behind their length, and what follows them.
fn code_text_at(bytes: &[u8]) -> Option<(&[u8], &[u8])>
    ensures { Finds code_text bytes.now (λ x. (x.0.now, x.1.now)) result }
{
    let Some((code, rest)) = contents_at(bytes) else {
        return None;
    };
    if !code.is_empty() && code.len() < 65536 {
        Some((code, rest))
    } else {
        None
    }
}

/// The entries of an exception table behind their number, and what follows them.
fn handlers_at(bytes: &[u8]) -> Option<(ExceptionTable<'_>, &[u8])>
    ensures { Finds handlers_kept bytes.now (λ x. (handlers_of x.0, x.1.now)) result }
{
    let Some((count, rest)) = half_at(bytes) else {
        return None;
    };
    let Some((bytes, rest)) = bytes_at(usize::from(count) * 8, rest) else {
        return None;
    };
    Some((ExceptionTable { bytes }, rest))
}

/// What stands before a code's attributes, and what follows it.
fn front_at(bytes: &[u8]) -> Option<(((u16, u16), (&[u8], ExceptionTable<'_>)), &[u8])>
    ensures { Finds code_front bytes.now (λ x. ((x.0.0, (x.0.1.0.now, handlers_of x.0.1.1)), x.1.now)) result }
{
    let Some((limits, rest)) = limits_at(bytes) else {
        return None;
    };
    let Some((code, rest)) = contents_at(rest) else {
        return None;
    };
    let Some((handlers, rest)) = handlers_at(rest) else {
        return None;
    };
    Some(((limits, (code, handlers)), rest))
}

/// The code that a Code attribute's contents hold, with what its StackMapTable holds.
pub(crate) fn code_in<'a>(bytes: &'a [u8], stack_map_table: Option<&'a [u8]>) -> MethodCode<'a>
    ensures { seen_code result ≡ code_in bytes.now (seen_map stack_map_table.entry) }
{
    match front_at(bytes) {
        Some((((max_stack, max_locals), (code, exception_table)), _)) => MethodCode {
            max_stack,
            max_locals,
            code,
            exception_table,
            stack_map_table,
        },
        None => MethodCode {
            max_stack: 0,
            max_locals: 0,
            code: b"".as_slice(),
            exception_table: ExceptionTable {
                bytes: b"".as_slice(),
            },
            stack_map_table,
        },
    }
}

/// The exception table and the stack map table of a code, and what follows its attributes.
fn tables_at<'a>(
    pool: &Pool<'_>,
    bytes: &'a [u8],
) -> Option<((ExceptionTable<'a>, Option<FoundMap<'a>>), &'a [u8])>
    ensures found { Finds (both handlers_kept (stack_maps_kept pool.now)) bytes.now
        (λ x. ((handlers_of x.0.0, seen_found x.0.1), x.1.now)) result }
    ensures there { IfSome result (λ x. IsFoundIn bytes.now x.0.1) }
{
    let Some((handlers, rest)) = handlers_at(bytes) else {
        return None;
    };
    let Some((map, rest)) = stack_maps_at(pool, rest) else {
        return None;
    };
    Some(((handlers, map), rest))
}

/// The stack map table of the code that a Code attribute holds, and what follows that code.
fn code_at<'a>(pool: &Pool<'_>, bytes: &'a [u8]) -> Option<(Option<FoundMap<'a>>, &'a [u8])>
    ensures found { Finds (code_kept pool.now) bytes.now (λ x. (code_in bytes.now (seen_found x.0), x.1.now)) result }
    ensures there { IfSome result (λ x. IsFoundIn bytes.now x.0) }
{
    let Some((_, rest)) = limits_at(bytes) else {
        return None;
    };
    let Some((_, rest)) = code_text_at(rest) else {
        return None;
    };
    let Some(((_, map), rest)) = tables_at(pool, rest) else {
        return None;
    };
    Some((map, rest))
}

/// The code that these contents of a Code attribute hold, by where its stack map table was found among them.
fn packed_in<'a>(contents: &'a [u8], map: Option<FoundMap<'a>>) -> PackedCode<'a>
    requires small { length contents.now < 4294967296 }
    requires there { IsFoundIn contents.now map }
    ensures { unpacked result ≡ code_in contents.now (seen_found map.entry) }
{
    match map {
        Some(FoundMap { info, behind }) => PackedCode {
            contents,
            map_place: (contents.len() - behind.len() - info.len()) as u32,
            map_length: info.len() as u32,
        },
        None => PackedCode {
            contents,
            map_place: 0,
            map_length: 0,
        },
    }
}

/// What a Code attribute holds, with the bytes that hold it, and what follows it.
fn packed_code_at<'a>(pool: &Pool<'_>, bytes: &'a [u8]) -> Option<(PackedCode<'a>, &'a [u8])>
    requires { length bytes.now < 4294967296 }
    ensures { Finds (code_kept pool.now) bytes.now (λ x. (unpacked x.0, x.1.now)) result }
{
    let Some((map, rest)) = code_at(pool, bytes) else {
        return None;
    };
    Some((packed_in(bytes, map), rest))
}

/// What a Code attribute holds behind its length, which it fills, and what follows.
fn enclosed_code_at<'a>(pool: &Pool<'_>, bytes: &'a [u8]) -> Option<(PackedCode<'a>, &'a [u8])>
    ensures { Finds (enclosed (code_kept pool.now)) bytes.now (λ x. (unpacked x.0, x.1.now)) result }
{
    let Some((inside, rest)) = contents_at(bytes) else {
        return None;
    };
    let Some((code, after)) = packed_code_at(pool, inside) else {
        return None;
    };
    if after.is_empty() {
        Some((code, rest))
    } else {
        None
    }
}

fn is_code(pool: &Pool<'_>, name: u16) -> bool
    ensures { result ≡ is_code pool.now name }
{
    is_text(pool, b"Code".as_slice(), name)
}

/// What follows the contents of an attribute of this name, which are passed over.
fn passed_over_at<'a>(pool: &Pool<'_>, name: u16, bytes: &'a [u8]) -> Option<(&'a [u8], &'a [u8])>
    ensures { Finds (such_that (λ _. is_utf8 pool.now name) contents) bytes.now (λ x. (x.0.now, x.1.now)) result }
{
    let Some((inside, rest)) = contents_at(bytes) else {
        return None;
    };
    if is_utf8(pool, name) {
        Some((inside, rest))
    } else {
        None
    }
}

/// The code that an attribute of this name holds, and what follows it.
fn held_at<'a>(
    pool: &Pool<'_>,
    name: u16,
    bytes: &'a [u8],
) -> Option<(Option<PackedCode<'a>>, &'a [u8])>
    ensures { Finds (held_kept pool.now name) bytes.now (λ x. (seen_codes x.0, x.1.now)) result }
{
    if is_code(pool, name) {
        let Some((code, rest)) = enclosed_code_at(pool, bytes) else {
            return None;
        };
        Some((Some(code), rest))
    } else {
        let Some((_, rest)) = passed_over_at(pool, name, bytes) else {
            return None;
        };
        Some((None, rest))
    }
}

/// The code that the attribute at the front holds, and what follows it.
fn method_attribute_at<'a>(
    pool: &Pool<'_>,
    bytes: &'a [u8],
) -> Option<(Option<PackedCode<'a>>, &'a [u8])>
    ensures { Finds (method_attribute_kept pool.now) bytes.now (λ x. (seen_codes x.0, x.1.now)) result }
{
    let Some((name, rest)) = half_at(bytes) else {
        return None;
    };
    held_at(pool, name, rest)
}

/// The code among as many attributes as the number says, and what follows them.
fn codes_listed<'a>(
    pool: &Pool<'_>,
    count: u16,
    bytes: &'a [u8],
) -> Option<(Option<PackedCode<'a>>, &'a [u8])>
    ensures { Finds (counted_codes pool.now count) bytes.now (λ x. (seen_codes x.0, x.1.now)) result }
{
    let mut found = None;
    let mut rest = bytes;
    for _ in 0..count {
        let Some((code, after)) = method_attribute_at(pool, rest) else {
            return None;
        };
        let Some(joined) = one_more(found, code) else {
            return None;
        };
        found = joined;
        rest = after;
    }
    Some((found, rest))
}

/// The code among the attributes at the front, and what follows them.
fn codes_at<'a>(pool: &Pool<'_>, bytes: &'a [u8]) -> Option<(Option<PackedCode<'a>>, &'a [u8])>
    ensures { Finds (codes_kept pool.now) bytes.now (λ x. (seen_codes x.0, x.1.now)) result }
{
    let Some((count, rest)) = half_at(bytes) else {
        return None;
    };
    codes_listed(pool, count, rest)
}

// ---- methods

/// The method at the front, and what follows it.
pub fn method_at<'a>(pool: &Pool<'_>, bytes: &'a [u8]) -> Option<(Method<'a>, &'a [u8])>
    ensures { Finds (method_kept pool.now) bytes.now (λ x. (seen_method x.0, x.1.now)) result }
{
    let Some(((flags, name, descriptor), rest)) = three_at(bytes) else {
        return None;
    };
    let Some((code, rest)) = codes_at(pool, rest) else {
        return None;
    };
    let method = Method {
        access_flags: MethodFlags(flags),
        name: Utf8Index(name),
        descriptor: Utf8Index(descriptor),
        code,
    };
    Some((method, rest))
}
