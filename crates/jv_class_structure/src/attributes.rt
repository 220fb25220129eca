//! Reads attributes (JVMS 4.7). An attribute that is not looked at is passed over by its length.

ghost use Rattle.std.specs.Prelude.{◌≡◌, codes, IfSome};
ghost use Rattle.jv_format.specs.Format.{Finds, half};
ghost use Rattle.jv_format.specs.Readers.{contents, such_that};
ghost use Rattle.jv_class_structure.specs.Attributes.{is_text_at, has_attribute_name, value_index};
ghost use Rattle.jv_class_structure.specs.Inside.Kept.{seen_attribute, seen_found};
ghost use Rattle.jv_class_structure.specs.Inside.Within.{IsFoundIn, AreFoundIn};
ghost use Rattle.jv_class_structure.specs.Inside.Reading.{is_utf8, attribute, one_more, value_kept, counted_values, values_kept, stack_map_kept, counted_stack_maps, stack_maps_kept};

use jv_format::{bytes_at, half_at, quad_at};
use jv_pool::Pool;

/// An attribute: the index of its name, and its contents.
#[derive(Clone, Copy)]
pub(crate) struct Attribute<'a> {
    pub(crate) name: u16,
    pub(crate) info: &'a [u8],
}

/// The contents of a StackMapTable that was found, and all that stands behind them.
#[derive(Clone, Copy)]
pub(crate) struct FoundMap<'a> {
    pub(crate) info: &'a [u8],
    pub(crate) behind: &'a [u8],
}

/// Whether the index names a text.
pub(crate) fn is_utf8(pool: &Pool<'_>, index: u16) -> bool
    ensures { result ≡ is_utf8 pool.now index }
{
    pool.utf8_index(index).is_some()
}

/// Whether the index names this text.
pub(crate) fn is_text(pool: &Pool<'_>, text: &[u8], index: u16) -> bool
    ensures { result ≡ is_text_at pool.now text.now index }
{
    match pool.utf8_index(index) {
        Some(index) => pool.utf8(index) == text,
        None => false,
    }
}

pub(crate) fn is_constant_value(pool: &Pool<'_>, attribute: Attribute<'_>) -> bool
    ensures { result ≡ has_attribute_name pool.now (codes "ConstantValue") (seen_attribute attribute.entry) }
{
    is_text(pool, b"ConstantValue".as_slice(), attribute.name)
}

pub(crate) fn is_stack_map_table(pool: &Pool<'_>, attribute: Attribute<'_>) -> bool
    ensures { result ≡ has_attribute_name pool.now (codes "StackMapTable") (seen_attribute attribute.entry) }
{
    is_text(pool, b"StackMapTable".as_slice(), attribute.name)
}

/// The index of a name at the front, and what follows it.
fn name_at<'a>(pool: &Pool<'_>, bytes: &'a [u8]) -> Option<(u16, &'a [u8])>
    ensures { Finds (such_that (is_utf8 pool.now) half) bytes.now (λ x. (x.0, x.1.now)) result }
{
    let Some((index, rest)) = half_at(bytes) else {
        return None;
    };
    if is_utf8(pool, index) {
        Some((index, rest))
    } else {
        None
    }
}

/// The bytes behind their length, and what follows them.
pub(crate) fn contents_at(bytes: &[u8]) -> Option<(&[u8], &[u8])>
    ensures { Finds contents bytes.now (λ x. (x.0.now, x.1.now)) result }
{
    let Some((length, rest)) = quad_at(bytes) else {
        return None;
    };
    bytes_at(length as usize, rest)
}

/// The attribute at the front, and what follows it.
pub(crate) fn attribute_at<'a>(
    pool: &Pool<'_>,
    bytes: &'a [u8],
) -> Option<(Attribute<'a>, &'a [u8])>
    ensures { Finds (attribute pool.now) bytes.now (λ x. (seen_attribute x.0, x.1.now)) result }
{
    let Some((name, rest)) = name_at(pool, bytes) else {
        return None;
    };
    let Some((info, rest)) = contents_at(rest) else {
        return None;
    };
    Some((Attribute { name, info }, rest))
}

/// The index that an attribute holds, where it holds two bytes.
fn index_in(attribute: Attribute<'_>) -> Option<u16>
    ensures { result ≡ value_index (seen_attribute attribute.entry) }
{
    match half_at(attribute.info) {
        Some((index, [])) => Some(index),
        _ => None,
    }
}

/// Two values, of which one may be there.
pub(crate) fn one_more<T: Copy>(found: Option<T>, next: Option<T>) -> Option<Option<T>>
    ensures { result ≡ one_more found next }
{
    match (found, next) {
        (None, next) => Some(next),
        (Some(value), None) => Some(Some(value)),
        (Some(_), Some(_)) => None,
    }
}

// ---- a field's

/// What the attribute at the front tells of the value of a field, and what follows it.
fn value_at<'a>(
    pool: &Pool<'_>,
    is_static: bool,
    bytes: &'a [u8],
) -> Option<(Option<u16>, &'a [u8])>
    ensures { Finds (value_kept pool.now is_static) bytes.now (λ x. (x.0, x.1.now)) result }
{
    let Some((attribute, rest)) = attribute_at(pool, bytes) else {
        return None;
    };
    if is_static && is_constant_value(pool, attribute) {
        match index_in(attribute) {
            Some(index) => Some((Some(index), rest)),
            None => None,
        }
    } else {
        Some((None, rest))
    }
}

/// The value that as many attributes as the number says tell of a field, and what follows them.
fn values_listed<'a>(
    pool: &Pool<'_>,
    is_static: bool,
    count: u16,
    bytes: &'a [u8],
) -> Option<(Option<u16>, &'a [u8])>
    ensures { Finds (counted_values pool.now is_static count) bytes.now (λ x. (x.0, x.1.now)) result }
{
    let mut found = None;
    let mut rest = bytes;
    for _ in 0..count {
        let Some((value, after)) = value_at(pool, is_static, rest) else {
            return None;
        };
        let Some(joined) = one_more(found, value) else {
            return None;
        };
        found = joined;
        rest = after;
    }
    Some((found, rest))
}

/// The value that the attributes at the front tell of a field, and what follows them.
pub(crate) fn values_at<'a>(
    pool: &Pool<'_>,
    is_static: bool,
    bytes: &'a [u8],
) -> Option<(Option<u16>, &'a [u8])>
    ensures { Finds (values_kept pool.now is_static) bytes.now (λ x. (x.0, x.1.now)) result }
{
    let Some((count, rest)) = half_at(bytes) else {
        return None;
    };
    values_listed(pool, is_static, count, rest)
}

// ---- a code's

/// The stack map table that the attribute at the front is, and what follows it.
fn stack_map_at<'a>(pool: &Pool<'_>, bytes: &'a [u8]) -> Option<(Option<FoundMap<'a>>, &'a [u8])>
    ensures found { Finds (stack_map_kept pool.now) bytes.now (λ x. (seen_found x.0, x.1.now)) result }
    ensures there { IfSome result (λ x. AreFoundIn bytes.now x.0 x.1.now) }
{
    let Some((attribute, rest)) = attribute_at(pool, bytes) else {
        return None;
    };
    if is_stack_map_table(pool, attribute) {
        let found = FoundMap {
            info: attribute.info,
            behind: rest,
        };
        Some((Some(found), rest))
    } else {
        Some((None, rest))
    }
}

/// The stack map table among as many attributes as the number says, and what follows them.
fn stack_maps_listed<'a>(
    pool: &Pool<'_>,
    count: u16,
    bytes: &'a [u8],
) -> Option<(Option<FoundMap<'a>>, &'a [u8])>
    ensures found { Finds (counted_stack_maps pool.now count) bytes.now (λ x. (seen_found x.0, x.1.now)) result }
    ensures there { IfSome result (λ x. IsFoundIn bytes.now x.0) }
{
    let mut found = None;
    let mut rest = bytes;
    for _ in 0..count {
        let Some((map, after)) = stack_map_at(pool, rest) else {
            return None;
        };
        let Some(joined) = one_more(found, map) else {
            return None;
        };
        found = joined;
        rest = after;
    }
    Some((found, rest))
}

/// The stack map table among the attributes at the front, and what follows them.
pub(crate) fn stack_maps_at<'a>(
    pool: &Pool<'_>,
    bytes: &'a [u8],
) -> Option<(Option<FoundMap<'a>>, &'a [u8])>
    ensures found { Finds (stack_maps_kept pool.now) bytes.now (λ x. (seen_found x.0, x.1.now)) result }
    ensures there { IfSome result (λ x. IsFoundIn bytes.now x.0) }
{
    let Some((count, rest)) = half_at(bytes) else {
        return None;
    };
    stack_maps_listed(pool, count, rest)
}
