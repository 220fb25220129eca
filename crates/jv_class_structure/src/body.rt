//! Reads what stands behind the constant pool (JVMS 4.1).

ghost use Rattle.std.specs.Prelude.{map};
ghost use Rattle.jv_format.specs.Format.{Finds, half};
ghost use Rattle.jv_format.specs.Readers.{list_of};
ghost use Rattle.jv_class_structure.specs.Seen.{seen_index, seen_field, seen_fields};
ghost use Rattle.jv_class_structure.specs.Inside.Kept.{seen_list, seen_body};
ghost use Rattle.jv_class_structure.specs.Inside.Reading.{Gives, GivesWhole, table, field_kept, method_kept, passed_over, members_kept, body_kept, last_kept};

use crate::attributes::values_at;
use crate::fault::PartsFault;
use crate::flags::ClassFlags;
use crate::member::Field;
use crate::members::{field_at, method_at, three_at};
use crate::method_list::MethodList;
use jv_format::half_at;
use jv_pool::{ClassIndex, Pool};
use std::alloc::Global;

/// What a class has behind its pool, but for attributes that are passed over.
#[derive(Drop)]
pub(crate) struct Body<'a> {
    pub(crate) access_flags: ClassFlags,
    pub(crate) this_class: u16,
    pub(crate) super_class: u16,
    pub(crate) interfaces: Vec<ClassIndex>,
    pub(crate) fields: Vec<Field>,
    pub(crate) methods: MethodList<'a>,
}

// ---- interfaces

/// As many interfaces as the number says, and what follows them.
fn interfaces_listed(
    alloc: Global,
    count: u16,
    bytes: &[u8],
) -> Result<(Vec<ClassIndex>, &[u8]), PartsFault>
    ensures { Gives (list_of count half) bytes.now (λ x. (map seen_index x.0.items, x.1.now)) result }
{
    let room = usize::from(count).min(bytes.len() / 2);
    let mut interfaces = Vec::with_capacity(alloc, room)?;
    let mut rest = bytes;
    for _ in 0..count {
        let Some((index, after)) = half_at(rest) else {
            return Err(PartsFault::Format);
        };
        interfaces.push(ClassIndex(index))?;
        rest = after;
    }
    Ok((interfaces, rest))
}

/// The interfaces behind their number, and what follows them.
fn interfaces_at(alloc: Global, bytes: &[u8]) -> Result<(Vec<ClassIndex>, &[u8]), PartsFault>
    ensures { Gives (table half) bytes.now (λ x. (map seen_index x.0.items, x.1.now)) result }
{
    let Some((count, rest)) = half_at(bytes) else {
        return Err(PartsFault::Format);
    };
    interfaces_listed(alloc, count, rest)
}

// ---- fields

/// As many fields as the number says, and what follows them.
fn fields_listed<'a>(
    alloc: Global,
    pool: &Pool<'_>,
    count: u16,
    bytes: &'a [u8],
) -> Result<(Vec<Field>, &'a [u8]), PartsFault>
    ensures { Gives (list_of count (field_kept pool.now)) bytes.now (λ x. (map seen_field x.0.items, x.1.now)) result }
{
    let room = usize::from(count).min(bytes.len() / 8);
    let mut fields = Vec::with_capacity(alloc, room)?;
    let mut rest = bytes;
    for _ in 0..count {
        let Some((field, after)) = field_at(pool, rest) else {
            return Err(PartsFault::Format);
        };
        fields.push(field)?;
        rest = after;
    }
    Ok((fields, rest))
}

/// The fields behind their number, and what follows them.
fn fields_at<'a>(
    alloc: Global,
    pool: &Pool<'_>,
    bytes: &'a [u8],
) -> Result<(Vec<Field>, &'a [u8]), PartsFault>
    ensures { Gives (table (field_kept pool.now)) bytes.now (λ x. (map seen_field x.0.items, x.1.now)) result }
{
    let Some((count, rest)) = half_at(bytes) else {
        return Err(PartsFault::Format);
    };
    fields_listed(alloc, pool, count, rest)
}

// ---- methods

/// As many methods as the number says, and what follows them.
fn methods_listed<'a>(
    alloc: Global,
    pool: &Pool<'_>,
    count: u16,
    bytes: &'a [u8],
) -> Result<(MethodList<'a>, &'a [u8]), PartsFault>
    ensures { Gives (list_of count (method_kept pool.now)) bytes.now (λ x. (seen_list x.0, x.1.now)) result }
{
    let room = usize::from(count).min(bytes.len() / 8);
    let mut methods = MethodList::with_capacity(alloc, room)?;
    let mut rest = bytes;
    for _ in 0..count {
        let Some((method, after)) = method_at(pool, rest) else {
            return Err(PartsFault::Format);
        };
        methods.push(method)?;
        rest = after;
    }
    methods.shrink_to_fit();
    Ok((methods, rest))
}

/// The methods behind their number, and what follows them.
fn methods_at<'a>(
    alloc: Global,
    pool: &Pool<'_>,
    bytes: &'a [u8],
) -> Result<(MethodList<'a>, &'a [u8]), PartsFault>
    ensures { Gives (table (method_kept pool.now)) bytes.now (λ x. (seen_list x.0, x.1.now)) result }
{
    let Some((count, rest)) = half_at(bytes) else {
        return Err(PartsFault::Format);
    };
    methods_listed(alloc, pool, count, rest)
}

// ---- the body

/// What follows the attributes of a class, which are passed over.
fn passed_over_at<'a>(pool: &Pool<'_>, bytes: &'a [u8]) -> Option<&'a [u8]>
    ensures { Finds (passed_over pool.now) bytes.now (λ rest. (0, rest.now)) result }
{
    match values_at(pool, false, bytes) {
        Some((_, rest)) => Some(rest),
        None => None,
    }
}

/// The methods behind their number, and what follows the attributes behind them.
fn last_at<'a>(
    alloc: Global,
    pool: &Pool<'_>,
    bytes: &'a [u8],
) -> Result<(MethodList<'a>, &'a [u8]), PartsFault>
    ensures { Gives (last_kept pool.now) bytes.now (λ x. ((seen_list x.0, 0), x.1.now)) result }
{
    let (methods, rest) = methods_at(alloc, pool, bytes)?;
    let Some(rest) = passed_over_at(pool, rest) else {
        return Err(PartsFault::Format);
    };
    Ok((methods, rest))
}

/// The fields and the methods behind their numbers, and what follows the attributes behind them.
fn members_at<'a>(
    alloc: Global,
    pool: &Pool<'_>,
    bytes: &'a [u8],
) -> Result<((Vec<Field>, MethodList<'a>), &'a [u8]), PartsFault>
    ensures { Gives (members_kept pool.now) bytes.now (λ x. ((seen_fields x.0.0.items, (seen_list x.0.1, 0)), x.1.now)) result }
{
    let (fields, rest) = fields_at(alloc, pool, bytes)?;
    let (methods, rest) = last_at(alloc, pool, rest)?;
    Ok(((fields, methods), rest))
}

/// What stands behind the pool, and what follows it.
pub(crate) fn body_at<'a>(
    alloc: Global,
    pool: &Pool<'_>,
    bytes: &'a [u8],
) -> Result<(Body<'a>, &'a [u8]), PartsFault>
    ensures { Gives (body_kept pool.now) bytes.now (λ x. (seen_body x.0, x.1.now)) result }
{
    let Some(((access_flags, this_class, super_class), rest)) = three_at(bytes) else {
        return Err(PartsFault::Format);
    };
    let (interfaces, rest) = interfaces_at(alloc, rest)?;
    let ((fields, methods), rest) = members_at(alloc, pool, rest)?;
    let body = Body {
        access_flags: ClassFlags(access_flags),
        this_class,
        super_class,
        interfaces,
        fields,
        methods,
    };
    Ok((body, rest))
}

/// What stands behind the pool, where nothing follows it.
pub(crate) fn whole_body<'a>(
    alloc: Global,
    pool: &Pool<'_>,
    bytes: &'a [u8],
) -> Result<Body<'a>, PartsFault>
    ensures { GivesWhole (body_kept pool.now) bytes.now seen_body result }
{
    let (body, rest) = body_at(alloc, pool, bytes)?;
    if rest.is_empty() {
        Ok(body)
    } else {
        Err(PartsFault::Format)
    }
}
