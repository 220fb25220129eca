//! What is at fault in a constant pool (JVMS 4.4).

ghost use Rattle.std.specs.Prelude.{◌≡◌, ◌<◌, ◌≤◌, None, IfOk, length};
ghost use Rattle.jv_pool.specs.Constants.{entries_of};
ghost use Rattle.jv_pool.specs.Seen.{seen};
ghost use Rattle.jv_pool.specs.Inside.Reading.{constants};
ghost use Rattle.jv_malformed.specs.Part.{IsFaultyPool};
ghost use Rattle.jv_malformed.specs.Inside.Pools.{IsBrokenAt, IsFoundBroken, IsFoundInPool};

use jv_format::half_at;
use jv_pool::{
    Constant, Kind, Known, PoolFault, Table, all_alike, constant_at, keeps_rules_at, table_at,
};
use std::alloc::{AllocError, Global};

/// What is at fault in a constant pool. Constants go by their indices: the first has 1, and a Long and a Double take two (4.4.5).
#[derive(Clone, Copy)]
pub enum FaultyPool {
    /// The count (4.1): it is cut off, 0, or one too small for a Long or a Double at the end.
    Count,
    /// The constant at an index: it is cut off, or has the tag of none (4.4).
    Missing(u16),
    /// The constant at an index, which is of this kind and breaks the rule of its kind (4.4).
    Broken(u16, Kind),
}

// ---- constants that aren't spelled

/// How many indices a constant takes: a Long and a Double two (4.4.5).
fn indices_of(constant: Constant<&[u8]>) -> u32
    ensures all { result ≡ length (entries_of (seen constant.entry)) }
    ensures some { 0 < result }
    ensures few { result ≤ 2 }
{
    match constant {
        Constant::Long(_, _) | Constant::Double(_, _) => 2,
        _ => 1,
    }
}

/// What is at fault of bytes that begin with no list of constants: the first constant that isn't spelled, or the count.
fn missing_constant(bytes: &[u8]) -> FaultyPool
    requires { constants.read bytes.now ≡ None }
    ensures { IsFaultyPool bytes.now result }
{
    let Some((count, behind)) = half_at(bytes) else {
        return FaultyPool::Count;
    };
    let mut index: u32 = 1;
    let mut rest = behind;
    while index < count as u32 {
        let Some((constant, after)) = constant_at(rest) else {
            return FaultyPool::Missing(index as u16);
        };
        index += indices_of(constant);
        rest = after;
    }
    FaultyPool::Count
}

// ---- constants that break a rule

/// The kind of the constant at an index, where it breaks the rule of its kind.
fn broken_at(known: &Known<'_>, index: u16) -> Option<Kind>
    ensures { IsBrokenAt known.now index result }
{
    let Some(kind) = known.table().kind(index) else {
        return None;
    };
    if keeps_rules_at(known, index) {
        None
    } else {
        Some(kind)
    }
}

/// The first constant that breaks the rule of its kind.
fn first_broken(known: &Known<'_>) -> Option<FaultyPool>
    ensures { IsFoundBroken known.now result }
{
    for index in 0..known.table().count() {
        if let Some(kind) = broken_at(known, index) {
            return Some(FaultyPool::Broken(index, kind));
        }
    }
    None
}

/// The first constant of a table that breaks the rule of its kind.
fn broken_in(alloc: Global, table: Table<'_>) -> Result<Option<FaultyPool>, AllocError>
    ensures { IfOk result (IsFoundBroken table.entry) }
{
    let Ok(alike) = all_alike(alloc, &table) else {
        return Err(AllocError);
    };
    match Known::new(alloc, table, &alike) {
        Ok(known) => Ok(first_broken(&known)),
        Err(_) => Err(AllocError),
    }
}

/// What is at fault in the constant pool at the front of bytes; `None` where a pool stands there.
///
/// # Errors
///
/// Where there was no memory for what was read.
pub(crate) fn fault_of_pool(alloc: Global, bytes: &[u8]) -> Result<Option<FaultyPool>, AllocError>
    ensures { IfOk result (IsFoundInPool bytes.now) }
{
    match table_at(alloc, bytes) {
        Ok((table, _rest)) => {
            let found = broken_in(alloc, table)?;
            Ok(found)
        }
        Err(PoolFault::BadPool) => Ok(Some(missing_constant(bytes))),
        Err(PoolFault::OutOfMemory) => Err(AllocError),
    }
}
