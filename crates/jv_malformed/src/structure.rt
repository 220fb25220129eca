//! What is at fault behind the constant pool of a class file (JVMS 4.1, 4.5 to 4.7).

ghost use Rattle.std.specs.Prelude.{IfOk};
ghost use Rattle.jv_malformed.specs.Part.{BeginsWithPool, IsFaultyBehindPool};
ghost use Rattle.jv_malformed.specs.Inside.Behind.{NoStructure};
ghost use Rattle.jv_malformed.specs.Inside.Passing.{AreFieldsPassed, AreInterfacesPassed, AreMethodsPassed, IsFaultyUnlessWhole, IsHeadPassed};

use jv_class_structure::{field_at, method_at, three_at};
use jv_format::half_at;
use jv_pool::{Pool, PoolFault, read_pool};
use std::alloc::{AllocError, Global};

/// What is at fault behind a constant pool. Fields and methods go by their places in the file, the first at 0.
#[derive(Clone, Copy)]
pub enum FaultyStructure {
    /// The access flags, the indices of the class and of its superclass, or its interfaces (4.1).
    Head,
    /// The count of the fields (4.1).
    FieldCount,
    /// The field at a place, with its attributes (4.5, 4.7).
    Field(usize),
    /// The count of the methods (4.1).
    MethodCount,
    /// The method at a place, with its attributes (4.6, 4.7).
    Method(usize),
    /// The attributes of the class, and that nothing follows them (4.1, 4.7).
    End,
}

/// What follows the interfaces behind their count.
fn behind_interfaces(bytes: &[u8]) -> Option<&[u8]>
    ensures { AreInterfacesPassed bytes.now result }
{
    let Some((count, behind)) = half_at(bytes) else {
        return None;
    };
    let mut rest = behind;
    for _ in 0..count {
        let Some((_interface, after)) = half_at(rest) else {
            return None;
        };
        rest = after;
    }
    Some(rest)
}

/// What follows the access flags, the indices of the class and of its superclass, and the interfaces.
fn behind_head(bytes: &[u8]) -> Option<&[u8]>
    ensures { IsHeadPassed bytes.now result }
{
    match three_at(bytes) {
        Some((_numbers, rest)) => behind_interfaces(rest),
        None => None,
    }
}

/// What follows the fields behind their count; what is at fault, where they don't stand there.
fn behind_fields<'a>(pool: &Pool<'_>, bytes: &'a [u8]) -> Result<&'a [u8], FaultyStructure>
    ensures { AreFieldsPassed pool.now bytes.now result }
{
    let Some((count, behind)) = half_at(bytes) else {
        return Err(FaultyStructure::FieldCount);
    };
    let mut rest = behind;
    for place in 0..count as usize {
        let Some((_field, after)) = field_at(pool, rest) else {
            return Err(FaultyStructure::Field(place));
        };
        rest = after;
    }
    Ok(rest)
}

/// What follows the methods behind their count; what is at fault, where they don't stand there.
fn behind_methods<'a>(pool: &Pool<'_>, bytes: &'a [u8]) -> Result<&'a [u8], FaultyStructure>
    ensures { AreMethodsPassed pool.now bytes.now result }
{
    let Some((count, behind)) = half_at(bytes) else {
        return Err(FaultyStructure::MethodCount);
    };
    let mut rest = behind;
    for place in 0..count as usize {
        let Some((_method, after)) = method_at(pool, rest) else {
            return Err(FaultyStructure::Method(place));
        };
        rest = after;
    }
    Ok(rest)
}

/// What is at fault of bytes behind a pool that do not end where its structure does.
fn faulty_in(pool: &Pool<'_>, bytes: &[u8]) -> FaultyStructure
    ensures { IsFaultyUnlessWhole pool.now bytes.now result }
{
    let Some(behind) = behind_head(bytes) else {
        return FaultyStructure::Head;
    };
    match behind_fields(pool, behind) {
        Ok(last) => match behind_methods(pool, last) {
            Ok(_) => FaultyStructure::End,
            Err(fault) => fault,
        },
        Err(fault) => fault,
    }
}

/// What is at fault behind the pool of bytes that are no structure's behind a version. Each field and each method is looked at once.
///
/// # Errors
///
/// Where there was no memory for the pool.
pub(crate) fn fault_of_structure(
    alloc: Global,
    major: u16,
    bytes: &[u8],
) -> Result<FaultyStructure, AllocError>
    requires pool { BeginsWithPool bytes.now }
    requires none { NoStructure major bytes.now }
    ensures { IfOk result (IsFaultyBehindPool bytes.now) }
{
    match read_pool(alloc, bytes) {
        Ok((pool, taken)) => {
            let (_, rest) = bytes.split_at(taken);
            Ok(faulty_in(&pool, rest))
        }
        Err(PoolFault::BadPool) => unreachable!(),
        Err(PoolFault::OutOfMemory) => Err(AllocError),
    }
}
