//! The part of a file at which it stops being a class file.

ghost use Rattle.std.specs.Prelude.{IfOk};
ghost use Rattle.jv_format.specs.Format.{Finds};
ghost use Rattle.jv_meaning_world.specs.FileContent.{IsContent};
ghost use Rattle.jv_meaning_world.specs.declared.content.Content.TheVariants.{NoClassFile};
ghost use Rattle.jv_class.specs.Inside.Reading.{header, magic_number};
ghost use Rattle.jv_malformed.specs.Inside.Behind.{IsFaultyUnlessClass};
ghost use Rattle.jv_malformed.specs.Part.{BeginsWithPool, IsFaultyPart};

use crate::pool::{FaultyPool, fault_of_pool};
use crate::rules::{FaultyRules, fault_of_rules};
use crate::structure::{FaultyStructure, fault_of_structure};
use jv_class_structure::{PartsFault, read_parts};
use jv_format::{half_at, quad_at};
use std::alloc::{AllocError, Global};

/// The parts of a class file, in its order (JVMS 4.1): each is at fault only where those before it stand.
#[derive(Clone, Copy)]
pub enum FaultyPart {
    /// The magic number and the version.
    Start,
    /// The constant pool (4.4).
    Constants(FaultyPool),
    /// The structure behind the constant pool, attributes included (4.5 to 4.7).
    Structure(FaultyStructure),
    /// The rules on names, types and flags (4.1, 4.2, 4.5, 4.6), in a structure that stands.
    Rules(FaultyRules),
}

/// What follows the magic number.
fn magic_at(bytes: &[u8]) -> Option<&[u8]>
    ensures { Finds magic_number bytes.now (λ rest. (3405691582, rest.now)) result }
{
    let Some((found, rest)) = quad_at(bytes) else {
        return None;
    };
    if found == 0xcafe_babe {
        Some(rest)
    } else {
        None
    }
}

/// The minor and the major version behind the magic number, and what follows.
pub(crate) fn version_at(bytes: &[u8]) -> Option<((u16, u16), &[u8])>
    ensures { Finds header bytes.now (λ x. ((3405691582, (x.0.0, x.0.1)), x.1.now)) result }
{
    let Some(rest) = magic_at(bytes) else {
        return None;
    };
    let Some((minor, rest)) = half_at(rest) else {
        return None;
    };
    let Some((major, rest)) = half_at(rest) else {
        return None;
    };
    Some(((minor, major), rest))
}

/// The part behind a constant pool that is at fault, where one is: what stands there, or the rules on it.
fn faulty_behind_pool(alloc: Global, major: u16, bytes: &[u8]) -> Result<FaultyPart, AllocError>
    requires { BeginsWithPool bytes.now }
    ensures { IfOk result (IsFaultyUnlessClass major bytes.now) }
{
    match read_parts(alloc, major, bytes) {
        Ok(parts) => Ok(FaultyPart::Rules(fault_of_rules(&parts))),
        Err(PartsFault::Format) => {
            let fault = fault_of_structure(alloc, major, bytes)?;
            Ok(FaultyPart::Structure(fault))
        }
        Err(PartsFault::OutOfMemory) => Err(AllocError),
    }
}

/// The part behind a version that is at fault, where one is.
fn faulty_behind(alloc: Global, major: u16, bytes: &[u8]) -> Result<FaultyPart, AllocError>
    ensures { IfOk result (IsFaultyUnlessClass major bytes.now) }
{
    match fault_of_pool(alloc, bytes)? {
        Some(fault) => Ok(FaultyPart::Constants(fault)),
        None => faulty_behind_pool(alloc, major, bytes),
    }
}

/// The first part that is at fault of bytes that are no class file (JVMS 4.1), be it another version's; of others any.
///
/// # Errors
///
/// Where there was no memory for what was read.
pub fn faulty_part(alloc: Global, bytes: &[u8]) -> Result<FaultyPart, AllocError>
    ensures { IfOk result (λ part. IsContent bytes.now NoClassFile → IsFaultyPart bytes.now part) }
{
    match version_at(bytes) {
        Some(((_, major), rest)) => faulty_behind(alloc, major, rest),
        None => Ok(FaultyPart::Start),
    }
}
