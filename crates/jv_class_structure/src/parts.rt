//! The parts of a class file behind its version.

ghost use Rattle.std.specs.Prelude.{◌≡◌, IfOk, Err, map, length, slice_get};
ghost use Rattle.std.specs.Option.{option_map};
ghost use Rattle.jv_class_structure.specs.Structure.{ClassStructure};
ghost use Rattle.jv_class_structure.specs.Parts.{IsBehindVersion, field_shown, methods_of};
ghost use Rattle.jv_class_structure.specs.Seen.{seen_index, seen_field, seen_method};
ghost use Rattle.jv_class_structure.specs.declared.fault.PartsFault.TheVariants.{Format};

use crate::body::{Body, whole_body};
use crate::fault::PartsFault;
use crate::flags::ClassFlags;
use crate::member::{Field, Method};
use jv_pool::{ClassIndex, Pool, PoolFault, one_pool, read_pool};
use std::alloc::Global;
use std::marker::Model;

/// A class's structure that was read, before the rules on names, types and flags. Its code and
/// tables are parts of the file, and attributes that were passed over take no memory.
#[derive(Drop)]
pub struct Parts<'a> {
    major: u16,
    pool: Pool<'a>,
    bytes: &'a [u8],
    body: Body<'a>,
}

impl<'a> Model for Parts<'a> {
    ghost use Rattle.jv_class_structure.specs.Structure.{ClassStructure};
    ghost use Rattle.jv_class_structure.specs.Inside.Kept.{seen_body};
    ghost use Rattle.jv_class_structure.specs.Inside.Reading.{structure_in, AreBody};

    ghost Value = { ClassStructure };

    ghost view = { λ c. structure_in c.major c.pool c.bytes.now };

    ghost invariant = { λ c. AreBody c.pool c.bytes.now (seen_body c.body) };
}

/// The parts that the bytes behind a version are, which is this major version and 0.
///
/// A refused call keeps nothing.
///
/// # Errors
///
/// `Format` where the bytes are no class structure's, and `OutOfMemory` where the host had none for the
/// constant pool or for the lists of interfaces, fields and methods.
pub fn read_parts<'a>(alloc: Global, major: u16, bytes: &'a [u8]) -> Result<Parts<'a>, PartsFault>
    ensures ok { IfOk result (λ c. IsBehindVersion major bytes.now c) }
    ensures format { result ≡ Err Format → (c : ClassStructure) → IsBehindVersion major bytes.now c → ⊥ }
{
    let (pool, taken) = match read_pool(alloc, bytes) {
        Ok(found) => found,
        Err(PoolFault::BadPool) => return Err(PartsFault::Format),
        Err(PoolFault::OutOfMemory) => return Err(PartsFault::OutOfMemory),
    };
    one_pool();
    let (_, rest) = bytes.split_at(taken);
    match whole_body(alloc, &pool, rest) {
        Ok(body) => Ok(Parts {
            major,
            pool,
            bytes: rest,
            body,
        }),
        Err(fault) => Err(fault),
    }
}

impl<'a> Parts<'a> {
    /// The major version; the minor is 0 (JVMS 4.1).
    pub fn major(&self) -> u16
        ensures { result ≡ self.now.major_version }
    {
        self.major
    }

    /// The constant pool (JVMS 4.4).
    pub fn pool(&self) -> &Pool<'a>
        ensures { result.now ≡ self.now.constant_pool }
    {
        &self.pool
    }

    pub fn access_flags(&self) -> ClassFlags
        ensures { result.0 ≡ self.now.access_flags }
    {
        self.body.access_flags
    }

    pub fn this_class(&self) -> u16
        ensures { result ≡ self.now.this_class }
    {
        self.body.this_class
    }

    pub fn super_class(&self) -> u16
        ensures { result ≡ self.now.super_class }
    {
        self.body.super_class
    }

    pub fn interfaces(&self) -> &[ClassIndex]
        ensures { map seen_index result.now ≡ self.now.interfaces }
    {
        &self.body.interfaces
    }

    pub fn fields(&self) -> &[Field]
        ensures { map seen_field result.now ≡ map (field_shown self.now.constant_pool) self.now.fields }
    {
        &self.body.fields
    }

    /// How many methods there are.
    pub fn method_count(&self) -> usize
        ensures { result ≡ length (methods_of self.now) }
    {
        self.body.methods.len()
    }

    /// The method at a place, the first at 0; `None` behind the last.
    pub fn method(&self, place: usize) -> Option<Method<'a>>
        ensures { option_map seen_method result ≡ slice_get (methods_of self.now) place }
    {
        self.body.methods.get(place)
    }
}
