//! java/lang/Cloneable and java/io/Serializable.

ghost use Rattle.std.specs.Prelude.{◌≡◌, IfOk};
ghost use Rattle.jv_class_structure.specs.Structure.{class_bytes};
ghost use Rattle.jv_meaning_world.specs.System.Interfaces.{cloneable_file, serializable_file};

use crate::flag::INTERFACE;
use crate::out_of_memory::OutOfMemory;
use crate::written::written;
use jv_asm::{Constant, Description};
use std::alloc::Global;

const INTERFACE_CLASS: u16 = 2;

const OBJECT_CLASS: u16 = 4;

static CLONEABLE: Description<'static> = Description {
    minor_version: 0,
    major_version: 52,
    constant_pool: &[
        Constant::Utf8(b"java/lang/Cloneable"),
        Constant::Class(1),
        Constant::Utf8(b"java/lang/Object"),
        Constant::Class(3),
    ],
    access_flags: INTERFACE,
    this_class: INTERFACE_CLASS,
    super_class: OBJECT_CLASS,
    interfaces: &[],
    fields: &[],
    methods: &[],
    attributes: &[],
};

static SERIALIZABLE: Description<'static> = Description {
    minor_version: 0,
    major_version: 52,
    constant_pool: &[
        Constant::Utf8(b"java/io/Serializable"),
        Constant::Class(1),
        Constant::Utf8(b"java/lang/Object"),
        Constant::Class(3),
    ],
    access_flags: INTERFACE,
    this_class: INTERFACE_CLASS,
    super_class: OBJECT_CLASS,
    interfaces: &[],
    fields: &[],
    methods: &[],
    attributes: &[],
};

/// The file of java/lang/Cloneable.
pub(crate) fn cloneable_file(alloc: Global) -> Result<Vec<u8>, OutOfMemory>
    ensures { IfOk result (λ file. file.items ≡ class_bytes cloneable_file) }
{
    written(alloc, &CLONEABLE)
}

/// The file of java/io/Serializable.
pub(crate) fn serializable_file(alloc: Global) -> Result<Vec<u8>, OutOfMemory>
    ensures { IfOk result (λ file. file.items ≡ class_bytes serializable_file) }
{
    written(alloc, &SERIALIZABLE)
}
