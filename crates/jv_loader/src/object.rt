//! java/lang/Object.

ghost use Rattle.std.specs.Prelude.{◌≡◌, IfOk};
ghost use Rattle.jv_class_structure.specs.Structure.{class_bytes};
ghost use Rattle.jv_meaning_world.specs.System.Object.{object_file};

use crate::flag::{CLASS, PUBLIC};
use crate::opcode::{ALOAD_0, ALOAD_1, ICONST_0, ICONST_1, IF_ACMPNE, IRETURN, RETURN};
use crate::out_of_memory::OutOfMemory;
use crate::written::written;
use jv_asm::{
    AttributeDescription, CodeDescription, Constant, Description, MethodAttributeDescription,
    MethodDescription,
};
use std::alloc::Global;

const OBJECT_CLASS: u16 = 2;

const INIT_NAME: u16 = 3;

const INIT_TYPE: u16 = 4;

const EQUALS_NAME: u16 = 5;

const EQUALS_TYPE: u16 = 6;

const CODE_NAME: u16 = 7;

const FRAMES_NAME: u16 = 8;

/// `<init>()V`
const INIT: CodeDescription<'static> = CodeDescription {
    max_stack: 0,
    max_locals: 1,
    code: &[RETURN],
    exception_table: &[],
    attributes: &[],
};

/// `equals(Ljava/lang/Object;)Z`, by identity.
const EQUALS: CodeDescription<'static> = CodeDescription {
    max_stack: 2,
    max_locals: 2,
    code: &[
        ALOAD_0, // 0
        ALOAD_1, // 1
        IF_ACMPNE, 0, 5, // 2, to 7
        ICONST_1, // 5
        IRETURN, // 6
        ICONST_0, // 7
        IRETURN, // 8
    ],
    exception_table: &[],
    attributes: &[AttributeDescription {
        attribute_name_index: FRAMES_NAME,
        info: &[
            0, 1, // frames
            7, // at 7, as at the start
        ],
    }],
};

static OBJECT: Description<'static> = Description {
    minor_version: 0,
    major_version: 52,
    constant_pool: &[
        Constant::Utf8(b"java/lang/Object"),
        Constant::Class(1),
        Constant::Utf8(b"<init>"),
        Constant::Utf8(b"()V"),
        Constant::Utf8(b"equals"),
        Constant::Utf8(b"(Ljava/lang/Object;)Z"),
        Constant::Utf8(b"Code"),
        Constant::Utf8(b"StackMapTable"),
    ],
    access_flags: CLASS,
    this_class: OBJECT_CLASS,
    super_class: 0,
    interfaces: &[],
    fields: &[],
    methods: &[
        MethodDescription {
            access_flags: PUBLIC,
            name_index: INIT_NAME,
            descriptor_index: INIT_TYPE,
            attributes: &[MethodAttributeDescription::Code(CODE_NAME, INIT)],
        },
        MethodDescription {
            access_flags: PUBLIC,
            name_index: EQUALS_NAME,
            descriptor_index: EQUALS_TYPE,
            attributes: &[MethodAttributeDescription::Code(CODE_NAME, EQUALS)],
        },
    ],
    attributes: &[],
};

/// The file of java/lang/Object.
pub(crate) fn object_file(alloc: Global) -> Result<Vec<u8>, OutOfMemory>
    ensures { IfOk result (λ file. file.items ≡ class_bytes object_file) }
{
    written(alloc, &OBJECT)
}
