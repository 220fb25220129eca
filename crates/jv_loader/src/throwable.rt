//! java/lang/Throwable.

ghost use Rattle.std.specs.Prelude.{◌≡◌, IfOk};
ghost use Rattle.jv_class_structure.specs.Structure.{class_bytes};
ghost use Rattle.jv_meaning_world.specs.System.Throwable.{throwable_file};

use crate::flag::{CLASS, PRIVATE, PUBLIC};
use crate::opcode::{ALOAD_0, ALOAD_1, ARETURN, GETFIELD, INVOKESPECIAL, PUTFIELD, RETURN};
use crate::out_of_memory::OutOfMemory;
use crate::written::written;
use jv_asm::{
    CodeDescription, Constant, Description, FieldDescription, MethodAttributeDescription,
    MethodDescription,
};
use std::alloc::Global;

const THROWABLE_CLASS: u16 = 2;

const OBJECT_CLASS: u16 = 4;

const SERIALIZABLE_CLASS: u16 = 6;

const MESSAGE_NAME: u16 = 7;

const MESSAGE_TYPE: u16 = 8;

const MESSAGE_FIELD: u16 = 10;

const INIT_NAME: u16 = 11;

const INIT_TYPE: u16 = 12;

const OBJECT_INIT: u16 = 14;

const MESSAGE_INIT_TYPE: u16 = 15;

const GET_MESSAGE_NAME: u16 = 16;

const GET_MESSAGE_TYPE: u16 = 17;

const CODE_NAME: u16 = 18;

/// `<init>()V`
const INIT: CodeDescription<'static> = CodeDescription {
    max_stack: 1,
    max_locals: 1,
    code: &[
        ALOAD_0, // 0
        INVOKESPECIAL, // 1
        0,
        OBJECT_INIT as u8,
        RETURN, // 4
    ],
    exception_table: &[],
    attributes: &[],
};

/// `<init>(Ljava/lang/String;)V`
const MESSAGE_INIT: CodeDescription<'static> = CodeDescription {
    max_stack: 2,
    max_locals: 2,
    code: &[
        ALOAD_0, // 0
        INVOKESPECIAL, // 1
        0,
        OBJECT_INIT as u8,
        ALOAD_0, // 4
        ALOAD_1, // 5
        PUTFIELD, // 6
        0,
        MESSAGE_FIELD as u8,
        RETURN, // 9
    ],
    exception_table: &[],
    attributes: &[],
};

/// `getMessage()Ljava/lang/String;`
const GET_MESSAGE: CodeDescription<'static> = CodeDescription {
    max_stack: 1,
    max_locals: 1,
    code: &[
        ALOAD_0, // 0
        GETFIELD, // 1
        0,
        MESSAGE_FIELD as u8,
        ARETURN, // 4
    ],
    exception_table: &[],
    attributes: &[],
};

static THROWABLE: Description<'static> = Description {
    minor_version: 0,
    major_version: 52,
    constant_pool: &[
        Constant::Utf8(b"java/lang/Throwable"),
        Constant::Class(1),
        Constant::Utf8(b"java/lang/Object"),
        Constant::Class(3),
        Constant::Utf8(b"java/io/Serializable"),
        Constant::Class(5),
        Constant::Utf8(b"message"),
        Constant::Utf8(b"Ljava/lang/String;"),
        Constant::NameAndType(7, 8),
        Constant::Fieldref(2, 9),
        Constant::Utf8(b"<init>"),
        Constant::Utf8(b"()V"),
        Constant::NameAndType(11, 12),
        Constant::Methodref(4, 13),
        Constant::Utf8(b"(Ljava/lang/String;)V"),
        Constant::Utf8(b"getMessage"),
        Constant::Utf8(b"()Ljava/lang/String;"),
        Constant::Utf8(b"Code"),
    ],
    access_flags: CLASS,
    this_class: THROWABLE_CLASS,
    super_class: OBJECT_CLASS,
    interfaces: &[SERIALIZABLE_CLASS],
    fields: &[FieldDescription {
        access_flags: PRIVATE,
        name_index: MESSAGE_NAME,
        descriptor_index: MESSAGE_TYPE,
        attributes: &[],
    }],
    methods: &[
        MethodDescription {
            access_flags: PUBLIC,
            name_index: INIT_NAME,
            descriptor_index: INIT_TYPE,
            attributes: &[MethodAttributeDescription::Code(CODE_NAME, INIT)],
        },
        MethodDescription {
            access_flags: PUBLIC,
            name_index: INIT_NAME,
            descriptor_index: MESSAGE_INIT_TYPE,
            attributes: &[MethodAttributeDescription::Code(CODE_NAME, MESSAGE_INIT)],
        },
        MethodDescription {
            access_flags: PUBLIC,
            name_index: GET_MESSAGE_NAME,
            descriptor_index: GET_MESSAGE_TYPE,
            attributes: &[MethodAttributeDescription::Code(CODE_NAME, GET_MESSAGE)],
        },
    ],
    attributes: &[],
};

/// The file of java/lang/Throwable.
pub(crate) fn throwable_file(alloc: Global) -> Result<Vec<u8>, OutOfMemory>
    ensures { IfOk result (λ file. file.items ≡ class_bytes throwable_file) }
{
    written(alloc, &THROWABLE)
}
