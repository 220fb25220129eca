//! java/lang/String.

ghost use Rattle.std.specs.Prelude.{◌≡◌, IfOk};
ghost use Rattle.jv_class_structure.specs.Structure.{class_bytes};
ghost use Rattle.jv_meaning_world.specs.System.String.{string_file};

use crate::flag::{FINAL_CLASS, PRIVATE_FINAL, PUBLIC};
use crate::opcode::{
    ALOAD_0, ALOAD_1, ALOAD_2, ARRAYLENGTH, ASTORE_2, BIPUSH, CALOAD, CHECKCAST, GETFIELD, GOTO,
    IADD, ICONST_0, ICONST_1, IF_ICMPEQ, IF_ICMPGE, IFNE, IINC, ILOAD_1, ILOAD_2, ILOAD_3, IMUL,
    INSTANCEOF, IRETURN, ISTORE_1, ISTORE_2, ISTORE_3,
};
use crate::out_of_memory::OutOfMemory;
use crate::written::written;
use jv_asm::{
    AttributeDescription, CodeDescription, Constant, Description, FieldDescription,
    MethodAttributeDescription, MethodDescription,
};
use std::alloc::Global;

const STRING_CLASS: u16 = 2;

const OBJECT_CLASS: u16 = 4;

const SERIALIZABLE_CLASS: u16 = 6;

const VALUE_NAME: u16 = 7;

const VALUE_TYPE: u16 = 8;

const VALUE_FIELD: u16 = 10;

const LENGTH_NAME: u16 = 11;

const LENGTH_TYPE: u16 = 12;

const CHAR_AT_NAME: u16 = 13;

const CHAR_AT_TYPE: u16 = 14;

const HASH_CODE_NAME: u16 = 15;

const EQUALS_NAME: u16 = 16;

const EQUALS_TYPE: u16 = 17;

const CODE_NAME: u16 = 18;

const FRAMES_NAME: u16 = 19;

/// `length()I`
const LENGTH: CodeDescription<'static> = CodeDescription {
    max_stack: 1,
    max_locals: 1,
    code: &[
        ALOAD_0, // 0
        GETFIELD, // 1
        0,
        VALUE_FIELD as u8,
        ARRAYLENGTH, // 4
        IRETURN, // 5
    ],
    exception_table: &[],
    attributes: &[],
};

/// `charAt(I)C`
const CHAR_AT: CodeDescription<'static> = CodeDescription {
    max_stack: 2,
    max_locals: 2,
    code: &[
        ALOAD_0, // 0
        GETFIELD, // 1
        0,
        VALUE_FIELD as u8,
        ILOAD_1, // 4
        CALOAD, // 5
        IRETURN, // 6
    ],
    exception_table: &[],
    attributes: &[],
};

/// `hashCode()I`
const HASH_CODE: CodeDescription<'static> = CodeDescription {
    max_stack: 3,
    max_locals: 3,
    code: &[
        ICONST_0, // 0
        ISTORE_1, // 1
        ICONST_0, // 2
        ISTORE_2, // 3
        ILOAD_2, // 4
        ALOAD_0, // 5
        GETFIELD, // 6
        0,
        VALUE_FIELD as u8,
        ARRAYLENGTH, // 9
        IF_ICMPGE, // 10, to 31
        0,
        21,
        BIPUSH, // 13
        31,
        ILOAD_1, // 15
        IMUL, // 16
        ALOAD_0, // 17
        GETFIELD, // 18
        0,
        VALUE_FIELD as u8,
        ILOAD_2, // 21
        CALOAD, // 22
        IADD, // 23
        ISTORE_1, // 24
        IINC, // 25
        2,
        1,
        GOTO, // 28, back by 24, to 4
        255,
        232,
        ILOAD_1, // 31
        IRETURN, // 32
    ],
    exception_table: &[],
    attributes: &[AttributeDescription {
        attribute_name_index: FRAMES_NAME,
        info: &[
            0, 2, // frames
            253, 0, 4, 1, 1, // at 4, two ints more
            26, // at 31, the same
        ],
    }],
};

/// `equals(Ljava/lang/Object;)Z`
const EQUALS: CodeDescription<'static> = CodeDescription {
    max_stack: 3,
    max_locals: 4,
    code: &[
        ALOAD_1, // 0
        INSTANCEOF, // 1
        0,
        STRING_CLASS as u8,
        IFNE, // 4, to 9
        0,
        5,
        ICONST_0, // 7
        IRETURN, // 8
        ALOAD_1, // 9
        CHECKCAST, // 10
        0,
        STRING_CLASS as u8,
        ASTORE_2, // 13
        ALOAD_2, // 14
        GETFIELD, // 15
        0,
        VALUE_FIELD as u8,
        ARRAYLENGTH, // 18
        ALOAD_0, // 19
        GETFIELD, // 20
        0,
        VALUE_FIELD as u8,
        ARRAYLENGTH, // 23
        IF_ICMPEQ, // 24, to 29
        0,
        5,
        ICONST_0, // 27
        IRETURN, // 28
        ICONST_0, // 29
        ISTORE_3, // 30
        ILOAD_3, // 31
        ALOAD_0, // 32
        GETFIELD, // 33
        0,
        VALUE_FIELD as u8,
        ARRAYLENGTH, // 36
        IF_ICMPGE, // 37, to 63
        0,
        26,
        ALOAD_0, // 40
        GETFIELD, // 41
        0,
        VALUE_FIELD as u8,
        ILOAD_3, // 44
        CALOAD, // 45
        ALOAD_2, // 46
        GETFIELD, // 47
        0,
        VALUE_FIELD as u8,
        ILOAD_3, // 50
        CALOAD, // 51
        IF_ICMPEQ, // 52, to 57
        0,
        5,
        ICONST_0, // 55
        IRETURN, // 56
        IINC, // 57
        3,
        1,
        GOTO, // 60, back by 29, to 31
        255,
        227,
        ICONST_1, // 63
        IRETURN, // 64
    ],
    exception_table: &[],
    attributes: &[AttributeDescription {
        attribute_name_index: FRAMES_NAME,
        info: &[
            0, // frames
            5,
            9, // at 9, as at the start
            252, // at 29, a string more
            0,
            19,
            7,
            0,
            STRING_CLASS as u8,
            252, // at 31, an int more
            0,
            1,
            1,
            25, // at 57, the same
            5, // at 63, the same
        ],
    }],
};

static STRING: Description<'static> = Description {
    minor_version: 0,
    major_version: 52,
    constant_pool: &[
        Constant::Utf8(b"java/lang/String"),
        Constant::Class(1),
        Constant::Utf8(b"java/lang/Object"),
        Constant::Class(3),
        Constant::Utf8(b"java/io/Serializable"),
        Constant::Class(5),
        Constant::Utf8(b"value"),
        Constant::Utf8(b"[C"),
        Constant::NameAndType(7, 8),
        Constant::Fieldref(2, 9),
        Constant::Utf8(b"length"),
        Constant::Utf8(b"()I"),
        Constant::Utf8(b"charAt"),
        Constant::Utf8(b"(I)C"),
        Constant::Utf8(b"hashCode"),
        Constant::Utf8(b"equals"),
        Constant::Utf8(b"(Ljava/lang/Object;)Z"),
        Constant::Utf8(b"Code"),
        Constant::Utf8(b"StackMapTable"),
    ],
    access_flags: FINAL_CLASS,
    this_class: STRING_CLASS,
    super_class: OBJECT_CLASS,
    interfaces: &[SERIALIZABLE_CLASS],
    fields: &[FieldDescription {
        access_flags: PRIVATE_FINAL,
        name_index: VALUE_NAME,
        descriptor_index: VALUE_TYPE,
        attributes: &[],
    }],
    methods: &[
        MethodDescription {
            access_flags: PUBLIC,
            name_index: LENGTH_NAME,
            descriptor_index: LENGTH_TYPE,
            attributes: &[MethodAttributeDescription::Code(CODE_NAME, LENGTH)],
        },
        MethodDescription {
            access_flags: PUBLIC,
            name_index: CHAR_AT_NAME,
            descriptor_index: CHAR_AT_TYPE,
            attributes: &[MethodAttributeDescription::Code(CODE_NAME, CHAR_AT)],
        },
        MethodDescription {
            access_flags: PUBLIC,
            name_index: HASH_CODE_NAME,
            descriptor_index: LENGTH_TYPE,
            attributes: &[MethodAttributeDescription::Code(CODE_NAME, HASH_CODE)],
        },
        MethodDescription {
            access_flags: PUBLIC,
            name_index: EQUALS_NAME,
            descriptor_index: EQUALS_TYPE,
            attributes: &[MethodAttributeDescription::Code(CODE_NAME, EQUALS)],
        },
    ],
    attributes: &[],
};

/// The file of java/lang/String.
pub(crate) fn string_file(alloc: Global) -> Result<Vec<u8>, OutOfMemory>
    ensures { IfOk result (λ file. file.items ≡ class_bytes string_file) }
{
    written(alloc, &STRING)
}
