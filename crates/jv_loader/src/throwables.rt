//! The classes below java/lang/Throwable.

ghost use Rattle.std.specs.Prelude.{◌≡◌, ◌++◌, IfOk, OnOk, map};
ghost use Rattle.std.specs.List.{All};
ghost use Rattle.jv_class_structure.specs.Structure.{class_bytes};
ghost use Rattle.jv_asm.specs.Fits.{IsFit};
ghost use Rattle.jv_meaning_world.specs.System.Throwables.{throwable_class_file, throwable_rows};
ghost use Rattle.jv_loader.specs.Inside.Table.{row_of};

use crate::flag::{ABSTRACT_CLASS, CLASS, PUBLIC};
use crate::opcode::{ALOAD_0, ALOAD_1, INVOKESPECIAL, RETURN};
use crate::out_of_memory::OutOfMemory;
use crate::written::written;
use jv_asm::{
    CodeDescription, Constant, Description, MethodAttributeDescription, MethodDescription,
};
use std::alloc::Global;

/// What such classes differ in.
pub(crate) struct ThrowableClass {
    pub(crate) access_flags: u16,
    pub(crate) name: &'static [u8],
    pub(crate) super_name: &'static [u8],
}

pub(crate) static TABLE: [ThrowableClass; 27] = [
    ThrowableClass {
        access_flags: CLASS,
        name: b"java/lang/Exception",
        super_name: b"java/lang/Throwable",
    },
    ThrowableClass {
        access_flags: CLASS,
        name: b"java/lang/Error",
        super_name: b"java/lang/Throwable",
    },
    ThrowableClass {
        access_flags: CLASS,
        name: b"java/lang/RuntimeException",
        super_name: b"java/lang/Exception",
    },
    ThrowableClass {
        access_flags: CLASS,
        name: b"java/lang/ArithmeticException",
        super_name: b"java/lang/RuntimeException",
    },
    ThrowableClass {
        access_flags: CLASS,
        name: b"java/lang/ArrayStoreException",
        super_name: b"java/lang/RuntimeException",
    },
    ThrowableClass {
        access_flags: CLASS,
        name: b"java/lang/ClassCastException",
        super_name: b"java/lang/RuntimeException",
    },
    ThrowableClass {
        access_flags: CLASS,
        name: b"java/lang/IllegalArgumentException",
        super_name: b"java/lang/RuntimeException",
    },
    ThrowableClass {
        access_flags: CLASS,
        name: b"java/lang/IllegalStateException",
        super_name: b"java/lang/RuntimeException",
    },
    ThrowableClass {
        access_flags: CLASS,
        name: b"java/lang/IndexOutOfBoundsException",
        super_name: b"java/lang/RuntimeException",
    },
    ThrowableClass {
        access_flags: CLASS,
        name: b"java/lang/NegativeArraySizeException",
        super_name: b"java/lang/RuntimeException",
    },
    ThrowableClass {
        access_flags: CLASS,
        name: b"java/lang/NullPointerException",
        super_name: b"java/lang/RuntimeException",
    },
    ThrowableClass {
        access_flags: CLASS,
        name: b"java/lang/UnsupportedOperationException",
        super_name: b"java/lang/RuntimeException",
    },
    ThrowableClass {
        access_flags: CLASS,
        name: b"java/lang/ArrayIndexOutOfBoundsException",
        super_name: b"java/lang/IndexOutOfBoundsException",
    },
    ThrowableClass {
        access_flags: CLASS,
        name: b"java/lang/LinkageError",
        super_name: b"java/lang/Error",
    },
    ThrowableClass {
        access_flags: ABSTRACT_CLASS,
        name: b"java/lang/VirtualMachineError",
        super_name: b"java/lang/Error",
    },
    ThrowableClass {
        access_flags: CLASS,
        name: b"java/lang/OutOfMemoryError",
        super_name: b"java/lang/VirtualMachineError",
    },
    ThrowableClass {
        access_flags: CLASS,
        name: b"java/lang/StackOverflowError",
        super_name: b"java/lang/VirtualMachineError",
    },
    ThrowableClass {
        access_flags: CLASS,
        name: b"java/lang/ClassCircularityError",
        super_name: b"java/lang/LinkageError",
    },
    ThrowableClass {
        access_flags: CLASS,
        name: b"java/lang/ExceptionInInitializerError",
        super_name: b"java/lang/LinkageError",
    },
    ThrowableClass {
        access_flags: CLASS,
        name: b"java/lang/IncompatibleClassChangeError",
        super_name: b"java/lang/LinkageError",
    },
    ThrowableClass {
        access_flags: CLASS,
        name: b"java/lang/NoClassDefFoundError",
        super_name: b"java/lang/LinkageError",
    },
    ThrowableClass {
        access_flags: CLASS,
        name: b"java/lang/VerifyError",
        super_name: b"java/lang/LinkageError",
    },
    ThrowableClass {
        access_flags: CLASS,
        name: b"java/lang/AbstractMethodError",
        super_name: b"java/lang/IncompatibleClassChangeError",
    },
    ThrowableClass {
        access_flags: CLASS,
        name: b"java/lang/IllegalAccessError",
        super_name: b"java/lang/IncompatibleClassChangeError",
    },
    ThrowableClass {
        access_flags: CLASS,
        name: b"java/lang/InstantiationError",
        super_name: b"java/lang/IncompatibleClassChangeError",
    },
    ThrowableClass {
        access_flags: CLASS,
        name: b"java/lang/NoSuchFieldError",
        super_name: b"java/lang/IncompatibleClassChangeError",
    },
    ThrowableClass {
        access_flags: CLASS,
        name: b"java/lang/NoSuchMethodError",
        super_name: b"java/lang/IncompatibleClassChangeError",
    },
];

const THIS_CLASS: u16 = 2;

const SUPER_CLASS: u16 = 4;

const INIT_NAME: u16 = 5;

const INIT_TYPE: u16 = 6;

const SUPER_INIT: u16 = 8;

const MESSAGE_INIT_TYPE: u16 = 9;

const SUPER_MESSAGE_INIT: u16 = 11;

const CODE_NAME: u16 = 12;

/// `<init>()V`
const INIT: CodeDescription<'static> = CodeDescription {
    max_stack: 1,
    max_locals: 1,
    code: &[
        ALOAD_0, // 0
        INVOKESPECIAL, // 1
        0,
        SUPER_INIT as u8,
        RETURN, // 4
    ],
    exception_table: &[],
    attributes: &[],
};

/// `<init>(Ljava/lang/String;)V`
const MESSAGE_INIT: CodeDescription<'static> = CodeDescription {
    max_stack: 2,
    max_locals: 2,
    code: &[
        ALOAD_0, // 0
        ALOAD_1, // 1
        INVOKESPECIAL, // 2
        0,
        SUPER_MESSAGE_INIT as u8,
        RETURN, // 5
    ],
    exception_table: &[],
    attributes: &[],
};

static METHODS: [MethodDescription<'static>; 2] = [
    MethodDescription {
        access_flags: PUBLIC,
        name_index: INIT_NAME,
        descriptor_index: INIT_TYPE,
        attributes: &[MethodAttributeDescription::Code(CODE_NAME, INIT)],
    },
    MethodDescription {
        access_flags: PUBLIC,
        name_index: INIT_NAME,
        descriptor_index: MESSAGE_INIT_TYPE,
        attributes: &[MethodAttributeDescription::Code(CODE_NAME, MESSAGE_INIT)],
    },
];

/// The file of such a class.
fn throwable_class_file(alloc: Global, class: &ThrowableClass) -> Result<Vec<u8>, OutOfMemory>
    requires { IsFit (throwable_class_file (row_of class.now)) }
    ensures { IfOk result (λ file. file.items ≡ class_bytes (throwable_class_file (row_of class.now))) }
{
    let constant_pool: [Constant<&[u8]>; 12] = [
        Constant::Utf8(class.name),
        Constant::Class(1),
        Constant::Utf8(class.super_name),
        Constant::Class(3),
        Constant::Utf8(b"<init>"),
        Constant::Utf8(b"()V"),
        Constant::NameAndType(5, 6),
        Constant::Methodref(4, 7),
        Constant::Utf8(b"(Ljava/lang/String;)V"),
        Constant::NameAndType(5, 9),
        Constant::Methodref(4, 10),
        Constant::Utf8(b"Code"),
    ];
    let description = Description {
        minor_version: 0,
        major_version: 52,
        constant_pool: &constant_pool,
        access_flags: class.access_flags,
        this_class: THIS_CLASS,
        super_class: SUPER_CLASS,
        interfaces: &[],
        fields: &[],
        methods: &METHODS,
        attributes: &[],
    };
    written(alloc, &description)
}

/// Puts the files of such classes behind others.
fn put_files(
    alloc: Global,
    files: &mut Vec<Vec<u8>>,
    classes: &[ThrowableClass],
) -> Result<(), OutOfMemory>
    requires { All (λ class. IsFit (throwable_class_file (row_of class))) classes.now }
    ensures { OnOk result (map (λ file. file.items) files.new.items
        ≡ map (λ file. file.items) files.old.items ++ map (λ class. class_bytes (throwable_class_file (row_of class))) classes.now) }
{
    for class in classes {
        let file = throwable_class_file(alloc, class)?;
        files.push(file)?;
    }
    Ok(())
}

/// Puts the files of the classes below java/lang/Throwable behind others.
pub(crate) fn put_throwable_files(
    alloc: Global,
    files: &mut Vec<Vec<u8>>,
) -> Result<(), OutOfMemory>
    ensures { OnOk result (map (λ file. file.items) files.new.items
        ≡ map (λ file. file.items) files.old.items ++ map class_bytes (map throwable_class_file throwable_rows)) }
{
    put_files(alloc, files, &TABLE)
}
