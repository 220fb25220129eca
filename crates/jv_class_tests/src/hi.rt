//! The class `Hi`, which writes its name.

use crate::shown::is_shown;
use jv_asm::{
    AsmFault, CodeDescription, Constant, Description, MethodAttributeDescription,
    MethodDescription, write_class, written_reads_back,
};
use jv_asm_builder::{
    BuilderFault, ClassBuilder, ClassFlags, CodeBuilder, IndexOp, MethodFlags, Op,
};
use std::alloc::Global;

const HI: &[u8] =
    b"\xca\xfe\xba\xbe\x00\x00\x004\x00\x0e\x01\x00\x02Hi\x07\x00\x01\x01\x00\x10java/lang/Object\x07\x00\x03\x01\x00\x04main\x01\x00\x16([Ljava/lang/String;)V\x01\x00\x04Code\x01\x00\x07host/Io\x07\x00\x08\x01\x00\x05write\x01\x00\x04(I)V\x0c\x00\x0a\x00\x0b\x0a\x00\x09\x00\x0c\x00!\x00\x02\x00\x04\x00\x00\x00\x00\x00\x01\x00\x09\x00\x05\x00\x06\x00\x01\x00\x07\x00\x00\x00\x17\x00\x01\x00\x01\x00\x00\x00\x0b\x10H\xb8\x00\x0d\x10i\xb8\x00\x0d\xb1\x00\x00\x00\x00\x00\x00";

fn put_writes(code: &mut CodeBuilder<'_>, write: u16) -> Result<(), AsmFault> {
    code.int(72)?;
    code.with_index(IndexOp::INVOKESTATIC, write)?;
    code.int(105)?;
    code.with_index(IndexOp::INVOKESTATIC, write)?;
    code.op(Op::RETURN)
}

fn put_main(class: &mut ClassBuilder<'_>) -> Result<(), BuilderFault> {
    let flags = MethodFlags::PUBLIC | MethodFlags::STATIC;
    let mut main = class.begin(flags, b"main", b"([Ljava/lang/String;)V")?;
    let write = class.methodref(b"host/Io", b"write", b"(I)V")?;
    put_writes(&mut main.code, write)?;
    class.end(main, 1, 1)?;
    Ok(())
}

fn hi(alloc: Global) -> Result<Vec<u8>, BuilderFault> {
    let flags = ClassFlags::PUBLIC | ClassFlags::SUPER;
    let mut class = ClassBuilder::new(alloc, flags, b"Hi", b"java/lang/Object")?;
    put_main(&mut class)?;
    Ok(class.finish()?)
}

/// Memory is refused where a run refuses an allocation.
#[test]
fn is_built_or_has_no_memory(rt: HostRuntime) {
    match hi(rt.alloc()) {
        Ok(file) => assert!(rt; file.as_slice() == HI),
        Err(fault) => assert!(rt; is_shown(rt.alloc(), fault, "out of memory")),
    }
}

static CONSTANTS: [Constant<&[u8]>; 13] = [
    Constant::Utf8(b"Hi"),
    Constant::Class(1),
    Constant::Utf8(b"java/lang/Object"),
    Constant::Class(3),
    Constant::Utf8(b"main"),
    Constant::Utf8(b"([Ljava/lang/String;)V"),
    Constant::Utf8(b"Code"),
    Constant::Utf8(b"host/Io"),
    Constant::Class(8),
    Constant::Utf8(b"write"),
    Constant::Utf8(b"(I)V"),
    Constant::NameAndType(10, 11),
    Constant::Methodref(9, 12),
];

const CODE: CodeDescription<'static> = CodeDescription {
    max_stack: 1,
    max_locals: 1,
    code: b"\x10\x48\xb8\x00\x0d\x10\x69\xb8\x00\x0d\xb1",
    exception_table: &[],
    attributes: &[],
};

static METHODS: [MethodDescription<'static>; 1] = [MethodDescription {
    access_flags: 9,
    name_index: 5,
    descriptor_index: 6,
    attributes: &[MethodAttributeDescription::Code(7, CODE)],
}];

/// The class, as it is to be written.
fn description() -> Description<'static> {
    Description {
        minor_version: 0,
        major_version: 52,
        constant_pool: &CONSTANTS,
        access_flags: 0x21,
        this_class: 2,
        super_class: 4,
        interfaces: &[],
        fields: &[],
        methods: &METHODS,
        attributes: &[],
    }
}

#[test]
fn is_written(rt: HostRuntime) {
    match write_class(rt.alloc(), &description()) {
        Ok(file) => assert!(rt; file.as_slice() == HI),
        Err(_) => assert!(rt; false),
    }
    written_reads_back();
}
