//! Instructions by their names.

use crate::shown::{are_ok, has_code};
use jv_asm_builder::{ArrayType, BranchOp, CodeBuilder, IndexOp, Label, Op};
use std::alloc::Global;

/// Some instructions without operands.
static OPS: [Op; 8] = [
    Op::ACONST_NULL,
    Op::CALOAD,
    Op::AASTORE,
    Op::DUP2_X2,
    Op::LUSHR,
    Op::I2S,
    Op::ARRAYLENGTH,
    Op::ATHROW,
];

fn puts_ops(code: &mut CodeBuilder<'_>) -> bool {
    for op in &OPS {
        if code.op(*op).is_err() {
            return false;
        }
    }
    true
}

#[test]
fn without_operands(rt: HostRuntime) {
    let mut code = CodeBuilder::new(rt.alloc());
    assert!(rt; puts_ops(&mut code) && has_code(&code, b"\x01\x34\x53\x5e\x7d\x93\xbe\xbf"));
}

static INTS: [i16; 7] = [-1, 5, 6, -2, -128, 128, -129];

fn puts_ints(code: &mut CodeBuilder<'_>) -> bool {
    for value in &INTS {
        if code.int(*value).is_err() {
            return false;
        }
    }
    true
}

#[test]
fn shortest_ints(rt: HostRuntime) {
    let mut code = CodeBuilder::new(rt.alloc());
    assert!(rt;
        puts_ints(&mut code)
            && has_code(
                &code,
                b"\x02\x08\x10\x06\x10\xfe\x10\x80\x11\x00\x80\x11\xff\x7f"
            )
    );
}

fn puts_locals(code: &mut CodeBuilder<'_>) -> bool {
    are_ok(&[
        code.iload(3),
        code.lload(4),
        code.aload(256),
        code.istore(0),
        code.lstore(255),
        code.astore(1),
        code.iinc(255, -128),
        code.iinc(256, 1),
    ])
}

#[test]
fn shortest_locals(rt: HostRuntime) {
    let mut code = CodeBuilder::new(rt.alloc());
    assert!(rt;
        puts_locals(&mut code)
            && has_code(
                &code,
                b"\x1d\x16\x04\xc4\x19\x01\x00\x3b\x37\xff\x4c\x84\xff\x80\xc4\x84\x01\x00\x00\x01"
            )
    );
}

/// Instructions with an index of two bytes, and the index.
static INDEXED: [(IndexOp, u16); 12] = [
    (IndexOp::LDC2_W, 1),
    (IndexOp::GETSTATIC, 2),
    (IndexOp::PUTSTATIC, 3),
    (IndexOp::GETFIELD, 4),
    (IndexOp::PUTFIELD, 5),
    (IndexOp::INVOKEVIRTUAL, 6),
    (IndexOp::INVOKESPECIAL, 7),
    (IndexOp::INVOKESTATIC, 8),
    (IndexOp::NEW, 3),
    (IndexOp::ANEWARRAY, 4),
    (IndexOp::CHECKCAST, 7),
    (IndexOp::INSTANCEOF, 8),
];

fn puts_indices(code: &mut CodeBuilder<'_>) -> bool {
    for (op, index) in &INDEXED {
        if code.with_index(*op, *index).is_err() {
            return false;
        }
    }
    true
}

/// Instructions with an index and another number, in one byte or in two.
fn puts_others(code: &mut CodeBuilder<'_>) -> bool {
    are_ok(&[
        code.ldc(255),
        code.ldc(256),
        code.invokeinterface(1, 2),
        code.newarray(ArrayType::CHAR),
        code.multianewarray(5, 6),
    ])
}

#[test]
fn indices(rt: HostRuntime) {
    let mut code = CodeBuilder::new(rt.alloc());
    assert!(rt;
        puts_indices(&mut code)
            && puts_others(&mut code)
            && has_code(
                &code,
                b"\x14\x00\x01\xb2\x00\x02\xb3\x00\x03\xb4\x00\x04\xb5\x00\x05\xb6\x00\x06\xb7\x00\x07\xb8\x00\x08\xbb\x00\x03\xbd\x00\x04\xc0\x00\x07\xc1\x00\x08\x12\xff\x13\x01\x00\xb9\x00\x01\x02\x00\xbc\x05\xc5\x00\x05\x06"
            )
    );
}

/// The branches.
static BRANCHES: [BranchOp; 17] = [
    BranchOp::IFEQ,
    BranchOp::IFNE,
    BranchOp::IFLT,
    BranchOp::IFGE,
    BranchOp::IFGT,
    BranchOp::IFLE,
    BranchOp::IFNULL,
    BranchOp::IFNONNULL,
    BranchOp::IF_ICMPEQ,
    BranchOp::IF_ICMPNE,
    BranchOp::IF_ICMPLT,
    BranchOp::IF_ICMPGE,
    BranchOp::IF_ICMPGT,
    BranchOp::IF_ICMPLE,
    BranchOp::IF_ACMPEQ,
    BranchOp::IF_ACMPNE,
    BranchOp::GOTO,
];

/// Each branch, to where the first of them stands.
fn puts_branches(code: &mut CodeBuilder<'_>, top: Label) -> bool {
    for op in &BRANCHES {
        if code.branch(*op, top).is_err() {
            return false;
        }
    }
    true
}

/// Whether the branches are these bytes.
fn are_branches(alloc: Global, bytes: &[u8]) -> bool {
    let mut code = CodeBuilder::new(alloc);
    match code.here() {
        Ok(top) => puts_branches(&mut code, top) && has_code(&code, bytes),
        Err(_) => false,
    }
}

#[test]
fn branches(rt: HostRuntime) {
    assert!(rt;
        are_branches(
            rt.alloc(),
            b"\x99\x00\x00\x9a\xff\xfd\x9b\xff\xfa\x9c\xff\xf7\x9d\xff\xf4\x9e\xff\xf1\xc6\xff\xee\xc7\xff\xeb\x9f\xff\xe8\xa0\xff\xe5\xa1\xff\xe2\xa2\xff\xdf\xa3\xff\xdc\xa4\xff\xd9\xa5\xff\xd6\xa6\xff\xd3\xa7\xff\xd0"
        )
    );
}
