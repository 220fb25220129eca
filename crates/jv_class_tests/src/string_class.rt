//! `equals` of java/lang/String, with its five frames.

use crate::shown::are_ok;
use jv_asm_builder::VerificationType::{Integer, Object};
use jv_asm_builder::{
    BranchOp, ClassBuilder, ClassFlags, CodeBuilder, FieldFlags, IndexOp, Label, Op,
    VerificationType as Type,
};
use std::alloc::Global;

/// The indices of the classes and of the field.
#[derive(Clone, Copy)]
struct Names {
    string: u16,
    object: u16,
    value: u16,
}

/// `if (!(other instanceof String)) return false;`
fn puts_class_test(code: &mut CodeBuilder<'_>, names: &Names) -> bool {
    let Ok(is_string) = code.label() else {
        return false;
    };
    let types = [Object(names.string), Object(names.object)];
    are_ok(&[
        code.aload(1),
        code.with_index(IndexOp::INSTANCEOF, names.string),
        code.branch(BranchOp::IFNE, is_string),
        code.int(0),
        code.op(Op::IRETURN),
    ]) && code.frame(is_string, &types, &[]).is_ok()
}

/// `array.value.length`
fn puts_length(code: &mut CodeBuilder<'_>, string: u16, names: &Names) -> bool {
    are_ok(&[
        code.aload(string),
        code.with_index(IndexOp::GETFIELD, names.value),
        code.op(Op::ARRAYLENGTH),
    ])
}

/// `String that = (String) other; if (that.value.length != value.length) return false;`
fn puts_length_test(code: &mut CodeBuilder<'_>, names: &Names) -> bool {
    let Ok(is_as_long) = code.label() else {
        return false;
    };
    let types = [
        Object(names.string),
        Object(names.object),
        Object(names.string),
    ];
    are_ok(&[
        code.aload(1),
        code.with_index(IndexOp::CHECKCAST, names.string),
        code.astore(2),
    ]) && puts_length(code, 2, names)
        && puts_length(code, 0, names)
        && are_ok(&[
            code.branch(BranchOp::IF_ICMPEQ, is_as_long),
            code.int(0),
            code.op(Op::IRETURN),
        ])
        && code.frame(is_as_long, &types, &[]).is_ok()
}

/// The labels of the loop.
#[derive(Clone, Copy)]
struct Loop {
    top: Label,
    next: Label,
    done: Label,
}

fn labels_in(code: &mut CodeBuilder<'_>) -> Option<Loop> {
    let Ok(top) = code.label() else {
        return None;
    };
    let Ok(next) = code.label() else {
        return None;
    };
    match code.label() {
        Ok(done) => Some(Loop { top, next, done }),
        Err(_) => None,
    }
}

/// `int i = 0; i < value.length`
fn puts_head(code: &mut CodeBuilder<'_>, names: &Names, labels: Loop, types: &[Type]) -> bool {
    code.int(0).is_ok()
        && code.istore(3).is_ok()
        && code.frame(labels.top, types, &[]).is_ok()
        && code.iload(3).is_ok()
        && puts_length(code, 0, names)
        && code.branch(BranchOp::IF_ICMPGE, labels.done).is_ok()
}

/// `if (value[i] != that.value[i]) return false;`
fn puts_char_test(code: &mut CodeBuilder<'_>, names: &Names, labels: Loop) -> bool {
    puts_char(code, 0, names)
        && puts_char(code, 2, names)
        && are_ok(&[
            code.branch(BranchOp::IF_ICMPEQ, labels.next),
            code.int(0),
            code.op(Op::IRETURN),
        ])
}

/// `i++`, and `return true;` behind the loop
fn puts_end(code: &mut CodeBuilder<'_>, labels: Loop, types: &[Type]) -> bool {
    code.frame(labels.next, types, &[]).is_ok()
        && code.iinc(3, 1).is_ok()
        && code.branch(BranchOp::GOTO, labels.top).is_ok()
        && code.frame(labels.done, types, &[]).is_ok()
        && code.int(1).is_ok()
        && code.op(Op::IRETURN).is_ok()
}

/// `for (int i = 0; i < value.length; i++) if (value[i] != that.value[i]) return false;`
fn puts_loop(code: &mut CodeBuilder<'_>, names: &Names) -> bool {
    let types = [
        Object(names.string),
        Object(names.object),
        Object(names.string),
        Integer,
    ];
    match labels_in(code) {
        Some(labels) => {
            puts_head(code, names, labels, &types)
                && puts_char_test(code, names, labels)
                && puts_end(code, labels, &types)
        }
        None => false,
    }
}

/// `string.value[i]`
fn puts_char(code: &mut CodeBuilder<'_>, string: u16, names: &Names) -> bool {
    are_ok(&[
        code.aload(string),
        code.with_index(IndexOp::GETFIELD, names.value),
        code.iload(3),
        code.op(Op::CALOAD),
    ])
}

fn puts_equals(code: &mut CodeBuilder<'_>, names: &Names) -> bool {
    puts_class_test(code, names) && puts_length_test(code, names) && puts_loop(code, names)
}

fn names_in(class: &mut ClassBuilder<'_>) -> Option<Names> {
    let Ok(string) = class.class(b"java/lang/String") else {
        return None;
    };
    let Ok(object) = class.class(b"java/lang/Object") else {
        return None;
    };
    match class.fieldref(b"java/lang/String", b"value", b"[C") {
        Ok(value) => Some(Names {
            string,
            object,
            value,
        }),
        Err(_) => None,
    }
}

/// The indices in a class `java/lang/String` with its field.
fn names_of_class(alloc: Global) -> Option<Names> {
    let flags = ClassFlags::PUBLIC | ClassFlags::SUPER;
    match ClassBuilder::new(alloc, flags, b"java/lang/String", b"java/lang/Object") {
        Ok(mut class) => match class.field(FieldFlags::PRIVATE, b"value", b"[C", &[]) {
            Ok(()) => names_in(&mut class),
            Err(_) => None,
        },
        Err(_) => None,
    }
}

/// Whether code has these bytes, and its StackMapTable those.
fn has_code(code: &CodeBuilder<'_>, bytes: &[u8], frames: &[u8]) -> bool {
    let Ok(written) = code.code() else {
        return false;
    };
    match code.stack_map_table() {
        Ok(Some(contents)) => written.as_slice() == bytes && contents.as_slice() == frames,
        _ => false,
    }
}

const EQUALS: &[u8] =
    b"\x2b\xc1\x00\x02\x9a\x00\x05\x03\xac\x2b\xc0\x00\x02\x4d\x2c\xb4\x00\x08\xbe\x2a\xb4\x00\x08\xbe\x9f\x00\x05\x03\xac\x03\x3e\x1d\x2a\xb4\x00\x08\xbe\xa2\x00\x1a\x2a\xb4\x00\x08\x1d\x34\x2c\xb4\x00\x08\x1d\x34\x9f\x00\x05\x03\xac\x84\x03\x01\xa7\xff\xe3\x04\xac";

/// Full frames at 9, 29, 31, 57 and 63.
const FRAMES: &[u8] =
    b"\x00\x05\xff\x00\x09\x00\x02\x07\x00\x02\x07\x00\x04\x00\x00\xff\x00\x13\x00\x03\x07\x00\x02\x07\x00\x04\x07\x00\x02\x00\x00\xff\x00\x01\x00\x04\x07\x00\x02\x07\x00\x04\x07\x00\x02\x01\x00\x00\xff\x00\x19\x00\x04\x07\x00\x02\x07\x00\x04\x07\x00\x02\x01\x00\x00\xff\x00\x05\x00\x04\x07\x00\x02\x07\x00\x04\x07\x00\x02\x01\x00\x00";

#[test]
fn equals_is_built(rt: HostRuntime) {
    match names_of_class(rt.alloc()) {
        Some(names) => {
            let mut code = CodeBuilder::new(rt.alloc());
            assert!(rt; puts_equals(&mut code, &names) && has_code(&code, EQUALS, FRAMES));
        }
        None => assert!(rt; false),
    }
}
