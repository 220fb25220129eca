//! The builders.

use crate::shown::{has_code, is_shown};
use jv_asm_builder::{
    AsmFault, BranchOp, ClassBuilder, ClassFlags, CodeBuilder, Constant, FieldFlags, Item,
    MethodFlags, Op, indices_name,
};
use std::alloc::Global;

#[test]
fn law() {
    indices_name();
}

/// Branches over a switch as it is spelled, with a handler.
fn puts_branches(code: &mut CodeBuilder<'_>) -> bool {
    let Ok(end) = code.label() else {
        return false;
    };
    let Ok(top) = code.here() else {
        return false;
    };
    let is_put = code.iload(7).is_ok()
        && code.branch(BranchOp::IFEQ, end).is_ok()
        && code.int(300).is_ok()
        && code.item(Item::Tableswitch(0, 0, 0, &[1])).is_ok()
        && code.branch(BranchOp::GOTO, top).is_ok();
    code.place(end);
    is_put && code.op(Op::RETURN).is_ok() && code.handler(top, end, end, 0).is_ok()
}

#[test]
fn labels(rt: HostRuntime) {
    let mut code = CodeBuilder::new(rt.alloc());
    assert!(rt;
        puts_branches(&mut code)
            && has_code(
                &code,
                b"\x15\x07\x99\x00\x1d\x11\x01\x2c\xaa\x00\x00\x00\x00\x00\x00\x00\x00\x00\x00\x00\x00\x00\x00\x00\x00\x00\x00\x01\xa7\xff\xe4\xb1"
            )
            && code.offset() == 32
    );
}

/// Switches whose labels are placed behind and before them.
fn puts_switches(code: &mut CodeBuilder<'_>) -> bool {
    let Ok(zero) = code.label() else {
        return false;
    };
    let Ok(one) = code.label() else {
        return false;
    };
    let Ok(other) = code.label() else {
        return false;
    };
    let is_table = code.iload(7).is_ok() && code.tableswitch(other, 5, 6, &[zero, one]).is_ok();
    code.place(zero);
    let is_lookup = code.iload(7).is_ok()
        && code.lookupswitch(other, &[(-7, one), (9, zero)]).is_ok();
    code.place(one);
    let is_return = code.op(Op::RETURN).is_ok();
    code.place(other);
    is_table && is_lookup && is_return
}

#[test]
fn switches(rt: HostRuntime) {
    let mut code = CodeBuilder::new(rt.alloc());
    assert!(rt;
        puts_switches(&mut code)
            && has_code(
                &code,
                b"\x15\x07\xaa\x00\x00\x00\x003\x00\x00\x00\x05\x00\x00\x00\x06\x00\x00\x00\x16\x00\x00\x002\x15\x07\xab\x00\x00\x00\x00\x1b\x00\x00\x00\x02\xff\xff\xff\xf9\x00\x00\x00\x1a\x00\x00\x00\x09\xff\xff\xff\xfe\xb1"
            )
    );
}

/// So many `nop`.
fn puts_nops(code: &mut CodeBuilder<'_>, count: u32) -> bool {
    for _ in 0..count {
        if code.op(Op::NOP).is_err() {
            return false;
        }
    }
    true
}

/// A branch over so many bytes.
fn puts_far(code: &mut CodeBuilder<'_>, between: u32) -> bool {
    let Ok(end) = code.label() else {
        return false;
    };
    let is_put = code.branch(BranchOp::GOTO, end).is_ok() && puts_nops(code, between);
    code.place(end);
    is_put && code.op(Op::RETURN).is_ok()
}

/// Whether code is refused with this fault.
fn is_refused(alloc: Global, code: &CodeBuilder<'_>, fault: &str) -> bool {
    match code.code() {
        Ok(_) => false,
        Err(refused) => is_shown(alloc, refused, fault),
    }
}

/// Whether a branch reaches over so many bytes.
fn reaches(alloc: Global, between: u32) -> bool {
    let mut code = CodeBuilder::new(alloc);
    puts_far(&mut code, between) && code.code().is_ok()
}

/// Whether so many bytes are too many for a branch.
fn is_too_far(alloc: Global, between: u32) -> bool {
    let mut code = CodeBuilder::new(alloc);
    puts_far(&mut code, between) && is_refused(alloc, &code, "too large")
}

#[test]
fn far_branches(rt: HostRuntime) {
    assert!(rt; reaches(rt.alloc(), 32764));
    assert!(rt; is_too_far(rt.alloc(), 32765));
}

/// Whether a jump is refused until its label is placed.
fn waits_for_its_label(alloc: Global, code: &mut CodeBuilder<'_>) -> bool {
    let Ok(label) = code.label() else {
        return false;
    };
    let is_unplaced = code.branch(BranchOp::GOTO, label).is_ok()
        && code.offset_of(label).is_none()
        && is_refused(alloc, code, "a label was not placed");
    code.place(label);
    is_unplaced && code.offset_of(label) == Some(3) && code.code().is_ok()
}

#[test]
fn unplaced_labels(rt: HostRuntime) {
    let mut code = CodeBuilder::new(rt.alloc());
    assert!(rt; waits_for_its_label(rt.alloc(), &mut code));
}

/// Whether frames are refused for two at one place.
fn has_two_frames(alloc: Global, code: &CodeBuilder<'_>) -> bool {
    match code.stack_map_table() {
        Ok(_) => false,
        Err(fault) => is_shown(alloc, fault, "two frames at one place"),
    }
}

/// Whether one frame at a label is taken, and two are refused.
fn refuses_two_frames(alloc: Global, code: &mut CodeBuilder<'_>) -> bool {
    let Ok(label) = code.label() else {
        return false;
    };
    code.frame(label, &[], &[]).is_ok()
        && code.stack_map_table().is_ok()
        && code.frame(label, &[], &[]).is_ok()
        && has_two_frames(alloc, code)
}

#[test]
fn two_frames(rt: HostRuntime) {
    let mut code = CodeBuilder::new(rt.alloc());
    assert!(rt; refuses_two_frames(rt.alloc(), &mut code));
}

/// Whether a call gave this index.
fn is_at(found: Result<u16, AsmFault>, index: u16) -> bool {
    match found {
        Ok(found) => found == index,
        Err(_) => false,
    }
}

/// Whether constants of a new class get the next indices.
fn adds_constants(class: &mut ClassBuilder<'_>) -> bool {
    is_at(class.long(-2), 3)
        && is_at(class.integer(-2), 5)
        && is_at(class.string(b"A"), 6)
        && is_at(class.fieldref(b"A", b"f", b"I"), 10)
        && is_at(class.interface_methodref(b"A", b"m", b"()V"), 14)
}

/// Whether those constants have their indices again, and others the next ones.
fn finds_constants(class: &mut ClassBuilder<'_>) -> bool {
    is_at(class.long(-2), 3)
        && is_at(class.integer(-2), 5)
        && is_at(class.integer(2), 15)
        && is_at(class.utf8(b"A"), 1)
        && is_at(class.class(b"A"), 2)
        && is_at(class.name_and_type(b"f", b"I"), 9)
        && is_at(class.methodref(b"A", b"f", b"I"), 16)
        && is_at(class.constant(Constant::Float(0)), 17)
}

#[test]
fn constants(rt: HostRuntime) {
    match ClassBuilder::root(rt.alloc(), ClassFlags(0x21), b"A") {
        Ok(mut class) => assert!(rt; adds_constants(&mut class) && finds_constants(&mut class)),
        Err(_) => assert!(rt; false),
    }
}

/// Whether ints fill the pool of a class up to its last index, and no further.
fn fills_the_pool(class: &mut ClassBuilder<'_>) -> bool {
    for value in 0..65532u16 {
        if !is_at(class.integer(i32::from(value)), value + 3) {
            return false;
        }
    }
    matches!(class.integer(65532), Err(AsmFault::TooLarge)) && is_at(class.integer(65531), 65534)
}

/// The length of the file of a class, or 0.
fn length_of(class: &ClassBuilder<'_>) -> usize {
    match class.finish() {
        Ok(file) => file.len(),
        Err(_) => 0,
    }
}

#[test]
fn full_pool(rt: HostRuntime) {
    match ClassBuilder::root(rt.alloc(), ClassFlags(0x21), b"A") {
        Ok(mut class) => assert!(rt;
            fills_the_pool(&mut class) && length_of(&class) == 24 + 4 + 3 + 5 * 65532
        ),
        Err(_) => assert!(rt; false),
    }
}

/// Whether the file of a class has these bytes.
fn has_file(class: &ClassBuilder<'_>, bytes: &[u8]) -> bool {
    match class.finish() {
        Ok(file) => file.as_slice() == bytes,
        Err(_) => false,
    }
}

/// A frame, an instruction and a handler.
fn puts_body(code: &mut CodeBuilder<'_>) -> bool {
    let Ok(start) = code.label() else {
        return false;
    };
    let is_put = code.frame(start, &[], &[]).is_ok() && code.op(Op::RETURN).is_ok();
    match code.here() {
        Ok(end) => is_put && code.handler(start, end, start, 2).is_ok(),
        Err(_) => false,
    }
}

/// A method with that body.
fn puts_method(class: &mut ClassBuilder<'_>) -> bool {
    match class.begin(MethodFlags::PUBLIC, b"A", b"I") {
        Ok(mut method) => puts_body(&mut method.code) && class.end(method, 3, 4).is_ok(),
        Err(_) => false,
    }
}

/// One of each part.
fn puts_parts(class: &mut ClassBuilder<'_>) -> bool {
    class.interface(b"A").is_ok()
        && class.field(FieldFlags(0x19), b"A", b"I", &[]).is_ok()
        && class.bodiless(MethodFlags(0x401), b"A", b"I").is_ok()
        && puts_method(class)
        && class.attribute(b"A", b"x").is_ok()
}

const PARTS: &[u8] =
    b"\xca\xfe\xba\xbe\x00\x00\x004\x00\x06\x01\x00\x01A\x07\x00\x01\x01\x00\x01I\x01\x00\x04Code\x01\x00\x0dStackMapTable\x06\x00\x00\x02\x00\x00\x00\x01\x00\x02\x00\x01\x00\x19\x00\x01\x00\x03\x00\x00\x00\x02\x04\x01\x00\x01\x00\x03\x00\x00\x00\x01\x00\x01\x00\x03\x00\x01\x00\x04\x00\x00\x00\x24\x00\x03\x00\x04\x00\x00\x00\x01\xb1\x00\x01\x00\x00\x00\x01\x00\x00\x00\x02\x00\x01\x00\x05\x00\x00\x00\x09\x00\x01\xff\x00\x00\x00\x00\x00\x00\x00\x01\x00\x01\x00\x00\x00\x01x";

#[test]
fn parts(rt: HostRuntime) {
    match ClassBuilder::root(rt.alloc(), ClassFlags(0x600), b"A") {
        Ok(mut class) => assert!(rt; puts_parts(&mut class) && has_file(&class, PARTS)),
        Err(_) => assert!(rt; false),
    }
}
