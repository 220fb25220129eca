//! Instructions, and the list that the decoder reads of them.

use jv_asm::{AsmFault, Item, items_are_code, write_code};
use jv_code::{Code, Insn, JumpForm};
use std::alloc::{AllocError, Global};

#[test]
fn law() {
    items_are_code();
}

/// An instruction, and its bytes.
static SPELLED: [(Item<'static>, &[u8]); 13] = [
    (Item::Plain(177), b"\xb1"),
    (Item::Byte(18, 200), b"\x12\xc8"),
    (Item::SignedByte(16, -5), b"\x10\xfb"),
    (Item::Half(178, 258), b"\xb2\x01\x02"),
    (Item::SignedHalf(153, -3), b"\x99\xff\xfd"),
    (Item::SignedQuad(200, -3), b"\xc8\xff\xff\xff\xfd"),
    (Item::Iinc(1, -1), b"\x84\x01\xff"),
    (Item::Wide(21, 258), b"\xc4\x15\x01\x02"),
    (Item::WideIinc(258, -2), b"\xc4\x84\x01\x02\xff\xfe"),
    (Item::Invokeinterface(258, 3), b"\xb9\x01\x02\x03\x00"),
    (Item::Multianewarray(258, 3), b"\xc5\x01\x02\x03"),
    (
        Item::Tableswitch(-1, 5, 6, &[7, -8]),
        b"\xaa\x00\x00\x00\xff\xff\xff\xff\x00\x00\x00\x05\x00\x00\x00\x06\x00\x00\x00\x07\xff\xff\xff\xf8",
    ),
    (
        Item::Lookupswitch(12, &[(-2, 3), (4, 5)]),
        b"\xab\x00\x00\x00\x00\x00\x00\x0c\x00\x00\x00\x02\xff\xff\xff\xfe\x00\x00\x00\x03\x00\x00\x00\x04\x00\x00\x00\x05",
    ),
];

/// Whether an instruction alone is written as these bytes.
fn is_written(alloc: Global, item: Item<'_>, bytes: &[u8]) -> bool {
    match write_code(alloc, &[item]) {
        Ok(code) => code.as_slice() == bytes,
        Err(_) => false,
    }
}

#[test]
fn is_spelled(rt: HostRuntime) {
    for (item, bytes) in &SPELLED {
        assert!(rt; is_written(rt.alloc(), *item, bytes), "{bytes:?}");
    }
}

/// The instruction that starts at an offset, and where the next one does.
fn insn_in<'a>(code: &Code<'a>, pc: u32) -> Option<(Insn<&'a [u8]>, u32)> {
    if code.is_start(pc) {
        Some(code.insn_at(pc))
    } else {
        None
    }
}

/// So many `nop`, a switch without pairs, and `return`.
fn behind_nops(alloc: Global, nops: u32) -> Result<Vec<Item<'static>>, AllocError> {
    let mut items = Vec::new(alloc);
    for _ in 0..nops {
        items.push(Item::Plain(0))?;
    }
    items.push(Item::Lookupswitch(1, &[]))?;
    items.push(Item::Plain(177))?;
    Ok(items)
}

/// Whether bytes are code with a switch at an offset, and `return` behind it.
fn is_switch_at(bytes: &[u8], at: u32) -> bool {
    let Ok(code) = Code::read(bytes) else {
        return false;
    };
    match insn_in(&code, at) {
        Some((Insn::LookupSwitch(_, 1, b""), next)) => {
            matches!(insn_in(&code, next), Some((Insn::Return, _)))
        }
        _ => false,
    }
}

/// Whether a switch behind so many `nop` is padded as the decoder wants it.
fn is_padded(alloc: Global, nops: u32) -> bool {
    let Ok(items) = behind_nops(alloc, nops) else {
        return false;
    };
    match write_code(alloc, &items) {
        Ok(code) => code.len() % 4 == 1 && is_switch_at(&code, nops),
        Err(_) => false,
    }
}

#[test]
fn padding_is_counted_from_the_start(rt: HostRuntime) {
    for nops in 0..8 {
        assert!(rt; is_padded(rt.alloc(), nops), "{nops}");
    }
}

/// For a run with an allocation refused.
#[test]
fn is_spelled_or_has_no_memory(rt: HostRuntime) {
    match write_code(rt.alloc(), &[Item::Plain(0), Item::SignedHalf(167, -1)]) {
        Ok(code) => assert!(rt; code.as_slice() == b"\x00\xa7\xff\xff".as_slice()),
        Err(fault) => assert!(rt; matches!(fault, AsmFault::OutOfMemory)),
    }
}

/// Whether bytes are code with a jump by -1 at offset 1.
fn is_jump_behind_nop(bytes: &[u8]) -> bool {
    match Code::read(bytes) {
        Ok(code) => matches!(insn_in(&code, 1), Some((Insn::Goto(-1, JumpForm::Half), _))),
        Err(_) => false,
    }
}

#[test]
fn is_read(rt: HostRuntime) {
    match write_code(rt.alloc(), &[Item::Plain(0), Item::SignedHalf(167, -1)]) {
        Ok(code) => assert!(rt; is_jump_behind_nop(&code)),
        Err(_) => assert!(rt; false),
    }
}
