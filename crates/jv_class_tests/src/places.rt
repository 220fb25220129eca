//! Where instructions start, handlers and jumps.

use jv_code::{
    Code, Insn, JumpForm, Starts, bytes_join, distances_stand, each_has_distance, falls_through,
    fits_there, jump_distance, keys_rise, next_starts, one_at_offset, one_list, pairs_stand,
    stands_as_spelled, stands_in_list, starts_apart, target_of,
};
use jv_format::{ExceptionTable, Handler};
use std::alloc::Global;

/// The instruction that starts at an offset, and where the next one does.
pub(crate) fn insn_in<'a>(code: &Code<'a>, pc: u32) -> Option<(Insn<&'a [u8]>, u32)> {
    if code.is_start(pc) {
        Some(code.insn_at(pc))
    } else {
        None
    }
}

#[test]
fn laws() {
    one_list();
    stands_in_list();
    starts_apart();
    one_at_offset();
    fits_there();
    each_has_distance();
    keys_rise();
    distances_stand();
    pairs_stand();
    stands_as_spelled();
    bytes_join();
    next_starts();
}

/// The code of a lookupswitch without pairs and of `return` behind it.
const SWITCH: &[u8] = b"\xab\x01\x02\x03\x00\x00\x00\x0c\x00\x00\x00\x00\xb1";

/// Whether the instructions of `SWITCH` are the two that stand there, and start there alone.
fn is_switch_right() -> bool {
    let Ok(code) = Code::read(SWITCH) else {
        return false;
    };
    let are_starts_right = (0..20u32).all(|pc| code.is_start(pc) == (pc == 0 || pc == 12));
    let are_right = match (insn_in(&code, 0), insn_in(&code, 12)) {
        (Some((Insn::LookupSwitch(b"\x01\x02\x03", 12, b""), 12)), Some((Insn::Return, 13))) =>
            true,
        _ => false,
    };
    are_right && are_starts_right && code.size() == 13 && !code.is_start(4294967295)
}

#[test]
fn starts(rt: HostRuntime) {
    assert!(rt; is_switch_right());
}

/// Whether the code is `nop` and a `goto` to it.
fn is_goto_back(bytes: &[u8]) -> bool {
    let Ok(code) = Code::read(bytes) else {
        return false;
    };
    code.size() == 4 && matches!(insn_in(&code, 1), Some((Insn::Goto(-1, JumpForm::Half), 4)))
}

#[test]
fn jumps(rt: HostRuntime) {
    // A branch at the last byte of the code, and one past it.
    assert!(rt; is_goto_back(b"\x00\xa7\xff\xff"));
    assert!(rt; !is_goto_back(b"\x00\xa7\xff") && !is_goto_back(b"\x00\xa7"));
}

/// An offset, a distance, and where the jump goes.
static TARGETS: [(u32, i32, Option<u32>); 7] = [
    (1, -1, Some(0)),
    (1, -2, None),
    (0, 0, Some(0)),
    (65535, 2147483647, Some(2147549182)),
    (5, -2147483648, None),
    (4294967295, 1, None),
    (4294967295, 0, Some(4294967295)),
];

#[test]
fn targets(rt: HostRuntime) {
    for (pc, distance, wanted) in &TARGETS {
        assert!(rt;
            target_of(*pc, *distance) == *wanted,
            "{distance} from {pc}"
        );
    }
}

/// Start, end and handler, and whether they fit the code of `handlers`.
static HANDLERS: [(u16, u16, u16, bool); 12] = [
    (0, 1, 0, true),
    (0, 5, 4, true),
    (1, 3, 3, true),
    (4, 5, 0, true),
    (0, 0, 0, false),
    (3, 1, 0, false),
    (2, 3, 0, false),
    (0, 2, 0, false),
    (0, 6, 0, false),
    (0, 1, 2, false),
    (0, 1, 5, false),
    (5, 6, 0, false),
];

/// Tables of handlers for the same code, and whether all of them fit.
static TABLES: [(&[u8], bool); 4] = [
    (b"", true),
    (
        b"\x00\x00\x00\x05\x00\x00\x00\x00\x00\x01\x00\x03\x00\x03\x00\x07",
        true,
    ),
    (
        b"\x00\x00\x00\x05\x00\x00\x00\x00\x00\x01\x00\x02\x00\x03\x00\x07",
        false,
    ),
    (
        b"\x00\x02\x00\x05\x00\x00\x00\x00\x00\x01\x00\x03\x00\x03\x00\x07",
        false,
    ),
];

fn are_right(starts: &Starts<'_>) -> bool {
    let are_rows_right = HANDLERS.iter().all(|row| {
        let handler = Handler {
            start_pc: row.0,
            end_pc: row.1,
            handler_pc: row.2,
            catch_type: 7,
        };
        starts.handler_fits(handler) == row.3
    });
    are_rows_right
        && TABLES.iter().all(|row| starts.handlers_fit(ExceptionTable { bytes: row.0 }) == row.1)
        && (0..20u32).all(|pc| starts.is_start(pc) == matches!(pc, 0 | 1 | 3 | 4))
}

/// Whether starts and handlers are right for nop, bipush 1, pop, return: instructions start at 0,
/// 1, 3 and 4, and the code ends at 5.
fn is_table_right(alloc: Global) -> bool {
    let Ok(code) = Code::read(b"\x00\x10\x01\x57\xb1") else {
        return false;
    };
    match Starts::new(alloc, code) {
        Ok(starts) => are_right(&starts),
        Err(_) => false,
    }
}

#[test]
fn handlers(rt: HostRuntime) {
    assert!(rt; is_table_right(rt.alloc()));
}

fn is_whole(bytes: &[u8]) -> bool {
    let Ok(code) = Code::read(bytes) else {
        return false;
    };
    code.size() == 65535 && code.is_start(65534) && !code.is_start(65535)
}

#[test]
fn sizes(rt: HostRuntime) {
    let is_right = match vec![in rt.alloc(); 0; 65536] {
        Ok(bytes) => Code::read(&bytes).is_err() && is_whole(&bytes[1..]),
        Err(_) => false,
    };
    assert!(rt; is_right);
}

/// Whether the code is an instruction behind which the next one follows or not, with these as its
/// first two distances and no third.
fn goes(bytes: &[u8], follows: bool, first: Option<i32>, second: Option<i32>) -> bool {
    let Ok(code) = Code::read(bytes) else {
        return false;
    };
    let _ = code.size();
    let (insn, _) = code.insn_at(0);
    falls_through(&insn) == follows
        && jump_distance(&insn, 0) == first
        && jump_distance(&insn, 1) == second
        && jump_distance(&insn, 2).is_none()
}

/// An instruction, whether the next one follows, and its first two distances.
static SUCCESSORS: [(&[u8], bool, Option<i32>, Option<i32>); 8] = [
    (b"\x00", true, None, None),
    (b"\x99\xff\xfe", true, Some(-2), None),
    (b"\xc8\x80\x00\x00\x00", false, Some(-2147483648), None),
    (b"\xb1", false, None, None),
    (b"\xac", false, None, None),
    (b"\xbf", false, None, None),
    (b"\xa7\x00\x03", false, Some(3), None),
    (
        b"\xab\x00\x00\x00\x00\x00\x00\x09\x00\x00\x00\x01\x00\x00\x00\x05\x00\x00\x00\x07",
        false,
        Some(9),
        Some(7),
    ),
];

#[test]
fn successors(rt: HostRuntime) {
    for (bytes, follows, first, second) in &SUCCESSORS {
        assert!(rt; goes(bytes, *follows, *first, *second), "{bytes:?}");
    }
}

fn are_read() -> bool {
    let Ok(code) = Code::read(b"\xa2\xff\xfe") else {
        return false;
    };
    code.size() == 3
        && code.opcode_at(0) == 162
        && code.u8_at(1) == 255
        && code.i8_at(2) == -2
        && code.u16_at(1) == 65534
        && code.i16_at(1) == -2
}

#[test]
fn operands(rt: HostRuntime) {
    assert!(rt; are_read());
}
