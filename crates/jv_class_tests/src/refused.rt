//! Bytes that are code, and bytes that are refused: whether an instruction outside the profile is why.

use jv_code::{Code, unsupported};
use std::alloc::Global;

/// What is said of bytes as code.
fn verdict(bytes: &[u8]) -> &'static str {
    match (Code::read(bytes).is_ok(), unsupported(bytes)) {
        (true, false) => "code",
        (false, true) => "outside",
        (false, false) => "malformed",
        (true, true) => "both",
    }
}

/// The opcodes outside the profile.
static OUTSIDE: [u8; 60] = [
    11, 12, 13, 14, 15, 23, 24, 34, 35, 36, 37, 38, 39, 40, 41, 48, 49, 56, 57, 67, 68, 69, 70, 71,
    72, 73, 74, 81, 82, 98, 99, 102, 103, 106, 107, 110, 111, 114, 115, 118, 119, 134, 135, 137,
    138, 139, 140, 141, 142, 143, 144, 149, 150, 151, 152, 174, 175, 186, 194, 195,
];

/// Whether an opcode outside the profile is said to be so, alone and behind another, and one that is no
/// opcode to be malformed.
fn is_right_alone(opcode: u8) -> bool {
    if OUTSIDE.contains(&opcode) {
        verdict(&[opcode]) == "outside" && verdict(&[0, opcode, 0, 0, 0, 0]) == "outside"
    } else if matches!(opcode, 168 | 169 | 201..=255) {
        verdict(&[opcode, 0, 0, 0, 0, 0, 0]) == "malformed"
    } else {
        true
    }
}

/// Whether that is said which is true of an opcode behind `wide`, and before the two bytes of a local.
fn is_right_behind_wide(opcode: u8) -> bool {
    let wanted = match opcode {
        21 | 22 | 25 | 54 | 55 | 58 => "code",
        23 | 24 | 56 | 57 => "outside",
        _ => "malformed",
    };
    verdict(&[196, opcode, 1, 2]) == wanted
}

#[test]
fn each_opcode(rt: HostRuntime) {
    for opcode in 0..=255u8 {
        assert!(rt;
            is_right_alone(opcode) && is_right_behind_wide(opcode),
            "{opcode}"
        );
    }
}

/// Bytes in hexadecimal, what is said of them, and why.
const ROWS: &str = "\
10 malformed: no operand
c9 malformed: jsr_w
000b outside: fconst_0 behind nop
bc06 outside: newarray of float
bc07 outside: newarray of double
c417 outside: wide before fload
bc03 malformed: newarray of code 3
bc0c malformed: newarray of code 12
bc malformed: newarray, cut
1100 malformed: sipush, cut
12 malformed: ldc, cut
1300 malformed: ldc_w, cut
15 malformed: iload, cut
8400 malformed: iinc, cut
9900 malformed: ifeq, cut
a700 malformed: goto, cut
b200 malformed: getstatic, cut
c8000000 malformed: goto_w, cut
c4 malformed: wide, cut
c41500 malformed: wide before iload, cut
c484000000 malformed: wide before iinc, cut
c48401020304 code: wide before iinc
b900010101 malformed: invokeinterface with a last byte 1
b9000101 malformed: invokeinterface, cut
b900010100 code: invokeinterface
c5000100 malformed: multianewarray of 0 dimensions
c50001 malformed: multianewarray, cut
c5000101 code: multianewarray
c90b malformed: ill formed before what is outside the profile
bc000b malformed: newarray of code 0 before what is outside the profile
00a80b malformed: jsr before what is outside the profile
100b0b outside: fconst_0 at the end, behind bipush
17c9 outside: fload before what is ill formed
100b code: bipush
aa00000000000000000000050000000500000000 code: tableswitch from 5 to 5 with one distance
aa000000000000000000000500000005 malformed: tableswitch from 5 to 5 with no distance
aa00000000000000000000050000000500000000c9000000 malformed: tableswitch from 5 to 5 with two distances
aa000000000000000000000600000005 malformed: tableswitch from 6 to 5
aa00000000000000800000000000000000000000 malformed: tableswitch of 2^31 + 1 numbers
aa00000000000000800000007fffffff00000000 malformed: tableswitch of 2^32 numbers
ab0000000000000000000000 code: lookupswitch without pairs
ab0000000000000000000001ffffffff00000000 code: lookupswitch of one pair
ab0000000000000000000002ffffffff000000000000000000000000 code: lookupswitch with rising keys, signed
ab000000000000000000000200000003000000000000000300000001 malformed: lookupswitch with equal keys
ab000000000000000000000200000003000000000000000200000000 malformed: lookupswitch with falling keys
ab00000000000000000000020000000000000000ffffffff00000000 malformed: lookupswitch with falling keys, signed
ab00000000000000ffffffff malformed: lookupswitch of -1 pairs
ab000000000000000000000100000000 malformed: lookupswitch of one pair, cut";

/// Whether that is said of the bytes of a row.
fn is_right(alloc: Global, row: &str) -> bool {
    let Some((text, rest)) = row.split_once(' ') else {
        return false;
    };
    let Some((wanted, _)) = rest.split_once(':') else {
        return false;
    };
    match hex::decode(alloc, text) {
        Ok(bytes) => verdict(&bytes) == wanted,
        Err(_) => false,
    }
}

#[test]
fn verdicts(rt: HostRuntime) {
    assert!(rt; verdict(b"") == "malformed");
    for row in ROWS.lines() {
        assert!(rt; is_right(rt.alloc(), row), "{row}");
    }
}
