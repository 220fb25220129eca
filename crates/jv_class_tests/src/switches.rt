//! Switches: paddings, distances and keys (JVMS 6.5, tableswitch and lookupswitch).

use crate::places::insn_in;
use jv_code::{Code, Insn, distance_at, distance_for, first_distance, first_pair, pair_at};

#[test]
fn paddings(rt: HostRuntime) {
    // At each offset the padding that is wanted, one byte less, and one more.
    for at in 0..8usize {
        let wanted = 3 - at % 4;
        for padding in 0..5usize {
            let mut bytes = [0u8; 40];
            bytes[at] = 171;
            for i in 0..padding {
                bytes[at + 1 + i] = 255;
            }
            bytes[at + 1 + padding + 3] = 9;
            let end = at + 1 + padding + 8;
            let is_read = Code::read(&bytes[..end]).is_ok();
            assert!(rt; is_read == (padding == wanted), "{padding} at {at}");
        }
    }
}

/// The distances 1, -1 and -2147483648.
const DISTANCES: &[u8] = b"\x00\x00\x00\x01\xff\xff\xff\xff\x80\x00\x00\x00";

/// Whether a `tableswitch` with these distances is read as it stands behind `nop`.
fn is_table_switch_read() -> bool {
    let Ok(code) = Code::read(
        b"\x00\xaa\x07\x06\xff\xff\xff\xff\xff\xff\xff\xfe\x00\x00\x00\x00\x00\x00\x00\x01\xff\xff\xff\xff\x80\x00\x00\x00",
    ) else {
        return false;
    };
    match insn_in(&code, 1) {
        Some((Insn::TableSwitch(b"\x07\x06", -1, -2, 0, distances), 28)) => distances == DISTANCES,
        _ => false,
    }
}

#[test]
fn table_switches(rt: HostRuntime) {
    assert!(rt; is_table_switch_read());
}

/// A number, and the distance that has it.
static NUMBERED: [(usize, Option<i32>); 5] = [
    (0, Some(1)),
    (1, Some(-1)),
    (2, Some(-2147483648)),
    (3, None),
    (18446744073709551615, None),
];

#[test]
fn distances(rt: HostRuntime) {
    for (number, wanted) in &NUMBERED {
        assert!(rt; distance_at(DISTANCES, *number) == *wanted, "{number}");
    }
}

/// Whether the first distance is split from the rest.
fn is_first_distance_right() -> bool {
    match first_distance(DISTANCES) {
        Some((1, rest)) => rest == b"\xff\xff\xff\xff\x80\x00\x00\x00".as_slice(),
        _ => false,
    }
}

#[test]
fn first_ones(rt: HostRuntime) {
    assert!(rt; is_first_distance_right() && first_distance(b"\x00\x00\x00").is_none());
    assert!(rt;
        matches!(
            first_pair(b"\xff\xff\xff\xff\x00\x00\x00\x05\x01"),
            Some(((-1, 5), b"\x01"))
        ) && first_pair(b"\x01").is_none()
    );
}

/// The pairs (-2, 1), (0, -1) and (7, 5).
const PAIRS: &[u8] =
    b"\xff\xff\xff\xfe\x00\x00\x00\x01\x00\x00\x00\x00\xff\xff\xff\xff\x00\x00\x00\x07\x00\x00\x00\x05";

#[test]
fn pairs(rt: HostRuntime) {
    assert!(rt;
        pair_at(PAIRS, 0) == Some((-2, 1))
            && pair_at(PAIRS, 2) == Some((7, 5))
            && pair_at(PAIRS, 3).is_none()
    );
}

/// A key, and its distance.
static KEYS: [(i32, Option<i32>); 6] = [
    (-3, None),
    (-2, Some(1)),
    (-1, None),
    (0, Some(-1)),
    (7, Some(5)),
    (8, None),
];

#[test]
fn keys(rt: HostRuntime) {
    for (key, wanted) in &KEYS {
        assert!(rt; distance_for(PAIRS, *key) == *wanted, "{key}");
    }
}
