//! Words that are refused.

use crate::program::{Row, does_all};
use std::hash::RandomState;

/// Words that are refused, and nothing is on the output.
pub(crate) static REFUSALS: [Row; 17] = [
    Row {
        words: "jvhost run unlisted",
        input: b"",
        good: 0,
        status: 3,
        out: ["", ""],
        err: Some("jvhost: unlisted: cannot be read\n"),
    },
    Row {
        words: "jvhost run bare",
        input: b"",
        good: 0,
        status: 3,
        out: ["", ""],
        err: Some("jvhost: bare/main: cannot be read\n"),
    },
    Row {
        words: "jvhost run dry",
        input: b"",
        good: 0,
        status: 3,
        out: ["", ""],
        err: Some("jvhost: dry/input: cannot be read\n"),
    },
    Row {
        words: "jvhost run second first",
        input: b"",
        good: 0,
        status: 3,
        out: ["", ""],
        err: Some("jvhost: second/Cut.class: cannot be read\n"),
    },
    Row {
        words: "jvhost run --cells 63 hi",
        input: b"",
        good: 0,
        status: 3,
        out: ["", ""],
        err: Some("jvhost: BudgetOutOfRange\n"),
    },
    Row {
        words: "jvhost run --cells 63 hi none",
        input: b"",
        good: 0,
        status: 3,
        out: ["", ""],
        err: Some("jvhost: none: cannot be read\n"),
    },
    Row {
        words: "jvhost run mainless",
        input: b"",
        good: 0,
        status: 3,
        out: ["", ""],
        err: Some("jvhost: mainless/main: cannot be read\n"),
    },
    Row {
        words: "jvhost run classless",
        input: b"",
        good: 0,
        status: 3,
        out: ["", ""],
        err: Some("jvhost: classless/A.class: cannot be read\n"),
    },
    Row {
        words: "jvhost run first",
        input: b"",
        good: 0,
        status: 3,
        out: ["", ""],
        err: Some("jvhost: first/Bad.class: cannot be read\n"),
    },
    Row {
        words: "jvhost run second",
        input: b"",
        good: 0,
        status: 3,
        out: ["", ""],
        err: Some("jvhost: second/Cut.class: cannot be read\n"),
    },
    Row {
        words: "jvhost run cut",
        input: b"",
        good: 0,
        status: 3,
        out: ["", ""],
        err: Some("jvhost: cut: cannot be read\n"),
    },
    Row {
        words: "jvhost check hi/Hi.class first/Bad.class",
        input: b"",
        good: 0,
        status: 3,
        out: ["", ""],
        err: Some("jvhost: first/Bad.class: cannot be read\n"),
    },
    Row {
        words: "jvhost run --stdin 2 none",
        input: b"",
        good: 0,
        status: 2,
        out: ["", ""],
        err: Some("jvhost: NoGuest\n"),
    },
    Row {
        words: "jvhost run --stdin 1 p",
        input: b"",
        good: 0,
        status: 3,
        out: ["", ""],
        err: Some("jvhost: standard input: cannot be read\n"),
    },
    Row {
        words: "jvhost run --stdin 1 p",
        input: b"AB",
        good: 1,
        status: 3,
        out: ["", ""],
        err: Some("jvhost: standard input: cannot be read\n"),
    },
    Row {
        words: "jvhost run --stdin 65 hi",
        input: b"",
        good: 0,
        status: 2,
        out: ["", ""],
        err: None,
    },
    Row {
        words: "jvhost run --stdin 0 hi",
        input: b"",
        good: 0,
        status: 2,
        out: ["", ""],
        err: None,
    },
];

#[test]
fn refuses(rt: HostRuntime) {
    let passes = match RandomState::new(&rt) {
        Ok(state) => does_all(rt.alloc(), state, &REFUSALS),
        Err(_) => false,
    };
    assert!(rt; passes);
}
