//! What a guest wrote as it is.

use crate::program::{Row, does_all};
use crate::reports::HI_TOLD;
use std::hash::RandomState;

/// What a guest wrote goes to the output as it is, and the report with the errors.
static RAW: [Row; 6] = [
    Row {
        words: "jvhost run --raw 1 hi",
        input: b"",
        good: 1,
        status: 0,
        out: ["Hi", ""],
        err: Some(HI_TOLD),
    },
    // All of the input stands behind the guest's own before it runs, whatever pieces it comes in.
    Row {
        words: "jvhost run --raw 2 --quantum 10 --rounds 1 hi in",
        input: b"AB",
        good: 3,
        status: 5,
        out: ["ZAB", ""],
        err: Some(
            "guest 1 hi\n  Hi.class: Accepted\n  steps 6\n  throws 0\n  output 2: Hi\n  end Returned\nguest 2 in\n  P.class: Accepted\n  steps 10\n  throws 0\n  output 3: ZAB\n  end Running\n",
        ),
    },
    Row {
        words: "jvhost run --raw 1 hi",
        input: b"",
        good: 0,
        status: 3,
        out: ["", ""],
        err: Some("jvhost: standard input: cannot be read\n"),
    },
    Row {
        words: "jvhost run --raw 1 --stdin 1 --quantum 4 --rounds 2 p",
        input: b"AB",
        good: 2,
        status: 5,
        out: ["AB", ""],
        err: Some(
            "guest 1 p\n  P.class: Accepted\n  steps 8\n  throws 0\n  output 2: AB\n  end Running\n",
        ),
    },
    Row {
        words: "jvhost run --raw 2 hi",
        input: b"",
        good: 0,
        status: 2,
        out: ["", ""],
        err: Some("jvhost: NoGuest\n"),
    },
    Row {
        words: "jvhost run --raw 1 none",
        input: b"",
        good: 0,
        status: 3,
        out: ["", ""],
        err: Some("jvhost: none: cannot be read\n"),
    },
];

#[test]
fn shows_raw(rt: HostRuntime) {
    let passes = match RandomState::new(&rt) {
        Ok(state) => does_all(rt.alloc(), state, &RAW),
        Err(_) => false,
    };
    assert!(rt; passes);
}
