//! Standard input that is fed to a guest.

use crate::program::{Row, does_all};
use crate::reports::HI_TOLD;
use std::hash::RandomState;

pub(crate) static FEEDS: [Row; 5] = [
    // One piece comes before each round, to the guest with the number alone.
    Row {
        words: "jvhost run --stdin 2 --quantum 4 --rounds 2 p p",
        input: b"AB",
        good: 2,
        status: 5,
        out: [
            "guest 1 p\n  P.class: Accepted\n  steps 8\n  throws 0\n  output 2: \\xff\\xff\n  end Running\n",
            "guest 2 p\n  P.class: Accepted\n  steps 8\n  throws 0\n  output 2: AB\n  end Running\n",
        ],
        err: Some(""),
    },
    // What is fed joins behind the folder's input.
    Row {
        words: "jvhost run --stdin 1 --quantum 7 --rounds 1 in",
        input: b"AB",
        good: 1,
        status: 5,
        out: [
            "guest 1 in\n  P.class: Accepted\n",
            "  steps 7\n  throws 0\n  output 2: ZA\n  end Running\n",
        ],
        err: Some(""),
    },
    // Behind the end nothing is read.
    Row {
        words: "jvhost run --stdin 1 --quantum 4 --rounds 4 p",
        input: b"A",
        good: 2,
        status: 5,
        out: [
            "guest 1 p\n  P.class: Accepted\n",
            "  steps 16\n  throws 0\n  output 5: A\\xff\\xff\\xff\\xff\n  end Running\n",
        ],
        err: Some(""),
    },
    // Where no guest runs nothing is read.
    Row {
        words: "jvhost run --stdin 1 hi",
        input: b"AB",
        good: 1,
        status: 0,
        out: [HI_TOLD, ""],
        err: Some(""),
    },
    // Where no guest is fed nothing is read.
    Row {
        words: "jvhost run hi",
        input: b"",
        good: 0,
        status: 0,
        out: [HI_TOLD, ""],
        err: Some(""),
    },
];

#[test]
fn feeds(rt: HostRuntime) {
    let passes = match RandomState::new(&rt) {
        Ok(state) => does_all(rt.alloc(), state, &FEEDS),
        Err(_) => false,
    };
    assert!(rt; passes);
}
