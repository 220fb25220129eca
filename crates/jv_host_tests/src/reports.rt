//! What no clause says of reports: what is printed.

use crate::program::{Row, does_all};
use std::hash::RandomState;

/// The report on the example.
pub(crate) const HI_TOLD: &str =
    "guest 1 hi\n  Hi.class: Accepted\n  steps 6\n  throws 0\n  output 2: Hi\n  end Returned\n";

pub(crate) static REPORTS: [Row; 8] = [
    // Each way to end.
    Row {
        words: "jvhost run --quantum 6 --rounds 1 p hi ho thrown",
        input: b"",
        good: 0,
        status: 5,
        out: [
            "guest 1 p\n  P.class: Accepted\n  steps 6\n  throws 0\n  output 2: \\xff\\xff\n  end Running\nguest 2 hi\n  Hi.class: Accepted\n  steps 6\n  throws 0\n  output 2: Hi\n  end Returned\n",
            "guest 3 ho\n  Hi.class: Accepted\n  steps 0\n  throws 0\n  output 0:\n  end NoMain\nguest 4 thrown\n  C.class: Verify method 0 offset 1 rule 6\n  steps 0\n  throws 1 last java/lang/VerifyError\n  output 0:\n  end Threw java/lang/VerifyError\n",
        ],
        err: Some(""),
    },
    Row {
        words: "jvhost check C.class",
        input: b"",
        good: 0,
        status: 1,
        out: ["C.class: Verify method 0 offset 1 rule 6\n", ""],
        err: Some(""),
    },
    Row {
        words: "jvhost run hi hi",
        input: b"",
        good: 0,
        status: 0,
        out: [
            "guest 1 hi\n  Hi.class: Accepted\n  steps 6\n  throws 0\n  output 2: Hi\n  end Returned\n",
            "guest 2 hi\n  Hi.class: Accepted\n  steps 6\n  throws 0\n  output 2: Hi\n  end Returned\n",
        ],
        err: Some(""),
    },
    Row {
        words: "jvhost run --output 1 hi",
        input: b"",
        good: 0,
        status: 0,
        out: [
            "guest 1 hi\n  Hi.class: Accepted\n",
            "  steps 5\n  throws 1 last java/lang/OutOfMemoryError\n  output 1: H\n  end Threw java/lang/OutOfMemoryError\n",
        ],
        err: Some(""),
    },
    Row {
        words: "jvhost run --quantum 3 --rounds 1 hi",
        input: b"",
        good: 0,
        status: 5,
        out: [
            "guest 1 hi\n  Hi.class: Accepted\n",
            "  steps 3\n  throws 0\n  output 1: H\n  end Running\n",
        ],
        err: Some(""),
    },
    Row {
        words: "jvhost run --quantum 4 --rounds 1 in",
        input: b"",
        good: 0,
        status: 5,
        out: [
            "guest 1 in\n  P.class: Accepted\n",
            "  steps 4\n  throws 0\n  output 1: Z\n  end Running\n",
        ],
        err: Some(""),
    },
    Row {
        words: "jvhost check hi/Hi.class p/P.class",
        input: b"",
        good: 0,
        status: 0,
        out: ["hi/Hi.class: Accepted\np/P.class: Accepted\n", ""],
        err: Some(""),
    },
    Row {
        words: "jvhost check hi/main",
        input: b"",
        good: 0,
        status: 1,
        out: ["hi/main: Format\n", ""],
        err: Some(""),
    },
];

#[test]
fn reports(rt: HostRuntime) {
    let passes = match RandomState::new(&rt) {
        Ok(state) => does_all(rt.alloc(), state, &REPORTS),
        Err(_) => false,
    };
    assert!(rt; passes);
}
