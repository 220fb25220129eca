//! Reports in JSON.

use crate::program::{Row, does_all};
use std::hash::RandomState;

/// Reports in JSON, and one with the place of a throw.
static JSON: [Row; 5] = [
    Row {
        words: "jvhost run --json hi",
        input: b"",
        good: 0,
        status: 0,
        out: [
            "{\"end\":\"Returned\",\"files\":[{\"file\":\"Hi.class\",\"verdict\":\"Accepted\"}],",
            "\"folder\":\"hi\",\"guest\":1,\"output\":\"Hi\",\"steps\":6,\"throws\":0}\n",
        ],
        err: Some(""),
    },
    // What is no UTF-8 is escaped, and whole in base64.
    Row {
        words: "jvhost run --json --stdin 1 --quantum 4 --rounds 4 p",
        input: b"A",
        good: 2,
        status: 5,
        out: [
            "{\"end\":\"Running\",\"files\":[{\"file\":\"P.class\",\"verdict\":\"Accepted\"}],\"folder\":\"p\",\"guest\":1,",
            "\"output\":\"A\\\\xff\\\\xff\\\\xff\\\\xff\",\"output_base64\":\"Qf////8=\",\"steps\":16,\"throws\":0}\n",
        ],
        err: Some(""),
    },
    // An exception is told with its place.
    Row {
        words: "jvhost run --json --output 1 hi",
        input: b"",
        good: 0,
        status: 0,
        out: [
            "{\"end\":\"Threw\",\"files\":[{\"file\":\"Hi.class\",\"verdict\":\"Accepted\"}],\"folder\":\"hi\",\"guest\":1,\"last\":\"java/lang/OutOfMemoryError\",\"output\":\"H\",",
            "\"place\":{\"class\":\"Hi\",\"descriptor\":\"([Ljava/lang/String;)V\",\"instruction\":\"invokestatic host/Io.write:(I)V\",\"method\":\"main\",\"offset\":7},\"steps\":5,\"threw\":\"java/lang/OutOfMemoryError\",\"throws\":1}\n",
        ],
        err: Some(""),
    },
    Row {
        words: "jvhost run --where --output 1 hi",
        input: b"",
        good: 0,
        status: 0,
        out: [
            "guest 1 hi\n  Hi.class: Accepted\n  steps 5\n  throws 1 last java/lang/OutOfMemoryError at Hi.main:([Ljava/lang/String;)V",
            " offset 7: invokestatic host/Io.write:(I)V\n  output 1: H\n  end Threw java/lang/OutOfMemoryError\n",
        ],
        err: Some(""),
    },
    Row {
        words: "jvhost check --json hi/Hi.class hi/main",
        input: b"",
        good: 0,
        status: 1,
        out: [
            "{\"file\":\"hi/Hi.class\",\"verdict\":\"Accepted\"}\n",
            "{\"file\":\"hi/main\",\"verdict\":\"Format\"}\n",
        ],
        err: Some(""),
    },
];

#[test]
fn shows_json(rt: HostRuntime) {
    let passes = match RandomState::new(&rt) {
        Ok(state) => does_all(rt.alloc(), state, &JSON),
        Err(_) => false,
    };
    assert!(rt; passes);
}
