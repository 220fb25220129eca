//! What no clause says: that the definitions of the printed text are those that are meant.

use jv_program_base::Escaped;
use std::alloc::Global;

/// Bytes, and how they are shown.
static ESCAPES: [(&[u8], &str); 6] = [
    (b"", ""),
    (b"Hi ~!", "Hi ~!"),
    (b"\x00\x1f\x20", "\\x00\\x1f "),
    (b"\x7e\x7f\x80\xff", "~\\x7f\\x80\\xff"),
    (b"a\\b", "a\\x5cb"),
    (b"\xc3\xa9\n", "\\xc3\\xa9\\x0a"),
];

fn is_shown(alloc: Global, bytes: &[u8], want: &str) -> bool {
    let shown = Escaped(bytes);
    match format!(in alloc; "{shown}") {
        Ok(text) => text.as_str() == want,
        Err(_) => false,
    }
}

#[test]
fn escapes(rt: HostRuntime) {
    for (bytes, want) in &ESCAPES {
        assert!(rt; is_shown(rt.alloc(), bytes, want), "{want}");
    }
}
