//! What no clause says of a folder: that the definitions of its names are those that are meant.

use jv_program_base::{class_file_names, main_name_of, names_in};
use std::alloc::Global;

/// A text, and what is left without the end of its line.
static LINES: [(&[u8], &[u8]); 7] = [
    (b"Hi", b"Hi"),
    (b"Hi\n", b"Hi"),
    (b"Hi\r\n", b"Hi"),
    (b"Hi\n\n", b"Hi\n"),
    (b"Hi\r", b"Hi\r"),
    (b"\n", b""),
    (b"", b""),
];

#[test]
fn cuts_one_line_end(rt: HostRuntime) {
    for (text, want) in &LINES {
        assert!(rt; main_name_of(text) == *want, "{text:?}");
    }
}

/// The class files of a listing, in byte order.
static CLASS_FILES: [&[u8]; 4] = [b".class", b"B.class", b"a.class", b"b.class"];

/// Whether these are the class files of a listing.
fn are_class_files(alloc: Global, listing: &[u8], want: &[&[u8]]) -> bool {
    let Ok(names) = names_in(alloc, listing) else {
        return false;
    };
    match class_file_names(alloc, names.as_slice()) {
        Ok(found) => found.as_slice() == want,
        Err(_) => false,
    }
}

#[test]
fn finds_class_files(rt: HostRuntime) {
    let listing = b"main\0b.class\0.\0..\0a.class\0.class\0B.class\0x.classy\0";
    assert!(rt; are_class_files(rt.alloc(), listing, &CLASS_FILES));
    assert!(rt; are_class_files(rt.alloc(), b"", &[]));
    assert!(rt; are_class_files(rt.alloc(), b"A.class\0B.class", &[b"A.class"]));
}
