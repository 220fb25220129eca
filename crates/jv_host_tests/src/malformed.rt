//! What is said of bytes that are no class file, and of files of another version.

use crate::files::HI;
use jv_malformed::{explain_malformed, explain_version};
use std::alloc::Global;

/// The file of a class that is final and abstract.
const FINAL_AND_ABSTRACT: &[u8] =
    b"\xca\xfe\xba\xbe\x00\x00\x004\x00\x05\x01\x00\x01A\x07\x00\x01\x01\x00\x10java/lang/Object\x07\x00\x03\x04\x31\x00\x02\x00\x04\x00\x00\x00\x00\x00\x00\x00\x00";

/// The file of a class with two fields of type int, of which the second is public and private.
const PUBLIC_AND_PRIVATE: &[u8] =
    b"\xca\xfe\xba\xbe\x00\x00\x004\x00\x08\x01\x00\x01A\x07\x00\x01\x01\x00\x10java/lang/Object\x07\x00\x03\x01\x00\x01x\x01\x00\x01I\x01\x00\x01y\x00\x21\x00\x02\x00\x04\x00\x00\x00\x02\x00\x00\x00\x05\x00\x06\x00\x00\x00\x03\x00\x07\x00\x06\x00\x00\x00\x00\x00\x00";

/// The file of an abstract class with a method that is abstract and final.
const ABSTRACT_AND_FINAL: &[u8] =
    b"\xca\xfe\xba\xbe\x00\x00\x004\x00\x07\x01\x00\x01A\x07\x00\x01\x01\x00\x10java/lang/Object\x07\x00\x03\x01\x00\x01m\x01\x00\x03()V\x04\x21\x00\x02\x00\x04\x00\x00\x00\x00\x00\x01\x04\x10\x00\x05\x00\x06\x00\x00\x00\x00";

/// The file of an abstract class with an abstract method twice.
const METHOD_TWICE: &[u8] =
    b"\xca\xfe\xba\xbe\x00\x00\x004\x00\x07\x01\x00\x01A\x07\x00\x01\x01\x00\x10java/lang/Object\x07\x00\x03\x01\x00\x01m\x01\x00\x03()V\x04\x21\x00\x02\x00\x04\x00\x00\x00\x00\x00\x02\x04\x00\x00\x05\x00\x06\x00\x00\x04\x00\x00\x05\x00\x06\x00\x00\x00\x00";

/// The file of a class with a static field that has an attribute of another length than a ConstantValue has.
const LONG_VALUE: &[u8] =
    b"\xca\xfe\xba\xbe\x00\x00\x004\x00\x08\x01\x00\x01A\x07\x00\x01\x01\x00\x10java/lang/Object\x07\x00\x03\x01\x00\x01x\x01\x00\x01I\x01\x00\x0dConstantValue\x00\x21\x00\x02\x00\x04\x00\x00\x00\x01\x00\x08\x00\x05\x00\x06\x00\x01\x00\x07\x00\x00\x00\x03\x00\x00\x00\x00\x00\x00\x00";

/// Bytes, and what is said of them.
static ROWS: [(&[u8], &str); 14] = [
    (
        b"\xca\xfe\xba\xbf\x00\x00\x00\x34",
        "  the start is not that of a class file: CAFEBABE and a version, eight bytes (JVMS 4.1)\n",
    ),
    (
        b"\xca\xfe\xba\xbe\x00\x00\x004\x00\x00",
        "  the count of the constants: it is cut off, 0, or too small for the last constant (JVMS 4.1, 4.4.5)\n",
    ),
    (
        b"\xca\xfe\xba\xbe\x00\x00\x004\x00\x02\x05\x00\x00\x00\x00\x00\x00\x00\x00",
        "  the count of the constants: it is cut off, 0, or too small for the last constant (JVMS 4.1, 4.4.5)\n",
    ),
    (
        b"\xca\xfe\xba\xbe\x00\x00\x004\x00\x03\x63\x00\x02Hi\x07\x00\x01",
        "  constant 1: it is cut off, or no constant has such a tag (JVMS 4.4)\n",
    ),
    (
        b"\xca\xfe\xba\xbe\x00\x00\x004\x00\x04\x05\x00\x00\x00\x00\x00\x00\x00\x00\x01\x00\x02H",
        "  constant 3: it is cut off, or no constant has such a tag (JVMS 4.4)\n",
    ),
    (
        b"\xca\xfe\xba\xbe\x00\x00\x004\x00\x04\x01\x00\x01A\x07\x00\x03\x08\x00\x01",
        "  constant 2 is a Class that does not name a class or an array type (JVMS 4.4.1)\n",
    ),
    (
        b"\xca\xfe\xba\xbe\x00\x00\x004\x00\x03\x06\x00\x00\x00\x00\x00\x00\x00\x00\x00\x21",
        "  behind the constant pool: the flags, the class, its superclass or its interfaces are cut off (JVMS 4.1)\n",
    ),
    (
        FINAL_AND_ABSTRACT,
        "  the class: its flags, its name, its superclass or its interfaces break a rule (JVMS 4.1)\n",
    ),
    (
        PUBLIC_AND_PRIVATE,
        "  field 1: its name, its descriptor, its flags or its constant breaks a rule (JVMS 4.5, 4.7.2)\n",
    ),
    (
        ABSTRACT_AND_FINAL,
        "  method 0: its name, its descriptor, its flags or its code breaks a rule (JVMS 4.6, 4.7.3)\n",
    ),
    (
        METHOD_TWICE,
        "  two fields or two methods have the same name and descriptor (JVMS 4.5, 4.6)\n",
    ),
    (
        LONG_VALUE,
        "  field 0: it is cut off, or an attribute of it may not stand so (JVMS 4.5, 4.7)\n",
    ),
    (
        b"\xca\xfe\xba\xbe\x00\x00\x004\x00\x02\x01\x00\x01\x00",
        "  constant 1 is a Utf8 that is not in modified UTF-8 (JVMS 4.4.7)\n",
    ),
    (
        b"\xca\xfe\xba\xbe\x00\x00\x004\x00\x02\x08\x00\x02",
        "  constant 1 is a String that does not name a Utf8 (JVMS 4.4.3)\n",
    ),
];

/// What is said of each front of the file `HI` that has fewer bytes than the number, and no fewer than the number before.
static FRONTS: [(usize, &str); 20] = [
    (
        8,
        "  the start is not that of a class file: CAFEBABE and a version, eight bytes (JVMS 4.1)\n",
    ),
    (
        10,
        "  the count of the constants: it is cut off, 0, or too small for the last constant (JVMS 4.1, 4.4.5)\n",
    ),
    (
        15,
        "  constant 1: it is cut off, or no constant has such a tag (JVMS 4.4)\n",
    ),
    (
        18,
        "  constant 2: it is cut off, or no constant has such a tag (JVMS 4.4)\n",
    ),
    (
        37,
        "  constant 3: it is cut off, or no constant has such a tag (JVMS 4.4)\n",
    ),
    (
        40,
        "  constant 4: it is cut off, or no constant has such a tag (JVMS 4.4)\n",
    ),
    (
        47,
        "  constant 5: it is cut off, or no constant has such a tag (JVMS 4.4)\n",
    ),
    (
        72,
        "  constant 6: it is cut off, or no constant has such a tag (JVMS 4.4)\n",
    ),
    (
        79,
        "  constant 7: it is cut off, or no constant has such a tag (JVMS 4.4)\n",
    ),
    (
        89,
        "  constant 8: it is cut off, or no constant has such a tag (JVMS 4.4)\n",
    ),
    (
        92,
        "  constant 9: it is cut off, or no constant has such a tag (JVMS 4.4)\n",
    ),
    (
        100,
        "  constant 10: it is cut off, or no constant has such a tag (JVMS 4.4)\n",
    ),
    (
        107,
        "  constant 11: it is cut off, or no constant has such a tag (JVMS 4.4)\n",
    ),
    (
        112,
        "  constant 12: it is cut off, or no constant has such a tag (JVMS 4.4)\n",
    ),
    (
        117,
        "  constant 13: it is cut off, or no constant has such a tag (JVMS 4.4)\n",
    ),
    (
        125,
        "  behind the constant pool: the flags, the class, its superclass or its interfaces are cut off (JVMS 4.1)\n",
    ),
    (
        127,
        "  behind the interfaces: the count of the fields is cut off (JVMS 4.1)\n",
    ),
    (
        129,
        "  behind the fields: the count of the methods is cut off (JVMS 4.1)\n",
    ),
    (
        166,
        "  method 0: it is cut off, or an attribute of it may not stand so (JVMS 4.6, 4.7)\n",
    ),
    (
        168,
        "  behind the methods: an attribute of the class is cut off or has no name, or bytes are left over (JVMS 4.1, 4.7)\n",
    ),
];

/// Whether this is said of the bytes.
fn is_said(alloc: Global, bytes: &[u8], text: &str) -> bool {
    match explain_malformed(alloc, bytes) {
        Ok(said) => said.as_str() == text,
        Err(_) => false,
    }
}

/// What is said of the front of so many bytes.
fn text_of_front(count: usize) -> &'static str {
    for (end, text) in &FRONTS {
        if count < *end {
            return text;
        }
    }
    ""
}

/// Whether it is said of each front of a class file.
fn fronts_are_right(alloc: Global) -> bool {
    for count in 0..HI.len() {
        if !is_said(alloc, &HI[..count], text_of_front(count)) {
            return false;
        }
    }
    true
}

#[test]
fn malformed(rt: HostRuntime) {
    for (bytes, text) in &ROWS {
        assert!(rt; is_said(rt.alloc(), bytes, text));
    }
    assert!(rt; fronts_are_right(rt.alloc()));
}

/// Whether this is said of a file with this version and nothing else, by the eight bytes at its start.
fn is_version_said(alloc: Global, bytes: &[u8], text: &str) -> bool {
    match explain_version(alloc, bytes) {
        Ok(said) => said.as_str() == text,
        Err(_) => false,
    }
}

#[test]
fn other_versions(rt: HostRuntime) {
    let later =
        "  version 61.0: this host reads 50.0, 51.0 and 52.0 (JVMS 4.1), the last of which javac makes by --release 8\n";
    let preview =
        "  version 52.1: this host reads 50.0, 51.0 and 52.0 (JVMS 4.1), the last of which javac makes by --release 8\n";
    assert!(rt; is_version_said(rt.alloc(), b"\xca\xfe\xba\xbe\x00\x00\x00\x3d", later));
    assert!(rt; is_version_said(rt.alloc(), b"\xca\xfe\xba\xbe\x00\x01\x00\x34", preview));
}
