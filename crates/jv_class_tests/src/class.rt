//! Tables of class files (JVMS 4.1 to 4.7).

use crate::files::{HI, patched, renamed};
use jv_class::{ClassFault, ClassFile, Method, one_structure, read_class};
use jv_pool::Kind;
use std::alloc::Global;

const MAIN: &[u8] = b"\x01\x00\x04main";

const MAIN_TYPE: &[u8] = b"\x01\x00\x16([Ljava/lang/String;)V";

const VOID: &[u8] = b"\x01\x00\x03()V";

const INIT: &[u8] = b"\x01\x00\x06<init>";

const CLINIT: &[u8] = b"\x01\x00\x08<clinit>";

/// 254 and 255 parameters of one slot each.
const FULL: &[u8] =
    b"\x01\x01\x01(IIIIIIIIIIIIIIIIIIIIIIIIIIIIIIIIIIIIIIIIIIIIIIIIIIIIIIIIIIIIIIIIIIIIIIIIIIIIIIIIIIIIIIIIIIIIIIIIIIIIIIIIIIIIIIIIIIIIIIIIIIIIIIIIIIIIIIIIIIIIIIIIIIIIIIIIIIIIIIIIIIIIIIIIIIIIIIIIIIIIIIIIIIIIIIIIIIIIIIIIIIIIIIIIIIIIIIIIIIIIIIIIIIIIIIIIIIIIIIIIIIIIIIIIIIIIII)V";

const OVERFULL: &[u8] =
    b"\x01\x01\x02(IIIIIIIIIIIIIIIIIIIIIIIIIIIIIIIIIIIIIIIIIIIIIIIIIIIIIIIIIIIIIIIIIIIIIIIIIIIIIIIIIIIIIIIIIIIIIIIIIIIIIIIIIIIIIIIIIIIIIIIIIIIIIIIIIIIIIIIIIIIIIIIIIIIIIIIIIIIIIIIIIIIIIIIIIIIIIIIIIIIIIIIIIIIIIIIIIIIIIIIIIIIIIIIIIIIIIIIIIIIIIIIIIIIIIIIIIIIIIIIIIIIIIIIIIIIIIII)V";

/// What is said of bytes as a class file.
fn answer_to(alloc: Global, bytes: &[u8]) -> &'static str {
    match read_class(alloc, bytes) {
        Ok(_) => "Read",
        Err(ClassFault::Version) => "Version",
        Err(ClassFault::Format) => "Format",
        Err(ClassFault::Unsupported) => "Unsupported",
        Err(ClassFault::OutOfMemory) => "Memory",
    }
}

#[test]
fn law() {
    one_structure();
}

/// Whether a class has the parts of `HI`.
fn has_parts(class: &ClassFile<'_>) -> bool {
    class.major() == 52
        && class.access_flags().0 == 0x21
        && class.this_class().0 == 2
        && class.name() == b"Hi".as_slice()
        && class.super_class().is_some()
        && class.interfaces().is_empty()
        && class.fields().is_empty()
        && matches!(class.pool().kind(13), Some(Kind::Methodref))
}

/// Whether a method has the flags of `main` and its indices.
fn is_main(method: &Method<'_>) -> bool {
    method.access_flags.0 == 9 && method.name.0 == 5 && method.descriptor.0 == 6
}

/// Whether a method has the code of `main`, without handlers.
fn has_code_of_main(method: &Method<'_>) -> bool {
    match method.code() {
        Some(code) => {
            code.max_stack == 1
                && code.code.len() == 11
                && code.exception_table.is_empty()
                && code.exception_table.handler(0).is_none()
        }
        None => false,
    }
}

/// Whether a class has one method, that of `HI`.
fn has_method(class: &ClassFile<'_>) -> bool {
    match class.method(0) {
        Some(method) => {
            class.method_count() == 1 && is_main(&method) && has_code_of_main(&method)
        }
        None => false,
    }
}

#[test]
fn reads_the_parts(rt: HostRuntime) {
    let is_right = match read_class(rt.alloc(), &HI) {
        Ok(class) => has_parts(&class) && has_method(&class),
        Err(_) => false,
    };
    assert!(rt; is_right);
}

/// For a run with an allocation refused.
#[test]
fn reads_or_has_no_memory(rt: HostRuntime) {
    let is_right = match read_class(rt.alloc(), &HI) {
        Ok(class) => class.name() == b"Hi".as_slice(),
        Err(fault) => matches!(fault, ClassFault::OutOfMemory),
    };
    assert!(rt; is_right);
}

#[test]
fn no_front_is_a_file(rt: HostRuntime) {
    for length in 0..HI.len() {
        assert!(rt;
            answer_to(rt.alloc(), &HI[..length]) == "Format",
            "{length}"
        );
    }
}

/// The first bytes of a file, all but eleven.
fn front(file: &[u8; 168]) -> &[u8] {
    &file[..157]
}

#[test]
fn other_lengths(rt: HostRuntime) {
    // A byte behind the end.
    let mut longer = [0; 169];
    longer[..168].copy_from_slice(&HI);
    assert!(rt; answer_to(rt.alloc(), &longer) == "Format");
    // An attribute of 12 bytes, whose code has none, and the end of the file, six bytes that are 0.
    let shorter = patched(&[
        (142, 0x0c),
        (150, 0),
        (151, 0),
        (152, 0),
        (153, 0),
        (154, 0),
        (155, 0),
        (156, 0),
    ]);
    assert!(rt; answer_to(rt.alloc(), front(&shorter)) == "Format");
}

/// Whether a file is refused for its version, as soon as that can be read.
fn is_of_other_version(alloc: Global, file: &[u8; 168]) -> bool {
    answer_to(alloc, file) == "Version"
        && answer_to(alloc, &file[..8]) == "Version"
        && answer_to(alloc, &file[..7]) == "Format"
}

/// Minor and major version.
static VERSIONS: [(u8, u8); 6] = [(0, 49), (0, 53), (1, 50), (1, 51), (1, 52), (52, 0)];

#[test]
fn versions(rt: HostRuntime) {
    for (minor, major) in &VERSIONS {
        let file = patched(&[(5, *minor), (7, *major)]);
        assert!(rt; is_of_other_version(rt.alloc(), &file), "{major}.{minor}");
    }
}

/// Whether the file of a major version is read, and its class shows that version.
fn shows_major(alloc: Global, major: u8) -> bool {
    match read_class(alloc, &patched(&[(7, major)])) {
        Ok(class) => class.major() == u16::from(major),
        Err(_) => false,
    }
}

static MAJORS: [u8; 3] = [50, 51, 52];

#[test]
fn supported_versions(rt: HostRuntime) {
    for major in &MAJORS {
        assert!(rt; shows_major(rt.alloc(), *major), "{major}");
    }
}

/// A rule that is broken, and by which bytes at which offsets.
static BROKEN: [(&str, &[(usize, u8)]); 34] = [
    (
        "another magic, before another version",
        &[(3, 0xbf), (7, 49)],
    ),
    ("a pool count of 0", &[(9, 0)]),
    ("tag 2", &[(15, 2)]),
    ("a byte that is no text", &[(13, 0)]),
    ("a class name with `;`", &[(13, b';')]),
    ("a class name that ends with `/`", &[(14, b'/')]),
    ("a Class that names a Class", &[(17, 2)]),
    ("a Class that names nothing", &[(17, 14)]),
    (
        "a Class whose array has no component",
        &[(13, b'['), (14, b'[')],
    ),
    ("a member name with `.`", &[(95, b'.')]),
    ("a NameAndType with no descriptor", &[(103, b'I')]),
    ("a Methodref with a NameAndType for its class", &[(114, 12)]),
    ("a Methodref with a Class for its member", &[(116, 2)]),
    (
        "a Methodref with a field's descriptor",
        &[(103, b'['), (104, b'['), (105, b'['), (106, b'I')],
    ),
    ("a Methodref with `<` in its name", &[(96, b'<')]),
    ("this_class that is no Class", &[(120, 1)]),
    ("this_class that is an array", &[(13, b'['), (14, b'I')]),
    ("the class java/lang/Object with a superclass", &[(120, 4)]),
    ("no superclass", &[(122, 0)]),
    ("an interface that is not abstract", &[(117, 2)]),
    ("an interface with the flag super", &[(117, 6)]),
    ("a final abstract class", &[(117, 4), (118, 0x31)]),
    ("an annotation that is no interface", &[(117, 0x20)]),
    ("a method name that is no Utf8", &[(132, 2)]),
    ("a method name with `<`", &[(44, b'<')]),
    ("a method descriptor that is a name", &[(134, 5)]),
    ("two visibilities", &[(130, 0x0b)]),
    ("an abstract method with code", &[(129, 4), (130, 1)]),
    ("a native method with code", &[(129, 1)]),
    (
        "a package-private method of an interface",
        &[(117, 6), (118, 1), (130, 8)],
    ),
    (
        "a final method of an interface",
        &[(117, 6), (118, 1), (130, 0x19)],
    ),
    ("an attribute of another name", &[(138, 5)]),
    ("an attribute one byte short", &[(142, 0x16)]),
    ("code one byte short", &[(150, 0x0a)]),
];

#[test]
fn broken_rules(rt: HostRuntime) {
    for (rule, patches) in &BROKEN {
        let file = patched(patches);
        assert!(rt; answer_to(rt.alloc(), &file) == "Format", "{rule}");
    }
}

/// High and low byte of the class's and of the method's flags, name, descriptor, and what is said of
/// the file.
static METHODS: [(&str, [u8; 4], &[u8], &[u8], &str); 17] = [
    ("main", [0, 0x21, 0, 9], MAIN, MAIN_TYPE, "Read"),
    (
        "bits that are not looked at",
        [0x01, 0x21, 0x22, 9],
        MAIN,
        MAIN_TYPE,
        "Read",
    ),
    ("a method of an interface", [6, 1, 0, 9], MAIN, VOID, "Read"),
    ("<clinit>", [0, 0x21, 0, 8], CLINIT, VOID, "Read"),
    (
        "<clinit> of an interface, native and private and public",
        [6, 1, 1, 0x0b],
        CLINIT,
        VOID,
        "Read",
    ),
    (
        "<clinit> that is not static",
        [0, 0x21, 0, 0],
        CLINIT,
        VOID,
        "Format",
    ),
    (
        "<clinit> with a parameter",
        [0, 0x21, 0, 8],
        CLINIT,
        MAIN_TYPE,
        "Format",
    ),
    ("<init>", [0, 0x21, 0x18, 0x81], INIT, MAIN_TYPE, "Read"),
    ("<init> of an interface", [6, 1, 0, 1], INIT, VOID, "Format"),
    (
        "<init> with a result",
        [0, 0x21, 0, 1],
        INIT,
        b"\x01\x00\x03()I",
        "Format",
    ),
    ("a static <init>", [0, 0x21, 0, 9], INIT, VOID, "Format"),
    (
        "<init> that is a bridge",
        [0, 0x21, 0, 0x41],
        INIT,
        VOID,
        "Format",
    ),
    (
        "<other>",
        [0, 0x21, 0, 9],
        b"\x01\x00\x07<other>",
        VOID,
        "Format",
    ),
    (
        "254 slots and a receiver",
        [0, 0x21, 0, 1],
        MAIN,
        FULL,
        "Read",
    ),
    ("255 slots", [0, 0x21, 0, 9], MAIN, OVERFULL, "Read"),
    (
        "255 slots and a receiver",
        [0, 0x21, 0, 1],
        MAIN,
        OVERFULL,
        "Format",
    ),
    (
        "128 longs",
        [0, 0x21, 0, 9],
        MAIN,
        b"\x01\x00\x83(JJJJJJJJJJJJJJJJJJJJJJJJJJJJJJJJJJJJJJJJJJJJJJJJJJJJJJJJJJJJJJJJJJJJJJJJJJJJJJJJJJJJJJJJJJJJJJJJJJJJJJJJJJJJJJJJJJJJJJJJJJJJJJJJ)V",
        "Format",
    ),
];

/// What is said of the file of a major version with other flags and with another name and descriptor
/// of its method.
fn answer_to_method(
    alloc: Global,
    major: u8,
    flags: [u8; 4],
    name: &[u8],
    descriptor: &[u8],
) -> &'static str {
    let [high, low, method_high, method_low] = flags;
    let patches = [
        (7, major),
        (117, high),
        (118, low),
        (129, method_high),
        (130, method_low),
    ];
    match renamed(alloc, &patches, name, descriptor) {
        Ok(file) => answer_to(alloc, &file),
        Err(_) => "Memory",
    }
}

#[test]
fn names_of_methods(rt: HostRuntime) {
    for (case, flags, name, descriptor, wanted) in &METHODS {
        let found = answer_to_method(rt.alloc(), 52, *flags, name, descriptor);
        assert!(rt; found == *wanted, "{case}");
    }
}

/// Major version, high and low byte of the class's and of the method's flags, name, and what is said of
/// the file. The method has code, so that it is not abstract.
static OLDER: [(&str, u8, [u8; 4], &[u8], &str); 8] = [
    ("a method of a class", 50, [0, 0x21, 0, 0], MAIN, "Read"),
    ("a default method", 51, [6, 1, 0, 1], MAIN, "Format"),
    ("a default method", 50, [6, 1, 0, 1], MAIN, "Format"),
    (
        "a static method of an interface",
        51,
        [6, 1, 0, 9],
        MAIN,
        "Format",
    ),
    (
        "a private method of an interface",
        51,
        [6, 1, 0, 2],
        MAIN,
        "Format",
    ),
    ("a default method", 52, [6, 1, 0, 1], MAIN, "Read"),
    ("<clinit> of an interface", 50, [6, 1, 0, 8], CLINIT, "Read"),
    (
        "<clinit> of an interface that is not static",
        51,
        [6, 1, 4, 1],
        CLINIT,
        "Format",
    ),
];

#[test]
fn methods_by_version(rt: HostRuntime) {
    for (case, major, flags, name, wanted) in &OLDER {
        let found = answer_to_method(rt.alloc(), *major, *flags, name, VOID);
        assert!(rt; found == *wanted, "{case}, {major}");
    }
}
