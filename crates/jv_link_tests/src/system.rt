//! The files of the system classes, read back.

use jv_loader::{SystemFiles, read_content, system_files};
use jv_meaning_world::{Content, system_rows};
use std::alloc::Global;

/// The names of the classes with files, in their order.
static NAMES: [&[u8]; 32] = [
    b"java/lang/Cloneable",
    b"java/io/Serializable",
    b"java/lang/Object",
    b"java/lang/String",
    b"java/lang/Throwable",
    b"java/lang/Exception",
    b"java/lang/Error",
    b"java/lang/RuntimeException",
    b"java/lang/ArithmeticException",
    b"java/lang/ArrayStoreException",
    b"java/lang/ClassCastException",
    b"java/lang/IllegalArgumentException",
    b"java/lang/IllegalStateException",
    b"java/lang/IndexOutOfBoundsException",
    b"java/lang/NegativeArraySizeException",
    b"java/lang/NullPointerException",
    b"java/lang/UnsupportedOperationException",
    b"java/lang/ArrayIndexOutOfBoundsException",
    b"java/lang/LinkageError",
    b"java/lang/VirtualMachineError",
    b"java/lang/OutOfMemoryError",
    b"java/lang/StackOverflowError",
    b"java/lang/ClassCircularityError",
    b"java/lang/ExceptionInInitializerError",
    b"java/lang/IncompatibleClassChangeError",
    b"java/lang/NoClassDefFoundError",
    b"java/lang/VerifyError",
    b"java/lang/AbstractMethodError",
    b"java/lang/IllegalAccessError",
    b"java/lang/InstantiationError",
    b"java/lang/NoSuchFieldError",
    b"java/lang/NoSuchMethodError",
];

/// What a file holds: the class of this name, another, no class, or no memory for an answer.
fn held(alloc: Global, file: &[u8], name: &[u8]) -> &'static str {
    match read_content(alloc, file) {
        Ok(Content::Holds(class)) => {
            if class.name() == name {
                "it"
            } else {
                "another"
            }
        }
        Ok(_) => "none",
        Err(_) => "no memory",
    }
}

/// Whether each file holds the class at its place, or nothing could be said for want of memory.
fn each_holds(alloc: Global, files: &SystemFiles, short: &str) -> bool {
    files.hold_system_classes();
    for (place, name) in NAMES.iter().enumerate() {
        let answer = held(alloc, files.file(place), name);
        if answer != "it" && answer != short {
            return false;
        }
    }
    files.count() == 32
}

#[test]
fn files_hold_their_classes(rt: HostRuntime) {
    match system_files(rt.alloc()) {
        Ok(files) => assert!(rt; each_holds(rt.alloc(), &files, "it")),
        Err(_) => assert!(rt; false),
    }
}

#[test]
fn files_hold_their_classes_or_has_no_memory(rt: HostRuntime) {
    match system_files(rt.alloc()) {
        Ok(files) => assert!(rt; each_holds(rt.alloc(), &files, "no memory")),
        Err(_) => {}
    }
}

#[test]
fn law() {
    system_rows();
}
