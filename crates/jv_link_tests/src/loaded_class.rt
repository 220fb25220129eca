//! Classes of a world: those of the system's files, and host/Io.

use jv_classes::LoadedClass;
use jv_loader::{SystemFiles, read_content, system_files};
use jv_meaning_world::Content;
use std::alloc::Global;
use std::hash::RandomState;

/// Whether each method is found by its name and descriptor, at its place.
fn finds_each_method(class: &LoadedClass<'_>) -> bool {
    for place in 0..class.method_count() {
        let method = class.method(place);
        if class.method_named(method.name, method.descriptor) != Some(place) {
            return false;
        }
    }
    true
}

/// Whether each field is found by its name and descriptor, at its place.
fn finds_each_field(class: &LoadedClass<'_>) -> bool {
    for place in 0..class.field_count() {
        let field = class.field(place);
        if class.field_named(field.name, field.descriptor) != Some(place) {
            return false;
        }
    }
    true
}

/// Whether each superinterface has a name.
fn names_each_interface(class: &LoadedClass<'_>) -> bool {
    for place in 0..class.interface_count() {
        if class.interface_name(place).len() == 0 {
            return false;
        }
    }
    true
}

/// Whether no member has a name that none can have.
fn has_no_other_member(class: &LoadedClass<'_>) -> bool {
    class
        .method_named(b"/".as_slice(), b"()V".as_slice())
        .is_none()
        && class
            .field_named(b"/".as_slice(), b"I".as_slice())
            .is_none()
}

fn finds_members(class: &LoadedClass<'_>) -> bool {
    finds_each_method(class)
        && finds_each_field(class)
        && names_each_interface(class)
        && has_no_other_member(class)
}

/// Whether a class of the system's package can be named from another package of the system.
fn is_named_from(class: &LoadedClass<'_>, io: &LoadedClass<'_>) -> bool {
    class.by_system() && class.file().is_some() && !class.same_package(io) && io.can_name(class)
}

/// Whether the class of a file is as it is to be, or nothing could be said for want of memory.
fn is_loaded(
    alloc: Global,
    state: RandomState,
    file: &[u8],
    io: &LoadedClass<'_>,
    short: bool,
) -> bool {
    match read_content(alloc, file) {
        Ok(Content::Holds(file)) => match LoadedClass::from_file(alloc, state, true, file) {
            Ok(class) => finds_members(&class) && is_named_from(&class, io),
            Err(_) => short,
        },
        Ok(_) => false,
        Err(_) => short,
    }
}

fn each_is_loaded(
    alloc: Global,
    state: RandomState,
    files: &SystemFiles,
    io: &LoadedClass<'_>,
    short: bool,
) -> bool {
    for place in 0..files.count() {
        if !is_loaded(alloc, state, files.file(place), io, short) {
            return false;
        }
    }
    true
}

fn is_io(class: &LoadedClass<'_>) -> bool {
    class.name() == b"host/Io".as_slice()
        && class.super_name() == Some(b"java/lang/Object".as_slice())
        && class.access_flags() == 0x0031
        && class.is_final()
        && !class.is_interface()
        && class.file().is_none()
}

fn io_reads_and_writes(class: &LoadedClass<'_>) -> bool {
    class.method_named(b"read".as_slice(), b"()I".as_slice()) == Some(0)
        && class.method_named(b"write".as_slice(), b"(I)V".as_slice()) == Some(1)
        && class
            .method_named(b"read".as_slice(), b"(I)V".as_slice())
            .is_none()
}

/// Whether host/Io and the classes of the files are as they are to be, or memory was short.
fn all_are_loaded(alloc: Global, state: RandomState, files: &SystemFiles, short: bool) -> bool {
    match LoadedClass::host_io(alloc, state) {
        Ok(io) => {
            is_io(&io)
                && io_reads_and_writes(&io)
                && each_is_loaded(alloc, state, files, &io, short)
        }
        Err(_) => short,
    }
}

#[test]
fn classes_of_the_system(rt: HostRuntime) {
    match (system_files(rt.alloc()), RandomState::new(&rt)) {
        (Ok(files), Ok(state)) => assert!(rt; all_are_loaded(rt.alloc(), state, &files, false)),
        _ => assert!(rt; false),
    }
}

#[test]
fn classes_of_the_system_or_no_memory(rt: HostRuntime) {
    match (system_files(rt.alloc()), RandomState::new(&rt)) {
        (Ok(files), Ok(state)) => assert!(rt; all_are_loaded(rt.alloc(), state, &files, true)),
        _ => {}
    }
}
