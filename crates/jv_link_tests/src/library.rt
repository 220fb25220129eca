//! Tests of a host with a library.

use crate::files::class_files;
use crate::guest::slices_of;
use jv_loader::{Classes, LibraryFault, SystemFiles, system_with_library};
use std::alloc::Global;
use std::hash::RandomState;

/// A library, what is wrong with it, and with which file.
struct Case {
    classes: &'static str,
    fault: &'static str,
    place: usize,
}

static CASES: [Case; 12] = [
    Case {
        classes: "",
        fault: "",
        place: 33,
    },
    Case {
        classes: "public+super+final java/lang/String java/lang/Object java/io/Serializable java/lang/Comparable java/lang/CharSequence | private+final value [C | public trim ()V
public+interface+abstract java/lang/Comparable java/lang/Object
public+super java/util/Tool java/lang/Object
public+interface+abstract java/lang/CharSequence java/lang/Object
public+super tools/Hammer java/util/Tool",
        fault: "",
        place: 37,
    },
    Case {
        classes: "public+super java/util/Tool java/lang/Object",
        fault: "string",
        place: 0,
    },
    Case {
        classes: "public+super+final java/lang/String java/lang/Object java/io/Serializable java/lang/Comparable java/lang/CharSequence | private+final value [C",
        fault: "comparable",
        place: 0,
    },
    Case {
        classes: "public+super+final java/lang/String java/lang/Object java/io/Serializable java/lang/Comparable java/lang/CharSequence | private+final value [C
public+interface+abstract java/lang/Comparable java/lang/Object",
        fault: "sequence",
        place: 0,
    },
    Case {
        classes: "public+super java/util/Tool java/lang/Object
public+super host/Tool java/lang/Object",
        fault: "reserved",
        place: 1,
    },
    Case {
        classes: "public+super java/util/Tool java/lang/Object
public+super tools/Hammer java/lang/Object
public+super java/util/Tool java/lang/Object",
        fault: "duplicate",
        place: 2,
    },
    Case {
        classes: "public+super java/util/Tool java/lang/Object
public+super tools/Hammer java/lang/Object | public+static main ([Ljava/lang/String;)V",
        fault: "main",
        place: 1,
    },
    Case {
        classes: "public+interface+abstract java/lang/CharSequence java/lang/Object
public+interface+abstract java/lang/Comparable java/lang/Object
public+super+final java/lang/String java/lang/Object java/io/Serializable java/lang/Comparable java/lang/CharSequence | private+final value [C | private+final hash I",
        fault: "header",
        place: 2,
    },
    Case {
        classes: "public+super+final java/lang/String java/lang/Object java/io/Serializable java/lang/Comparable java/lang/CharSequence | private+final value [C
public+interface+abstract java/lang/CharSequence java/lang/Object
public+interface+abstract java/lang/Comparable java/lang/Object
public+super java/lang/Exception java/lang/Throwable | static <clinit> ()V",
        fault: "initializer",
        place: 3,
    },
    Case {
        classes: "public+super+final java/lang/String java/lang/Object java/io/Serializable java/lang/Comparable java/lang/CharSequence | private+final value [C
public+interface+abstract java/lang/CharSequence java/lang/Object
public+interface+abstract java/lang/Comparable java/lang/Object
public+interface+abstract java/lang/Cloneable java/lang/Object | public+abstract clone ()V",
        fault: "arrays",
        place: 3,
    },
    Case {
        classes: "public+super+final java/lang/String java/lang/Object java/io/Serializable | private+final value [C
public+interface+abstract java/lang/CharSequence java/lang/Object
public+interface+abstract java/lang/Comparable java/lang/Object",
        fault: "header",
        place: 0,
    },
];

/// A word for a fault, and the place of its file, 0 where it is no file's.
fn told(fault: LibraryFault) -> (&'static str, usize) {
    match fault {
        LibraryFault::Version(place) => ("version", place),
        LibraryFault::Format(place) => ("format", place),
        LibraryFault::Unsupported(place) => ("unsupported", place),
        LibraryFault::Reserved(place) => ("reserved", place),
        LibraryFault::Duplicate(place) => ("duplicate", place),
        LibraryFault::Main(place) => ("main", place),
        LibraryFault::Header(place) => ("header", place),
        LibraryFault::Initializer(place) => ("initializer", place),
        LibraryFault::AboveArrays(place) => ("arrays", place),
        LibraryFault::NoString => ("string", 0),
        LibraryFault::NoComparable => ("comparable", 0),
        LibraryFault::NoCharSequence => ("sequence", 0),
        LibraryFault::OutOfMemory => ("memory", 0),
    }
}

/// How many classes a host with these files gives a guest; `None` for want of memory.
fn given(alloc: Global, state: RandomState, system: &SystemFiles) -> Option<usize> {
    let classes = Classes::load(alloc, state, system, &[]).ok()?;
    Some(classes.host_count())
}

/// What is wrong with files, and with which, or nothing and how many classes they give; `None` for want of memory.
fn answer(alloc: Global, state: RandomState, files: &[&[u8]]) -> Option<(&'static str, usize)> {
    match system_with_library(alloc, state, files) {
        Ok(system) => match given(alloc, state, &system) {
            Some(count) => Some(("", count)),
            None => None,
        },
        Err(LibraryFault::OutOfMemory) => None,
        Err(fault) => Some(told(fault)),
    }
}

/// Whether a case is right, or nothing could be said for want of memory.
fn is_right(alloc: Global, state: RandomState, case: &Case, short: bool) -> bool {
    let Some(files) = class_files(alloc, case.classes, "") else {
        return short;
    };
    let Ok(slices) = slices_of(alloc, &files) else {
        return short;
    };
    match answer(alloc, state, &slices) {
        Some((fault, place)) => fault == case.fault && place == case.place,
        None => short,
    }
}

fn all_are_right(alloc: Global, state: RandomState, short: bool) -> bool {
    for case in &CASES {
        if !is_right(alloc, state, case, short) {
            return false;
        }
    }
    true
}

#[test]
fn libraries(rt: HostRuntime) {
    match RandomState::new(&rt) {
        Ok(state) => assert!(rt; all_are_right(rt.alloc(), state, false)),
        Err(_) => assert!(rt; false),
    }
}

#[test]
fn libraries_or_no_memory(rt: HostRuntime) {
    match RandomState::new(&rt) {
        Ok(state) => assert!(rt; all_are_right(rt.alloc(), state, true)),
        Err(_) => {}
    }
}
