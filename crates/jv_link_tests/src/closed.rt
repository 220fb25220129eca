//! Tests of libraries that are closed, or aren't, each beside a guest's classes.

use crate::files::class_files;
use crate::guest::slices_of;
use jv_closed::is_closed;
use jv_loader::{Classes, SystemFiles, system_with_library};
use std::alloc::Global;
use std::hash::RandomState;

/// A library, a guest's classes, and whether the library is closed.
struct Case {
    library: &'static str,
    guest: &'static str,
    closed: bool,
}

static CASES: [Case; 6] = [
    Case {
        library: "",
        guest: "public+super tools/Base java/lang/Object",
        closed: true,
    },
    Case {
        library: "public+super+final java/lang/String java/lang/Object java/io/Serializable java/lang/Comparable java/lang/CharSequence | private+final value [C
public+interface+abstract java/lang/Comparable java/lang/Object
public+interface+abstract java/lang/CharSequence java/lang/Object
public+super java/util/Tool java/lang/Object | public other Ljava/util/Other; | public others ([Ljava/util/Other;J)Ljava/lang/String;
public+super java/util/Other java/util/Tool",
        guest: "",
        closed: true,
    },
    Case {
        library: "public+super+final java/lang/String java/lang/Object java/io/Serializable java/lang/Comparable java/lang/CharSequence | private+final value [C
public+interface+abstract java/lang/Comparable java/lang/Object
public+interface+abstract java/lang/CharSequence java/lang/Object
public+super java/util/Tool java/lang/Object",
        guest: "public+super tools/Base java/util/Tool | public tool Ljava/util/Tool; | public missing Ltools/Missing;",
        closed: true,
    },
    Case {
        library: "public+super+final java/lang/String java/lang/Object java/io/Serializable java/lang/Comparable java/lang/CharSequence | private+final value [C
public+interface+abstract java/lang/Comparable java/lang/Object
public+interface+abstract java/lang/CharSequence java/lang/Object
public+super java/util/Tool tools/Base",
        guest: "public+super tools/Base java/lang/Object",
        closed: false,
    },
    Case {
        library: "public+super+final java/lang/String java/lang/Object java/io/Serializable java/lang/Comparable java/lang/CharSequence | private+final value [C
public+interface+abstract java/lang/Comparable java/lang/Object
public+interface+abstract java/lang/CharSequence java/lang/Object | public+abstract base ([Ltools/Base;)V",
        guest: "public+super tools/Base java/lang/Object",
        closed: false,
    },
    Case {
        library: "public+super+final java/lang/String java/lang/Object java/io/Serializable java/lang/Comparable java/lang/CharSequence | private+final value [C
public+interface+abstract java/lang/Comparable java/lang/Object
public+interface+abstract java/lang/CharSequence java/lang/Object
public+super java/util/Tool java/lang/Object | public base [Ltools/Base;",
        guest: "",
        closed: false,
    },
];

/// Whether the library of these files is closed, as it is found beside a guest's classes; `None` for want of memory.
fn found(alloc: Global, state: RandomState, system: &SystemFiles, guest: &str) -> Option<bool> {
    let files = class_files(alloc, guest, "")?;
    let slices = slices_of(alloc, &files).ok()?;
    let classes = Classes::load(alloc, state, system, &slices).ok()?;
    if classes.host_count() > classes.table().count() {
        return None;
    }
    is_closed(alloc, classes.table(), classes.host_count()).ok()
}

/// The same of a case.
fn answer(alloc: Global, state: RandomState, case: &Case) -> Option<bool> {
    let files = class_files(alloc, case.library, "")?;
    let slices = slices_of(alloc, &files).ok()?;
    let system = system_with_library(alloc, state, &slices).ok()?;
    found(alloc, state, &system, case.guest)
}

/// Whether all cases are right; where the host had no memory for one, whether that may be.
fn all_are_right(alloc: Global, state: RandomState, short: bool) -> bool {
    for case in &CASES {
        let is_right = match answer(alloc, state, case) {
            Some(closed) => closed == case.closed,
            None => short,
        };
        if !is_right {
            return false;
        }
    }
    true
}

#[test]
fn closed_libraries(rt: HostRuntime) {
    match RandomState::new(&rt) {
        Ok(state) => assert!(rt; all_are_right(rt.alloc(), state, false)),
        Err(_) => assert!(rt; false),
    }
}

#[test]
fn closed_libraries_or_no_memory(rt: HostRuntime) {
    match RandomState::new(&rt) {
        Ok(state) => assert!(rt; all_are_right(rt.alloc(), state, true)),
        Err(_) => {}
    }
}
