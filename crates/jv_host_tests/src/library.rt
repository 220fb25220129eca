//! A host whose guests stand on several libraries: one that is closed, one that isn't, and one that is broken.

use jv_host::{Budget, GuestFiles, Host};
use jv_limits::AdmitFault;
use jv_loader::{SystemFiles, system_with_library};
use jv_store::Cells;
use std::alloc::Global;
use std::hash::RandomState;

/// The file of java/lang/String, as a library has it.
const STRING: &[u8] =
    b"\xca\xfe\xba\xbe\x00\x00\x004\x00\x0d\x01\x00\x10java/lang/String\x07\x00\x01\x01\x00\x10java/lang/Object\x07\x00\x03\x01\x00\x14java/io/Serializable\x07\x00\x05\x01\x00\x14java/lang/Comparable\x07\x00\x07\x01\x00\x16java/lang/CharSequence\x07\x00\x09\x01\x00\x05value\x01\x00\x02[C\x001\x00\x02\x00\x04\x00\x03\x00\x06\x00\x08\x00\x0a\x00\x01\x00\x12\x00\x0b\x00\x0c\x00\x00\x00\x00\x00\x00";

/// The file of java/lang/Comparable.
const COMPARABLE: &[u8] =
    b"\xca\xfe\xba\xbe\x00\x00\x004\x00\x05\x01\x00\x14java/lang/Comparable\x07\x00\x01\x01\x00\x10java/lang/Object\x07\x00\x03\x06\x01\x00\x02\x00\x04\x00\x00\x00\x00\x00\x00\x00\x00";

/// The file of java/lang/CharSequence.
const CHAR_SEQUENCE: &[u8] =
    b"\xca\xfe\xba\xbe\x00\x00\x004\x00\x05\x01\x00\x16java/lang/CharSequence\x07\x00\x01\x01\x00\x10java/lang/Object\x07\x00\x03\x06\x01\x00\x02\x00\x04\x00\x00\x00\x00\x00\x00\x00\x00";

/// The file of a class java/util/Tool.
const TOOL: &[u8] =
    b"\xca\xfe\xba\xbe\x00\x00\x004\x00\x05\x01\x00\x0ejava/util/Tool\x07\x00\x01\x01\x00\x10java/lang/Object\x07\x00\x03\x00\x21\x00\x02\x00\x04\x00\x00\x00\x00\x00\x00\x00\x00";

/// The same below tools/Base.
const TOOL_BELOW_BASE: &[u8] =
    b"\xca\xfe\xba\xbe\x00\x00\x004\x00\x05\x01\x00\x0ejava/util/Tool\x07\x00\x01\x01\x00\x0atools/Base\x07\x00\x03\x00\x21\x00\x02\x00\x04\x00\x00\x00\x00\x00\x00\x00\x00";

/// The same with a method `()I` that returns nothing.
const WRONG_TOOL: &[u8] =
    b"\xca\xfe\xba\xbe\x00\x00\x004\x00\x08\x01\x00\x0ejava/util/Tool\x07\x00\x01\x01\x00\x10java/lang/Object\x07\x00\x03\x01\x00\x04Code\x01\x00\x05wrong\x01\x00\x03()I\x00\x21\x00\x02\x00\x04\x00\x00\x00\x00\x00\x01\x00\x09\x00\x06\x00\x07\x00\x01\x00\x05\x00\x00\x00\x0d\x00\x01\x00\x00\x00\x00\x00\x01\xb1\x00\x00\x00\x00\x00\x00";

/// The file of a class M, whose main returns.
const MAIN: &[u8] =
    b"\xca\xfe\xba\xbe\x00\x00\x004\x00\x08\x01\x00\x01M\x07\x00\x01\x01\x00\x10java/lang/Object\x07\x00\x03\x01\x00\x04Code\x01\x00\x04main\x01\x00\x16([Ljava/lang/String;)V\x00\x21\x00\x02\x00\x04\x00\x00\x00\x00\x00\x01\x00\x09\x00\x06\x00\x07\x00\x01\x00\x05\x00\x00\x00\x0d\x00\x01\x00\x01\x00\x00\x00\x01\xb1\x00\x00\x00\x00\x00\x00";

/// The file of a class tools/Base.
const BASE: &[u8] =
    b"\xca\xfe\xba\xbe\x00\x00\x004\x00\x05\x01\x00\x0atools/Base\x07\x00\x01\x01\x00\x10java/lang/Object\x07\x00\x03\x00\x21\x00\x02\x00\x04\x00\x00\x00\x00\x00\x00\x00\x00";

/// The files of three libraries.
static LIBRARIES: [[&[u8]; 4]; 3] = [
    [STRING, COMPARABLE, CHAR_SEQUENCE, TOOL],
    [STRING, COMPARABLE, CHAR_SEQUENCE, TOOL_BELOW_BASE],
    [STRING, COMPARABLE, CHAR_SEQUENCE, WRONG_TOOL],
];

const CLOSED: usize = 0;

const OPEN: usize = 1;

const BROKEN: usize = 2;

/// The files of a guest with the class that the open library names, and behind it those of one without.
static GUEST: [&[u8]; 2] = [BASE, MAIN];

const WITH_BASE: usize = 0;

const WITHOUT_BASE: usize = 1;

/// Admissions to one host, one after the other: the library, where the guest's files begin, and whether it is admitted.
static ADMISSIONS: [(usize, usize, bool); 14] = [
    (OPEN, WITHOUT_BASE, false),
    (OPEN, WITH_BASE, true),
    (OPEN, WITH_BASE, true),
    (OPEN, WITHOUT_BASE, false),
    (OPEN, WITH_BASE, true),
    (CLOSED, WITHOUT_BASE, true),
    (OPEN, WITHOUT_BASE, false),
    (CLOSED, WITH_BASE, true),
    (CLOSED, WITHOUT_BASE, true),
    (CLOSED, WITH_BASE, true),
    (BROKEN, WITH_BASE, false),
    (BROKEN, WITHOUT_BASE, false),
    (CLOSED, WITHOUT_BASE, true),
    (CLOSED, WITHOUT_BASE, true),
];

const BUDGET: Budget = Budget {
    cells: 64,
    words: 64,
    output: 64,
};

/// The system's files with those of each library; `None` for want of memory.
fn systems(alloc: Global, state: RandomState) -> Option<Vec<SystemFiles>> {
    let mut systems = Vec::new(alloc);
    for files in &LIBRARIES {
        let system = system_with_library(alloc, state, files).ok()?;
        systems.push(system).ok()?;
    }
    Some(systems)
}

/// Whether a guest is admitted, or refused since its library doesn't stand; `None` for another refusal.
fn is_admitted<'a>(
    host: &mut Host<'a, Cells>,
    system: &'a SystemFiles,
    files: &'a [&'a [u8]],
) -> Option<bool> {
    let brought = GuestFiles {
        system,
        files,
        main: b"M",
        input: b"",
    };
    match host.admit(brought, BUDGET) {
        Ok(_) => Some(true),
        Err(AdmitFault::LibraryBroken) => Some(false),
        Err(_) => None,
    }
}

/// Whether each admission comes out so.
fn all_are_right(alloc: Global, state: RandomState, systems: &[SystemFiles]) -> bool {
    let mut host = Host::new(alloc, state);
    for (library, first, admitted) in &ADMISSIONS {
        let (Some(system), Some(files)) = (systems.get(*library), GUEST.get(*first..)) else {
            return false;
        };
        if is_admitted(&mut host, system, files) != Some(*admitted) {
            return false;
        }
    }
    true
}

#[test]
fn libraries_of_one_host(rt: HostRuntime) {
    let passes = match RandomState::new(&rt) {
        Ok(state) => match systems(rt.alloc(), state) {
            Some(systems) => all_are_right(rt.alloc(), state, &systems),
            None => false,
        },
        Err(_) => false,
    };
    assert!(rt; passes);
}
