//! Tests of a guest's classes, loaded.

use jv_loader::{Classes, LoadVerdict, system_files};
use std::alloc::Global;
use std::hash::RandomState;

/// Files of a guest; in `VERDICTS` stands what is wrong with each.
pub(crate) static FILES: [&[u8]; 19] = [
    // no class file
    b"",
    // of version 49.0
    b"\xca\xfe\xba\xbe\x00\x00\x001",
    // java/A
    b"\xca\xfe\xba\xbe\x00\x00\x004\x00\x05\x01\x00\x06java/A\x07\x00\x01\x01\x00\x10java/lang/Object\x07\x00\x03\x00!\x00\x02\x00\x04\x00\x00\x00\x00\x00\x00\x00\x00",
    // A
    b"\xca\xfe\xba\xbe\x00\x00\x004\x00\x05\x01\x00\x01A\x07\x00\x01\x01\x00\x10java/lang/Object\x07\x00\x03\x00!\x00\x02\x00\x04\x00\x00\x00\x00\x00\x00\x00\x00",
    // A again
    b"\xca\xfe\xba\xbe\x00\x00\x004\x00\x05\x01\x00\x01A\x07\x00\x01\x01\x00\x10java/lang/Object\x07\x00\x03\x00!\x00\x02\x00\x04\x00\x00\x00\x00\x00\x00\x00\x00",
    // B extends B
    b"\xca\xfe\xba\xbe\x00\x00\x004\x00\x03\x01\x00\x01B\x07\x00\x01\x00!\x00\x02\x00\x02\x00\x00\x00\x00\x00\x00\x00\x00",
    // C extends B
    b"\xca\xfe\xba\xbe\x00\x00\x004\x00\x05\x01\x00\x01C\x07\x00\x01\x01\x00\x01B\x07\x00\x03\x00!\x00\x02\x00\x04\x00\x00\x00\x00\x00\x00\x00\x00",
    // D extends E
    b"\xca\xfe\xba\xbe\x00\x00\x004\x00\x05\x01\x00\x01D\x07\x00\x01\x01\x00\x01E\x07\x00\x03\x00!\x00\x02\x00\x04\x00\x00\x00\x00\x00\x00\x00\x00",
    // F, final
    b"\xca\xfe\xba\xbe\x00\x00\x004\x00\x05\x01\x00\x01F\x07\x00\x01\x01\x00\x10java/lang/Object\x07\x00\x03\x001\x00\x02\x00\x04\x00\x00\x00\x00\x00\x00\x00\x00",
    // G extends F
    b"\xca\xfe\xba\xbe\x00\x00\x004\x00\x05\x01\x00\x01G\x07\x00\x01\x01\x00\x01F\x07\x00\x03\x00!\x00\x02\x00\x04\x00\x00\x00\x00\x00\x00\x00\x00",
    // H extends G
    b"\xca\xfe\xba\xbe\x00\x00\x004\x00\x05\x01\x00\x01H\x07\x00\x01\x01\x00\x01G\x07\x00\x03\x00!\x00\x02\x00\x04\x00\x00\x00\x00\x00\x00\x00\x00",
    // interface I
    b"\xca\xfe\xba\xbe\x00\x00\x004\x00\x05\x01\x00\x01I\x07\x00\x01\x01\x00\x10java/lang/Object\x07\x00\x03\x06\x01\x00\x02\x00\x04\x00\x00\x00\x00\x00\x00\x00\x00",
    // J extends I
    b"\xca\xfe\xba\xbe\x00\x00\x004\x00\x05\x01\x00\x01J\x07\x00\x01\x01\x00\x01I\x07\x00\x03\x00!\x00\x02\x00\x04\x00\x00\x00\x00\x00\x00\x00\x00",
    // p/K, of its package
    b"\xca\xfe\xba\xbe\x00\x00\x004\x00\x05\x01\x00\x03p/K\x07\x00\x01\x01\x00\x10java/lang/Object\x07\x00\x03\x00\x20\x00\x02\x00\x04\x00\x00\x00\x00\x00\x00\x00\x00",
    // q/L extends p/K
    b"\xca\xfe\xba\xbe\x00\x00\x004\x00\x05\x01\x00\x03q/L\x07\x00\x01\x01\x00\x03p/K\x07\x00\x03\x00!\x00\x02\x00\x04\x00\x00\x00\x00\x00\x00\x00\x00",
    // p/M extends p/K
    b"\xca\xfe\xba\xbe\x00\x00\x004\x00\x05\x01\x00\x03p/M\x07\x00\x01\x01\x00\x03p/K\x07\x00\x03\x00!\x00\x02\x00\x04\x00\x00\x00\x00\x00\x00\x00\x00",
    // p/N of version 51.0 extends p/M
    b"\xca\xfe\xba\xbe\x00\x00\x003\x00\x05\x01\x00\x03p/N\x07\x00\x01\x01\x00\x03p/M\x07\x00\x03\x00!\x00\x02\x00\x04\x00\x00\x00\x00\x00\x00\x00\x00",
    // p/O extends p/N
    b"\xca\xfe\xba\xbe\x00\x00\x004\x00\x05\x01\x00\x03p/O\x07\x00\x01\x01\x00\x03p/N\x07\x00\x03\x00!\x00\x02\x00\x04\x00\x00\x00\x00\x00\x00\x00\x00",
    // A again, of version 50.0
    b"\xca\xfe\xba\xbe\x00\x00\x002\x00\x05\x01\x00\x01A\x07\x00\x01\x01\x00\x10java/lang/Object\x07\x00\x03\x00!\x00\x02\x00\x04\x00\x00\x00\x00\x00\x00\x00\x00",
];

static VERDICTS: &[u8] = b"FVR.DCSS.B..K.A...D";

/// A letter for a verdict, `.` for none.
fn letter(verdict: Option<LoadVerdict>) -> u8 {
    match verdict {
        None => b'.',
        Some(LoadVerdict::Version) => b'V',
        Some(LoadVerdict::Format) => b'F',
        Some(LoadVerdict::Unsupported) => b'U',
        Some(LoadVerdict::Reserved) => b'R',
        Some(LoadVerdict::Duplicate) => b'D',
        Some(LoadVerdict::Circular) => b'C',
        Some(LoadVerdict::NoSuper) => b'S',
        Some(LoadVerdict::WrongKind) => b'K',
        Some(LoadVerdict::NoAccess) => b'A',
        Some(LoadVerdict::FinalBroken) => b'B',
    }
}

fn verdicts_are(classes: &Classes<'_>, verdicts: &[u8]) -> bool {
    for file in 0..classes.file_count() {
        if verdicts.get(file) != Some(&letter(classes.load_verdict(file))) {
            return false;
        }
    }
    classes.file_count() == verdicts.len()
}

/// Whether a class of the guest has the number behind the system's, and stands below java/lang/Object.
fn is_first_of_guest(classes: &Classes<'_>, name: &[u8]) -> bool {
    let table = classes.table();
    match (
        classes.find(name),
        classes.find(b"java/lang/Object".as_slice()),
    ) {
        (Some(number), Some(object)) => {
            number == 33
                && number < table.count()
                && object < table.count()
                && classes.is_subclass(number, object)
                && table.is_loadable(number)
                && classes
                    .lookup_method(
                        number,
                        b"equals".as_slice(),
                        b"(Ljava/lang/Object;)Z".as_slice(),
                    )
                    .is_some()
                && classes
                    .lookup_field(number, b"x".as_slice(), b"I".as_slice())
                    .is_none()
        }
        _ => false,
    }
}

fn loads(alloc: Global, state: RandomState, short: bool) -> bool {
    match system_files(alloc) {
        Ok(system) => match Classes::load(alloc, state, &system, &FILES) {
            Ok(classes) => {
                verdicts_are(&classes, VERDICTS) && is_first_of_guest(&classes, b"A".as_slice())
            }
            Err(_) => short,
        },
        Err(_) => short,
    }
}

#[test]
fn files_of_a_guest(rt: HostRuntime) {
    match RandomState::new(&rt) {
        Ok(state) => assert!(rt; loads(rt.alloc(), state, false)),
        Err(_) => assert!(rt; false),
    }
}

#[test]
fn files_of_a_guest_or_no_memory(rt: HostRuntime) {
    match RandomState::new(&rt) {
        Ok(state) => assert!(rt; loads(rt.alloc(), state, true)),
        Err(_) => {}
    }
}
