//! Rows of guests in a host, for runs in which an allocation is refused: each call that was refused is made again, and the guest ends
//! as its row says.

use crate::files::HI;
use jv_host::{Budget, GuestEnd, GuestFiles, GuestId, Host};
use jv_limits::{AdmitFault, TurnFault};
use jv_loader::{SystemFiles, system_files};
use jv_store::Blocks;
use std::alloc::Global;
use std::hash::RandomState;

/// A class that writes `Hi`.
static WRITER: [&[u8]; 1] = [HI];

/// A class C, whose main calls a method of an interface I on an object of `java/lang/Object`, and that interface.
static INTERFACE_AS_OBJECT: [&[u8]; 2] = [
    b"\xca\xfe\xba\xbe\x00\x00\x004\x00\x11\x01\x00\x01C\x07\x00\x01\x01\x00\x10java/lang/Object\x07\x00\x03\x01\x00\x06<init>\x01\x00\x03()V\x0c\x00\x05\x00\x06\x0a\x00\x04\x00\x07\x01\x00\x01m\x0c\x00\x09\x00\x06\x01\x00\x01I\x07\x00\x0b\x0b\x00\x0c\x00\x0a\x01\x00\x04Code\x01\x00\x04main\x01\x00\x16([Ljava/lang/String;)V\x00!\x00\x02\x00\x04\x00\x00\x00\x00\x00\x01\x00\x09\x00\x0f\x00\x10\x00\x01\x00\x0e\x00\x00\x00\x19\x00\x02\x00\x01\x00\x00\x00\x0d\xbb\x00\x04Y\xb7\x00\x08\xb9\x00\x0d\x01\x00\xb1\x00\x00\x00\x00\x00\x00",
    b"\xca\xfe\xba\xbe\x00\x00\x004\x00\x07\x01\x00\x01I\x07\x00\x01\x01\x00\x10java/lang/Object\x07\x00\x03\x01\x00\x01m\x01\x00\x03()V\x06\x01\x00\x02\x00\x04\x00\x00\x00\x00\x00\x01\x04\x01\x00\x05\x00\x06\x00\x00\x00\x00",
];

/// A class P, whose initialization makes an object of a class S below it; that class; and a class M, whose main reads a field of S.
static CIRCLE: [&[u8]; 3] = [
    b"\xca\xfe\xba\xbe\x00\x00\x004\x00\x0e\x01\x00\x01P\x07\x00\x01\x01\x00\x10java/lang/Object\x07\x00\x03\x01\x00\x01S\x07\x00\x05\x01\x00\x06<init>\x01\x00\x03()V\x0c\x00\x07\x00\x08\x0a\x00\x06\x00\x09\x01\x00\x04Code\x01\x00\x08<clinit>\x0a\x00\x04\x00\x09\x00!\x00\x02\x00\x04\x00\x00\x00\x00\x00\x02\x00\x08\x00\x0c\x00\x08\x00\x01\x00\x0b\x00\x00\x00\x15\x00\x02\x00\x00\x00\x00\x00\x09\xbb\x00\x06Y\xb7\x00\x0aW\xb1\x00\x00\x00\x00\x00\x01\x00\x07\x00\x08\x00\x01\x00\x0b\x00\x00\x00\x11\x00\x01\x00\x01\x00\x00\x00\x05*\xb7\x00\x0d\xb1\x00\x00\x00\x00\x00\x00",
    b"\xca\xfe\xba\xbe\x00\x00\x004\x00\x15\x01\x00\x01S\x07\x00\x01\x01\x00\x01P\x07\x00\x03\x01\x00\x01x\x01\x00\x01I\x01\x00\x06<init>\x01\x00\x03()V\x0c\x00\x07\x00\x08\x0a\x00\x04\x00\x09\x0c\x00\x05\x00\x06\x09\x00\x02\x00\x0b\x01\x00\x05write\x01\x00\x04(I)V\x0c\x00\x0d\x00\x0e\x01\x00\x07host/Io\x07\x00\x10\x0a\x00\x11\x00\x0f\x01\x00\x04Code\x01\x00\x08<clinit>\x00!\x00\x02\x00\x04\x00\x00\x00\x01\x00\x09\x00\x05\x00\x06\x00\x00\x00\x02\x00\x01\x00\x07\x00\x08\x00\x01\x00\x13\x00\x00\x00\x1a\x00\x02\x00\x01\x00\x00\x00\x0e*\xb7\x00\x0a\xb2\x00\x0c\x100`\xb8\x00\x12\xb1\x00\x00\x00\x00\x00\x08\x00\x14\x00\x08\x00\x01\x00\x13\x00\x00\x00\x11\x00\x01\x00\x00\x00\x00\x00\x05\x08\xb3\x00\x0c\xb1\x00\x00\x00\x00\x00\x00",
    b"\xca\xfe\xba\xbe\x00\x00\x004\x00\x14\x01\x00\x01M\x07\x00\x01\x01\x00\x10java/lang/Object\x07\x00\x03\x01\x00\x01x\x01\x00\x01I\x0c\x00\x05\x00\x06\x01\x00\x01S\x07\x00\x08\x09\x00\x09\x00\x07\x01\x00\x05write\x01\x00\x04(I)V\x0c\x00\x0b\x00\x0c\x01\x00\x07host/Io\x07\x00\x0e\x0a\x00\x0f\x00\x0d\x01\x00\x04Code\x01\x00\x04main\x01\x00\x16([Ljava/lang/String;)V\x00!\x00\x02\x00\x04\x00\x00\x00\x00\x00\x01\x00\x09\x00\x12\x00\x13\x00\x01\x00\x11\x00\x00\x00\x16\x00\x02\x00\x01\x00\x00\x00\x0a\xb2\x00\x0a\x100`\xb8\x00\x10\xb1\x00\x00\x00\x00\x00\x00",
];

/// The least budget, with room for 64 bytes of output.
const BUDGET: Budget = Budget {
    cells: 64,
    words: 64,
    output: 64,
};

/// A guest's class files, and the name of its main class.
#[derive(Clone, Copy)]
struct Brought<'a> {
    files: &'a [&'a [u8]],
    main: &'a [u8],
}

fn guest<'a>(files: &'a [&'a [u8]], main: &'a [u8]) -> Brought<'a> {
    Brought { files, main }
}

/// The same on the system's classes, with no input.
fn files_of<'a>(system: &'a SystemFiles, brought: Brought<'a>) -> GuestFiles<'a> {
    GuestFiles {
        system,
        files: brought.files,
        main: brought.main,
        input: b"",
    }
}

/// How a guest ends: after so many steps, with this output, and returned, or threw an object of this class.
#[derive(Clone, Copy)]
struct Ending {
    steps: u64,
    output: &'static [u8],
    threw: Option<&'static [u8]>,
}

/// Whether a guest that was looked at has ended so.
fn has_ended(host: &Host<'_, Blocks>, ending: Ending) -> bool {
    let Ok(seen) = host.observe(GuestId(0)) else {
        return false;
    };
    let is_end = match (seen.end, ending.threw) {
        (GuestEnd::Returned, None) => true,
        (GuestEnd::Threw(name), Some(wanted)) => name == wanted,
        _ => false,
    };
    is_end && seen.steps == ending.steps && seen.output == ending.output
}

/// Whether a guest is admitted, if not at once then when it is asked for again.
fn is_admitted<'a>(host: &mut Host<'a, Blocks>, files: GuestFiles<'a>) -> bool {
    match host.admit(files, BUDGET) {
        Ok(_) => true,
        Err(AdmitFault::HostMemory) => host.admit(files, BUDGET).is_ok(),
        Err(_) => false,
    }
}

/// Takes the steps that there are, and those behind a refused one in a further turn; says how many there were.
fn steps_taken(host: &mut Host<'_, Blocks>) -> u64 {
    match host.turn(GuestId(0), 1000) {
        Ok(taken) => taken,
        Err(TurnFault::NoGuest) => 0,
        Err(TurnFault::HostMemory(taken)) => match host.turn(GuestId(0), 1000) {
            Ok(more) => taken.saturating_add(more),
            Err(_) => 0,
        },
    }
}

/// Whether a guest ends so in a host over blocks.
fn ends(
    alloc: Global,
    state: RandomState,
    system: &SystemFiles,
    brought: Brought<'_>,
    ending: Ending,
) -> bool {
    let mut host = Host::new(alloc, state);
    is_admitted(&mut host, files_of(system, brought))
        && steps_taken(&mut host) == ending.steps
        && has_ended(&host, ending)
}

/// The system's files, if not at once then when they are asked for again.
fn system_again(alloc: Global) -> Option<SystemFiles> {
    match system_files(alloc) {
        Ok(system) => Some(system),
        Err(_) => system_files(alloc).ok(),
    }
}

/// Whether a guest ends so.
fn ends_again(alloc: Global, state: RandomState, brought: Brought<'_>, ending: Ending) -> bool {
    match system_again(alloc) {
        Some(system) => ends(alloc, state, &system, brought, ending),
        None => false,
    }
}

#[test]
fn hi_again_or_has_no_memory(rt: HostRuntime) {
    let ending = Ending {
        steps: 6,
        output: b"Hi",
        threw: None,
    };
    let passes = match RandomState::new(&rt) {
        Ok(state) => ends_again(rt.alloc(), state, guest(&WRITER, b"Hi"), ending),
        Err(_) => true,
    };
    assert!(rt; passes);
}

#[test]
fn interface_as_object_again_or_has_no_memory(rt: HostRuntime) {
    let ending = Ending {
        steps: 6,
        output: b"",
        threw: Some(b"java/lang/IncompatibleClassChangeError"),
    };
    let passes = match RandomState::new(&rt) {
        Ok(state) => ends_again(rt.alloc(), state, guest(&INTERFACE_AS_OBJECT, b"C"), ending),
        Err(_) => true,
    };
    assert!(rt; passes);
}

#[test]
fn circle_again_or_has_no_memory(rt: HostRuntime) {
    let ending = Ending {
        steps: 31,
        output: b"05",
        threw: None,
    };
    let passes = match RandomState::new(&rt) {
        Ok(state) => ends_again(rt.alloc(), state, guest(&CIRCLE, b"M"), ending),
        Err(_) => true,
    };
    assert!(rt; passes);
}
