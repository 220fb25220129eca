//! The system's classes, what the program prints of one file, and the verdict on one class by its number.

use crate::disk::INT_AS_OBJECT;
use jv_loader::{Classes, LoadVerdict, system_files};
use jv_program_check::check_files;
use jv_verify::{Verdict, VerifyFault, VerifyRule, check_class};
use std::alloc::Global;
use std::hash::RandomState;

/// How many classes the system has: those of its 32 files, and `host/Io`.
const SYSTEM_CLASSES: usize = 33;

/// Whether the verifier finds that each of the system's classes is accepted, with no file of a guest beside them.
fn system_is_accepted(alloc: Global, state: RandomState) -> bool {
    let Ok(system) = system_files(alloc) else {
        return false;
    };
    let Ok(classes) = Classes::load(alloc, state, &system, &[]) else {
        return false;
    };
    let count = classes.table().count();
    for class in 0..count {
        match check_class(alloc, state, &classes, class) {
            Ok(Verdict::Accepted) => {}
            _ => return false,
        }
    }
    count == SYSTEM_CLASSES
}

#[test]
fn classes_of_the_system(rt: HostRuntime) {
    match RandomState::new(&rt) {
        Ok(state) => assert!(rt; system_is_accepted(rt.alloc(), state)),
        Err(_) => assert!(rt; false),
    }
}

/// The file of a class C below java/lang/String, which is final.
const BELOW_A_FINAL: &[u8] =
    b"\xca\xfe\xba\xbe\x00\x00\x004\x00\x05\x01\x00\x01C\x07\x00\x01\x01\x00\x10java/lang/String\x07\x00\x03\x00!\x00\x02\x00\x04\x00\x00\x00\x00\x00\x00\x00\x00";

/// Whether the line of a file and the status are those of a method that breaks a rule.
fn is_printed(alloc: Global, state: RandomState, file: &[u8]) -> bool {
    let Ok(system) = system_files(alloc) else {
        return false;
    };
    let names = [b"C.class".as_slice()];
    match check_files(alloc, state, &system, false, &names, &[file]) {
        Ok(outcome) => {
            outcome.report.as_str() == "C.class: Verify method 0 offset 1 rule 6\n"
                && outcome.status == 1
        }
        Err(_) => false,
    }
}

#[test]
fn one_file(rt: HostRuntime) {
    match RandomState::new(&rt) {
        Ok(state) => assert!(rt; is_printed(rt.alloc(), state, INT_AS_OBJECT)),
        Err(_) => assert!(rt; false),
    }
}

/// The verdict on the class `C` of one file, found by its name; without one, where memory is short.
fn verdict_on_c(alloc: Global, state: RandomState, file: &[u8]) -> Option<Verdict> {
    let system = system_files(alloc).ok()?;
    match Classes::load(alloc, state, &system, &[file]) {
        Ok(classes) => match classes.table().find(b"C") {
            Some(class) => check_class(alloc, state, &classes, class).ok(),
            None => None,
        },
        Err(_) => None,
    }
}

fn is_int_as_object(verdict: Option<Verdict>) -> bool {
    matches!(
        verdict,
        Some(Verdict::Verify(VerifyFault {
            method: 0,
            offset: 1,
            rule: VerifyRule::Instruction,
        }))
    )
}

fn is_final_broken(verdict: Option<Verdict>) -> bool {
    matches!(verdict, Some(Verdict::Refused(LoadVerdict::FinalBroken)))
}

#[test]
fn one_class_by_its_number(rt: HostRuntime) {
    match RandomState::new(&rt) {
        Ok(state) => {
            assert!(rt; is_int_as_object(verdict_on_c(rt.alloc(), state, INT_AS_OBJECT)));
            assert!(rt; is_final_broken(verdict_on_c(rt.alloc(), state, BELOW_A_FINAL)));
        }
        Err(_) => assert!(rt; false),
    }
}
