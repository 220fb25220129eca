//! Tests of which types flow to which, in the world of the guest of `load.rt`.

use crate::load::FILES;
use jv_assign::flows;
use jv_classes::ClassTable;
use jv_loader::{Classes, system_files};
use jv_stackmap::VerificationTypeOf;
use jv_text::{Base, Element, FieldTypeOf};
use std::alloc::Global;
use std::hash::RandomState;

/// Names of classes, and whether the first flows to the second.
static CLASSES: [(&[u8], &[u8], bool); 8] = [
    // through G
    (b"H", b"F", true),
    (b"F", b"H", false),
    (b"H", b"java/lang/Object", true),
    // to an interface, and from one
    (b"A", b"I", true),
    (b"I", b"A", false),
    // J can't be loaded, and E is no class
    (b"J", b"java/lang/Object", false),
    (b"E", b"java/lang/Object", false),
    (b"E", b"E", true),
];

static INTS: VerificationTypeOf<&[u8]> = VerificationTypeOf::Array(FieldTypeOf {
    dimensions: 0,
    element: Element::Base(Base::Int),
});

/// The array of a class.
fn array_of(name: &[u8]) -> VerificationTypeOf<&[u8]> {
    VerificationTypeOf::Array(FieldTypeOf {
        dimensions: 0,
        element: Element::Class(name),
    })
}

/// Whether classes flow as they are to, and their arrays do likewise.
fn classes_flow(table: &ClassTable<'_>) -> bool {
    CLASSES.iter().all(|row| {
        flows(
            table,
            &VerificationTypeOf::Class(row.0),
            &VerificationTypeOf::Class(row.1),
        ) == row.2
            && flows(table, &array_of(row.0), &array_of(row.1)) == row.2
    })
}

/// Whether arrays and null flow as they are to.
fn arrays_flow(table: &ClassTable<'_>) -> bool {
    flows(table, &INTS, &INTS)
        && flows(
            table,
            &INTS,
            &VerificationTypeOf::Class(b"java/lang/Cloneable".as_slice()),
        )
        && !flows(table, &INTS, &VerificationTypeOf::Class(b"I".as_slice()))
        && flows(table, &VerificationTypeOf::Null, &INTS)
        && !flows(table, &INTS, &VerificationTypeOf::Null)
}

fn flow(alloc: Global, state: RandomState, short: bool) -> bool {
    match system_files(alloc) {
        Ok(system) => match Classes::load(alloc, state, &system, &FILES) {
            Ok(classes) => {
                let table = classes.table();
                classes_flow(table) && arrays_flow(table)
            }
            Err(_) => short,
        },
        Err(_) => short,
    }
}

#[test]
fn types_flow(rt: HostRuntime) {
    match RandomState::new(&rt) {
        Ok(state) => assert!(rt; flow(rt.alloc(), state, false)),
        Err(_) => assert!(rt; false),
    }
}
