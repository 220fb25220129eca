//! What is kept of linking (JVMS 5.4, 6.5): rows whose answers depend on who asks, on which object, and in which method, all in
//! one guest.

use crate::guest::{NO_MEMORY, Table, wrong_row};
use std::hash::RandomState;

static CLASSES: &str = "\
public p/A java/lang/Object | package m ()V | public r ()V
public q/B p/A | public m ()V
public p/C q/B | public m ()V
public+interface+abstract I java/lang/Object | public m ()V
public+interface+abstract J java/lang/Object I | public m ()V
public+interface+abstract K java/lang/Object | public m ()V
public OfIJ java/lang/Object I J | public r ()V
public OfIK java/lang/Object I K | public r ()V
public F java/lang/Object | public+final fixed I | public <init> ()V | public m ()V
-- two that call a superclass's method each
public High java/lang/Object | public m ()V
public Middle High | public m ()V | public r ()V
public Low Middle | public m ()V | public r ()V";

static SELECTED: &str = "\
p/A r invokevirtual Methodref p/A m ()V p/A = p/A
p/A r invokevirtual Methodref p/A m ()V q/B = p/A
p/A r invokevirtual Methodref p/A m ()V p/C = p/C
p/A r invokevirtual Methodref p/A m ()V p/A = p/A
OfIJ r invokevirtual Methodref OfIJ m ()V OfIJ = J
OfIK r invokevirtual Methodref OfIK m ()V OfIK = IncompatibleClassChangeError
OfIJ r invokeinterface InterfaceMethodref I m ()V OfIJ = J
OfIJ r invokeinterface InterfaceMethodref K m ()V OfIJ = IncompatibleClassChangeError
-- one target, from two classes
Low r invokespecial Methodref High m ()V Low = Middle
Middle r invokespecial Methodref High m ()V Low = High
Low r invokespecial Methodref High m ()V Low = Middle
Low r invokevirtual Methodref High m ()V Low = Low";

static RESOLVED: &str = "\
OfIK r invokevirtual Methodref OfIK m ()V = I
OfIJ r invokevirtual Methodref OfIJ m ()V = J
-- one constant, and two instructions
p/A r invokevirtual Methodref p/A m ()V = p/A
p/A r invokestatic Methodref p/A m ()V = IncompatibleClassChangeError
p/A r invokevirtual Methodref p/A m ()V = p/A";

static FIELDS: &str = "\
-- one constant, and three methods
F <init> putfield Fieldref F fixed I = F
F m putfield Fieldref F fixed I = IllegalAccessError
F m getfield Fieldref F fixed I = F
F m getstatic Fieldref F fixed I = IncompatibleClassChangeError
F <init> putfield Fieldref F fixed I = F";

#[test]
fn selections_are_kept(rt: HostRuntime) {
    match RandomState::new(&rt) {
        Ok(state) => {
            let wrong = wrong_row(rt.alloc(), state, CLASSES, Table::Selections, SELECTED);
            assert!(rt; wrong == "", "{wrong}");
        }
        Err(_) => assert!(rt; false),
    }
}

#[test]
fn methods_are_kept(rt: HostRuntime) {
    match RandomState::new(&rt) {
        Ok(state) => {
            let wrong = wrong_row(rt.alloc(), state, CLASSES, Table::Methods, RESOLVED);
            assert!(rt; wrong == "", "{wrong}");
        }
        Err(_) => assert!(rt; false),
    }
}

#[test]
fn fields_are_kept(rt: HostRuntime) {
    match RandomState::new(&rt) {
        Ok(state) => {
            let wrong = wrong_row(rt.alloc(), state, CLASSES, Table::Fields, FIELDS);
            assert!(rt; wrong == "", "{wrong}");
        }
        Err(_) => assert!(rt; false),
    }
}

#[test]
fn linked_or_has_no_memory(rt: HostRuntime) {
    match RandomState::new(&rt) {
        Ok(state) => {
            let wrong = wrong_row(rt.alloc(), state, CLASSES, Table::Selections, SELECTED);
            assert!(rt; wrong == "" || wrong == NO_MEMORY, "{wrong}");
        }
        Err(_) => {}
    }
}
