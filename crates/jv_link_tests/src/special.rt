//! Which method invokespecial runs (JVMS 6.5).

use crate::guest::{Table, wrong_row};
use std::hash::RandomState;

static CLASSES: &str = "\
public+interface+abstract I java/lang/Object | public m ()V | public call ()V
public+interface+abstract J java/lang/Object I | public call ()V
public+interface+abstract K java/lang/Object | public call ()V
public+interface+abstract B java/lang/Object | public+abstract call ()V
public+interface+abstract V java/lang/Object | public m ()V | private call ()V
public+interface+abstract IK java/lang/Object I K
public+interface+abstract IJ java/lang/Object I J
-- Low extends Middle, which extends High
public High java/lang/Object | public <init> ()V | public call ()V | public top ()V | private own ()V
public Middle High | public <init> ()V | public call ()V | public m ()V | private own ()V
public Low Middle I IK IJ B | public <init> ()V | public m ()V | public call ()V | public top ()V
-- classes with nothing of their own, below Middle
public Empty Middle
public BelowEmpty Empty | public m ()V | public call ()V
-- with a private method between
public Private High | public m ()V | private call ()V
public BelowPrivate Private | public m ()V
-- with an abstract method, and one whose method is a default
public+abstract Abstract java/lang/Object | public+abstract call ()V
public BelowAbstract Abstract | public m ()V | public call ()V
public OfJ java/lang/Object J
public BelowOfJ OfJ K | public m ()V
public OfIK java/lang/Object I K
public BelowOfIK OfIK | public m ()V
public Other java/lang/Object | public <init> ()V | public m ()V";

static ROWS: &str = "\
-- a superclass is named: the search begins at the direct one
Low m invokespecial Methodref Middle call ()V Low = Middle
Low m invokespecial Methodref High call ()V Low = Middle
Low m invokespecial Methodref High top ()V Low = High
Low m invokespecial Methodref Middle top ()V Low = High
Middle m invokespecial Methodref High call ()V Low = High
BelowEmpty m invokespecial Methodref Empty call ()V BelowEmpty = Middle
BelowEmpty m invokespecial Methodref High call ()V BelowEmpty = Middle
BelowEmpty m invokespecial Methodref java/lang/Object equals (Ljava/lang/Object;)Z BelowEmpty = java/lang/Object
-- a private method on the way is run
BelowPrivate m invokespecial Methodref High call ()V BelowPrivate = Private
-- another class is named: the search begins there
Middle m invokespecial Methodref Middle own ()V Low = Middle
Low m invokespecial Methodref Low call ()V Low = Low
Private m invokespecial Methodref Private call ()V BelowPrivate = Private
-- abstract, and by defaults
BelowAbstract m invokespecial Methodref Abstract call ()V BelowAbstract = AbstractMethodError
BelowOfJ m invokespecial Methodref OfJ call ()V BelowOfJ = J
BelowOfIK m invokespecial Methodref OfIK call ()V BelowOfIK = IncompatibleClassChangeError
-- an interface is named
Low m invokespecial InterfaceMethodref I call ()V Low = I
Low m invokespecial InterfaceMethodref IJ call ()V Low = J
Low m invokespecial InterfaceMethodref IK call ()V Low = IncompatibleClassChangeError
Low m invokespecial InterfaceMethodref B call ()V Low = AbstractMethodError
Low m invokespecial InterfaceMethodref I equals (Ljava/lang/Object;)Z Low = java/lang/Object
V m invokespecial InterfaceMethodref V call ()V V = V
I m invokespecial InterfaceMethodref I call ()V Low = I
I m invokespecial Methodref java/lang/Object equals (Ljava/lang/Object;)Z Low = java/lang/Object
-- `<init>` of the class that is named
Low <init> invokespecial Methodref Middle <init> ()V Low = Middle
Low <init> invokespecial Methodref High <init> ()V Low = High
Low m invokespecial Methodref Other <init> ()V Other = Other
High <init> invokespecial Methodref java/lang/Object <init> ()V High = java/lang/Object";

#[test]
fn special_methods_run(rt: HostRuntime) {
    match RandomState::new(&rt) {
        Ok(state) => {
            let wrong = wrong_row(rt.alloc(), state, CLASSES, Table::Selections, ROWS);
            assert!(rt; wrong == "", "{wrong}");
        }
        Err(_) => assert!(rt; false),
    }
}
