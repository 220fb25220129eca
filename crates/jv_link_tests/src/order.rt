//! What is initialized before a class (JVMS 5.5).

use crate::guest::{NO_MEMORY, Table, wrong_row};
use crate::named::class_name;
use crate::row::Row;
use jv_link::init_order;
use jv_link_cache::Linked;
use jv_loader::Classes;
use std::alloc::Global;
use std::hash::RandomState;

static CLASSES: &str = "\
-- call is a default in I, K and D, private in J, static in S and abstract in B
public+interface+abstract I java/lang/Object | public call ()V
public+interface+abstract K java/lang/Object | public call ()V
public+interface+abstract J java/lang/Object K I | private call ()V
public+interface+abstract S java/lang/Object | public+static call ()V | public+static+final constant I
public+interface+abstract B java/lang/Object | public+abstract call ()V
public+interface+abstract D java/lang/Object S I | public call ()V
public+interface+abstract E java/lang/Object
public+interface+abstract F java/lang/Object E D
-- with an abstract method and a default, and with `<clinit>` alone
public+interface+abstract BothKinds java/lang/Object I | public+abstract call ()V | public other ()V | package+static <clinit> ()V
public+interface+abstract OnlyClinit java/lang/Object I | package+static <clinit> ()V
public First java/lang/Object K
public Second First
public Third Second
public OfJ First J
public OfIJD First I J D
public OfDJI First D J I
public OfSBD First S B D
public OfSB First S B
public OfF First F
public OfEF First E F
public OfK First K
public OfBothKinds java/lang/Object BothKinds
public OfOnlyClinit java/lang/Object OnlyClinit
public OfI java/lang/Object I
public OfNothing java/lang/Object";

static ROWS: &str = "\
-- the direct superclass
OfNothing = java/lang/Object
Second = First
Third = Second
java/lang/Error = java/lang/Throwable
java/lang/Object = none
-- superinterfaces that declare a method which is neither abstract nor static, behind it
OfI = java/lang/Object I
First = java/lang/Object K
OfSB = First
-- each behind its own superinterfaces, in the order of the file
OfJ = First K I J
OfF = First I D
OfEF = First I D
-- each once, at its first place
OfIJD = First I K J D
OfDJI = First I D K J
OfSBD = First I D
-- also one that the superclass has too
OfK = First K
-- a method beside abstract and static ones, and `<clinit>` alone
OfBothKinds = java/lang/Object I BothKinds
OfOnlyClinit = java/lang/Object I
-- an interface initializes none
I = none
J = none
F = none";

/// Whether classes have these names, in this order.
fn are_named(classes: &Classes<'_>, numbers: &[usize], names: &str) -> bool {
    let mut names = names.split_whitespace();
    for number in numbers {
        if Some(class_name(classes, *number)) != names.next().map(|name| name.as_bytes()) {
            return false;
        }
    }
    names.next().is_none()
}

/// Whether an order is the one that a row says.
fn is_order(classes: &Classes<'_>, numbers: &[usize], answer: &str) -> bool {
    if answer == "none" {
        numbers.is_empty()
    } else {
        are_named(classes, numbers, answer)
    }
}

/// Whether what is initialized before a class is what a row says; `None` where the host had no memory.
pub(crate) fn is_right(
    alloc: Global,
    classes: &Classes<'_>,
    linked: &Linked<'_>,
    row: &Row<'_>,
) -> Option<bool> {
    let table = classes.table();
    match table.find(row.class.as_bytes()) {
        Some(class) => {
            if class < table.count() && table.is_loadable(class) {
                let order = init_order(alloc, classes, class).ok()?;
                Some(
                    is_order(classes, &order, row.answer)
                        && is_order(classes, linked.init_order(class), row.answer),
                )
            } else {
                Some(false)
            }
        }
        None => Some(false),
    }
}

#[test]
fn initialization_orders(rt: HostRuntime) {
    match RandomState::new(&rt) {
        Ok(state) => {
            let wrong = wrong_row(rt.alloc(), state, CLASSES, Table::Orders, ROWS);
            assert!(rt; wrong == "", "{wrong}");
        }
        Err(_) => assert!(rt; false),
    }
}

#[test]
fn initialization_orders_or_has_no_memory(rt: HostRuntime) {
    match RandomState::new(&rt) {
        Ok(state) => {
            let wrong = wrong_row(rt.alloc(), state, CLASSES, Table::Orders, ROWS);
            assert!(rt; wrong == "" || wrong == NO_MEMORY, "{wrong}");
        }
        Err(_) => {}
    }
}
