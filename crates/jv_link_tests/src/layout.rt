//! Where objects keep their fields (JVMS 2.7).

use crate::guest::{NO_MEMORY, Table, wrong_row};
use crate::named::{class_name, is_field_at};
use crate::row::Row;
use jv_link::{Layout, PlacedField, layout_of};
use jv_link_cache::Linked;
use jv_loader::Classes;
use std::alloc::Global;
use std::hash::RandomState;

static CLASSES: &str = "\
public X java/lang/Object | private a I | private+static b I | public c J | public+static d J
public Y X | public a [J | public e B | package f Ljava/lang/String;
public Z Y I | package+static g I
public W Z | public+final h J | public i J | protected j Z
public Empty java/lang/Object
public OnlyStatic Empty | public+static k J
public+interface+abstract I java/lang/Object | public+static+final constant J
public Fault java/lang/Throwable | public code J";

static ROWS: &str = "\
-- the class and the name of each field, with its first word, and how many words there are
Empty = 0
OnlyStatic = 0
java/lang/Object = 0
I = 0
-- a long takes two words, and a static field none
X = X a 0 X c 1 3
-- those of the superclass come first, also where names are alike
Y = X a 0 X c 1 Y a 3 Y e 4 Y f 5 6
Z = X a 0 X c 1 Y a 3 Y e 4 Y f 5 6
W = X a 0 X c 1 Y a 3 Y e 4 Y f 5 W h 6 W i 8 W j 10 11
-- of the system's classes
java/lang/String = java/lang/String value 0 1
java/lang/Throwable = java/lang/Throwable message 0 1
Fault = java/lang/Throwable message 0 Fault code 1 3";

/// Whether a word of a row is a number.
fn is_number(word: Option<&str>, number: usize) -> bool {
    match word {
        Some(word) => word.parse::<usize>() == Ok(number),
        None => false,
    }
}

/// Whether a field is declared by the class of a name and has a name.
fn is_field(
    classes: &Classes<'_>,
    placed: &PlacedField,
    class: Option<&str>,
    name: Option<&str>,
) -> bool {
    match (class, name) {
        (Some(class), Some(name)) => {
            class_name(classes, placed.field.class) == class.as_bytes()
                && is_field_at(classes, placed.field, name.as_bytes())
        }
        _ => false,
    }
}

/// Whether a layout is the one that a row says.
fn is_laid(classes: &Classes<'_>, layout: &Layout, answer: &str) -> bool {
    let mut words = answer.split_whitespace();
    for placed in &layout.fields {
        if !is_field(classes, placed, words.next(), words.next())
            || !is_number(words.next(), placed.word)
        {
            return false;
        }
    }
    is_number(words.next(), layout.words) && words.next().is_none()
}

/// Whether what is kept of a class's objects is its layout.
fn is_kept(linked: &Linked<'_>, class: usize, layout: &Layout) -> bool {
    for placed in &layout.fields {
        if linked.word_of(placed.field) != placed.word {
            return false;
        }
    }
    linked.object_words(class) == layout.words
}

/// Whether the objects of a class keep their fields where a row says; `None` where the host had no memory.
pub(crate) fn is_right(
    alloc: Global,
    classes: &Classes<'_>,
    linked: &Linked<'_>,
    row: &Row<'_>,
) -> Option<bool> {
    let table = classes.table();
    match table.find(row.class.as_bytes()) {
        Some(class) => {
            if class < table.count() && table.is_loadable(class) {
                let layout = layout_of(alloc, classes, class).ok()?;
                Some(is_laid(classes, &layout, row.answer) && is_kept(linked, class, &layout))
            } else {
                Some(false)
            }
        }
        None => Some(false),
    }
}

#[test]
fn layouts(rt: HostRuntime) {
    match RandomState::new(&rt) {
        Ok(state) => {
            let wrong = wrong_row(rt.alloc(), state, CLASSES, Table::Layouts, ROWS);
            assert!(rt; wrong == "", "{wrong}");
        }
        Err(_) => assert!(rt; false),
    }
}

#[test]
fn layouts_or_has_no_memory(rt: HostRuntime) {
    match RandomState::new(&rt) {
        Ok(state) => {
            let wrong = wrong_row(rt.alloc(), state, CLASSES, Table::Layouts, ROWS);
            assert!(rt; wrong == "" || wrong == NO_MEMORY, "{wrong}");
        }
        Err(_) => {}
    }
}
