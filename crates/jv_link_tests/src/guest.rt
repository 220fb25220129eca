//! Guests, and which row of a table is wrong for one.

ghost use Rattle.jv_link_cache.specs.Linked.{IsLinked};

use crate::row::{Row, is_comment, read_row};
use crate::{class, field, files, layout, method, order, uses};
use jv_link_cache::{Linked, link};
use jv_loader::{Classes, SystemFiles, system_files};
use std::alloc::{AllocError, Global};
use std::hash::RandomState;

/// What a table is of.
#[derive(Clone, Copy)]
pub(crate) enum Table {
    Classes,
    Fields,
    Methods,
    Selections,
    Orders,
    Layouts,
    FieldUses,
    MethodUses,
}

/// What is answered where the host had no memory, or a line has no class.
pub(crate) const NO_MEMORY: &str = "no memory";

/// Whether a row is right; `None` where the host had no memory.
fn is_right<'a>(
    alloc: Global,
    classes: &Classes<'a>,
    linked: &mut Linked<'a>,
    table: Table,
    row: &Row<'_>,
) -> Option<bool>
    requires { IsLinked classes.now.world linked.old }
    ensures { IsLinked classes.now.world linked.new }
{
    match table {
        Table::Classes => Some(class::is_right(classes, linked, row)),
        Table::Fields => Some(field::is_right(classes, linked, row)),
        Table::Methods => Some(method::resolves(classes, linked, row)),
        Table::Selections => Some(method::selects(classes, linked, row)),
        Table::Orders => order::is_right(alloc, classes, linked, row),
        Table::Layouts => layout::is_right(alloc, classes, linked, row),
        Table::FieldUses => Some(uses::is_field_right(classes, linked, row)),
        Table::MethodUses => Some(uses::is_method_right(classes, linked, row)),
    }
}

fn wrong_in<'r, 'a>(
    alloc: Global,
    classes: &Classes<'a>,
    linked: &mut Linked<'a>,
    table: Table,
    rows: &'r str,
) -> &'r str
    requires { IsLinked classes.now.world linked.old }
{
    for line in rows.lines() {
        if !is_comment(line) {
            match is_right(alloc, classes, linked, table, &read_row(line)) {
                Some(true) => {}
                Some(false) => return line,
                None => return NO_MEMORY,
            }
        }
    }
    ""
}

/// The same for classes that are linked anew.
fn wrong_of_classes<'r>(
    alloc: Global,
    classes: &Classes<'_>,
    table: Table,
    rows: &'r str,
) -> &'r str {
    match link(alloc, classes) {
        Ok(linked) => {
            let mut linked = linked;
            wrong_in(alloc, classes, &mut linked, table, rows)
        }
        Err(_) => NO_MEMORY,
    }
}

/// The files as slices.
pub(crate) fn slices_of<'f>(
    alloc: Global,
    files: &'f [Vec<u8>],
) -> Result<Vec<&'f [u8]>, AllocError> {
    let mut slices = Vec::new(alloc);
    for file in files {
        slices.push(file.as_slice())?;
    }
    Ok(slices)
}

fn wrong_of_files<'r>(
    alloc: Global,
    state: RandomState,
    system: &SystemFiles,
    files: &[&[u8]],
    table: Table,
    rows: &'r str,
) -> &'r str {
    match Classes::load(alloc, state, system, files) {
        Ok(classes) => wrong_of_classes(alloc, &classes, table, rows),
        Err(_) => NO_MEMORY,
    }
}

fn wrong_of_system<'r>(
    alloc: Global,
    state: RandomState,
    system: &SystemFiles,
    classes: &str,
    table: Table,
    rows: &'r str,
) -> &'r str {
    match files::class_files(alloc, classes, rows) {
        Some(files) => match slices_of(alloc, &files) {
            Ok(slices) => wrong_of_files(alloc, state, system, &slices, table, rows),
            Err(_) => NO_MEMORY,
        },
        None => NO_MEMORY,
    }
}

/// The first row of a table that is wrong for the guest of some classes, or nothing.
pub(crate) fn wrong_row<'r>(
    alloc: Global,
    state: RandomState,
    classes: &str,
    table: Table,
    rows: &'r str,
) -> &'r str {
    match system_files(alloc) {
        Ok(system) => wrong_of_system(alloc, state, &system, classes, table, rows),
        Err(_) => NO_MEMORY,
    }
}
