//! The facts of a class (JVMS 4.1, 4.5 to 4.7), in the form of `scripts/javap-facts`.

use crate::line::{Cell, write_cells, write_line};
use jv_class::{ClassFile, ConstantValue, Field, MethodCode};
use jv_format::half_at;
use jv_pool::Pool;
use std::alloc::AllocError;

/// The constant of the static field at a place.
fn constant_of<'a>(class: &ClassFile<'a>, place: usize) -> Cell<'a> {
    match class.constant_value(place) {
        Some(ConstantValue::Integer(index)) => Cell::Integer(class.pool().integer(index)),
        Some(ConstantValue::Long(index)) => Cell::Long(class.pool().long(index)),
        Some(ConstantValue::String(index)) => Cell::String(class.pool().string(index)),
        None => Cell::Nothing,
    }
}

/// How many entries a StackMapTable has, by its first two bytes.
fn maps_in(table: Option<&[u8]>) -> Cell<'static> {
    let Some(table) = table else {
        return Cell::Nothing;
    };
    match half_at(table) {
        Some((count, _)) => Cell::Number(usize::from(count)),
        None => Cell::Number(0),
    }
}

/// What is shown of a method's code: its sizes, its handlers, and the entries of its StackMapTable.
fn code_cells(code: Option<MethodCode<'_>>) -> [Cell<'static>; 5] {
    match code {
        Some(code) => [
            Cell::Number(usize::from(code.max_stack)),
            Cell::Number(usize::from(code.max_locals)),
            Cell::Number(code.code.len()),
            Cell::Number(code.exception_table.len()),
            maps_in(code.stack_map_table),
        ],
        None => [Cell::Nothing; 5],
    }
}

/// The class that a handler catches.
fn caught<'a>(pool: &Pool<'a>, index: u16) -> Cell<'a> {
    match pool.class_index(index) {
        Some(index) => Cell::Name(pool.class_name(index)),
        None => Cell::Word("any"),
    }
}

fn write_handlers(
    out: &mut String,
    file: &str,
    pool: &Pool<'_>,
    method: usize,
    code: MethodCode<'_>,
) -> Result<(), AllocError> {
    for place in 0..code.exception_table.len() {
        let Some(entry) = code.exception_table.handler(place) else {
            break;
        };
        let cells = [
            Cell::Word("handler"),
            Cell::Number(method),
            Cell::Number(place),
            Cell::Number(usize::from(entry.start_pc)),
            Cell::Number(usize::from(entry.end_pc)),
            Cell::Number(usize::from(entry.handler_pc)),
            caught(pool, entry.catch_type),
        ];
        write_line(out, file, &cells)?;
    }
    Ok(())
}

fn write_interfaces(out: &mut String, file: &str, class: &ClassFile<'_>) -> Result<(), AllocError> {
    let interfaces = class.interfaces();
    for place in 0..interfaces.len() {
        let name = class.pool().class_name(interfaces[place]);
        let cells = [
            Cell::Word("interface"),
            Cell::Number(place),
            Cell::Name(name),
        ];
        write_line(out, file, &cells)?;
    }
    Ok(())
}

fn write_fields(out: &mut String, file: &str, class: &ClassFile<'_>) -> Result<(), AllocError> {
    let pool = class.pool();
    let fields: &[Field] = class.fields();
    for place in 0..fields.len() {
        let field = fields[place];
        let cells = [
            Cell::Word("field"),
            Cell::Number(place),
            Cell::Flags(field.access_flags.0),
            Cell::Name(pool.utf8(field.name)),
            Cell::Name(pool.utf8(field.descriptor)),
            constant_of(class, place),
        ];
        write_line(out, file, &cells)?;
    }
    Ok(())
}

/// Writes each method, and behind it a line for each of its handlers.
fn write_methods(out: &mut String, file: &str, class: &ClassFile<'_>) -> Result<(), AllocError> {
    let pool = class.pool();
    for place in 0..class.method_count() {
        let Some(method) = class.method(place) else {
            break;
        };
        let cells = [
            Cell::Word("method"),
            Cell::Number(place),
            Cell::Flags(method.access_flags.0),
            Cell::Name(pool.utf8(method.name)),
            Cell::Name(pool.utf8(method.descriptor)),
        ];
        out.push_str(file)?;
        write_cells(out, &cells)?;
        let code = method.code();
        write_line(out, "", &code_cells(code))?;
        if let Some(code) = code {
            write_handlers(out, file, pool, place, code)?;
        }
    }
    Ok(())
}

fn super_of<'a>(class: &ClassFile<'a>) -> Cell<'a> {
    match class.super_class() {
        Some(index) => Cell::Name(class.pool().class_name(index)),
        None => Cell::Nothing,
    }
}

/// Writes the facts of a class: its own, its interfaces, its fields, and its methods, each with its
/// handlers.
pub(crate) fn write_class(
    out: &mut String,
    file: &str,
    class: &ClassFile<'_>,
) -> Result<(), AllocError> {
    let cells = [
        Cell::Word("class"),
        Cell::Number(0),
        Cell::Number(usize::from(class.major())),
        Cell::Flags(class.access_flags().0),
        Cell::Name(class.name()),
        super_of(class),
        Cell::Number(usize::from(class.pool().count())),
        Cell::Number(class.interfaces().len()),
        Cell::Number(class.fields().len()),
        Cell::Number(class.method_count()),
    ];
    write_line(out, file, &cells)?;
    write_interfaces(out, file, class)?;
    write_fields(out, file, class)?;
    write_methods(out, file, class)
}
