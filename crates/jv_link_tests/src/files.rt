//! Class files of the classes that a text has, a line each.
//!
//! A line has the class's flags, joined by `+`, with `@` and its major version where that is not 52, its
//! name, its superclass and its direct superinterfaces; behind each `|` stands a member, with its flags,
//! its name and its descriptor. The code of a method returns.

use crate::row::{Row, is_comment, next_word, read_row};
use bitflags::Flags;
use jv_asm_builder::{ClassBuilder, ClassFlags, FieldFlags, MethodFlags, Op};
use std::alloc::Global;

/// Access flags (JVMS tables 4.1-B, 4.5-A, 4.6-A) by name; `package` is none.
static FLAGS: [(&str, u16); 9] = [
    ("package", 0),
    ("public", 0x0001),
    ("private", 0x0002),
    ("protected", 0x0004),
    ("static", 0x0008),
    ("final", 0x0010),
    ("super", 0x0020),
    ("interface", 0x0200),
    ("abstract", 0x0400),
];

fn flag(name: &str) -> Option<u16> {
    for row in &FLAGS {
        if row.0 == name {
            return Some(row.1);
        }
    }
    None
}

fn flags(names: &str) -> Option<u16> {
    let mut flags = 0;
    for name in names.split('+') {
        flags |= flag(name)?;
    }
    Some(flags)
}

fn add_method<'a>(
    class: &mut ClassBuilder<'a>,
    flags: u16,
    name: &'a [u8],
    descriptor: &'a [u8],
) -> bool {
    if MethodFlags(flags).intersects(MethodFlags::ABSTRACT) {
        return class.bodiless(MethodFlags(flags), name, descriptor).is_ok();
    }
    match class.begin(MethodFlags(flags), name, descriptor) {
        Ok(mut method) => method.code.op(Op::RETURN).is_ok() && class.end(method, 0, 9).is_ok(),
        Err(_) => false,
    }
}

fn add_member<'a>(class: &mut ClassBuilder<'a>, member: &'a str) -> bool {
    let mut words = member.split_whitespace();
    let Some(flags) = flags(next_word(&mut words)) else {
        return false;
    };
    let name = next_word(&mut words).as_bytes();
    let descriptor = next_word(&mut words).as_bytes();
    if descriptor.starts_with(b"(") {
        add_method(class, flags, name, descriptor)
    } else {
        class
            .field(FieldFlags(flags), name, descriptor, &[])
            .is_ok()
    }
}

fn add_members<'a>(class: &mut ClassBuilder<'a>, members: &'a str) -> bool {
    if members.is_empty() {
        return true;
    }
    for member in members.split('|') {
        if !add_member(class, member) {
            return false;
        }
    }
    true
}

fn add_interfaces<'a>(class: &mut ClassBuilder<'a>, head: &'a str) -> bool {
    for name in head.split_whitespace().skip(3) {
        if class.interface(name.as_bytes()).is_err() {
            return false;
        }
    }
    true
}

/// Adds the constant that a row's use names.
fn add_constant<'a>(class: &mut ClassBuilder<'a>, row: &Row<'a>) -> bool {
    let named = row.named.as_bytes();
    let name = row.name.as_bytes();
    let descriptor = row.descriptor.as_bytes();
    if row.constant == "Fieldref" {
        class.fieldref(named, name, descriptor).is_ok()
    } else if row.constant == "Methodref" {
        class.methodref(named, name, descriptor).is_ok()
    } else if row.constant == "InterfaceMethodref" {
        class.interface_methodref(named, name, descriptor).is_ok()
    } else if row.constant == "Class" {
        class.class(named).is_ok()
    } else {
        true
    }
}

/// Adds the constants of the rows whose sites are in a class.
fn add_constants<'a>(class: &mut ClassBuilder<'a>, class_name: &str, rows: &'a str) -> bool {
    for line in rows.lines() {
        let row = read_row(line);
        if row.class == class_name && !add_constant(class, &row) {
            return false;
        }
    }
    true
}

/// The flags of a class, and the word of its major version.
fn version<'a>(flags: &'a str) -> (&'a str, &'a str) {
    match flags.split_once('@') {
        Some(parts) => parts,
        None => (flags, "52"),
    }
}

/// The file of a class, with the constants for its rows; `None` for want of memory, or where the line has
/// no class.
fn class_file<'a>(alloc: Global, line: &'a str, rows: &'a str) -> Option<Vec<u8>> {
    let (head, members) = match line.split_once('|') {
        Some(parts) => parts,
        None => (line, ""),
    };
    let mut words = head.split_whitespace();
    let (names, major) = version(next_word(&mut words));
    let major = major.parse::<u16>().ok()?;
    let flags = ClassFlags(flags(names)?);
    let name = next_word(&mut words);
    let super_name = next_word(&mut words);
    match ClassBuilder::new(alloc, flags, name.as_bytes(), super_name.as_bytes()) {
        Ok(mut class) => {
            class.set_major(major);
            if add_interfaces(&mut class, head)
                && add_members(&mut class, members)
                && add_constants(&mut class, name, rows)
            {
                class.finish().ok()
            } else {
                None
            }
        }
        Err(_) => None,
    }
}

/// The files of the classes of a text.
pub(crate) fn class_files(alloc: Global, classes: &str, rows: &str) -> Option<Vec<Vec<u8>>> {
    let mut files = Vec::new(alloc);
    for line in classes.lines() {
        if !is_comment(line) {
            files.push(class_file(alloc, line, rows)?).ok()?;
        }
    }
    Some(files)
}
