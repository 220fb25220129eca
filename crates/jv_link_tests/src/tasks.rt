//! What the initialization of a class does itself (JVMS 4.7.2, 5.5): constants of static fields, and `<clinit>`.

use jv_asm_builder::{AttributeDescription, ClassBuilder, ClassFlags, FieldFlags, MethodFlags, Op};
use jv_link_cache::{InitialValue, Linked, initial_value, link};
use jv_loader::{Classes, SystemFiles, system_files};
use std::alloc::Global;
use std::hash::RandomState;

// The constants that `with_constants` adds stand behind the names of the class and of its superclass, and these four entries.
static INT: [AttributeDescription<'static>; 1] = [AttributeDescription {
    attribute_name_index: 5,
    info: &[0, 6],
}];

static LONG: [AttributeDescription<'static>; 1] = [AttributeDescription {
    attribute_name_index: 5,
    info: &[0, 7],
}];

static STRING: [AttributeDescription<'static>; 1] = [AttributeDescription {
    attribute_name_index: 5,
    info: &[0, 10],
}];

/// Adds the constants of the fields' values: whether they stand where the attributes name them.
fn with_constants(class: &mut ClassBuilder<'_>) -> bool {
    match (
        class.utf8(b"ConstantValue"),
        class.integer(-7),
        class.long(-2),
        class.string(b"hi"),
    ) {
        (Ok(name), Ok(int), Ok(long), Ok(string)) => {
            name == 5 && int == 6 && long == 7 && string == 10
        }
        _ => false,
    }
}

/// Adds six fields, four of which begin with a constant.
fn with_fields(class: &mut ClassBuilder<'_>) -> bool {
    let instance = FieldFlags(0x0001);
    let shared = FieldFlags(0x0009);
    class.field(shared, b"none", b"I", &[]).is_ok()
        && class.field(shared, b"int", b"I", &INT).is_ok()
        && class.field(instance, b"object", b"I", &INT).is_ok()
        && class.field(shared, b"long", b"J", &LONG).is_ok()
        && class
            .field(shared, b"text", b"Ljava/lang/String;", &STRING)
            .is_ok()
        && class.field(shared, b"short", b"S", &INT).is_ok()
}

/// Adds a static method that returns.
fn with_method<'a>(class: &mut ClassBuilder<'a>, name: &'a [u8]) -> bool {
    match class.begin(MethodFlags(0x0009), name, b"()V") {
        Ok(mut method) => method.code.op(Op::RETURN).is_ok() && class.end(method, 0, 0).is_ok(),
        Err(_) => false,
    }
}

/// The file of the class.
fn class_file(alloc: Global) -> Option<Vec<u8>> {
    match ClassBuilder::new(alloc, ClassFlags(0x0021), b"X", b"java/lang/Object") {
        Ok(mut class) => {
            if with_constants(&mut class)
                && with_fields(&mut class)
                && with_method(&mut class, b"m")
                && with_method(&mut class, b"<clinit>")
            {
                class.finish().ok()
            } else {
                None
            }
        }
        Err(_) => None,
    }
}

fn is_int(value: Option<InitialValue<'_>>, number: i32) -> bool {
    match value {
        Some(InitialValue::Int(value)) => value == number,
        _ => false,
    }
}

fn is_long(value: Option<InitialValue<'_>>, number: i64) -> bool {
    match value {
        Some(InitialValue::Long(value)) => value == number,
        _ => false,
    }
}

fn is_text(value: Option<InitialValue<'_>>, bytes: &[u8]) -> bool {
    match value {
        Some(InitialValue::String(value)) => value == bytes,
        _ => false,
    }
}

/// Whether the fields begin with their values, and the instance field and the first with none.
fn are_values(classes: &Classes<'_>, number: usize) -> bool {
    match classes.table().classes().get(number) {
        Some(class) => {
            initial_value(class, 0).is_none()
                && is_int(initial_value(class, 1), -7)
                && initial_value(class, 2).is_none()
                && is_long(initial_value(class, 3), -2)
                && is_text(initial_value(class, 4), b"hi")
                && is_int(initial_value(class, 5), -7)
        }
        None => false,
    }
}

/// Whether the tasks of the class are those, and those of java/lang/Object none.
fn are_tasks(classes: &Classes<'_>, linked: &Linked<'_>) -> bool {
    match (
        classes.table().find(b"X"),
        classes.table().find(b"java/lang/Object"),
    ) {
        (Some(class), Some(object)) => {
            are_values(classes, class)
                && linked.settings(class) == [1, 3, 4, 5].as_slice()
                && linked.initializer(class) == Some(1)
                && linked.settings(object).is_empty()
                && linked.initializer(object).is_none()
        }
        _ => false,
    }
}

/// Whether the tasks of the class of a file are right; `None` where the host had no memory.
fn is_right(alloc: Global, state: RandomState, system: &SystemFiles, file: &[u8]) -> Option<bool> {
    let files = [file];
    let classes = Classes::load(alloc, state, system, &files).ok()?;
    let linked = link(alloc, &classes).ok()?;
    Some(are_tasks(&classes, &linked))
}

/// The same of the class above.
fn tasks_are_right(alloc: Global, state: RandomState) -> Option<bool> {
    let system = system_files(alloc).ok()?;
    let file = class_file(alloc)?;
    is_right(alloc, state, &system, &file)
}

#[test]
fn tasks_of_a_class(rt: HostRuntime) {
    match RandomState::new(&rt) {
        Ok(state) => assert!(rt; tasks_are_right(rt.alloc(), state) == Some(true)),
        Err(_) => assert!(rt; false),
    }
}

#[test]
fn tasks_or_has_no_memory(rt: HostRuntime) {
    match RandomState::new(&rt) {
        Ok(state) => assert!(rt; tasks_are_right(rt.alloc(), state) != Some(false)),
        Err(_) => {}
    }
}
