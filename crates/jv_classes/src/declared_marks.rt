//! Which classes of a world may declare a method, or a field, of a name and a descriptor.

ghost use Rattle.std.specs.Prelude.{◌<◌, IfOk};
ghost use Rattle.jv_classes.specs.Marks.{AreKept, AreFieldsMarked, AreMethodsMarked, TellsFields, TellsMethods};

use crate::key_marks::KeyMarks;
use crate::loaded_class::LoadedClass;
use crate::members::member_key;
use std::alloc::{AllocError, Global};

/// Marks the methods of a class for its number.
fn mark_methods(marks: &mut KeyMarks, seed: u64, class: &LoadedClass<'_>, number: usize)
    requires { number < marks.old.width }
    ensures marked { AreMethodsMarked seed marks.new number class.now.class.methods }
    ensures kept { AreKept marks.old marks.new }
{
    for place in 0..class.method_count() {
        let key = member_key(
            seed,
            &class.method_name(place),
            &class.method_descriptor(place),
        );
        marks.mark(key, number);
    }
}

/// Marks the fields of a class for its number.
fn mark_fields(marks: &mut KeyMarks, seed: u64, class: &LoadedClass<'_>, number: usize)
    requires { number < marks.old.width }
    ensures marked { AreFieldsMarked seed marks.new number class.now.class.fields }
    ensures kept { AreKept marks.old marks.new }
{
    for place in 0..class.field_count() {
        let key = member_key(
            seed,
            &class.field_name(place),
            &class.field_descriptor(place),
        );
        marks.mark(key, number);
    }
}

fn method_total(classes: &[LoadedClass<'_>]) -> usize {
    let mut total = 0usize;
    for class in classes {
        total = total.saturating_add(class.method_count());
    }
    total
}

fn field_total(classes: &[LoadedClass<'_>]) -> usize {
    let mut total = 0usize;
    for class in classes {
        total = total.saturating_add(class.field_count());
    }
    total
}

/// The marks of all methods.
pub(crate) fn method_marks(
    alloc: Global,
    seed: u64,
    classes: &[LoadedClass<'_>],
) -> Result<KeyMarks, AllocError>
    ensures { IfOk result (TellsMethods seed classes.now) }
{
    let mut marks = KeyMarks::new(alloc, method_total(classes), classes.len())?;
    for number in 0..classes.len() {
        mark_methods(&mut marks, seed, &classes[number], number);
    }
    Ok(marks)
}

/// The marks of all fields.
pub(crate) fn field_marks(
    alloc: Global,
    seed: u64,
    classes: &[LoadedClass<'_>],
) -> Result<KeyMarks, AllocError>
    ensures { IfOk result (TellsFields seed classes.now) }
{
    let mut marks = KeyMarks::new(alloc, field_total(classes), classes.len())?;
    for number in 0..classes.len() {
        mark_fields(&mut marks, seed, &classes[number], number);
    }
    Ok(marks)
}
