//! What classes name (JVMS 4.1).

ghost use Rattle.std.specs.Prelude.{◌≡◌, ◌≤◌, IfOk, length, take};
ghost use Rattle.std.specs.List.{flat_map};
ghost use Rattle.std.specs.Option.{option_copied};
ghost use Rattle.jv_meaning_world.specs.Above.{superclass_names, super_names};
ghost use Rattle.jv_meaning_library.specs.Closed.{constant_names, descriptor_names, names_classes_of, is_closed_world};
ghost use Rattle.jv_closed.specs.There.{are_there};

use crate::constants::has_constants;
use crate::first::FirstClasses;
use crate::texts::{both, has_described};
use jv_classes::{ClassTable, LoadedClass};
use std::alloc::{AllocError, Global};

fn has_superclass(table: &FirstClasses<'_, '_>, name: Option<&[u8]>) -> bool
    ensures { result ≡ are_there table.now (superclass_names (option_copied name.entry)) }
{
    match name {
        Some(name) => table.has_class(name),
        None => true,
    }
}

/// Whether the table has the direct supers of a class.
fn has_supers(table: &FirstClasses<'_, '_>, class: &LoadedClass<'_>) -> bool
    ensures { result ≡ are_there table.now (super_names class.now.class) }
{
    let mut all = has_superclass(table, class.super_name());
    for k in 0..class.interface_count() {
        let is_there = table.has_class(class.interface_name(k));
        all = both(all, is_there);
    }
    all
}

/// Whether it has the classes that the constants of a class name; host/Io has no constants.
fn has_all_constants(
    alloc: Global,
    table: &FirstClasses<'_, '_>,
    class: &LoadedClass<'_>,
) -> Result<bool, AllocError>
    ensures { IfOk result (λ all.
        all ≡ are_there table.now (flat_map (constant_names class.now.class.constant_pool) class.now.class.constant_pool)) }
{
    match class.file() {
        Some(file) => has_constants(alloc, table, file.pool()),
        None => Ok(true),
    }
}

fn has_field_types(
    alloc: Global,
    table: &FirstClasses<'_, '_>,
    class: &LoadedClass<'_>,
) -> Result<bool, AllocError>
    ensures { IfOk result (λ all. all ≡ are_there table.now (flat_map (λ f. descriptor_names f.descriptor) class.now.class.fields)) }
{
    let mut all = true;
    for k in 0..class.field_count() {
        let is_there = has_described(alloc, table, class.field_descriptor(k).bytes())?;
        all = both(all, is_there);
    }
    Ok(all)
}

fn has_method_types(
    alloc: Global,
    table: &FirstClasses<'_, '_>,
    class: &LoadedClass<'_>,
) -> Result<bool, AllocError>
    ensures { IfOk result (λ all. all ≡ are_there table.now (flat_map (λ m. descriptor_names m.descriptor) class.now.class.methods)) }
{
    let mut all = true;
    for k in 0..class.method_count() {
        let is_there = has_described(alloc, table, class.method_descriptor(k).bytes())?;
        all = both(all, is_there);
    }
    Ok(all)
}

/// Whether it has all the classes that a class names.
fn names_classes_of(
    alloc: Global,
    table: &FirstClasses<'_, '_>,
    class: &LoadedClass<'_>,
) -> Result<bool, AllocError>
    ensures { IfOk result (λ all. all ≡ names_classes_of table.now class.now.class) }
{
    let supers = has_supers(table, class);
    let constants = has_all_constants(alloc, table, class)?;
    let fields = has_field_types(alloc, table, class)?;
    let methods = has_method_types(alloc, table, class)?;
    let members = both(fields, methods);
    Ok(both(supers, both(constants, members)))
}

/// Whether each of them names these alone.
fn are_closed(alloc: Global, table: &FirstClasses<'_, '_>) -> Result<bool, AllocError>
    ensures { IfOk result (λ closed. closed ≡ is_closed_world table.now) }
{
    let classes = table.classes();
    let mut all = true;
    for k in 0..classes.len() {
        let is_there = names_classes_of(alloc, table, &classes[k])?;
        all = both(all, is_there);
    }
    Ok(all)
}

/// Whether each of the first classes of a table, so many, names classes among these alone, by its constants, as supers and in its members'
/// descriptors (JVMS 4.1). Of the classes that a host gives, which come first, that says that the host's library is closed: they are then
/// judged alike beside all guests (`jv_meaning_library`).
///
/// # Errors
///
/// Where the host had no memory for the types of a descriptor.
pub fn is_closed(alloc: Global, table: &ClassTable<'_>, count: usize) -> Result<bool, AllocError>
    requires { count ≤ length table.now }
    ensures { IfOk result (λ closed. closed ≡ is_closed_world (take count table.now)) }
{
    are_closed(alloc, &FirstClasses::of(table, count))
}
