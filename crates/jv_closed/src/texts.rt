//! What the texts of class files name (JVMS 4.3, 4.4.1).

ghost use Rattle.std.specs.Prelude.{◌≡◌, ◌&&◌, map, IfOk};
ghost use Rattle.jv_text.specs.Seen.{seen_element, seen_field_type, seen_result};
ghost use Rattle.jv_text.specs.Types.{field_type_of, method_type_of};
ghost use Rattle.jv_meaning_library.specs.Closed.{element_names, type_names, method_names, descriptor_names, class_text_names, is_there};
ghost use Rattle.jv_closed.specs.There.{are_there, types_are_there};

use crate::first::FirstClasses;
use jv_text::{DescFault, Element, FieldType, field_type, is_array_name, method_type, types_agree};
use std::alloc::{AllocError, Global};

/// Whether two tests pass.
pub(crate) fn both(one: bool, other: bool) -> bool
    ensures { result ≡ (one && other) }
{
    one && other
}

fn has_element(table: &FirstClasses<'_, '_>, element: Element<&[u8]>) -> bool
    ensures { result ≡ are_there table.now (element_names (seen_element element.entry)) }
{
    match element {
        Element::Base(_) => true,
        Element::Class(name) => table.has_class(name),
    }
}

/// Whether it has the class that a field descriptor names, if the text is one that names one (JVMS 4.3.2).
fn has_field_class(table: &FirstClasses<'_, '_>, text: &[u8]) -> bool
    ensures { result ≡ are_there table.now (type_names (field_type_of text.now)) }
{
    types_agree();
    match field_type(text) {
        Ok(found) => has_element(table, found.element),
        Err(_) => true,
    }
}

fn has_types(table: &FirstClasses<'_, '_>, types: &[FieldType<'_>]) -> bool
    ensures { result ≡ types_are_there table.now (map seen_field_type types.now) }
{
    let mut all = true;
    for k in 0..types.len() {
        let is_there = has_element(table, types[k].element);
        all = both(all, is_there);
    }
    all
}

fn has_result(table: &FirstClasses<'_, '_>, result_type: Option<FieldType<'_>>) -> bool
    ensures { result ≡ are_there table.now (type_names (seen_result result_type.entry)) }
{
    match result_type {
        Some(found) => has_element(table, found.element),
        None => true,
    }
}

/// Whether it has the classes that a method descriptor names, if the text is one (JVMS 4.3.3).
fn has_method_classes(
    alloc: Global,
    table: &FirstClasses<'_, '_>,
    text: &[u8],
) -> Result<bool, AllocError>
    ensures { IfOk result (λ all. all ≡ are_there table.now (method_names (method_type_of text.now))) }
{
    types_agree();
    match method_type(alloc, text) {
        Ok(method) => {
            let parameters = has_types(table, &method.parameters);
            let returned = has_result(table, method.result);
            Ok(both(parameters, returned))
        }
        Err(DescFault::BadDescriptor) => Ok(true),
        Err(DescFault::OutOfMemory) => Err(AllocError),
    }
}

/// Whether it has the classes that a descriptor names, of a field or of a method.
pub(crate) fn has_described(
    alloc: Global,
    table: &FirstClasses<'_, '_>,
    text: &[u8],
) -> Result<bool, AllocError>
    ensures { IfOk result (λ all. all ≡ are_there table.now (descriptor_names text.now)) }
{
    let field = has_field_class(table, text);
    let method = has_method_classes(alloc, table, text)?;
    Ok(both(field, method))
}

/// Whether it has the class that the text of a Class constant names, if it names one (JVMS 4.4.1).
pub(crate) fn has_named(table: &FirstClasses<'_, '_>, text: &[u8]) -> bool
    ensures { result ≡ are_there table.now (class_text_names text.now) }
{
    if is_array_name(text) {
        has_field_class(table, text)
    } else {
        table.has_class(text)
    }
}
