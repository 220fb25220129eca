//! What the constants of instructions name.

ghost use Rattle.std.specs.Prelude.{◌≡◌, Some};
ghost use Rattle.std.specs.Option.{option_map};
ghost use Rattle.jv_code.specs.Insns.{instruction_of};
ghost use Rattle.jv_pool.specs.Constants.{class_name_at, field_reference_at};
ghost use Rattle.jv_pool.specs.Seen.{seen_member};
ghost use Rattle.jv_text.specs.Seen.{seen_element};
ghost use Rattle.jv_links.specs.Text.{class_missing, class_of_member, class_referred, class_within, element_class, if_missing, method_referred, operand_index};

use jv_code::Insn;
use jv_loader::Classes;
use jv_pool::{MemberName, Pool};
use jv_text::{Element, field_type, is_array_name, types_agree};

/// The index of an instruction's constant; 0 where it has no reference.
pub(crate) fn operand_index(insn: &Insn<&[u8]>) -> u16
    ensures { result ≡ operand_index (instruction_of insn.now) }
{
    match *insn {
        Insn::Field(_, index) => index,
        Insn::Invoke(_, index) => index,
        Insn::InvokeInterface(index, _) => index,
        Insn::New(index) => index,
        Insn::NewReferenceArray(index) => index,
        Insn::NewMultiArray(index, _) => index,
        Insn::CheckCast(index) => index,
        Insn::InstanceOf(index) => index,
        _ => 0,
    }
}

/// The text of the Class constant at an index, where it is one.
pub(crate) fn class_named<'a>(pool: &Pool<'a>, index: u16) -> Option<&'a [u8]>
    ensures { option_map (λ name. name.now) result ≡ class_name_at pool.now index }
{
    match pool.class_index(index) {
        Some(class) => Some(pool.class_name(class)),
        None => None,
    }
}

/// The field that the constant at an index names, where it names one.
pub(crate) fn field_named<'a>(pool: &Pool<'a>, index: u16) -> Option<MemberName<'a>>
    ensures { option_map seen_member result ≡ field_reference_at pool.now index }
{
    match pool.fieldref_index(index) {
        Some(field) => Some(pool.field_reference(field)),
        None => None,
    }
}

/// The method that the constant at an index names, where it names one of a class or of an interface.
pub(crate) fn method_named<'a>(pool: &Pool<'a>, index: u16) -> Option<MemberName<'a>>
    ensures { option_map seen_member result ≡ method_referred pool.now index }
{
    match pool.methodref_index(index) {
        Some(method) => Some(pool.method_reference(method)),
        None => match pool.interface_methodref_index(index) {
            Some(method) => Some(pool.interface_method_reference(method)),
            None => None,
        },
    }
}

/// The text of the class of the field or method that the constant at an index names.
fn class_of_member<'a>(pool: &Pool<'a>, index: u16) -> Option<&'a [u8]>
    ensures { option_map (λ name. name.now) result ≡ class_of_member pool.now index }
{
    match field_named(pool, index) {
        Some(field) => Some(field.class),
        None => match method_named(pool, index) {
            Some(method) => Some(method.class),
            None => None,
        },
    }
}

/// The text of the class that the constant at an index names, or whose member it names.
fn class_referred<'a>(pool: &Pool<'a>, index: u16) -> Option<&'a [u8]>
    ensures { option_map (λ name. name.now) result ≡ class_referred pool.now index }
{
    match class_named(pool, index) {
        Some(name) => Some(name),
        None => class_of_member(pool, index),
    }
}

/// The class that an element of arrays is, where it is one.
fn element_class(element: Element<&[u8]>) -> Option<&[u8]>
    ensures { option_map (λ name. name.now) result ≡ element_class (seen_element element.entry) }
{
    match element {
        Element::Class(name) => Some(name),
        Element::Base(_) => None,
    }
}

/// The class that the text of a Class constant names, of an array that of its elements (JVMS 4.4.1).
fn class_within(text: &[u8]) -> Option<&[u8]>
    ensures { option_map (λ name. name.now) result ≡ class_within text.now }
{
    if !is_array_name(text) {
        return Some(text);
    }
    types_agree();
    match field_type(text) {
        Ok(array) => element_class(array.element),
        Err(_) => None,
    }
}

/// A name, where no class has it.
fn if_missing<'a>(classes: &Classes<'_>, name: &'a [u8]) -> Option<&'a [u8]>
    ensures { option_map (λ name. name.now) result ≡ if_missing classes.now.world name.now }
{
    match classes.find(name) {
        Some(_) => None,
        None => Some(name),
    }
}

/// The name of the class that the constant at an index names, or whose member it names, where there is no class of that name.
pub(crate) fn class_missing<'a>(
    classes: &Classes<'_>,
    pool: &Pool<'a>,
    index: u16,
) -> Option<&'a [u8]>
    ensures { option_map (λ name. name.now) result ≡ class_missing classes.now.world pool.now index }
{
    let Some(text) = class_referred(pool, index) else {
        return None;
    };
    let Some(name) = class_within(text) else {
        return None;
    };
    if_missing(classes, name)
}
