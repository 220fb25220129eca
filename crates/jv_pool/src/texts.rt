//! What is known of a text (JVMS 4.2, 4.3, 4.4.1, 4.7.2).

ghost use Rattle.std.specs.Prelude.{◌≡◌, ◌↔◌, ℕ, List, IsTrue};
ghost use Rattle.jv_text.specs.declared.descriptor.FieldTypeOf.{FieldTypeOf};
ghost use Rattle.jv_text.specs.Text.{IsText};
ghost use Rattle.jv_text.specs.Descriptor.{IsField};
ghost use Rattle.jv_text.specs.Seen.{seen_element, seen_field_type};
ghost use Rattle.jv_text.specs.Name.{is_class_name};
ghost use Rattle.jv_pool.specs.Rules.{NamesClass, IsFieldDescriptor};
ghost use Rattle.jv_pool.specs.Facts.{value_of_base, value_of_element, value_of_type, IsFieldKnown, IsMethodKnown, AreFacts};

use crate::facts::{ConstantValueKind, FieldFacts, MethodFacts, TextFacts};
use jv_text::{
    Base, Element, FieldType, begins_with, field_type, is_array_name, is_floating, method_shape,
    text_kinds,
};

fn value_of_base(base: Base) -> ConstantValueKind
    ensures { result ≡ value_of_base base }
{
    match base {
        Base::Long => ConstantValueKind::Long,
        Base::Float | Base::Double => ConstantValueKind::Floating,
        Base::Int | Base::Short | Base::Char | Base::Byte | Base::Boolean =>
            ConstantValueKind::Integer,
    }
}

fn value_of_element(element: Element<&[u8]>) -> ConstantValueKind
    ensures { result ≡ value_of_element (seen_element element.entry) }
{
    match element {
        Element::Base(base) => value_of_base(base),
        Element::Class(name) => {
            if name == b"java/lang/String".as_slice() {
                ConstantValueKind::String
            } else {
                ConstantValueKind::Nothing
            }
        }
    }
}

fn value_of_type(t: FieldType<'_>) -> ConstantValueKind
    ensures { result ≡ value_of_type (seen_field_type t.entry) }
{
    if t.dimensions == 0 {
        value_of_element(t.element)
    } else {
        ConstantValueKind::Nothing
    }
}

/// Whether the text can be no field descriptor: none begins with a parenthesis, and one that is a class name is a letter.
fn is_no_field(text: &[u8], class_name: bool) -> bool
    requires { class_name ≡ is_class_name text.now }
    ensures { IsTrue result → (t : FieldTypeOf (List ℕ)) → IsField text.now t → ⊥ }
{
    begins_with(b'(', text) || (class_name && text.len() > 1)
}

fn field_facts(text: &[u8], class_name: bool) -> Option<FieldFacts>
    requires { class_name ≡ is_class_name text.now }
    ensures { IsFieldKnown text.now result }
{
    if is_no_field(text, class_name) {
        return None;
    }
    match field_type(text) {
        Ok(t) => Some(FieldFacts {
            value: value_of_type(t),
            floating: is_floating(t),
        }),
        Err(_) => None,
    }
}

fn method_facts(text: &[u8]) -> Option<MethodFacts>
    ensures { IsMethodKnown text.now result }
{
    if !begins_with(b'(', text) {
        return None;
    }
    match method_shape(text) {
        Ok(shape) => Some(MethodFacts {
            slots: shape.slots,
            void: shape.result.is_none(),
            floating: shape.floating,
        }),
        Err(_) => None,
    }
}

/// Whether a Class constant can name the text (4.4.1), where it is known whether it is a class name and a field descriptor.
fn names_class(text: &[u8], class_name: bool, described: bool) -> bool
    requires class { class_name ≡ is_class_name text.now }
    requires described { IsTrue described ↔ IsFieldDescriptor text.now }
    ensures { IsTrue result ↔ NamesClass text.now }
{
    class_name || (is_array_name(text) && described)
}

/// What is known of the text, and whether it is one (4.4.7). Names are told by one pass over it.
pub(crate) fn facts_of(text: &[u8]) -> (TextFacts, bool)
    ensures facts { AreFacts text.now result.0 }
    ensures text { IsTrue result.1 ↔ IsText text.now }
{
    let kinds = text_kinds(text);
    let field = field_facts(text, kinds.class_name);
    let facts = TextFacts {
        names_class: names_class(text, kinds.class_name, field.is_some()),
        unqualified: kinds.member_name,
        method_name: kinds.method_name,
        field,
        method: method_facts(text),
    };
    (facts, kinds.text)
}
