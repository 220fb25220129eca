//! Reads field descriptors (JVMS 4.3.2).

ghost use Rattle.std.specs.Prelude.{◌≡◌, ◌≢◌, ℕ, ◌≤◌, Some, List, [], ◌∷◌, ◌++◌, replicate, ◌==◌, not, IsSome, IsTrue, IfOk, IfErr, IfSome, IfNone};
ghost use Rattle.std.specs.List.{list_all, position};
ghost use Rattle.jv_text.specs.Name.{is_class_name};
ghost use Rattle.jv_text.specs.declared.descriptor.Base.{Base};
ghost use Rattle.jv_text.specs.declared.descriptor.FieldTypeOf.{FieldTypeOf};
ghost use Rattle.jv_text.specs.Descriptor.{base_letter, element_text, is_element, field_text, is_field_type, IsField};
ghost use Rattle.jv_text.specs.Seen.{seen_element, seen_field_type};
ghost use Rattle.jv_text.specs.Types.{field_type_of};
ghost use Rattle.jv_text.specs.Inside.Elements.{IsElementText};

use crate::descriptor::{BadDescriptor, Base, Element, FieldType, FieldTypeOf};
use crate::name::is_class_name;

/// Reads the brackets at the front, up to all of them, and gives what follows.
fn dimensions_at(text: &[u8]) -> Option<(u8, &[u8])>
    ensures few { IfSome result (λ x. x.0 ≤ 255) }
    ensures found { IfSome result (λ x. text.now ≡ replicate x.0 91 ++ x.1.now) }
    ensures all { IfSome result (λ x. (rest : List ℕ) → x.1.now ≢ 91 ∷ rest) }
    ensures none { IfNone result ((rest : List ℕ) × (text.now ≡ replicate 255 91 ++ (91 ∷ rest))) }
{
    let mut dimensions = 0;
    let mut rest = text;
    while let [b'[', after @ ..] = rest {
        if dimensions == 255 {
            return None;
        }
        dimensions += 1;
        rest = after;
    }
    Some((dimensions, rest))
}

fn base_of(letter: u8) -> Option<Base>
    ensures found { IfSome result (λ base. letter ≡ base_letter base) }
    ensures none { IfNone result ((base : Base) → letter ≢ base_letter base) }
{
    match letter {
        b'B' => Some(Base::Byte),
        b'C' => Some(Base::Char),
        b'D' => Some(Base::Double),
        b'F' => Some(Base::Float),
        b'I' => Some(Base::Int),
        b'J' => Some(Base::Long),
        b'S' => Some(Base::Short),
        b'Z' => Some(Base::Boolean),
        _ => None,
    }
}

/// The index of the first `;`.
fn end_of(text: &[u8]) -> Option<usize>
    ensures { result ≡ position (λ byte. byte == 59) text.now }
{
    text.iter().position(|byte| *byte == b';')
}

/// What stands before the first `;`, and what stands behind it.
fn split_at_end(text: &[u8]) -> Option<(&[u8], &[u8])>
    ensures found { IfSome result (λ x. text.now ≡ x.0.now ++ (59 ∷ x.1.now)) }
    ensures first { IfSome result (λ x. IsTrue (list_all (λ byte. not (byte == 59)) x.0.now)) }
    ensures none { IfNone result ((front rest : List ℕ) → text.now ≢ front ++ (59 ∷ rest)) }
{
    let Some(length) = end_of(text) else {
        return None;
    };
    let (front, end) = text.split_at(length);
    let (_semicolon, rest) = end.split_at(1);
    Some((front, rest))
}

/// Reads the class name at the front and the `;` that ends it, and gives what follows.
fn class_at(text: &[u8]) -> Option<(&[u8], &[u8])>
    ensures found { IfSome result (λ x. text.now ≡ x.0.now ++ (59 ∷ x.1.now)) }
    ensures class { IfSome result (λ x. IsTrue (is_class_name x.0.now)) }
    ensures none { IfNone result ((name rest : List ℕ) → IsTrue (is_class_name name)
        → text.now ≢ name ++ (59 ∷ rest)) }
{
    let Some((name, rest)) = split_at_end(text) else {
        return None;
    };
    if is_class_name(name) {
        Some((name, rest))
    } else {
        None
    }
}

/// Reads a type that is no array at the front, and gives what follows.
fn element_at(text: &[u8]) -> Option<(Element<&[u8]>, &[u8])>
    ensures found { IfSome result (λ x. text.now ≡ element_text (seen_element x.0) ++ x.1.now) }
    ensures fits { IfSome result (λ x. IsTrue (is_element (seen_element x.0))) }
    ensures no_base { IfNone result ((base : Base) (rest : List ℕ)
        → text.now ≢ base_letter base ∷ rest) }
    ensures no_class { IfNone result ((name rest : List ℕ) → IsTrue (is_class_name name)
        → text.now ≢ 76 ∷ (name ++ (59 ∷ rest))) }
{
    match text {
        [b'L', after @ ..] => match class_at(after) {
            Some((name, rest)) => Some((Element::Class(name), rest)),
            None => None,
        },
        [letter, rest @ ..] => match base_of(*letter) {
            Some(base) => Some((Element::Base(base), rest)),
            None => None,
        },
        [] => None,
    }
}

/// Reads the field descriptor at the front, and gives what follows.
pub(crate) fn field_at(text: &[u8]) -> Option<(FieldType<'_>, &[u8])>
    ensures found { IfSome result (λ x. text.now ≡ field_text (seen_field_type x.0) ++ x.1.now) }
    ensures fits { IfSome result (λ x. IsTrue (is_field_type (seen_field_type x.0))) }
    ensures none { IfNone result ((t : FieldTypeOf (List ℕ)) (rest : List ℕ)
        → IsTrue (is_field_type t) → text.now ≢ field_text t ++ rest) }
{
    let Some((dimensions, rest)) = dimensions_at(text) else {
        return None;
    };
    let Some((element, rest)) = element_at(rest) else {
        return None;
    };
    Some((
        FieldTypeOf {
            dimensions,
            element,
        },
        rest,
    ))
}

/// The type that a field descriptor describes, an array of at most 255 dimensions.
///
/// What stands between `L` and `;` is a class name whatever it is: `LF;` is a class named F.
pub fn field_type(text: &[u8]) -> Result<FieldType<'_>, BadDescriptor>
    ensures ok { IfOk result (λ t. IsField text.now (seen_field_type t)) }
    ensures bad { IfErr result (λ _. (t : FieldTypeOf (List ℕ)) → IsField text.now t → ⊥) }
{
    let Some((t, rest)) = field_at(text) else {
        return Err(BadDescriptor);
    };
    if rest.is_empty() {
        Ok(t)
    } else {
        Err(BadDescriptor)
    }
}

/// The element of a text that is one: a letter, or `L`, a class name and `;`.
fn known_element(text: &[u8]) -> Element<&[u8]>
    requires { IsElementText text.now }
    ensures { text.now ≡ element_text (seen_element result) }
{
    match text {
        [b'L', name @ .., _] => Element::Class(name),
        [letter, ..] => {
            let Some(base) = base_of(*letter) else {
                unreachable!();
            };
            Element::Base(base)
        }
        [] => unreachable!(),
    }
}

/// The type of a text that is known to be a field descriptor, as a constant pool's can be (JVMS
/// 4.3.2). It looks at the brackets and at one byte behind them, and not at a class's name.
pub fn known_field_type(text: &[u8]) -> FieldType<'_>
    requires { IsSome (field_type_of text.now) }
    ensures { field_type_of text.now ≡ Some (seen_field_type result) }
{
    let Some((dimensions, rest)) = dimensions_at(text) else {
        unreachable!();
    };
    FieldTypeOf {
        dimensions,
        element: known_element(rest),
    }
}
