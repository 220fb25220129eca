//! The rules that each constant of a pool keeps (JVMS 4.4).

ghost use Rattle.std.specs.Prelude.{◌≡◌, ◌↔◌, false, Some, IsSome, IsTrue};
ghost use Rattle.std.specs.List.{All};
ghost use Rattle.std.specs.Option.{IsSomeAnd};
ghost use Rattle.jv_pool.specs.Constants.{at_index, utf8_at, class_name_at, named_at, name_and_type_at};
ghost use Rattle.jv_text.specs.Text.{IsText};
ghost use Rattle.jv_text.specs.Name.{is_method_name};
ghost use Rattle.jv_pool.specs.Rules.{IsUnqualified, IsFieldDescriptor, IsDescriptor, NamesField, NamesMethod, NamesInterfaceMethod, IsClassIn, IsMemberIn, IsNameAndTypeIn, KeepsRules};
ghost use Rattle.jv_text.specs.Name.{begins_with};
ghost use Rattle.jv_pool.specs.Seen.{seen};
ghost use Rattle.jv_pool.specs.Inside.Known.{MethodKnown, special_keeps_rules, IsNamedFor, IsPlainMethodName, pair_in, IsKept};

use crate::constant::Constant;
use crate::facts::MethodFacts;
use crate::known::Known;
use jv_text::{begins_with, is_init, is_text};

// ---- texts at indices

/// Whether the text at an index is one (4.4.7), of which it is known mostly of all texts.
fn is_text_at(known: &Known<'_>, index: u16, text: &[u8]) -> bool
    requires { utf8_at known.now index ≡ Some text.now }
    ensures { IsTrue result ↔ IsText text.now }
{
    known.are_texts() || is_text(text)
}

fn is_utf8_at(known: &Known<'_>, index: u16) -> bool
    ensures { IsTrue result ↔ IsSome (utf8_at known.now index) }
{
    known.table().utf8(index).is_some()
}

fn is_class_at(known: &Known<'_>, class: u16) -> bool
    ensures { IsTrue result ↔ IsSome (class_name_at known.now class) }
{
    known.table().class_name(class).is_some()
}

fn is_class(known: &Known<'_>, name: u16) -> bool
    ensures { IsTrue result ↔ IsClassIn known.now name }
{
    match known.facts(name) {
        Some(facts) => facts.names_class,
        None => false,
    }
}

fn is_unqualified_at(known: &Known<'_>, name: u16) -> bool
    ensures { IsTrue result ↔ IsSomeAnd (utf8_at known.now name) IsUnqualified }
{
    match known.facts(name) {
        Some(facts) => facts.unqualified,
        None => false,
    }
}

fn is_field_descriptor_at(known: &Known<'_>, descriptor: u16) -> bool
    ensures { IsTrue result ↔ IsSomeAnd (utf8_at known.now descriptor) IsFieldDescriptor }
{
    match known.facts(descriptor) {
        Some(facts) => facts.field.is_some(),
        None => false,
    }
}

fn is_descriptor_at(known: &Known<'_>, descriptor: u16) -> bool
    ensures { IsTrue result ↔ IsSomeAnd (utf8_at known.now descriptor) IsDescriptor }
{
    match known.facts(descriptor) {
        Some(facts) => facts.field.is_some() || facts.method.is_some(),
        None => false,
    }
}

fn method_at(known: &Known<'_>, descriptor: u16) -> Option<MethodFacts>
    ensures { MethodKnown (utf8_at known.now descriptor) result }
{
    match known.facts(descriptor) {
        Some(facts) => facts.method,
        None => None,
    }
}

fn special_name_keeps_rules(name: &[u8], void: bool) -> bool
    ensures { result ≡ special_keeps_rules name.now void }
{
    if begins_with(b'<', name) {
        is_init(name) && void
    } else {
        true
    }
}

fn is_special_at(known: &Known<'_>, name: u16, void: bool) -> bool
    ensures { IsTrue result ↔ IsSomeAnd (utf8_at known.now name) (λ n. IsTrue (special_keeps_rules n void)) }
{
    match known.table().utf8(name) {
        Some(name) => special_name_keeps_rules(name, void),
        None => false,
    }
}

fn is_method_name_at(known: &Known<'_>, name: u16) -> bool
    ensures { IsTrue result ↔ IsSomeAnd (utf8_at known.now name) (λ n. IsTrue (is_method_name n)) }
{
    match known.facts(name) {
        Some(facts) => facts.method_name,
        None => false,
    }
}

/// Whether the name does not begin as `<init>` and `<clinit>` do.
fn is_no_special_at(known: &Known<'_>, name: u16) -> bool
    ensures { IsTrue result ↔ IsSomeAnd (utf8_at known.now name) (λ n. begins_with 60 n ≡ false) }
{
    match known.table().utf8(name) {
        Some(name) => !begins_with(b'<', name),
        None => false,
    }
}

/// Whether a method can have this name whose result is void, or not.
fn is_named_for(known: &Known<'_>, name: u16, void: bool) -> bool
    ensures { IsTrue result ↔ IsSomeAnd (utf8_at known.now name) (IsNamedFor void) }
{
    is_method_name_at(known, name) && is_special_at(known, name, void)
}

fn is_plain_method_name_at(known: &Known<'_>, name: u16) -> bool
    ensures { IsTrue result ↔ IsSomeAnd (utf8_at known.now name) IsPlainMethodName }
{
    is_method_name_at(known, name) && is_no_special_at(known, name)
}

// ---- the members that NameAndType constants name

fn pair_at(known: &Known<'_>, index: u16) -> Option<(u16, u16)>
    ensures { result ≡ pair_in (at_index known.now index) }
{
    match known.table().constant(index) {
        Some(Constant::NameAndType(name, descriptor)) => Some((name, descriptor)),
        _ => None,
    }
}

fn names_field(known: &Known<'_>, name: u16, descriptor: u16) -> bool
    ensures { IsTrue result ↔ IsSomeAnd (named_at known.now name descriptor) NamesField }
{
    is_utf8_at(known, name) && is_field_descriptor_at(known, descriptor)
}

fn names_method(known: &Known<'_>, name: u16, descriptor: u16) -> bool
    ensures { IsTrue result ↔ IsSomeAnd (named_at known.now name descriptor) NamesMethod }
{
    match method_at(known, descriptor) {
        Some(facts) => is_named_for(known, name, facts.void),
        None => false,
    }
}

fn names_interface_method(known: &Known<'_>, name: u16, descriptor: u16) -> bool
    ensures { IsTrue result ↔ IsSomeAnd (named_at known.now name descriptor) NamesInterfaceMethod }
{
    match method_at(known, descriptor) {
        Some(_) => is_plain_method_name_at(known, name),
        None => false,
    }
}

fn names_field_at(known: &Known<'_>, index: u16) -> bool
    ensures { IsTrue result ↔ IsSomeAnd (name_and_type_at known.now index) NamesField }
{
    match pair_at(known, index) {
        Some((name, descriptor)) => names_field(known, name, descriptor),
        None => false,
    }
}

fn names_method_at(known: &Known<'_>, index: u16) -> bool
    ensures { IsTrue result ↔ IsSomeAnd (name_and_type_at known.now index) NamesMethod }
{
    match pair_at(known, index) {
        Some((name, descriptor)) => names_method(known, name, descriptor),
        None => false,
    }
}

fn names_interface_method_at(known: &Known<'_>, index: u16) -> bool
    ensures { IsTrue result ↔ IsSomeAnd (name_and_type_at known.now index) NamesInterfaceMethod }
{
    match pair_at(known, index) {
        Some((name, descriptor)) => names_interface_method(known, name, descriptor),
        None => false,
    }
}

// ---- constants

fn is_fieldref(known: &Known<'_>, class: u16, name_and_type: u16) -> bool
    ensures { IsTrue result ↔ IsMemberIn NamesField known.now class name_and_type }
{
    is_class_at(known, class) && names_field_at(known, name_and_type)
}

fn is_methodref(known: &Known<'_>, class: u16, name_and_type: u16) -> bool
    ensures { IsTrue result ↔ IsMemberIn NamesMethod known.now class name_and_type }
{
    is_class_at(known, class) && names_method_at(known, name_and_type)
}

fn is_interface_methodref(known: &Known<'_>, class: u16, name_and_type: u16) -> bool
    ensures { IsTrue result ↔ IsMemberIn NamesInterfaceMethod known.now class name_and_type }
{
    is_class_at(known, class) && names_interface_method_at(known, name_and_type)
}

fn is_name_and_type(known: &Known<'_>, name: u16, descriptor: u16) -> bool
    ensures { IsTrue result ↔ IsNameAndTypeIn known.now name descriptor }
{
    is_unqualified_at(known, name) && is_descriptor_at(known, descriptor)
}

/// Whether the constant at an index keeps the rules of its kind.
fn keeps_rules(known: &Known<'_>, index: u16, constant: Constant<&[u8]>) -> bool
    requires { at_index known.now index ≡ Some (seen constant) }
    ensures { IsTrue result ↔ KeepsRules known.now (seen constant.entry) }
{
    match constant {
        Constant::Utf8(text) => is_text_at(known, index, text),
        Constant::Integer(_) => true,
        Constant::Float(_) => true,
        Constant::Long(_, _) => true,
        Constant::Double(_, _) => true,
        Constant::Class(name) => is_class(known, name),
        Constant::String(text) => is_utf8_at(known, text),
        Constant::Fieldref(class, member) => is_fieldref(known, class, member),
        Constant::Methodref(class, member) => is_methodref(known, class, member),
        Constant::InterfaceMethodref(class, member) => {
            is_interface_methodref(known, class, member)
        }
        Constant::NameAndType(name, descriptor) => is_name_and_type(known, name, descriptor),
        Constant::MethodHandle(_, _) => true,
        Constant::MethodType(_) => true,
        Constant::InvokeDynamic(_, _) => true,
    }
}

/// Whether the constant at an index keeps the rules of its kind (JVMS 4.4); also where none is there.
pub fn keeps_rules_at(known: &Known<'_>, index: u16) -> bool
    ensures { IsTrue result ↔ IsKept known.now (at_index known.now index) }
{
    match known.table().constant(index) {
        Some(constant) => keeps_rules(known, index, constant),
        None => true,
    }
}

/// Whether each constant keeps the rules of its kind.
pub(crate) fn keep_rules(known: &Known<'_>) -> bool
    ensures { IsTrue result ↔ All (KeepsRules known.now) known.now }
{
    for index in 0..known.table().count() {
        if !keeps_rules_at(known, index) {
            return false;
        }
    }
    true
}
