//! A field as a step uses it.

ghost use Rattle.std.specs.Prelude.{◌≡◌, Some};
ghost use Rattle.jv_text.specs.Seen.{seen_element, seen_field_type};
ghost use Rattle.jv_text.specs.Types.{field_type_of};
ghost use Rattle.jv_class.specs.Class.{Field};
ghost use Rattle.jv_lookups.specs.Places.{IsFieldPlace};
ghost use Rattle.jv_link_cache.specs.FieldUses.{kind_of_element, kind_of, IsKind, IsFieldUse};
ghost use Rattle.jv_link_cache.specs.Inside.Words.{AreWords};

use crate::words::{ClassWords, word_in_all};
use jv_link::field_at;
use jv_loader::{ClassTable, Place};
use jv_text::{Base, Element, FieldType, field_type, types_agree};

/// What a field holds (JVMS 2.3, 2.4): how many words, and which values a store into it keeps.
#[derive(Clone, Copy)]
pub enum FieldKind {
    Boolean,
    Byte,
    Char,
    Short,
    Int,
    Long,
    Reference,
}

/// A field as a step uses it: the class that declares it and its place there, its access flags, its first word in an object or
/// among those of all static fields, and what it holds.
#[derive(Clone, Copy)]
pub struct FieldUse {
    pub place: Place,
    pub access_flags: u16,
    pub word: usize,
    pub kind: FieldKind,
}

/// What a field of an element's type holds.
fn kind_of_element(element: Element<&[u8]>) -> FieldKind
    ensures { result ≡ kind_of_element (seen_element element.entry) }
{
    match element {
        Element::Base(Base::Boolean) => FieldKind::Boolean,
        Element::Base(Base::Byte) => FieldKind::Byte,
        Element::Base(Base::Char) => FieldKind::Char,
        Element::Base(Base::Short) => FieldKind::Short,
        Element::Base(Base::Long) => FieldKind::Long,
        Element::Base(_) => FieldKind::Int,
        Element::Class(_) => FieldKind::Reference,
    }
}

/// What a field of a type holds.
fn kind_of(field: FieldType<'_>) -> FieldKind
    ensures { result ≡ kind_of (seen_field_type field.entry) }
{
    if field.dimensions == 0 {
        kind_of_element(field.element)
    } else {
        FieldKind::Reference
    }
}

/// What a field of a descriptor holds.
fn kind_in(descriptor: &[u8]) -> FieldKind
    ensures { IsKind descriptor.now result }
{
    types_agree();
    match field_type(descriptor) {
        Ok(field) => kind_of(field),
        Err(_) => FieldKind::Reference,
    }
}

/// The field at a place, as a step uses it.
pub(crate) fn field_used(table: &ClassTable<'_>, words: &[ClassWords], place: Place) -> FieldUse
    requires place { IsFieldPlace table.now place }
    requires words { AreWords table.now words.now }
    ensures used { IsFieldUse table.now result }
    ensures place { result.place ≡ place }
{
    let field = field_at(table, place);
    FieldUse {
        place,
        access_flags: field.access_flags,
        word: word_in_all(words, place),
        kind: kind_in(field.descriptor),
    }
}
