//! Where the values of fields stand, in words (JVMS 2.7, own): those of an object's fields in the object, and those of static
//! fields among all of them.

ghost use Rattle.std.specs.Prelude.{◌≡◌, ℕ, ◌+◌, ◌<◌, Some, slice_get, IfOk, codes, length, map, sum_by, if◌then◌else◌};
ghost use Rattle.std.specs.Str.{bytes_eq};
ghost use Rattle.jv_class.specs.Class.{Field};
ghost use Rattle.jv_classes.specs.Members.{IsField};
ghost use Rattle.jv_meaning_world.specs.Numbers.{HoldsAtNumber};
ghost use Rattle.jv_link_cache.specs.Inside.Words.{words_of as words_of_class, word_in, behind, words_from, ends_from, own_words, inherited_words, seen_words, static_end, AreWords};
ghost use Rattle.jv_link_cache.specs.Places.{IsWordOf, static_words};
ghost use Rattle.jv_meaning_world.specs.World.{World};
ghost use Rattle.jv_meaning_world.specs.LookUps.{DeclaredField};
ghost use Rattle.jv_meaning_typing.specs.Layout.{object_words};
ghost use Rattle.jv_lookups.specs.Places.{field_at};

use bitflags::Flags;
use jv_class_structure::FieldFlags;
use jv_link::class_at;
use jv_loader::{ClassTable, LoadedClass, Member, Place};
use std::alloc::{AllocError, Global};

/// Behind some fields, the next word of an object, and of those of static fields.
#[derive(Clone, Copy)]
pub(crate) struct Ends {
    pub(crate) object: usize,
    pub(crate) statics: usize,
}

/// How many words the objects of a class have, and the first word of each of its fields: in an object, or among those of all
/// static fields.
#[derive(Drop)]
pub(crate) struct ClassWords {
    pub(crate) object: usize,
    pub(crate) fields: Vec<usize>,
}

/// How many words a field of a type has.
fn width(descriptor: &[u8]) -> usize
    ensures { result ≡ (if bytes_eq descriptor.now (codes "J") then 2 else 1) }
{
    if descriptor == b"J".as_slice() { 2 } else { 1 }
}

/// The sum of two numbers of words; no host has memory for more.
fn sum(one: usize, other: usize) -> Result<usize, AllocError>
    ensures { IfOk result (λ n. n ≡ one + other) }
{
    if other <= usize::MAX - one {
        Ok(one + other)
    } else {
        Err(AllocError)
    }
}

/// The first word of a field.
fn word_in(field: &Member<'_>, ends: Ends) -> usize
    ensures { (f : Field) → IsField field.now f → result ≡ word_in f ends }
{
    if FieldFlags(field.access_flags).intersects(FieldFlags::STATIC) {
        ends.statics
    } else {
        ends.object
    }
}

/// The words behind a field.
fn behind(field: &Member<'_>, ends: Ends) -> Result<Ends, AllocError>
    ensures { (f : Field) → IsField field.now f → IfOk result (λ e. e ≡ behind f ends) }
{
    let width = width(field.descriptor);
    if FieldFlags(field.access_flags).intersects(FieldFlags::STATIC) {
        let statics = sum(ends.statics, width)?;
        Ok(Ends {
            object: ends.object,
            statics,
        })
    } else {
        let object = sum(ends.object, width)?;
        Ok(Ends {
            object,
            statics: ends.statics,
        })
    }
}

/// The words behind those of a class's fields.
fn ends_from(class: &LoadedClass<'_>, first: Ends) -> Result<Ends, AllocError>
    ensures { IfOk result (λ e. e ≡ ends_from first class.now.class.fields) }
{
    let mut ends = first;
    for member in 0..class.field_count() {
        ends = behind(&class.field(member), ends)?;
    }
    Ok(ends)
}

/// The first word of each field of a class.
fn words_from(alloc: Global, class: &LoadedClass<'_>, first: Ends) -> Result<Vec<usize>, AllocError>
    ensures { IfOk result (λ words. words.items ≡ words_from first class.now.class.fields) }
{
    let mut words = Vec::with_capacity(alloc, class.field_count())?;
    let mut ends = first;
    for member in 0..class.field_count() {
        let field = class.field(member);
        words.push(word_in(&field, ends))?;
        ends = behind(&field, ends)?;
    }
    Ok(words)
}

/// How many words each class's own fields have in its objects.
fn all_own_words(alloc: Global, table: &ClassTable<'_>) -> Result<Vec<usize>, AllocError>
    ensures { IfOk result (λ own. own.items ≡ map own_words table.now) }
{
    let start = Ends {
        object: 0,
        statics: 0,
    };
    let mut own = Vec::new(alloc);
    for number in 0..table.count() {
        let ends = ends_from(class_at(table, number), start)?;
        own.push(ends.object)?;
    }
    Ok(own)
}

/// How many words the fields of a class's superclasses have in its objects.
fn inherited_words(
    table: &ClassTable<'_>,
    own: &[usize],
    number: usize,
) -> Result<usize, AllocError>
    requires number { number < length table.now }
    requires own { own.now ≡ map own_words table.now }
    ensures { IfOk result (λ n. HoldsAtNumber table.now number (λ l. n ≡ inherited_words table.now l)) }
{
    let mut words = 0;
    for superclass in table.superclasses(number) {
        words = sum(words, own[*superclass as usize])?;
    }
    Ok(words)
}

/// The words of a class, where those of its superclasses are so many, and behind so many of static fields; and how many of
/// static fields there are then.
fn words_of(
    alloc: Global,
    class: &LoadedClass<'_>,
    first: Ends,
) -> Result<(ClassWords, usize), AllocError>
    ensures words { IfOk result (λ r. seen_words r.0 ≡ words_of_class first class.now) }
    ensures statics { IfOk result (λ r. r.1 ≡ (ends_from first class.now.class.fields).statics) }
{
    let ends = ends_from(class, first)?;
    let fields = words_from(alloc, class, first)?;
    Ok((
        ClassWords {
            object: ends.object,
            fields,
        },
        ends.statics,
    ))
}

/// The words of each class, and how many there are of static fields.
pub(crate) fn all_words(
    alloc: Global,
    table: &ClassTable<'_>,
) -> Result<(Vec<ClassWords>, usize), AllocError>
    ensures words { IfOk result (λ r. AreWords table.now r.0.items) }
    ensures statics { IfOk result (λ r. r.1 ≡ static_end table.now 0 table.now) }
{
    let own = all_own_words(alloc, table)?;
    let mut all = Vec::with_capacity(alloc, table.count())?;
    let mut statics = 0;
    for number in 0..table.count() {
        let object = inherited_words(table, &own, number)?;
        let words = words_of(alloc, class_at(table, number), Ends { object, statics })?;
        all.push(words.0)?;
        statics = words.1;
    }
    Ok((all, statics))
}

/// How many words an object of a class has.
#[inline(always)]
pub(crate) fn object_words_in(words: &[ClassWords], class: usize) -> usize
    ensures { (world : World) → AreWords world words.now → HoldsAtNumber world class (λ l. result ≡ object_words world l) }
{
    if class < words.len() {
        words[class].object
    } else {
        0
    }
}

/// The word at a place of a row.
#[inline(always)]
fn word_at(fields: &[usize], member: usize) -> usize
    ensures { (word : ℕ) → slice_get fields.now member ≡ Some word → result ≡ word }
{
    if member < fields.len() {
        fields[member]
    } else {
        0
    }
}

/// The first word of the field at a place.
#[inline(always)]
pub(crate) fn word_in_all(words: &[ClassWords], place: Place) -> usize
    ensures { (world : World) (d : DeclaredField) → AreWords world words.now → field_at world place ≡ Some d → IsWordOf world d result }
{
    if place.class < words.len() {
        word_at(&words[place.class].fields, place.member)
    } else {
        0
    }
}
