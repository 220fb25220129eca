//! Where the member is found that a constant names (JVMS 5.4.3.2, 5.4.3.3). Where its texts are long, a search goes over the marks of the
//! classes as ever, but looks once into a class that declares such a member, however many constants lead there.

ghost use Rattle.std.specs.Prelude.{◌≡◌, ◌<◌, ℕ, List, true, false, length, IfOk, IfSome, OnOk};
ghost use Rattle.jv_pool.specs.Constants.{Entry};
ghost use Rattle.jv_pool.specs.Seen.{seen_member};
ghost use Rattle.jv_classes.specs.Hashes.{AreHashes};
ghost use Rattle.jv_classes.specs.Marks.{MarksField, MarksMethod};
ghost use Rattle.jv_meaning_world.specs.Numbers.{AreNumbers};
ghost use Rattle.jv_meaning_world.specs.World.{World};
ghost use Rattle.jv_lookups.specs.Places.{IsFieldPlace, IsMethodPlace, IsFirstOfClasses, IsFieldLookedUp};
ghost use Rattle.jv_lookups.specs.Inside.Members.{IsFirstAbove, FindsField};
ghost use Rattle.jv_verify_types.specs.Inside.Answered.{AreTextsOf, AreEntries, IsAnswer, IsDeclared, IsFieldOfClass, IsMethodOfClass};

use crate::answers::{Answer, Question, in_16_bits, keep, known, long_texts, place_of};
use crate::hashed::{PoolHashes, descriptor_with, name_with};
use crate::indices::MemberIndices;
use jv_classes::{KeyRow, Text};
use jv_loader::{ClassTable, Classes, Place, class_method};
use jv_pool::{MemberName, Pool};
use std::alloc::AllocError;

/// The place of the method, or the field, of a name and a descriptor among those that a class declares.
fn declared(
    table: &ClassTable<'_>,
    of_method: bool,
    class: usize,
    name: &Text<'_>,
    descriptor: &Text<'_>,
) -> Option<usize>
    requires { class < length table.now }
    ensures { IsDeclared of_method table.now class name.now descriptor.now result }
{
    let class = &table.classes()[class];
    if of_method {
        class.method_of(name, descriptor)
    } else {
        class.field_of(name, descriptor)
    }
}

/// The same by the member's indices, which give the hashes of its texts.
fn looked_up(
    table: &ClassTable<'_>,
    pool: &Pool<'_>,
    hashes: PoolHashes<'_>,
    of_method: bool,
    class: usize,
    indices: MemberIndices,
    member: &MemberName<'_>,
) -> Option<usize>
    requires hashes { AreHashes hashes.seed pool.now hashes.hashes.now }
    requires class { class < length table.now }
    requires texts { AreTextsOf pool.now indices.name indices.descriptor (seen_member member.now) }
    ensures { IsDeclared of_method table.now class (seen_member member.now).name (seen_member member.now).descriptor result }
{
    let name = name_with(hashes, pool, Some(indices), member);
    let descriptor = descriptor_with(hashes, pool, Some(indices), member);
    declared(table, of_method, class, &name, &descriptor)
}

/// Keeps where a class declares a member, unless it has so many that the place has no room in an answer.
fn keep_declared(
    answers: &mut Vec<Option<Answer>>,
    places: u16,
    at: usize,
    question: Question,
    place: usize,
) -> Result<(), AllocError>
    ensures { (world : World) (pool : List Entry) → AreEntries world pool answers.old.items
        → IsAnswer world pool question place → OnOk result (AreEntries world pool answers.new.items) }
{
    match in_16_bits(place) {
        Some(place) => keep(answers, places, at, Answer { question, place }),
        None => Ok(()),
    }
}

/// The same. Where there is one, its texts are compared once.
fn declared_once(
    answers: &mut Vec<Option<Answer>>,
    table: &ClassTable<'_>,
    pool: &Pool<'_>,
    hashes: PoolHashes<'_>,
    of_method: bool,
    class: usize,
    indices: MemberIndices,
    member: &MemberName<'_>,
) -> Result<Option<usize>, AllocError>
    requires hashes { AreHashes hashes.seed pool.now hashes.hashes.now }
    requires class { class < length table.now }
    requires texts { AreTextsOf pool.now indices.name indices.descriptor (seen_member member.now) }
    requires answers { AreEntries table.now pool.now answers.old.items }
    ensures found { IfOk result (IsDeclared of_method table.now class (seen_member member.now).name (seen_member member.now).descriptor) }
    ensures answers { OnOk result (AreEntries table.now pool.now answers.new.items) }
{
    let Some(number) = in_16_bits(class) else {
        return Ok(looked_up(table, pool, hashes, of_method, class, indices, member));
    };
    let question = Question {
        of_method,
        class: number,
        name: indices.name,
        descriptor: indices.descriptor,
    };
    let places = pool.count();
    let at = place_of(hashes.seed, places, question);
    if let Some(place) = known(answers, at, question) {
        return Ok(Some(place));
    }
    let Some(place) = looked_up(table, pool, hashes, of_method, class, indices, member) else {
        return Ok(None);
    };
    keep_declared(answers, places, at, question, place)?;
    Ok(Some(place))
}

/// The method that a class declares.
fn method_once(
    answers: &mut Vec<Option<Answer>>,
    table: &ClassTable<'_>,
    pool: &Pool<'_>,
    hashes: PoolHashes<'_>,
    class: usize,
    indices: MemberIndices,
    method: &MemberName<'_>,
) -> Result<Option<Place>, AllocError>
    requires hashes { AreHashes hashes.seed pool.now hashes.hashes.now }
    requires class { class < length table.now }
    requires texts { AreTextsOf pool.now indices.name indices.descriptor (seen_member method.now) }
    requires answers { AreEntries table.now pool.now answers.old.items }
    ensures found { IfOk result (IsMethodOfClass table.now class (seen_member method.now)) }
    ensures answers { OnOk result (AreEntries table.now pool.now answers.new.items) }
{
    match declared_once(answers, table, pool, hashes, true, class, indices, method)? {
        Some(member) => Ok(Some(Place { class, member })),
        None => Ok(None),
    }
}

/// The field that a class declares.
fn field_once(
    answers: &mut Vec<Option<Answer>>,
    table: &ClassTable<'_>,
    pool: &Pool<'_>,
    hashes: PoolHashes<'_>,
    class: usize,
    indices: MemberIndices,
    field: &MemberName<'_>,
) -> Result<Option<Place>, AllocError>
    requires hashes { AreHashes hashes.seed pool.now hashes.hashes.now }
    requires class { class < length table.now }
    requires texts { AreTextsOf pool.now indices.name indices.descriptor (seen_member field.now) }
    requires answers { AreEntries table.now pool.now answers.old.items }
    ensures found { IfOk result (IsFieldOfClass table.now class (seen_member field.now)) }
    ensures answers { OnOk result (AreEntries table.now pool.now answers.new.items) }
{
    match declared_once(answers, table, pool, hashes, false, class, indices, field)? {
        Some(member) => Ok(Some(Place { class, member })),
        None => Ok(None),
    }
}

/// The same, where it is marked which classes may declare such a method: one that is not is not looked into.
#[inline(always)]
fn marked_method(
    answers: &mut Vec<Option<Answer>>,
    marks: &KeyRow<'_>,
    table: &ClassTable<'_>,
    pool: &Pool<'_>,
    hashes: PoolHashes<'_>,
    class: usize,
    indices: MemberIndices,
    method: &MemberName<'_>,
) -> Result<Option<Place>, AllocError>
    requires hashes { AreHashes hashes.seed pool.now hashes.hashes.now }
    requires class { class < length table.now }
    requires marks { MarksMethod table.now (seen_member method.now).name (seen_member method.now).descriptor marks.now }
    requires texts { AreTextsOf pool.now indices.name indices.descriptor (seen_member method.now) }
    requires answers { AreEntries table.now pool.now answers.old.items }
    ensures found { IfOk result (IsMethodOfClass table.now class (seen_member method.now)) }
    ensures answers { OnOk result (AreEntries table.now pool.now answers.new.items) }
{
    if marks.is_marked(class) {
        method_once(answers, table, pool, hashes, class, indices, method)
    } else {
        Ok(None)
    }
}

/// The same of a field.
#[inline(always)]
fn marked_field(
    answers: &mut Vec<Option<Answer>>,
    marks: &KeyRow<'_>,
    table: &ClassTable<'_>,
    pool: &Pool<'_>,
    hashes: PoolHashes<'_>,
    class: usize,
    indices: MemberIndices,
    field: &MemberName<'_>,
) -> Result<Option<Place>, AllocError>
    requires hashes { AreHashes hashes.seed pool.now hashes.hashes.now }
    requires class { class < length table.now }
    requires marks { MarksField table.now (seen_member field.now).name (seen_member field.now).descriptor marks.now }
    requires texts { AreTextsOf pool.now indices.name indices.descriptor (seen_member field.now) }
    requires answers { AreEntries table.now pool.now answers.old.items }
    ensures found { IfOk result (IsFieldOfClass table.now class (seen_member field.now)) }
    ensures answers { OnOk result (AreEntries table.now pool.now answers.new.items) }
{
    if marks.is_marked(class) {
        field_once(answers, table, pool, hashes, class, indices, field)
    } else {
        Ok(None)
    }
}

/// The first method that a superclass of a class declares.
fn superclass_method(
    answers: &mut Vec<Option<Answer>>,
    table: &ClassTable<'_>,
    pool: &Pool<'_>,
    hashes: PoolHashes<'_>,
    from: usize,
    indices: MemberIndices,
    method: &MemberName<'_>,
) -> Result<Option<Place>, AllocError>
    requires hashes { AreHashes hashes.seed pool.now hashes.hashes.now }
    requires from { from < length table.now }
    requires texts { AreTextsOf pool.now indices.name indices.descriptor (seen_member method.now) }
    requires answers { AreEntries table.now pool.now answers.old.items }
    ensures found { IfOk result (IsFirstAbove table.now from (seen_member method.now).name (seen_member method.now).descriptor) }
    ensures stands { IfOk result (λ place. IfSome place (IsMethodPlace table.now)) }
    ensures answers { OnOk result (AreEntries table.now pool.now answers.new.items) }
{
    let name = name_with(hashes, pool, Some(indices), method);
    let descriptor = descriptor_with(hashes, pool, Some(indices), method);
    let marks = table.marks_of_method(&name, &descriptor);
    for superclass in table.superclasses(from) {
        let found = marked_method(
            answers,
            &marks,
            table,
            pool,
            hashes,
            *superclass as usize,
            indices,
            method,
        )?;
        if let Some(place) = found {
            return Ok(Some(place));
        }
    }
    Ok(None)
}

/// The first method of a name and a descriptor that a class or a superclass of it declares, superinterfaces aside.
fn class_method_once(
    answers: &mut Vec<Option<Answer>>,
    table: &ClassTable<'_>,
    pool: &Pool<'_>,
    hashes: PoolHashes<'_>,
    from: usize,
    indices: MemberIndices,
    method: &MemberName<'_>,
) -> Result<Option<Place>, AllocError>
    requires hashes { AreHashes hashes.seed pool.now hashes.hashes.now }
    requires from { from < length table.now }
    requires texts { AreTextsOf pool.now indices.name indices.descriptor (seen_member method.now) }
    requires answers { AreEntries table.now pool.now answers.old.items }
    ensures found { IfOk result (IsFirstOfClasses table.now from (seen_member method.now).name (seen_member method.now).descriptor) }
    ensures stands { IfOk result (λ place. IfSome place (IsMethodPlace table.now)) }
    ensures answers { OnOk result (AreEntries table.now pool.now answers.new.items) }
{
    let own = method_once(answers, table, pool, hashes, from, indices, method)?;
    if let Some(place) = own {
        return Ok(Some(place));
    }
    superclass_method(answers, table, pool, hashes, from, indices, method)
}

/// Where the field of a name and a descriptor is found from a class, by what a search from it meets (JVMS 5.4.3.2).
fn field_of_searched_once(
    answers: &mut Vec<Option<Answer>>,
    table: &ClassTable<'_>,
    pool: &Pool<'_>,
    hashes: PoolHashes<'_>,
    searched: &[u16],
    indices: MemberIndices,
    field: &MemberName<'_>,
) -> Result<Option<Place>, AllocError>
    requires hashes { AreHashes hashes.seed pool.now hashes.hashes.now }
    requires searched { AreNumbers table.now searched.now }
    requires texts { AreTextsOf pool.now indices.name indices.descriptor (seen_member field.now) }
    requires answers { AreEntries table.now pool.now answers.old.items }
    ensures found { IfOk result (FindsField table.now searched.now (seen_member field.now).name (seen_member field.now).descriptor) }
    ensures stands { IfOk result (λ place. IfSome place (IsFieldPlace table.now)) }
    ensures answers { OnOk result (AreEntries table.now pool.now answers.new.items) }
{
    let name = name_with(hashes, pool, Some(indices), field);
    let descriptor = descriptor_with(hashes, pool, Some(indices), field);
    let marks = table.marks_of_field(&name, &descriptor);
    for class in searched {
        let found = marked_field(
            answers,
            &marks,
            table,
            pool,
            hashes,
            *class as usize,
            indices,
            field,
        )?;
        if let Some(place) = found {
            return Ok(Some(place));
        }
    }
    Ok(None)
}

/// Where the method that a constant names is found among a class and its superclasses. It costs a mark for each of these, and a look at
/// those that may declare such a method; long texts of one that a class declares are compared at the first time alone.
pub(crate) fn method_found(
    answers: &mut Vec<Option<Answer>>,
    table: &ClassTable<'_>,
    pool: &Pool<'_>,
    hashes: PoolHashes<'_>,
    named: usize,
    indices: Option<MemberIndices>,
    method: &MemberName<'_>,
) -> Result<Option<Place>, AllocError>
    requires hashes { AreHashes hashes.seed pool.now hashes.hashes.now }
    requires named { named < length table.now }
    requires texts { IfSome indices (λ i. AreTextsOf pool.now i.name i.descriptor (seen_member method.now)) }
    requires answers { AreEntries table.now pool.now answers.old.items }
    ensures found { IfOk result (IsFirstOfClasses table.now named (seen_member method.now).name (seen_member method.now).descriptor) }
    ensures stands { IfOk result (λ place. IfSome place (IsMethodPlace table.now)) }
    ensures answers { OnOk result (AreEntries table.now pool.now answers.new.items) }
{
    if let Some(indices) = long_texts(pool, indices, method) {
        let found = class_method_once(answers, table, pool, hashes, named, indices, method)?;
        return Ok(found);
    }
    let name = name_with(hashes, pool, indices, method);
    let descriptor = descriptor_with(hashes, pool, indices, method);
    Ok(class_method(table, named, &name, &descriptor))
}

/// The same of a field, among the classes that a search from a class meets.
pub(crate) fn field_found(
    answers: &mut Vec<Option<Answer>>,
    classes: &Classes<'_>,
    pool: &Pool<'_>,
    hashes: PoolHashes<'_>,
    named: usize,
    indices: Option<MemberIndices>,
    field: &MemberName<'_>,
) -> Result<Option<Place>, AllocError>
    requires hashes { AreHashes hashes.seed pool.now hashes.hashes.now }
    requires named { named < length classes.now.world }
    requires texts { IfSome indices (λ i. AreTextsOf pool.now i.name i.descriptor (seen_member field.now)) }
    requires answers { AreEntries classes.now.world pool.now answers.old.items }
    ensures found { IfOk result (IsFieldLookedUp classes.now.world named (seen_member field.now).name (seen_member field.now).descriptor) }
    ensures stands { IfOk result (λ place. IfSome place (IsFieldPlace classes.now.world)) }
    ensures answers { OnOk result (AreEntries classes.now.world pool.now answers.new.items) }
{
    if let Some(indices) = long_texts(pool, indices, field) {
        let table = classes.table();
        let searched = classes.searched(named);
        let found = field_of_searched_once(answers, table, pool, hashes, searched, indices, field)?;
        return Ok(found);
    }
    let name = name_with(hashes, pool, indices, field);
    let descriptor = descriptor_with(hashes, pool, indices, field);
    Ok(classes.find_field(named, &name, &descriptor))
}
