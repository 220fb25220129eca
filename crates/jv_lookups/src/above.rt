//! What a method overrides, from its class up.

ghost use Rattle.std.specs.Prelude.{◌≡◌, ◌*◌, ◌<◌, ◌≤◌, ◌^◌, ◌&&◌, [], ◌∷◌, true, false, length, get_or, set, if◌then◌else◌};
ghost use Rattle.std.specs.List.{All};
ghost use Rattle.jv_meaning_world.specs.Numbers.{AreNumbers};
ghost use Rattle.jv_lookups.specs.Packages.{AreNumbered};
ghost use Rattle.jv_lookups.specs.FinalKeys.{TellsFinals};
ghost use Rattle.jv_lookups.specs.Inside.Fronts.{AreUnmarked, IsUpToFinal, IsUpToMarked};
ghost use Rattle.jv_lookups.specs.Inside.Keys.{AreAsked, TellsFinalsOf, is_any_marked, is_looked_at};
ghost use Rattle.jv_lookups.specs.Inside.Overridden.{overrides_final_above, breaks_final_by};
ghost use Rattle.jv_lookups.specs.Inside.Steps.{as_method, declares_final_alike, flags_alike, is_final_overridden_if, marked_with};
ghost use Rattle.jv_lookups.specs.Finals.{PassesWith};

use crate::keys::{FinalKeys, row_of};
use crate::marks::Marks;
use crate::member::{NamedMethod, can_override, is_instance, is_overridden};
use bitflags::Flags;
use jv_class_structure::MethodFlags;
use jv_classes::{KeyRow, LoadedClass};

// how many superclasses that may declare a method final it is looked up in at most, the highest one first, before it goes over those below
const MOST_LOOKS: usize = 4;

/// The flags of the instance method of a class with the name and descriptor of another.
fn flags_alike(class: &LoadedClass<'_>, wanted: &NamedMethod<'_, '_>) -> Option<u16>
    requires name { wanted.now.name.now ≡ wanted.now.method.now.name.now }
    requires descriptor { wanted.now.descriptor.now ≡ wanted.now.method.now.descriptor.now }
    ensures { result ≡ flags_alike class.now (as_method wanted.now.method.now) }
{
    let place = class.method_of(wanted.name, wanted.descriptor)?;
    let found = class.method(place);
    if is_instance(&found) {
        Some(found.access_flags)
    } else {
        None
    }
}

/// Whether the class declares a final instance method with the name and descriptor of another.
fn declares_final_alike(class: &LoadedClass<'_>, wanted: &NamedMethod<'_, '_>) -> bool
    requires name { wanted.now.name.now ≡ wanted.now.method.now.name.now }
    requires descriptor { wanted.now.descriptor.now ≡ wanted.now.method.now.descriptor.now }
    ensures { result ≡ declares_final_alike class.now (as_method wanted.now.method.now) }
{
    let Some(access_flags) = flags_alike(class, wanted) else {
        return false;
    };
    MethodFlags(access_flags).intersects(MethodFlags::FINAL)
}

/// Whether the method overrides a final one of this class further up, whose package has this number;
/// the package is marked where its method is overridden and can override in its turn (JVMS 5.4.5).
fn overrides_final_of(
    class: &LoadedClass<'_>,
    number: usize,
    wanted: &NamedMethod<'_, '_>,
    marks: &mut Marks,
) -> bool
    requires number { number < length marks.old }
    requires name { wanted.now.name.now ≡ wanted.now.method.now.name.now }
    requires descriptor { wanted.now.descriptor.now ≡ wanted.now.method.now.descriptor.now }
    ensures broken { result
        ≡ is_final_overridden_if (get_or marks.old number false) (flags_alike class.now (as_method wanted.now.method.now)) }
    ensures marks { marks.new
        ≡ marked_with marks.old number (flags_alike class.now (as_method wanted.now.method.now)) }
{
    let Some(access_flags) = flags_alike(class, wanted) else {
        return false;
    };
    if !is_overridden(marks.is_marked(number), access_flags) {
        return false;
    }
    if !MethodFlags(access_flags).intersects(MethodFlags::PRIVATE) {
        marks.mark(number);
    }
    MethodFlags(access_flags).intersects(MethodFlags::FINAL)
}

/// The superclasses up to the last one that is marked.
pub(crate) fn up_to_marked<'b>(marks: &[bool], chain: &'b [u16]) -> &'b [u16]
    requires { All (λ number. number < length marks.now) chain.now }
    ensures { IsUpToMarked marks.now chain.now result.now }
{
    let mut end = chain.len();
    while end > 0 && !marks[chain[end - 1] as usize] {
        end -= 1;
    }
    &chain[..end]
}

/// How many there are of the first `end` of these superclasses up to the last one that the row marks.
#[inline(never)]
fn marked_end(row: &KeyRow<'_>, chain: &[u16], end: usize) -> usize
    requires chain { All (λ number. number < length row.now) chain.now }
    requires end { end ≤ length chain.now }
    ensures within { result ≤ end }
    ensures none_behind { AreUnmarked row.now chain.now result end }
{
    let mut now = end;
    while now > 0 && !row.is_marked(chain[now - 1] as usize) {
        now -= 1;
    }
    now
}

/// The superclasses up to the last one that the row, which is of the method's key, marks and that declares a final instance method with
/// the name and descriptor of the method; where `MOST_LOOKS` of those that it marks do not, up to the next one that it marks.
fn up_to_final<'b>(
    classes: &[LoadedClass<'_>],
    row: &KeyRow<'_>,
    chain: &'b [u16],
    wanted: &NamedMethod<'_, '_>,
) -> &'b [u16]
    requires name { wanted.now.name.now ≡ wanted.now.method.now.name.now }
    requires descriptor { wanted.now.descriptor.now ≡ wanted.now.method.now.descriptor.now }
    requires chain { AreNumbers classes.now chain.now }
    requires row { TellsFinalsOf classes.now row.now (as_method wanted.now.method.now) }
    ensures { IsUpToFinal classes.now (as_method wanted.now.method.now) chain.now result.now }
{
    let mut end = marked_end(row, chain, chain.len());
    for _look in 0..MOST_LOOKS {
        if end == 0 {
            return &chain[..end];
        }
        let class = &classes[chain[end - 1] as usize];
        if declares_final_alike(class, wanted) {
            return &chain[..end];
        }
        end = marked_end(row, chain, end - 1);
    }
    &chain[..end]
}

/// Marks a number, where it is wanted.
#[inline(always)]
fn mark_if(is_wanted: bool, marks: &mut Marks, number: usize)
    requires { number < length marks.old }
    ensures many { length marks.new ≡ length marks.old }
    ensures marked { marks.new ≡ (if is_wanted then set marks.old number true else marks.old) }
{
    if is_wanted {
        marks.mark(number);
    }
}

/// Whether the row, of so many classes, marks a class for a final method, or for a public or protected one.
#[inline(always)]
fn is_any_marked(row: &KeyRow<'_>, many: usize, place: usize) -> bool
    requires place { place < many }
    requires row { length row.now ≡ 2 * many }
    requires fits { 2 * many < 2 ^ 64 }
    ensures { result ≡ is_any_marked row.now many place }
{
    row.is_marked(place) || row.is_marked(many + place)
}

/// Marks the package of a class that the row marks for a final method, and asks for the class where its package is marked; a class that
/// the row does not mark at all is passed over.
#[inline(always)]
fn ask_for(
    packages: &[usize],
    row: &KeyRow<'_>,
    many: usize,
    marks: &mut Marks,
    asked: &mut Marks,
    place: usize,
)
    requires place { place < many }
    requires row { length row.now ≡ 2 * many }
    requires fits { 2 * many < 2 ^ 64 }
    requires packages { place < length packages.now }
    requires marks { get_or packages.now place 0 < length marks.old }
    requires asked { place < length asked.old }
    ensures marks { marks.new ≡ (if get_or row.now place false then set marks.old (get_or packages.now place 0) true else marks.old) }
    ensures asked { asked.new
        ≡ (if is_any_marked row.now many place && get_or marks.new (get_or packages.now place 0) false
        then set asked.old place true else asked.old) }
{
    if !is_any_marked(row, many, place) {
        return;
    }
    let number = packages[place];
    mark_if(row.is_marked(place), marks, number);
    mark_if(marks.is_marked(number), asked, place);
}

/// Asks for each of these superclasses that the row, of so many classes, marks, and that is in one package with one, itself or further
/// up, that it marks for a final method. `marks` is room for packages.
fn ask(
    packages: &[usize],
    row: &KeyRow<'_>,
    many: usize,
    marks: &mut Marks,
    asked: &mut Marks,
    chain: &[u16],
)
    requires chain { All (λ number. number < many) chain.now }
    requires row { length row.now ≡ 2 * many }
    requires fits { 2 * many < 2 ^ 64 }
    requires packages { All (λ number. number < length packages.now) chain.now }
    requires marks { All (λ number. get_or packages.now number 0 < length marks.old) chain.now }
    requires asked { All (λ number. number < length asked.old) chain.now }
    ensures marks { length marks.new ≡ length marks.old }
    ensures many { length asked.new ≡ length asked.old }
    ensures asked { AreAsked packages.now row.now many asked.new chain.now }
{
    marks.clear();
    asked.clear();
    let mut end = chain.len();
    while end > 0 {
        end -= 1;
        ask_for(packages, row, many, marks, asked, chain[end] as usize);
    }
}

/// Whether a superclass has to be looked at, one of so many classes: what it declares counts only where it is asked for, and then,
/// where its package is found, only a final method, and else only a public or protected one.
#[inline(always)]
fn is_looked_at(
    row: &KeyRow<'_>,
    asked: &Marks,
    marks: &Marks,
    many: usize,
    number: usize,
    place: usize,
) -> bool
    requires asked { place < length asked.now }
    requires marks { number < length marks.now }
    requires place { place < many }
    requires row { length row.now ≡ 2 * many }
    requires fits { 2 * many < 2 ^ 64 }
    ensures { result ≡ is_looked_at row.now asked.now marks.now many number place }
{
    asked.is_marked(place)
        && row.is_marked(if marks.is_marked(number) {
            place
        } else {
            many + place
        })
}

/// Whether the method overrides a final one of this class further up, where that has to be looked at.
#[inline(always)]
fn overrides_final_if(
    is_looked_at: bool,
    class: &LoadedClass<'_>,
    number: usize,
    wanted: &NamedMethod<'_, '_>,
    marks: &mut Marks,
) -> bool
    requires number { number < length marks.old }
    requires name { wanted.now.name.now ≡ wanted.now.method.now.name.now }
    requires descriptor { wanted.now.descriptor.now ≡ wanted.now.method.now.descriptor.now }
    ensures broken { result
        ≡ (is_looked_at
        && is_final_overridden_if (get_or marks.old number false) (flags_alike class.now (as_method wanted.now.method.now))) }
    ensures marks { marks.new
        ≡ (if is_looked_at then marked_with marks.old number (flags_alike class.now (as_method wanted.now.method.now)) else marks.old) }
{
    is_looked_at && overrides_final_of(class, number, wanted, marks)
}

/// Whether the method of the class overrides a final one of these superclasses, the direct one first. The row is of the method's key.
fn overrides_final_above(
    classes: &[LoadedClass<'_>],
    packages: &[usize],
    row: &KeyRow<'_>,
    marks: &mut Marks,
    asked: &mut Marks,
    of: usize,
    chain: &[u16],
    wanted: &NamedMethod<'_, '_>,
) -> bool
    requires name { wanted.now.name.now ≡ wanted.now.method.now.name.now }
    requires descriptor { wanted.now.descriptor.now ≡ wanted.now.method.now.descriptor.now }
    requires of { of < length classes.now }
    requires chain { AreNumbers classes.now chain.now }
    requires row { TellsFinalsOf classes.now row.now (as_method wanted.now.method.now) }
    requires packages { AreNumbered classes.now packages.now }
    requires marks { 2 * length classes.now ≤ length marks.old }
    requires asked { 2 * length classes.now ≤ length asked.old }
    ensures broken { PassesWith classes.now of chain.now
        (λ l up. overrides_final_above (as_method wanted.now.method.now) (l ∷ []) up) result }
    ensures marks { length marks.new ≡ length marks.old }
    ensures asked { length asked.new ≡ length asked.old }
{
    let many = classes.len();
    ask(packages, row, many, marks, asked, chain);
    marks.clear();
    marks.mark(packages[of]);
    for place in chain {
        let number = packages[*place as usize];
        if overrides_final_if(
            is_looked_at(row, asked, marks, many, number, *place as usize),
            &classes[*place as usize],
            number,
            wanted,
            marks,
        ) {
            return true;
        }
    }
    false
}

/// The same, and where none of these superclasses declares a final instance method with the name and descriptor of the method, it is not
/// asked which of them are in one package.
fn overrides_final_if_declared(
    classes: &[LoadedClass<'_>],
    packages: &[usize],
    row: &KeyRow<'_>,
    marks: &mut Marks,
    asked: &mut Marks,
    of: usize,
    chain: &[u16],
    wanted: &NamedMethod<'_, '_>,
) -> bool
    requires name { wanted.now.name.now ≡ wanted.now.method.now.name.now }
    requires descriptor { wanted.now.descriptor.now ≡ wanted.now.method.now.descriptor.now }
    requires of { of < length classes.now }
    requires chain { AreNumbers classes.now chain.now }
    requires row { TellsFinalsOf classes.now row.now (as_method wanted.now.method.now) }
    requires packages { AreNumbered classes.now packages.now }
    requires marks { 2 * length classes.now ≤ length marks.old }
    requires asked { 2 * length classes.now ≤ length asked.old }
    ensures broken { PassesWith classes.now of chain.now
        (λ l up. overrides_final_above (as_method wanted.now.method.now) (l ∷ []) up) result }
    ensures marks { length marks.new ≡ length marks.old }
    ensures asked { length asked.new ≡ length asked.old }
{
    let chain = up_to_final(classes, row, chain, wanted);
    if chain.is_empty() {
        return false;
    }
    overrides_final_above(classes, packages, row, marks, asked, of, chain, wanted)
}

/// Whether the method of the class can override, and overrides a final one of these superclasses.
pub(crate) fn breaks_final_by(
    classes: &[LoadedClass<'_>],
    keys: &FinalKeys,
    packages: &[usize],
    marks: &mut Marks,
    asked: &mut Marks,
    of: usize,
    chain: &[u16],
    wanted: &NamedMethod<'_, '_>,
) -> bool
    requires name { wanted.now.name.now ≡ wanted.now.method.now.name.now }
    requires descriptor { wanted.now.descriptor.now ≡ wanted.now.method.now.descriptor.now }
    requires of { of < length classes.now }
    requires chain { AreNumbers classes.now chain.now }
    requires keys { TellsFinals classes.now keys.now }
    requires packages { AreNumbered classes.now packages.now }
    requires marks { 2 * length classes.now ≤ length marks.old }
    requires asked { 2 * length classes.now ≤ length asked.old }
    ensures broken { PassesWith classes.now of chain.now (λ l up. breaks_final_by l up (as_method wanted.now.method.now)) result }
    ensures marks { length marks.new ≡ length marks.old }
    ensures asked { length asked.new ≡ length asked.old }
{
    can_override(wanted.method)
        && overrides_final_if_declared(
            classes,
            packages,
            &row_of(keys, wanted),
            marks,
            asked,
            of,
            chain,
            wanted,
        )
}
