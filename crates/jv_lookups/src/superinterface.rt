//! Where a method is found in the superinterfaces of a class (JVMS 5.4.3.3).

ghost use Rattle.std.specs.Prelude.{◌≡◌, ◌<◌, ◌≤◌, ℕ, false, length, get_or, IfSome};
ghost use Rattle.jv_classes.specs.Marks.{MarksMethod};
ghost use Rattle.jv_meaning_world.specs.LookUps.{without_itself, superinterface_method};
ghost use Rattle.jv_meaning_world.specs.Numbers.{HoldsAtNumber, HoldsAtBoth};
ghost use Rattle.jv_meaning_world.specs.Numbers.{AreNumbers};
ghost use Rattle.jv_lookups.specs.Places.{IsMethodPlace, IsMethodFound, FindsMethod};
ghost use Rattle.jv_lookups.specs.Inside.Members.{candidate_in, IsFirstCandidate, IsBelowIn, IsAnyBelowIn, IsSpecificIn};
ghost use Rattle.jv_lookups.specs.Inside.Members.{AreSpecifics, IsOnlySpecific, TellsBelow, MarksOthersAbove, MarksAboveCandidate, MarksAboveCandidates};
ghost use Rattle.jv_lookups.specs.Defaults.{IsDefaultPlace, AreDefaultsFrom};

use crate::declared::{is_concrete, is_inheritable, marked_method};
use crate::defaults::Defaults;
use crate::place::Place;
use jv_classes::{ClassTable, KeyRow, Text};

/// For so many classes a look-up has marks on its stack: as many as a guest can have with the system's, rounded up.
const MOST: usize = 1088;

/// Where a search meets so many classes, or fewer, each pair of them is looked at: to mark what is above one costs as much as
/// to compare it with some seventy.
const FEW: usize = 64;

/// Whether a class is an interface other than that from which the search goes.
fn is_superinterface(table: &ClassTable<'_>, from: usize, class: usize) -> bool
    requires from { from < length table.now }
    requires class { class < length table.now }
    ensures { HoldsAtNumber table.now from (λ l. HoldsAtNumber table.now class (λ c. result ≡ without_itself l c)) }
{
    table.is_numbered();
    if class == from {
        return false;
    }
    table.classes()[class].is_interface()
}

/// The method of a superinterface that can be inherited. A class that is not marked for it is not looked at.
fn candidate(
    table: &ClassTable<'_>,
    marks: &KeyRow<'_>,
    from: usize,
    class: usize,
    name: &Text<'_>,
    descriptor: &Text<'_>,
) -> Option<Place>
    requires from { from < length table.now }
    requires class { class < length table.now }
    requires marks { MarksMethod table.now name.now descriptor.now marks.now }
    ensures found { HoldsAtBoth table.now from class (λ l c. IsMethodFound table.now result (candidate_in name.now descriptor.now l c)) }
    ensures place { IfSome result (IsMethodPlace table.now) }
{
    let Some(place) = marked_method(table, marks, class, name, descriptor) else {
        return None;
    };
    if !is_superinterface(table, from, class) {
        return None;
    }
    if !is_inheritable(table, place) {
        return None;
    }
    Some(place)
}

/// The first method that can be inherited.
fn first_candidate(
    table: &ClassTable<'_>,
    marks: &KeyRow<'_>,
    from: usize,
    searched: &[u16],
    name: &Text<'_>,
    descriptor: &Text<'_>,
) -> Option<Place>
    requires from { from < length table.now }
    requires searched { AreNumbers table.now searched.now }
    requires marks { MarksMethod table.now name.now descriptor.now marks.now }
    ensures found { IsFirstCandidate table.now from searched.now name.now descriptor.now result }
    ensures place { IfSome result (IsMethodPlace table.now) }
{
    for class in searched {
        if let Some(place) = candidate(table, marks, from, *class as usize, name, descriptor) {
            return Some(place);
        }
    }
    None
}

/// Whether another class is below a class, and has a method that can be inherited.
fn is_below_candidate(
    table: &ClassTable<'_>,
    marks: &KeyRow<'_>,
    from: usize,
    class: usize,
    other: usize,
    name: &Text<'_>,
    descriptor: &Text<'_>,
) -> bool
    requires from { from < length table.now }
    requires class { class < length table.now }
    requires other { other < length table.now }
    requires marks { MarksMethod table.now name.now descriptor.now marks.now }
    ensures { IsBelowIn table.now from class other name.now descriptor.now result }
{
    table.is_numbered();
    if other == class || !table.is_above(class, other) {
        return false;
    }
    candidate(table, marks, from, other, name, descriptor).is_some()
}

/// Whether such a method stands in a class below a class: by its mark, where there is one.
fn has_below(
    table: &ClassTable<'_>,
    marks: &KeyRow<'_>,
    from: usize,
    searched: &[u16],
    class: usize,
    name: &Text<'_>,
    descriptor: &Text<'_>,
    above: &[bool],
) -> bool
    requires from { from < length table.now }
    requires searched { AreNumbers table.now searched.now }
    requires class { class < length table.now }
    requires marks { MarksMethod table.now name.now descriptor.now marks.now }
    requires above { TellsBelow table.now from searched.now name.now descriptor.now above.now }
    ensures { IsAnyBelowIn table.now from class searched.now name.now descriptor.now result }
{
    if class < above.len() {
        return above[class];
    }
    for other in searched {
        if is_below_candidate(table, marks, from, class, *other as usize, name, descriptor) {
            return true;
        }
    }
    false
}

/// Whether a class is known to have such a method below it.
fn is_marked_above(above: &[bool], class: usize) -> bool
    ensures { result ≡ get_or above.now class false }
{
    class < above.len() && above[class]
}

/// The method of a superinterface that can be inherited, where it is not abstract, and none stands below it. A class that is
/// marked is not looked at.
fn specific(
    table: &ClassTable<'_>,
    marks: &KeyRow<'_>,
    from: usize,
    searched: &[u16],
    class: usize,
    name: &Text<'_>,
    descriptor: &Text<'_>,
    above: &[bool],
) -> Option<Place>
    requires from { from < length table.now }
    requires searched { AreNumbers table.now searched.now }
    requires class { class < length table.now }
    requires marks { MarksMethod table.now name.now descriptor.now marks.now }
    requires above { TellsBelow table.now from searched.now name.now descriptor.now above.now }
    ensures found { IsSpecificIn table.now from class searched.now name.now descriptor.now result }
    ensures place { IfSome result (IsMethodPlace table.now) }
{
    if is_marked_above(above, class) {
        return None;
    }
    let Some(place) = candidate(table, marks, from, class, name, descriptor) else {
        return None;
    };
    if !is_concrete(table, place) {
        return None;
    }
    if has_below(table, marks, from, searched, class, name, descriptor, above) {
        return None;
    }
    Some(place)
}

/// All such methods: none, the one, or that there are several.
fn specifics(
    table: &ClassTable<'_>,
    marks: &KeyRow<'_>,
    from: usize,
    searched: &[u16],
    name: &Text<'_>,
    descriptor: &Text<'_>,
    above: &[bool],
) -> Defaults
    requires from { from < length table.now }
    requires searched { AreNumbers table.now searched.now }
    requires marks { MarksMethod table.now name.now descriptor.now marks.now }
    requires above { TellsBelow table.now from searched.now name.now descriptor.now above.now }
    ensures found { AreSpecifics table.now from searched.now name.now descriptor.now result }
    ensures place { IsDefaultPlace table.now result }
{
    let mut found = None;
    for class in searched {
        if let Some(place) = specific(
            table,
            marks,
            from,
            searched,
            *class as usize,
            name,
            descriptor,
            above,
        ) {
            if found.is_some() {
                return Defaults::Several;
            }
            found = Some(place);
        }
    }
    match found {
        Some(place) => Defaults::One(place),
        None => Defaults::Absent,
    }
}

/// Also marks each class above a class, itself aside.
fn mark_others_above(table: &ClassTable<'_>, class: usize, above: &mut [bool])
    requires class { class < length table.now }
    requires above { length above.old ≡ length table.now }
    ensures size { length above.new ≡ length above.old }
    ensures marked { MarksOthersAbove table.now class above.old above.new }
{
    table.is_numbered();
    let itself = above[class];
    table.mark_above(class, above);
    above[class] = itself;
}

/// Also marks each class above a class that has a method that can be inherited, itself aside.
fn mark_above_candidate(
    table: &ClassTable<'_>,
    marks: &KeyRow<'_>,
    from: usize,
    class: usize,
    name: &Text<'_>,
    descriptor: &Text<'_>,
    above: &mut [bool],
)
    requires from { from < length table.now }
    requires class { class < length table.now }
    requires marks { MarksMethod table.now name.now descriptor.now marks.now }
    requires above { length above.old ≡ length table.now }
    ensures size { length above.new ≡ length above.old }
    ensures marked { MarksAboveCandidate table.now from class name.now descriptor.now above.old above.new }
{
    if candidate(table, marks, from, class, name, descriptor).is_some() {
        mark_others_above(table, class, above);
    }
}

/// Also marks each class that has one below it with a method that can be inherited, of those that a search meets.
fn mark_above_candidates(
    table: &ClassTable<'_>,
    marks: &KeyRow<'_>,
    from: usize,
    searched: &[u16],
    name: &Text<'_>,
    descriptor: &Text<'_>,
    above: &mut [bool],
)
    requires from { from < length table.now }
    requires searched { AreNumbers table.now searched.now }
    requires marks { MarksMethod table.now name.now descriptor.now marks.now }
    requires above { length above.old ≡ length table.now }
    ensures size { length above.new ≡ length above.old }
    ensures marked { MarksAboveCandidates table.now from searched.now name.now descriptor.now above.old above.new }
{
    for class in searched {
        mark_above_candidate(table, marks, from, *class as usize, name, descriptor, above);
    }
}

/// All methods of superinterfaces that can be inherited, are not abstract and have none below them, by one pass that marks
/// what is above each, and one over marks.
fn marked_specifics(
    table: &ClassTable<'_>,
    marks: &KeyRow<'_>,
    from: usize,
    searched: &[u16],
    name: &Text<'_>,
    descriptor: &Text<'_>,
    above: &mut [bool],
) -> Defaults
    requires from { from < length table.now }
    requires searched { AreNumbers table.now searched.now }
    requires marks { MarksMethod table.now name.now descriptor.now marks.now }
    requires size { length above.old ≡ length table.now }
    requires above { (class : ℕ) → get_or above.old class false ≡ false }
    ensures found { AreSpecifics table.now from searched.now name.now descriptor.now result }
    ensures place { IsDefaultPlace table.now result }
{
    mark_above_candidates(table, marks, from, searched, name, descriptor, above);
    specifics(table, marks, from, searched, name, descriptor, above)
}

/// All methods of superinterfaces that can be inherited, are not abstract and have none below them.
fn all_specifics(
    table: &ClassTable<'_>,
    marks: &KeyRow<'_>,
    from: usize,
    searched: &[u16],
    name: &Text<'_>,
    descriptor: &Text<'_>,
) -> Defaults
    requires from { from < length table.now }
    requires searched { AreNumbers table.now searched.now }
    requires marks { MarksMethod table.now name.now descriptor.now marks.now }
    ensures found { AreSpecifics table.now from searched.now name.now descriptor.now result }
    ensures place { IsDefaultPlace table.now result }
{
    let count = table.count();
    if FEW < searched.len() && count <= MOST {
        let mut above = [false; MOST];
        marked_specifics(
            table,
            marks,
            from,
            searched,
            name,
            descriptor,
            &mut above[..count],
        )
    } else {
        specifics(table, marks, from, searched, name, descriptor, &[])
    }
}

/// The one of them, where there is no other.
fn only_specific(
    table: &ClassTable<'_>,
    marks: &KeyRow<'_>,
    from: usize,
    searched: &[u16],
    name: &Text<'_>,
    descriptor: &Text<'_>,
) -> Option<Place>
    requires from { from < length table.now }
    requires searched { AreNumbers table.now searched.now }
    requires marks { MarksMethod table.now name.now descriptor.now marks.now }
    ensures found { IsOnlySpecific table.now from searched.now name.now descriptor.now result }
    ensures place { IfSome result (IsMethodPlace table.now) }
{
    match all_specifics(table, marks, from, searched, name, descriptor) {
        Defaults::Absent => None,
        Defaults::One(place) => Some(place),
        Defaults::Several => None,
    }
}

/// The one maximally specific method that is not abstract, else the first in order (JVMS 5.4.3.3).
pub(crate) fn superinterface_method(
    table: &ClassTable<'_>,
    from: usize,
    searched: &[u16],
    name: &Text<'_>,
    descriptor: &Text<'_>,
) -> Option<Place>
    requires from { from < length table.now }
    requires searched { AreNumbers table.now searched.now }
    ensures found { FindsMethod table.now from searched.now result (λ l. superinterface_method table.now l name.now descriptor.now) }
    ensures place { IfSome result (IsMethodPlace table.now) }
{
    let marks = table.marks_of_method(name, descriptor);
    if let Some(place) = only_specific(table, &marks, from, searched, name, descriptor) {
        return Some(place);
    }
    first_candidate(table, &marks, from, searched, name, descriptor)
}

/// The maximally specific methods of a class's superinterfaces that are not abstract, by what a search
/// from it meets (JVMS 5.4.3.3, 6.5). It takes no memory.
pub fn superinterface_defaults(
    table: &ClassTable<'_>,
    from: usize,
    searched: &[u16],
    name: &Text<'_>,
    descriptor: &Text<'_>,
) -> Defaults
    requires from { from < length table.now }
    requires searched { AreNumbers table.now searched.now }
    ensures found { AreDefaultsFrom table.now from searched.now name.now descriptor.now result }
    ensures place { IsDefaultPlace table.now result }
{
    let marks = table.marks_of_method(name, descriptor);
    all_specifics(table, &marks, from, searched, name, descriptor)
}
