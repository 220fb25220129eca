//! The direct supers of a class (JVMS 5.3.5).

ghost use Rattle.std.specs.Prelude.{◌≡◌, List, IfOk, IsSome, map, not, true};
ghost use Rattle.std.specs.List.{All, list_all};
ghost use Rattle.jv_pool.specs.Constants.{Entry, class_name_at, utf8_at};
ghost use Rattle.jv_class_structure.specs.Flags.{has, acc_final};
ghost use Rattle.jv_meaning_world.specs.World.{World, can_name};
ghost use Rattle.jv_meaning_world.specs.Above.{superclass_names, is_circular};
ghost use Rattle.jv_meaning_world.specs.Laws.Above.{stands_itself};
ghost use Rattle.jv_meaning_world.specs.Verdicts.{is_interface, have_right_kind, each_super, can_name_supers};
ghost use Rattle.jv_meaning_world.specs.Numbers.{number_named, superclass_number};
ghost use Rattle.jv_classes.specs.Once.{direct_numbers, each_once, interface_numbers};
ghost use Rattle.jv_classes.specs.Inside.Known.{AreKnown, class_number, text_number};
ghost use Rattle.jv_classes.specs.Inside.Tests.{passes_at, marked_at, are_of_right_kind};

use crate::list::ClassList;
use crate::loaded_class::LoadedClass;
use crate::once::Once;
use jv_pool::{ClassIndex, Constant, Pool};
use std::alloc::{AllocError, Global};

/// The number of the superclass, where the class has one and it is there.
fn first_of_supers(
    alloc: Global,
    list: &ClassList<'_>,
    class: &LoadedClass<'_>,
) -> Result<Vec<Option<usize>>, AllocError>
    ensures { IfOk result (λ s. s.items ≡ map (number_named list.now) (superclass_names class.now.class.super_class)) }
{
    let mut supers = Vec::new(alloc);
    if let Some(name) = class.super_name() {
        supers.push(list.find(name))?;
    }
    Ok(supers)
}

/// The index of the text that a Class constant names.
fn text_of(pool: &Pool<'_>, index: ClassIndex) -> usize
    ensures { class_name_at pool.now index.0 ≡ utf8_at pool.now result }
{
    match pool.constant(index.0) {
        Some(Constant::Class(name)) => usize::from(name),
        _ => 0,
    }
}

/// Room for what is known of the text at each index of a constant pool, where many are to be looked up.
fn room_for(
    alloc: Global,
    pool: &Pool<'_>,
    count: usize,
) -> Result<Vec<Option<Option<usize>>>, AllocError>
    ensures { (world : World) (entries : List Entry) → IfOk result (λ known. AreKnown world entries known.items) }
{
    let size = if count > 16 {
        usize::from(pool.count())
    } else {
        0
    };
    let mut known = Vec::new(alloc);
    known.resize(size, None)?;
    Ok(known)
}

/// Keeps what was found of a text, where there is room for it.
fn keep(known: &mut [Option<Option<usize>>], index: usize, number: Option<usize>)
    ensures { (world : World) (pool : List Entry) → AreKnown world pool known.old → number ≡ text_number world pool index
        → AreKnown world pool known.new }
{
    if index < known.len() {
        known[index] = Some(number);
    }
}

/// The number of the class that a Class constant names, where it is there; a text that is known is not hashed.
fn find_once(
    list: &ClassList<'_>,
    pool: &Pool<'_>,
    known: &mut [Option<Option<usize>>],
    index: ClassIndex,
) -> Option<usize>
    requires named { IsSome (class_name_at pool.now index.0) }
    requires known { AreKnown list.now pool.now known.old }
    ensures found { result ≡ class_number list.now pool.now index }
    ensures known { AreKnown list.now pool.now known.new }
{
    let text = text_of(pool, index);
    if let Some(Some(number)) = known.get(text) {
        return *number;
    }
    let number = list.find(pool.class_name(index));
    keep(known, text, number);
    number
}

/// The numbers of the classes that Class constants name, each once and where it is there.
fn numbers_in(
    alloc: Global,
    list: &ClassList<'_>,
    pool: &Pool<'_>,
    indices: &[ClassIndex],
) -> Result<Vec<Option<usize>>, AllocError>
    requires { All (λ index. IsSome (class_name_at pool.now index.0)) indices.now }
    ensures { IfOk result (λ s. s.items ≡ each_once (map (class_number list.now pool.now) indices.now)) }
{
    let mut known = room_for(alloc, pool, indices.len())?;
    let mut once = Once::new(alloc, list.count())?;
    for index in indices {
        once.add(find_once(list, pool, &mut known, *index))?;
    }
    Ok(once.numbers())
}

/// The numbers of the direct superinterfaces, each once and where it is there.
fn interfaces_of(
    alloc: Global,
    list: &ClassList<'_>,
    class: &LoadedClass<'_>,
) -> Result<Vec<Option<usize>>, AllocError>
    ensures { IfOk result (λ s. s.items ≡ interface_numbers list.now class.now.class) }
{
    match class.file() {
        Some(file) => numbers_in(alloc, list, file.pool(), file.interfaces()),
        None => Ok(Vec::new(alloc)),
    }
}

/// The numbers of the direct supers, each where it is there: that of the superclass comes first, and then those of the
/// superinterfaces, each once.
pub(crate) fn supers_of(
    alloc: Global,
    list: &ClassList<'_>,
    class: &LoadedClass<'_>,
) -> Result<Vec<Option<usize>>, AllocError>
    ensures { IfOk result (λ s. s.items ≡ direct_numbers list.now class.now.class) }
{
    let interfaces = interfaces_of(alloc, list, class)?;
    let mut supers = first_of_supers(alloc, list, class)?;
    supers.extend_from_slice(&interfaces)?;
    Ok(supers)
}

/// The number of the superclass, where the class has one and it is there.
pub(crate) fn superclass_of(class: &LoadedClass<'_>, supers: &[Option<usize>]) -> Option<usize>
    ensures { (world : World) → supers.now ≡ direct_numbers world class.now.class → result ≡ superclass_number world class.now.class }
{
    class.super_name()?;
    *supers.first()?
}

/// Whether the class of a number is there and is open to another.
fn can_name_at(classes: &[LoadedClass<'_>], from: &LoadedClass<'_>, number: Option<usize>) -> bool
    ensures { result ≡ passes_at classes.now (can_name from.now) number }
{
    match number {
        Some(number) => match classes.get(number) {
            Some(to) => from.can_name(to),
            None => false,
        },
        None => false,
    }
}

/// Whether the class of a number is there and is an interface.
fn is_interface_at(classes: &[LoadedClass<'_>], number: Option<usize>) -> bool
    ensures { result ≡ passes_at classes.now is_interface number }
{
    match number {
        Some(number) => match classes.get(number) {
            Some(class) => class.is_interface(),
            None => false,
        },
        None => false,
    }
}

/// Whether the class of a number is there and is no interface.
fn is_class_at(classes: &[LoadedClass<'_>], number: Option<usize>) -> bool
    ensures { result ≡ passes_at classes.now (λ l. not (is_interface l)) number }
{
    match number {
        Some(number) => match classes.get(number) {
            Some(class) => !class.is_interface(),
            None => false,
        },
        None => false,
    }
}

/// Whether the class of a number is there.
fn is_there_at(classes: &[LoadedClass<'_>], number: Option<usize>) -> bool
    ensures { result ≡ passes_at classes.now (λ l. true) number }
{
    match number {
        Some(number) => classes.get(number).is_some(),
        None => false,
    }
}

fn are_there(classes: &[LoadedClass<'_>], numbers: &[Option<usize>]) -> bool
    ensures { result ≡ list_all (passes_at classes.now (λ l. true)) numbers.now }
{
    numbers.iter().all(|number| is_there_at(classes, *number))
}

fn can_name_each(
    classes: &[LoadedClass<'_>],
    from: &LoadedClass<'_>,
    numbers: &[Option<usize>],
) -> bool
    ensures { result ≡ list_all (passes_at classes.now (can_name from.now)) numbers.now }
{
    numbers
        .iter()
        .all(|number| can_name_at(classes, from, *number))
}

fn are_interfaces(classes: &[LoadedClass<'_>], numbers: &[Option<usize>]) -> bool
    ensures { result ≡ list_all (passes_at classes.now is_interface) numbers.now }
{
    numbers
        .iter()
        .all(|number| is_interface_at(classes, *number))
}

/// Whether the first is no interface, and each other is one.
fn are_class_and_interfaces(classes: &[LoadedClass<'_>], numbers: &[Option<usize>]) -> bool
    ensures { result ≡ are_of_right_kind classes.now numbers.now }
{
    match numbers.split_first() {
        Some((superclass, interfaces)) => {
            is_class_at(classes, *superclass) && are_interfaces(classes, interfaces)
        }
        None => false,
    }
}

/// Whether the superclass is no interface, and each direct superinterface is one (JVMS 5.3.5).
pub(crate) fn have_right_kind(
    classes: &[LoadedClass<'_>],
    class: &LoadedClass<'_>,
    supers: &[Option<usize>],
) -> bool
    requires { supers.now ≡ direct_numbers classes.now class.now.class }
    ensures { result ≡ have_right_kind classes.now class.now.class }
{
    if class.super_name().is_some() {
        are_class_and_interfaces(classes, supers)
    } else {
        are_interfaces(classes, supers)
    }
}

/// Whether each direct super is there (JVMS 5.3.5).
pub(crate) fn are_all_there(
    classes: &[LoadedClass<'_>],
    class: &LoadedClass<'_>,
    supers: &[Option<usize>],
) -> bool
    requires { supers.now ≡ direct_numbers classes.now class.now.class }
    ensures { result ≡ each_super classes.now (λ l. true) class.now.class }
{
    are_there(classes, supers)
}

/// Whether the class can name each of its direct supers (JVMS 5.3.5, 5.4.4).
pub(crate) fn can_name_supers(
    classes: &[LoadedClass<'_>],
    class: &LoadedClass<'_>,
    supers: &[Option<usize>],
) -> bool
    requires { supers.now ≡ direct_numbers classes.now class.now.class }
    ensures { result ≡ can_name_supers classes.now class.now }
{
    can_name_each(classes, class, supers)
}

/// Whether the class is one of the system's, or one that is not circular, and whose direct supers are
/// there, of the right kind and open to it (JVMS 5.3.5).
pub(crate) fn stands_itself(
    classes: &[LoadedClass<'_>],
    class: &LoadedClass<'_>,
    supers: &[Option<usize>],
    circular: bool,
) -> bool
    requires supers { supers.now ≡ direct_numbers classes.now class.now.class }
    requires circular { circular ≡ is_circular classes.now class.now.class }
    ensures { result ≡ stands_itself classes.now class.now }
{
    class.by_system()
        || (!circular
            && are_all_there(classes, class, supers)
            && have_right_kind(classes, class, supers)
            && can_name_supers(classes, class, supers))
}

/// Whether each number is there and marked.
pub(crate) fn are_marked(marks: &[bool], numbers: &[Option<usize>]) -> bool
    ensures { result ≡ list_all (marked_at marks.now) numbers.now }
{
    numbers.iter().all(|number| is_marked_at(marks, *number))
}

/// Whether a number is there and marked.
fn is_marked_at(marks: &[bool], number: Option<usize>) -> bool
    ensures { result ≡ marked_at marks.now number }
{
    match number {
        Some(number) => match marks.get(number) {
            Some(mark) => *mark,
            None => false,
        },
        None => false,
    }
}

/// Whether the class of a number is there and final.
pub(crate) fn is_final_at(classes: &[LoadedClass<'_>], number: Option<usize>) -> bool
    ensures { result ≡ passes_at classes.now (λ l. has l.class.access_flags acc_final) number }
{
    match number {
        Some(number) => match classes.get(number) {
            Some(class) => class.is_final(),
            None => false,
        },
        None => false,
    }
}
