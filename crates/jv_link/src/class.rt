//! Resolution of classes (JVMS 5.4.3.1).

ghost use Rattle.std.specs.Prelude.{◌≡◌, ◌<◌, Some, IsSome, IfOk, length};
ghost use Rattle.std.specs.Option.{option_map, option_and_then};
ghost use Rattle.jv_text.specs.Types.{field_type_of};
ghost use Rattle.jv_meaning_world.specs.World.{can_name};
ghost use Rattle.jv_meaning_world.specs.Numbers.{HoldsAtNumber, HoldsAtBoth};
ghost use Rattle.jv_meaning_typing.specs.ClassResolution.{ResolvedClass, loading_error, error_of_class, resolve_name, resolve_element, resolve_array, resolve_text, creatable, resolve_class, member_class};
ghost use Rattle.jv_meaning_typing.specs.Access.{same_class};
ghost use Rattle.jv_link.specs.Seen.{error_of, class_ref_at, IsSite};
ghost use Rattle.jv_link.specs.UseRules.{if_creatable, IsRefWithin, AnswersCreatable};
ghost use Rattle.jv_link.specs.Inside.Steps.{if_open, named_class, IsWithin, IsResolvedBy, member_class_or, array_resolved};
ghost use Rattle.jv_meaning_typing.specs.Operands.{class_operand};
ghost use Rattle.jv_link.specs.Answers.{AnswersClass, AnswersType, IsConstantsClass, IsClassResolved, HoldsAtType, AnswersClassOf, AnswersTypeOf};

use crate::error::LinkError;
use crate::member::class_at;
use crate::reference::class_text;
use crate::site::{Site, Use};
use crate::target::ClassRef;
use bitflags::Flags;
use jv_class_structure::ClassFlags;
use jv_loader::{ClassTable, Classes, LoadVerdict};
use jv_text::{Element, FieldType, field_type, is_array_name, types_agree};

const INTERFACE_OR_ABSTRACT: ClassFlags = ClassFlags(0x0600);

/// Whether two numbers are those of one class.
pub fn same_class(table: &ClassTable<'_>, one: usize, other: usize) -> bool
    requires one { one < length table.now }
    requires other { other < length table.now }
    ensures { HoldsAtNumber table.now one (λ l. HoldsAtNumber table.now other (λ m. result ≡ same_class l m)) }
{
    table.is_numbered();
    one == other
}

/// Whether a class can name another (JVMS 5.4.4).
fn can_name(table: &ClassTable<'_>, from: usize, to: usize) -> bool
    requires from { from < length table.now }
    requires to { to < length table.now }
    ensures { HoldsAtNumber table.now from (λ l. HoldsAtNumber table.now to (λ m. result ≡ can_name l m)) }
{
    class_at(table, from).can_name(class_at(table, to))
}

/// Why a class that has this fault is not loadable (JVMS 5.3.5).
fn loading_error(fault: Option<LoadVerdict>) -> Option<LinkError>
    ensures { option_map error_of result ≡ option_and_then loading_error fault }
{
    match fault? {
        LoadVerdict::Circular => Some(LinkError::ClassCircularityError),
        LoadVerdict::NoSuper => Some(LinkError::NoClassDefFoundError),
        LoadVerdict::WrongKind => Some(LinkError::IncompatibleClassChangeError),
        LoadVerdict::NoAccess => Some(LinkError::IllegalAccessError),
        _ => None,
    }
}

/// Why a class is not loadable, where it isn't (JVMS 5.3.5).
fn error_of_class(table: &ClassTable<'_>, number: usize) -> Option<LinkError>
    requires { number < length table.now }
    ensures { HoldsAtNumber table.now number (λ l. option_map error_of result ≡ error_of_class table.now l) }
{
    if table.is_loadable(number) {
        return None;
    }
    loading_error(table.fault_of_supers(number))
}

/// A class of the world, where it is loadable and open to the current class.
fn if_open(table: &ClassTable<'_>, current: usize, number: usize) -> Result<usize, LinkError>
    requires current { current < length table.now }
    requires number { number < length table.now }
    ensures found { HoldsAtBoth table.now current number (λ c l. AnswersClass table.now result (if_open table.now c l)) }
    ensures within { IsWithin table.now result }
{
    if let Some(error) = error_of_class(table, number) {
        return Err(error);
    }
    if !can_name(table, current, number) {
        return Err(LinkError::IllegalAccessError);
    }
    Ok(number)
}

/// The class of a name that is no array's.
fn resolve_name(table: &ClassTable<'_>, current: usize, name: &[u8]) -> Result<usize, LinkError>
    requires { current < length table.now }
    ensures found { HoldsAtNumber table.now current (λ c. AnswersClass table.now result (resolve_name table.now c name.now)) }
    ensures within { IsWithin table.now result }
{
    let Some(number) = table.find(name) else {
        return Err(LinkError::NoClassDefFoundError);
    };
    if_open(table, current, number)
}

/// The array class of a type, where its element class is resolved.
fn resolve_element<'n>(
    table: &ClassTable<'_>,
    current: usize,
    array: FieldType<'n>,
) -> Result<ClassRef<'n>, LinkError>
    requires { current < length table.now }
    ensures found { AnswersTypeOf table.now current result (array_resolved table.now array.entry) }
    ensures within { IfOk result (IsRefWithin table.now) }
{
    if let Element::Class(name) = array.element {
        resolve_name(table, current, name)?;
    }
    Ok(ClassRef::Array(array))
}

/// The array class of a text.
fn resolve_array<'n>(
    table: &ClassTable<'_>,
    current: usize,
    text: &'n [u8],
) -> Result<ClassRef<'n>, LinkError>
    requires { current < length table.now }
    ensures found { AnswersTypeOf table.now current result (λ c. resolve_array table.now c (field_type_of text.now)) }
    ensures within { IfOk result (IsRefWithin table.now) }
{
    types_agree();
    match field_type(text) {
        Ok(array) => resolve_element(table, current, array),
        Err(_) => Err(LinkError::NoClassDefFoundError),
    }
}

/// The class or the array class that the text of a Class constant names.
pub(crate) fn resolve_text<'n>(
    table: &ClassTable<'_>,
    current: usize,
    text: &'n [u8],
) -> Result<ClassRef<'n>, LinkError>
    requires { current < length table.now }
    ensures found { HoldsAtNumber table.now current (λ c. AnswersType table.now result (resolve_text table.now c text.now)) }
    ensures within { IfOk result (IsRefWithin table.now) }
{
    if is_array_name(text) {
        resolve_array(table, current, text)
    } else {
        Ok(ClassRef::Class(resolve_name(table, current, text)?))
    }
}

/// What is found where it is neither an interface, nor abstract, nor an array: the rule of `new` (JVMS 6.5).
fn creatable<'n>(table: &ClassTable<'_>, found: ClassRef<'n>) -> Result<ClassRef<'n>, LinkError>
    requires { IsRefWithin table.now found }
    ensures { (r : ResolvedClass) → class_ref_at table.now found.entry ≡ Some r → AnswersType table.now result (creatable r) }
{
    match found {
        ClassRef::Class(number) => {
            if ClassFlags(class_at(table, number).access_flags()).intersects(
                INTERFACE_OR_ABSTRACT,
            ) {
                return Err(LinkError::InstantiationError);
            }
            Ok(found)
        }
        ClassRef::Array(_) => Err(LinkError::InstantiationError),
    }
}

/// What a Class constant resolves to, by the rule of `new` (JVMS 6.5): neither an interface, nor abstract, nor an array.
///
/// # Errors
///
/// That of the constant, or `InstantiationError`.
pub fn created<'n>(
    table: &ClassTable<'_>,
    found: Result<ClassRef<'n>, LinkError>,
) -> Result<ClassRef<'n>, LinkError>
    requires { IfOk found (IsRefWithin table.now) }
    ensures { AnswersCreatable table.now found.entry result }
{
    match found {
        Ok(found) => creatable(table, found),
        Err(error) => Err(error),
    }
}

/// The class of a text for an instruction.
fn resolve_in<'n>(
    table: &ClassTable<'_>,
    current: usize,
    how: Option<Use>,
    text: &'n [u8],
) -> Result<ClassRef<'n>, LinkError>
    requires { current < length table.now }
    ensures { IsResolvedBy table.now current how text.now result }
{
    let found = resolve_text(table, current, text);
    match how {
        Some(Use::New) => created(table, found),
        _ => found,
    }
}

/// What the text of a Class constant names at a site, for an instruction that has rules of its own or
/// for another one (JVMS 5.4.3.1; 6.5 for `new`). It costs one hash of a name at most.
///
/// # Errors
///
/// As JVMS 5.4.3.1 has them; for `new` also `InstantiationError`.
pub fn resolve_class<'n>(
    classes: &Classes<'_>,
    site: Site,
    how: Option<Use>,
    text: &'n [u8],
) -> Result<ClassRef<'n>, LinkError>
    requires { IsSite classes.now.world site }
    ensures { IsClassResolved classes.now.world site how text.now result }
{
    resolve_in(classes.table(), site.class, how, text)
}

/// The class that a Class constant of a class resolves to, by the table.
fn constants_class_in<'a>(
    table: &ClassTable<'a>,
    class: usize,
    index: u16,
) -> Result<ClassRef<'a>, LinkError>
    requires class { class < length table.now }
    requires index { HoldsAtNumber table.now class (λ l. IsSome (class_operand l.class index)) }
    ensures found { IsConstantsClass table.now class index result }
    ensures within { IfOk result (IsRefWithin table.now) }
{
    resolve_text(table, class, class_text(table, class, index))
}

/// The class or the array that the Class constant at an index of a class resolves to, whatever instruction uses it (JVMS
/// 5.4.3.1): it is the same for all methods of the class. It costs one hash of a name at most.
///
/// # Errors
///
/// As JVMS 5.4.3.1 has them.
pub fn constants_class<'a>(
    classes: &Classes<'a>,
    class: usize,
    index: u16,
) -> Result<ClassRef<'a>, LinkError>
    requires class { class < length classes.now.world }
    requires index { HoldsAtNumber classes.now.world class (λ l. IsSome (class_operand l.class index)) }
    ensures found { IsConstantsClass classes.now.world class index result }
    ensures within { IfOk result (IsRefWithin classes.now.world) }
{
    constants_class_in(classes.table(), class, index)
}

/// The class whose members a reference to a class or an array means, java/lang/Object for an array (JVMS
/// 5.4.3.3).
fn member_class(
    table: &ClassTable<'_>,
    found: ClassRef<'_>,
    missing: LinkError,
) -> Result<usize, LinkError>
    requires { IsRefWithin table.now found }
    ensures found { HoldsAtType table.now found.entry (λ r. AnswersClass table.now result (member_class_or table.now r missing)) }
    ensures within { IsWithin table.now result }
{
    match found {
        ClassRef::Class(number) => Ok(number),
        ClassRef::Array(_) => match table.find(b"java/lang/Object") {
            Some(number) => Ok(number),
            None => Err(missing),
        },
    }
}

/// The class whose members a reference to the class of a text means.
pub(crate) fn named_class(
    table: &ClassTable<'_>,
    current: usize,
    text: &[u8],
    missing: LinkError,
) -> Result<usize, LinkError>
    requires { current < length table.now }
    ensures found { AnswersClassOf table.now current result (λ c. named_class table.now c text.now (error_of missing)) }
    ensures within { IsWithin table.now result }
{
    match resolve_text(table, current, text) {
        Ok(found) => member_class(table, found, missing),
        Err(error) => Err(error),
    }
}
