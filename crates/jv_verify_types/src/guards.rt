//! Which constants name a protected member on whose use the rules ask more (JVMS 4.10.1.8).

ghost use Rattle.std.specs.Prelude.{◌≡◌, ◌<◌, false, length, Some, IfOk, IfSome, IfNone, OnOk};
ghost use Rattle.std.specs.Option.{option_map};
ghost use Rattle.std.specs.List.{All};
ghost use Rattle.jv_pool.specs.Seen.{seen_member};
ghost use Rattle.jv_classes.specs.Hashes.{AreHashes};
ghost use Rattle.jv_meaning_world.specs.Numbers.{HoldsAtBoth};
ghost use Rattle.jv_meaning_world.specs.Numbers.{HoldsAtNumber};
ghost use Rattle.jv_link.specs.Inside.References.{method_operand_in};
ghost use Rattle.jv_meaning_typing.specs.Named.{is_guarded_field, is_guarded_method};
ghost use Rattle.jv_verify_types.specs.Inside.Guarded.{is_proper_subclass, is_far, IsFieldFar, IsMethodFar, member_named, IsGuardOf, IsNumberNamed, IsFoundAt, IsProperAbove, IsNoProperSuper, IsFieldGuarded, IsMethodGuarded, is_protected_instance, has_wrongly_protected, AreRightlyProtected};
ghost use Rattle.jv_verify_types.specs.Inside.Answered.{AreTextsOf, AreNeighbours, AreAnswers};
ghost use Rattle.jv_verify_types.specs.Inside.KeptClass.{AreGuardsOf};

use crate::answers::{Answers, no_answers};
use crate::classes::names_class;
use crate::constants::ConstantTypes;
use crate::declared::{field_found, method_found};
use crate::hashed::{PoolHashes, called_indices};
use crate::indices::{MemberIndices, field_indices};
use crate::packages::same_package_once;
use bitflags::Flags;
use jv_class_structure::MethodFlags;
use jv_classes::pool_hashes;
use jv_link::{field_at, method_at, same_class};
use jv_loader::{ClassTable, Classes, LoadedClass};
use jv_pool::{Constant, MemberName, Pool, kinds_name};
use std::alloc::{AllocError, Global};

/// No method of a class that is public, or whose class is an interface, is protected, where it is not static (JVMS 4.6).
/// The call does nothing.
fn class_is_right(class: &LoadedClass<'_>)
    ensures { has_wrongly_protected class.now.class ≡ false }
{
    if let Some(file) = class.file() {
        file.is_well_formed();
    }
}

/// The same of each class. Takes a step for each.
fn classes_are_right(table: &ClassTable<'_>)
    ensures { AreRightlyProtected table.now }
{
    for number in 0..table.count() {
        class_is_right(&table.classes()[number]);
    }
}

/// Whether a class is a proper superclass of the current one.
fn is_below(table: &ClassTable<'_>, current: usize, named: usize) -> bool
    requires current { current < length table.now }
    requires named { named < length table.now }
    ensures { HoldsAtNumber table.now current (λ c. HoldsAtNumber table.now named (λ n. result ≡ is_proper_subclass table.now c n)) }
{
    table.is_subclass(current, named) && !same_class(table, current, named)
}

/// Whether a member with these flags is protected and not static.
fn is_protected_instance(flags: u16) -> bool
    ensures { result ≡ is_protected_instance flags }
{
    MethodFlags(flags).intersects(MethodFlags::PROTECTED)
        && !MethodFlags(flags).intersects(MethodFlags::STATIC)
}

/// Whether a member with these flags that a class declares is protected, not static, and of another run-time package.
fn is_far(
    packages: &mut Vec<Option<bool>>,
    table: &ClassTable<'_>,
    current: usize,
    by: usize,
    flags: u16,
) -> Result<bool, AllocError>
    requires current { current < length table.now }
    requires by { by < length table.now }
    requires packages { AreNeighbours table.now current packages.old.items }
    ensures far { IfOk result (λ far. HoldsAtBoth table.now current by (λ c l. far ≡ is_far c l flags)) }
    ensures packages { OnOk result (AreNeighbours table.now current packages.new.items) }
{
    if !is_protected_instance(flags) {
        return Ok(false);
    }
    let is_same = same_package_once(packages, table, current, by)?;
    Ok(!is_same)
}

/// Whether the field that is found from a superclass is such a member.
fn field_is_far(
    answers: &mut Answers,
    classes: &Classes<'_>,
    constants: &ConstantTypes<'_, '_>,
    hashes: PoolHashes<'_>,
    current: usize,
    named: usize,
    indices: Option<MemberIndices>,
    field: &MemberName<'_>,
) -> Result<bool, AllocError>
    requires hashes { AreHashes hashes.seed constants.now.pool hashes.hashes.now }
    requires current { current < length classes.now.world }
    requires named { named < length classes.now.world }
    requires texts { IfSome indices (λ i. AreTextsOf constants.now.pool i.name i.descriptor (seen_member field.now)) }
    requires answers { AreAnswers classes.now.world current constants.now.pool answers.old }
    ensures far { IfOk result (IsFieldFar classes.now.world current named (seen_member field.now)) }
    ensures answers { OnOk result (AreAnswers classes.now.world current constants.now.pool answers.new) }
{
    let table = classes.table();
    let pool = constants.pool();
    let members = &mut answers.members;
    let found = field_found(members, classes, pool, hashes, named, indices, field)?;
    match found {
        Some(place) => {
            let flags = field_at(table, place).access_flags;
            let far = is_far(&mut answers.packages, table, current, place.class, flags)?;
            Ok(far)
        }
        None => Ok(false),
    }
}

/// Whether the method that is found from a superclass is such a member. No method of an interface is, so that none of the
/// superinterfaces is asked.
fn method_is_far(
    answers: &mut Answers,
    classes: &Classes<'_>,
    constants: &ConstantTypes<'_, '_>,
    hashes: PoolHashes<'_>,
    current: usize,
    named: usize,
    indices: Option<MemberIndices>,
    method: &MemberName<'_>,
) -> Result<bool, AllocError>
    requires hashes { AreHashes hashes.seed constants.now.pool hashes.hashes.now }
    requires right { AreRightlyProtected classes.now.world }
    requires current { current < length classes.now.world }
    requires named { named < length classes.now.world }
    requires texts { IfSome indices (λ i. AreTextsOf constants.now.pool i.name i.descriptor (seen_member method.now)) }
    requires answers { AreAnswers classes.now.world current constants.now.pool answers.old }
    ensures far { IfOk result (IsMethodFar classes.now.world current named (seen_member method.now)) }
    ensures answers { OnOk result (AreAnswers classes.now.world current constants.now.pool answers.new) }
{
    let table = classes.table();
    if table.classes()[named].is_interface() {
        return Ok(false);
    }
    let pool = constants.pool();
    let members = &mut answers.members;
    let found = method_found(members, table, pool, hashes, named, indices, method)?;
    match found {
        Some(place) => {
            let flags = method_at(table, place).access_flags;
            let far = is_far(&mut answers.packages, table, current, place.class, flags)?;
            Ok(far)
        }
        None => Ok(false),
    }
}

/// The number of the class that a Class constant names; of an array there is none.
fn class_at(constants: &ConstantTypes<'_, '_>, index: u16) -> Option<usize>
    ensures number { IsNumberNamed constants.now.types.world constants.now.pool index result }
    ensures within { IfSome result (λ n. n < length constants.now.types.world) }
{
    kinds_name();
    constants.pool().keeps_rules();
    constants.names().table().are_no_arrays();
    match names_class(constants, index) {
        Some(number) => constants.names().class_of(number),
        None => None,
    }
}

/// The number of the class that a Class constant names, where it is a proper superclass of the current one.
fn superclass_at(constants: &ConstantTypes<'_, '_>, current: usize, index: u16) -> Option<usize>
    requires { current < length constants.now.types.world }
    ensures found { IfSome result (IsFoundAt constants.now.types.world constants.now.pool index) }
    ensures within { IfSome result (λ n. n < length constants.now.types.world) }
    ensures below { IfSome result (IsProperAbove constants.now.types.world current) }
    ensures none { IfNone result (IsNoProperSuper constants.now.types.world constants.now.pool index current) }
{
    let Some(named) = class_at(constants, index) else {
        return None;
    };
    if is_below(constants.names().table(), current, named) {
        Some(named)
    } else {
        None
    }
}

/// Whether a Fieldref constant of a class names a guarded field.
fn is_guarded_field(
    answers: &mut Answers,
    classes: &Classes<'_>,
    constants: &ConstantTypes<'_, '_>,
    hashes: PoolHashes<'_>,
    current: usize,
    class: u16,
    index: u16,
) -> Result<bool, AllocError>
    requires hashes { AreHashes hashes.seed constants.now.pool hashes.hashes.now }
    requires right { AreRightlyProtected classes.now.world }
    requires world { constants.now.types.world ≡ classes.now.world }
    requires current { current < length classes.now.world }
    requires answers { AreAnswers classes.now.world current constants.now.pool answers.old }
    ensures guarded { IfOk result (IsFieldGuarded classes.now.world constants.now.pool class index current) }
    ensures answers { OnOk result (AreAnswers classes.now.world current constants.now.pool answers.new) }
{
    let Some(named) = superclass_at(constants, current, class) else {
        return Ok(false);
    };
    let indices = field_indices(constants.pool(), index);
    match constants.pool().fieldref_index(index) {
        Some(index) => {
            field_is_far(
                answers,
                classes,
                constants,
                hashes,
                current,
                named,
                indices,
                &constants.pool().field_reference(index),
            )
        }
        None => Ok(false),
    }
}

/// The method that a Methodref or an InterfaceMethodref constant names.
fn method_in<'a>(pool: &Pool<'a>, index: u16) -> Option<MemberName<'a>>
    ensures { option_map seen_member result ≡ option_map member_named (method_operand_in pool.now index) }
{
    match pool.methodref_index(index) {
        Some(index) => Some(pool.method_reference(index)),
        None => match pool.interface_methodref_index(index) {
            Some(index) => Some(pool.interface_method_reference(index)),
            None => None,
        },
    }
}

/// Whether a Methodref or an InterfaceMethodref constant of a class names a guarded method.
fn is_guarded_method(
    answers: &mut Answers,
    classes: &Classes<'_>,
    constants: &ConstantTypes<'_, '_>,
    hashes: PoolHashes<'_>,
    current: usize,
    class: u16,
    index: u16,
) -> Result<bool, AllocError>
    requires hashes { AreHashes hashes.seed constants.now.pool hashes.hashes.now }
    requires right { AreRightlyProtected classes.now.world }
    requires world { constants.now.types.world ≡ classes.now.world }
    requires current { current < length classes.now.world }
    requires answers { AreAnswers classes.now.world current constants.now.pool answers.old }
    ensures guarded { IfOk result (IsMethodGuarded classes.now.world constants.now.pool class index current) }
    ensures answers { OnOk result (AreAnswers classes.now.world current constants.now.pool answers.new) }
{
    let Some(named) = superclass_at(constants, current, class) else {
        return Ok(false);
    };
    let indices = called_indices(constants.pool(), index);
    match method_in(constants.pool(), index) {
        Some(method) => {
            method_is_far(
                answers, classes, constants, hashes, current, named, indices, &method,
            )
        }
        None => Ok(false),
    }
}

/// Whether a constant names a guarded member.
fn is_guarded(
    answers: &mut Answers,
    classes: &Classes<'_>,
    constants: &ConstantTypes<'_, '_>,
    hashes: PoolHashes<'_>,
    current: usize,
    index: u16,
) -> Result<bool, AllocError>
    requires hashes { AreHashes hashes.seed constants.now.pool hashes.hashes.now }
    requires right { AreRightlyProtected classes.now.world }
    requires world { constants.now.types.world ≡ classes.now.world }
    requires current { current < length classes.now.world }
    requires answers { AreAnswers classes.now.world current constants.now.pool answers.old }
    ensures guarded { IfOk result (IsGuardOf classes.now.world current constants.now.pool index) }
    ensures answers { OnOk result (AreAnswers classes.now.world current constants.now.pool answers.new) }
{
    match constants.pool().constant(index) {
        Some(Constant::Fieldref(class, _)) => {
            is_guarded_field(answers, classes, constants, hashes, current, class, index)
        }
        Some(Constant::Methodref(class, _)) => {
            is_guarded_method(answers, classes, constants, hashes, current, class, index)
        }
        Some(Constant::InterfaceMethodref(class, _)) => {
            is_guarded_method(answers, classes, constants, hashes, current, class, index)
        }
        _ => Ok(false),
    }
}

/// For each index, whether the constant there names a guarded member.
pub(crate) fn guards_of(
    alloc: Global,
    classes: &Classes<'_>,
    constants: &ConstantTypes<'_, '_>,
    current: usize,
) -> Result<Vec<bool>, AllocError>
    requires world { constants.now.types.world ≡ classes.now.world }
    requires current { current < length classes.now.world }
    ensures { IfOk result (λ marks. AreGuardsOf classes.now.world current constants.now.pool marks.items) }
{
    classes_are_right(classes.table());
    let seed = classes.table().seed();
    let kept = pool_hashes(alloc, seed, constants.pool())?;
    let hashes = PoolHashes {
        seed,
        hashes: &kept,
    };
    let count = constants.pool().count();
    let mut marks = Vec::with_capacity(alloc, usize::from(count))?;
    let mut answers = no_answers(alloc);
    for index in 0..count {
        let mark = is_guarded(&mut answers, classes, constants, hashes, current, index)?;
        marks.push(mark)?;
    }
    Ok(marks)
}
