//! Instructions that name a class or an array by the index of the constant (JVMS 4.10.1.9).

ghost use Rattle.jv_meaning_typing.specs.ValueRules.{new_object, new_reference_array, new_multi_array, check_cast, instance_of};
ghost use Rattle.jv_verify_rules.specs.Inside.Over.{FollowsOver, FollowsByPool};

use crate::casts::{cast, new_multi_array, new_reference_array, test_instance};
use crate::references::new_object;
use jv_pool::kinds_name;
use jv_verify_frame::TypeFrame;
use jv_verify_types::{ConstantTypes, Outcome, array_of, array_type, names_class};

/// Makes an object of a class at an offset.
pub(crate) fn make_object(
    constants: &ConstantTypes<'_, '_>,
    frame: &mut TypeFrame,
    offset: u16,
    index: u16,
) -> Outcome
    ensures { FollowsByPool constants.now (λ env. new_object env offset index) frame.old frame.new result }
{
    kinds_name();
    constants.pool().keeps_rules();
    match names_class(constants, index) {
        Some(_) => new_object(frame, offset),
        None => Outcome::Fails,
    }
}

/// Takes a length and gives an array of what is named.
pub(crate) fn make_array(
    constants: &ConstantTypes<'_, '_>,
    frame: &mut TypeFrame,
    index: u16,
) -> Outcome
    ensures { FollowsOver constants.now (λ env. new_reference_array env index) frame.old frame.new result }
{
    match array_of(constants, index) {
        Some(array) => new_reference_array(constants.names(), frame, array),
        None => Outcome::Fails,
    }
}

/// Takes a length for each of so many dimensions and gives the array that is named.
pub(crate) fn make_multi_array(
    constants: &ConstantTypes<'_, '_>,
    frame: &mut TypeFrame,
    index: u16,
    dimensions: u8,
) -> Outcome
    ensures { FollowsOver constants.now (λ env. new_multi_array env index dimensions) frame.old frame.new result }
{
    match array_type(constants, index, dimensions) {
        Some(array) => new_multi_array(constants.names(), frame, dimensions, array),
        None => Outcome::Fails,
    }
}

/// Casts to the type that is named.
pub(crate) fn check_cast(
    constants: &ConstantTypes<'_, '_>,
    frame: &mut TypeFrame,
    index: u16,
) -> Outcome
    ensures { FollowsOver constants.now (λ env. check_cast env index) frame.old frame.new result }
{
    match constants.class_type(index) {
        Some(target) => cast(constants.names(), frame, target),
        None => Outcome::Fails,
    }
}

/// Tests whether an object is of the type that is named.
pub(crate) fn instance_of(
    constants: &ConstantTypes<'_, '_>,
    frame: &mut TypeFrame,
    index: u16,
) -> Outcome
    ensures { FollowsOver constants.now (λ env. instance_of env index) frame.old frame.new result }
{
    match constants.class_type(index) {
        Some(_) => test_instance(constants.names(), frame),
        None => Outcome::Fails,
    }
}
