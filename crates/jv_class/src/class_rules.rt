//! The rules on a class's name and supers (JVMS 4.1).

ghost use Rattle.std.specs.Prelude.{◌≡◌, ◌↔◌, IsTrue, map};
ghost use Rattle.std.specs.List.{All};
ghost use Rattle.std.specs.Option.{option_map, IsSomeAnd};
ghost use Rattle.jv_pool.specs.Constants.{class_name_at};
ghost use Rattle.jv_pool.specs.Seen.{seen_text};
ghost use Rattle.jv_class_structure.specs.Attributes.{some_and};
ghost use Rattle.jv_class_structure.specs.Seen.{seen_index};
ghost use Rattle.jv_class.specs.Rules.{is_object, is_no_array_name, is_class_at, IsClassAt, super_keeps_rules, interface_super_keeps_rules, KeepsRulesAsName, SupersKeepRules, ItselfKeepsRules};

use crate::flags::are_of_class;
use crate::names::is_object;
use bitflags::Flags;
use jv_class_structure::{ClassFlags, Parts};
use jv_pool::{ClassIndex, Pool};
use jv_text::is_array_name;

fn name_at<'a>(pool: &Pool<'a>, index: u16) -> Option<&'a [u8]>
    ensures { option_map seen_text result ≡ class_name_at pool.now index }
{
    match pool.class_index(index) {
        Some(index) => Some(pool.class_name(index)),
        None => None,
    }
}

/// Whether the index is that of a Class constant with the name java/lang/Object.
fn is_object_at(pool: &Pool<'_>, index: u16) -> bool
    ensures { result ≡ some_and is_object (class_name_at pool.now index) }
{
    match name_at(pool, index) {
        Some(name) => is_object(name),
        None => false,
    }
}

/// Whether the index is that of a Class constant that names no array.
fn is_class_at(pool: &Pool<'_>, index: u16) -> bool
    ensures { result ≡ is_class_at pool.now index }
{
    match name_at(pool, index) {
        Some(name) => !is_array_name(name),
        None => false,
    }
}

fn super_keeps_rules(pool: &Pool<'_>, name: &[u8], super_class: u16) -> bool
    ensures { result ≡ super_keeps_rules pool.now name.now super_class }
{
    if is_object(name) {
        super_class == 0
    } else {
        is_class_at(pool, super_class)
    }
}

/// Whether the superclass of an interface is java/lang/Object.
fn interface_super_keeps_rules(pool: &Pool<'_>, class_flags: ClassFlags, super_class: u16) -> bool
    ensures { result ≡ interface_super_keeps_rules pool.now class_flags.0 super_class }
{
    if class_flags.intersects(ClassFlags::INTERFACE) {
        is_object_at(pool, super_class)
    } else {
        true
    }
}

fn name_keeps_rules(pool: &Pool<'_>, name: &[u8], super_class: u16) -> bool
    ensures { IsTrue result ↔ KeepsRulesAsName pool.now super_class name.now }
{
    !is_array_name(name) && super_keeps_rules(pool, name, super_class)
}

/// Whether a class has a name that goes with its superclass.
fn is_named(pool: &Pool<'_>, this_class: u16, super_class: u16) -> bool
    ensures { IsTrue result ↔ IsSomeAnd (class_name_at pool.now this_class) (KeepsRulesAsName pool.now super_class) }
{
    match name_at(pool, this_class) {
        Some(name) => name_keeps_rules(pool, name, super_class),
        None => false,
    }
}

/// Whether each of a class's interfaces is a class.
fn are_classes(pool: &Pool<'_>, interfaces: &[ClassIndex]) -> bool
    ensures { IsTrue result ↔ All (IsClassAt pool.now) (map seen_index interfaces.now) }
{
    each_is_class(pool, interfaces)
}

/// The same of each as it was read.
fn each_is_class(pool: &Pool<'_>, interfaces: &[ClassIndex]) -> bool
    ensures { IsTrue result ↔ All (λ x. IsClassAt pool.now (seen_index x)) interfaces.now }
{
    interfaces
        .iter()
        .all(|interface| is_class_at(pool, interface.0))
}

/// Whether the superclass and the interfaces of a class are right.
fn supers_keep_rules(parts: &Parts<'_>) -> bool
    ensures { IsTrue result ↔ SupersKeepRules parts.now }
{
    interface_super_keeps_rules(parts.pool(), parts.access_flags(), parts.super_class())
        && are_classes(parts.pool(), parts.interfaces())
}

/// Whether the class's own flags and names keep their rules.
pub fn itself_keeps_rules(parts: &Parts<'_>) -> bool
    ensures { IsTrue result ↔ ItselfKeepsRules parts.now }
{
    are_of_class(parts.access_flags())
        && is_named(parts.pool(), parts.this_class(), parts.super_class())
        && supers_keep_rules(parts)
}
