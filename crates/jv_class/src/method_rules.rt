//! The rules that a method keeps (JVMS 4.6, 4.7.3).

ghost use Rattle.std.specs.Prelude.{◌≡◌, ◌↔◌, ◌&&◌, IsTrue, IfSome, is_some, slice_get};
ghost use Rattle.std.specs.List.{All};
ghost use Rattle.jv_pool.specs.Constants.{NameAndDescriptor};
ghost use Rattle.jv_pool.specs.Facts.{AreFacts};
ghost use Rattle.jv_class_structure.specs.Flags.{has, acc_interface};
ghost use Rattle.jv_class_structure.specs.Parts.{methods_of};
ghost use Rattle.jv_class_structure.specs.Seen.{seen_method};
ghost use Rattle.jv_class.specs.Rules.{interface_flags_keep_rules, named_flags_keep_rules, method_flags_keep_rules, init_keeps_rules, clinit_keeps_rules, slots_keep_rules, is_bodiless, code_presence_keeps_rules, KeepsRulesAsMethod};
ghost use Rattle.jv_class.specs.Inside.Shown.{KeepsMethodShown};

use crate::flags::{
    are_apart_from_abstract, are_of_init, are_of_interface_method, are_of_older_interface_method,
    have_one_visibility,
};
use crate::names::{is_clinit, is_no_arguments_void};
use bitflags::Flags;
use jv_class_structure::{ClassFlags, Method, MethodFlags, Parts};
use jv_pool::{MethodFacts, Pool, TextFacts};
use jv_text::is_init;

/// Abstract and native.
const WITHOUT_CODE: MethodFlags = MethodFlags(0x0500);

fn flags_keep_rules_in(major: u16, in_interface: bool, flags: MethodFlags) -> bool
    ensures { result ≡ interface_flags_keep_rules major in_interface flags.0 }
{
    if in_interface {
        are_of_interface_method(flags) && are_of_older_interface_method(major, flags)
    } else {
        true
    }
}

fn named_flags_keep_rules(name: &[u8], flags: MethodFlags) -> bool
    ensures { result ≡ named_flags_keep_rules name.now flags.0 }
{
    if is_init(name) {
        are_of_init(flags)
    } else {
        true
    }
}

fn flags_keep_rules(major: u16, in_interface: bool, name: &[u8], flags: MethodFlags) -> bool
    ensures { result ≡ method_flags_keep_rules major in_interface name.now flags.0 }
{
    if is_clinit(name) {
        true
    } else {
        have_one_visibility(flags.0)
            && are_apart_from_abstract(flags)
            && flags_keep_rules_in(major, in_interface, flags)
            && named_flags_keep_rules(name, flags)
    }
}

fn init_keeps_rules(in_interface: bool, name: &[u8], void: bool) -> bool
    ensures { result ≡ init_keeps_rules in_interface name.now void }
{
    if is_init(name) {
        !in_interface && void
    } else {
        true
    }
}

fn clinit_keeps_rules(name: &[u8], descriptor: &[u8], flags: MethodFlags) -> bool
    ensures { result ≡ clinit_keeps_rules name.now descriptor.now flags.0 }
{
    if is_clinit(name) {
        flags.intersects(MethodFlags::STATIC) && is_no_arguments_void(descriptor)
    } else {
        true
    }
}

/// Whether the parameters and the receiver fill at most 255 slots.
fn slots_keep_rules(flags: MethodFlags, count: u8) -> bool
    ensures { result ≡ slots_keep_rules flags.0 count }
{
    flags.intersects(MethodFlags::STATIC) || count < 255
}

fn is_bodiless(name: &[u8], flags: MethodFlags) -> bool
    ensures { result ≡ is_bodiless name.now flags.0 }
{
    !is_clinit(name) && flags.intersects(WITHOUT_CODE)
}

/// Whether a method has code exactly where it has to.
fn code_presence_keeps_rules(name: &[u8], method: Method<'_>) -> bool
    ensures { result ≡ code_presence_keeps_rules name.now method.entry.access_flags.0 (is_some (seen_method method.entry).code) }
{
    if is_bodiless(name, method.access_flags) {
        !method.has_code()
    } else {
        method.has_code()
    }
}

/// Whether a method's name and descriptor go with its flags and its result.
fn names_keep_rules(
    major: u16,
    in_interface: bool,
    flags: MethodFlags,
    name: &[u8],
    descriptor: &[u8],
    void: bool,
) -> bool
    ensures { result ≡ (method_flags_keep_rules major in_interface name.now flags.0 && init_keeps_rules in_interface name.now void
        && clinit_keeps_rules name.now descriptor.now flags.0) }
{
    flags_keep_rules(major, in_interface, name, flags)
        && init_keeps_rules(in_interface, name, void)
        && clinit_keeps_rules(name, descriptor, flags)
}

/// Whether a method with these texts, of whose type this is known, keeps the rules.
fn keeps_rules_by_facts(
    major: u16,
    class_flags: ClassFlags,
    method: Method<'_>,
    name: &[u8],
    descriptor: &[u8],
    facts: MethodFacts,
) -> bool
    ensures { result ≡ ((method_flags_keep_rules major (has class_flags.0 acc_interface) name.now method.entry.access_flags.0
        && init_keeps_rules (has class_flags.0 acc_interface) name.now facts.void
        && clinit_keeps_rules name.now descriptor.now method.entry.access_flags.0)
        && slots_keep_rules method.entry.access_flags.0 facts.slots
        && code_presence_keeps_rules name.now method.entry.access_flags.0 (is_some (seen_method method.entry).code)) }
{
    names_keep_rules(
        major,
        class_flags.intersects(ClassFlags::INTERFACE),
        method.access_flags,
        name,
        descriptor,
        facts.void,
    ) && slots_keep_rules(method.access_flags, facts.slots)
        && code_presence_keeps_rules(name, method)
}

/// Whether a method with these texts, of which this is known, keeps the rules.
fn method_keeps_rules(
    major: u16,
    class_flags: ClassFlags,
    method: Method<'_>,
    name: &[u8],
    descriptor: &[u8],
    name_facts: TextFacts,
    descriptor_facts: TextFacts,
) -> bool
    ensures { (texts : NameAndDescriptor) → texts.name ≡ name.now → texts.descriptor ≡ descriptor.now
        → AreFacts texts.name name_facts → AreFacts texts.descriptor descriptor_facts
        → (IsTrue result ↔ KeepsRulesAsMethod major class_flags.0 method.entry.access_flags.0
        (is_some (seen_method method.entry).code) texts) }
{
    match descriptor_facts.method {
        Some(facts) => {
            name_facts.method_name
                && keeps_rules_by_facts(major, class_flags, method, name, descriptor, facts)
        }
        None => false,
    }
}

fn keeps_rules(pool: &Pool<'_>, major: u16, class_flags: ClassFlags, method: Method<'_>) -> bool
    ensures { IsTrue result ↔ KeepsMethodShown pool.now major class_flags.0 (seen_method method.entry) }
{
    let Some(name) = pool.utf8_index(method.name.0) else {
        return false;
    };
    let Some(descriptor) = pool.utf8_index(method.descriptor.0) else {
        return false;
    };
    method_keeps_rules(
        major,
        class_flags,
        method,
        pool.utf8(name),
        pool.utf8(descriptor),
        pool.facts(name),
        pool.facts(descriptor),
    )
}

/// Whether the method at a place keeps the rules; also where there is none.
pub fn keeps_rules_at(parts: &Parts<'_>, place: usize) -> bool
    ensures { IsTrue result ↔ IfSome (slice_get (methods_of parts.now) place)
        (KeepsMethodShown parts.now.constant_pool parts.now.major_version parts.now.access_flags) }
{
    match parts.method(place) {
        Some(method) => keeps_rules(parts.pool(), parts.major(), parts.access_flags(), method),
        None => true,
    }
}

/// Whether each method keeps the rules, in a class file of this major version.
pub(crate) fn keep_rules(parts: &Parts<'_>) -> bool
    ensures { IsTrue result ↔ All (KeepsMethodShown parts.now.constant_pool parts.now.major_version parts.now.access_flags)
        (methods_of parts.now) }
{
    (0..parts.method_count()).all(|place| keeps_rules_at(parts, place))
}
