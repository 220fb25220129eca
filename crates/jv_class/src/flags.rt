//! Which access flags go together (JVMS tables 4.1-A, 4.5-A and 4.6-A).

ghost use Rattle.std.specs.Prelude.{◌≡◌};
ghost use Rattle.jv_class_structure.specs.Flags.{class_flags_keep_rules, visibility, visibility_keeps_rules, volatile_keeps_rules, interface_field_keeps_rules, abstract_keeps_rules, interface_method_keeps_rules, older_interface_method_keeps_rules, init_flags_keep_rules};

use bitflags::Flags;
use jv_class_structure::{ClassFlags, FieldFlags, MethodFlags};

const FINAL_SUPER_OR_ENUM: ClassFlags = ClassFlags(0x4030);

/// Private, static, final, synchronized, native and strict.
const NOT_WITH_ABSTRACT: MethodFlags = MethodFlags(0x093a);

/// Final, synchronized and native.
const NOT_IN_INTERFACES: MethodFlags = MethodFlags(0x0130);

/// Static, final, synchronized, bridge, native and abstract.
const NOT_OF_INIT: MethodFlags = MethodFlags(0x0578);

/// The flags of a field but synthetic: public, private, protected, static, final, volatile,
/// transient and enum.
const ALL_BUT_SYNTHETIC: u16 = 0x40df;

const PUBLIC_STATIC_FINAL: u16 = 0x0019;

/// Public, private and protected.
const VISIBILITIES: u16 = 0x0007;

/// Whether a class can have these flags (4.1).
pub(crate) fn are_of_class(flags: ClassFlags) -> bool
    ensures { result ≡ class_flags_keep_rules flags.0 }
{
    if flags.intersects(ClassFlags::INTERFACE) {
        flags.intersects(ClassFlags::ABSTRACT) && !flags.intersects(FINAL_SUPER_OR_ENUM)
    } else {
        !(flags.intersects(ClassFlags::FINAL) && flags.intersects(ClassFlags::ABSTRACT))
            && !flags.intersects(ClassFlags::ANNOTATION)
    }
}

fn visibility(flags: u16) -> u16
    ensures { result ≡ visibility flags }
{
    flags & VISIBILITIES
}

/// Whether at most one of public, private and protected is set (4.5, 4.6).
pub(crate) fn have_one_visibility(flags: u16) -> bool
    ensures { result ≡ visibility_keeps_rules flags }
{
    let visibility = visibility(flags);
    visibility == 0 || visibility == 1 || visibility == 2 || visibility == 4
}

/// Whether a field is not final and volatile (4.5).
pub(crate) fn are_not_final_and_volatile(flags: FieldFlags) -> bool
    ensures { result ≡ volatile_keeps_rules flags.0 }
{
    !(flags.intersects(FieldFlags::FINAL) && flags.intersects(FieldFlags::VOLATILE))
}

/// Whether a field of an interface can have these flags (4.5).
pub(crate) fn are_of_interface_field(flags: FieldFlags) -> bool
    ensures { result ≡ interface_field_keeps_rules flags.0 }
{
    flags.0 & ALL_BUT_SYNTHETIC == PUBLIC_STATIC_FINAL
}

/// Whether flags that go with no abstract method come with none (4.6).
pub(crate) fn are_apart_from_abstract(flags: MethodFlags) -> bool
    ensures { result ≡ abstract_keeps_rules flags.0 }
{
    if flags.intersects(MethodFlags::ABSTRACT) {
        !flags.intersects(NOT_WITH_ABSTRACT)
    } else {
        true
    }
}

/// Whether a method of an interface can have these flags (4.6).
pub(crate) fn are_of_interface_method(flags: MethodFlags) -> bool
    ensures { result ≡ interface_method_keeps_rules flags.0 }
{
    let visibility = visibility(flags.0);
    (visibility == 1 || visibility == 2) && !flags.intersects(NOT_IN_INTERFACES)
}

/// Whether a method of an interface can have these flags below version 52.0, in a class file of this
/// major version (4.6).
pub(crate) fn are_of_older_interface_method(major: u16, flags: MethodFlags) -> bool
    ensures { result ≡ older_interface_method_keeps_rules major flags.0 }
{
    if major < 52 {
        flags.intersects(MethodFlags::PUBLIC) && flags.intersects(MethodFlags::ABSTRACT)
    } else {
        true
    }
}

/// Whether `<init>` can have these flags (4.6).
pub(crate) fn are_of_init(flags: MethodFlags) -> bool
    ensures { result ≡ init_flags_keep_rules flags.0 }
{
    !flags.intersects(NOT_OF_INIT)
}
