//! What a method's flags and name say.

ghost use Rattle.std.specs.Prelude.{◌≡◌};
ghost use Rattle.jv_meaning_world.specs.Overriding.{is_instance};
ghost use Rattle.jv_meaning_world.specs.Verdicts.{is_final_instance};
ghost use Rattle.jv_lookups.specs.Inside.Overridden.{can_override};
ghost use Rattle.jv_lookups.specs.Inside.Steps.{as_method, is_overridden_if};

use bitflags::Flags;
use jv_class_structure::MethodFlags;
use jv_classes::{Member, Text};

// PUBLIC and PROTECTED
const OPEN: MethodFlags = MethodFlags(0x0005);

// PUBLIC, PRIVATE and PROTECTED
const SOME_ACCESS: MethodFlags = MethodFlags(0x0007);

/// A method that is looked up in other classes: with the texts of its name and of its descriptor.
pub(crate) struct NamedMethod<'m, 'a> {
    pub(crate) method: &'m Member<'a>,
    pub(crate) name: &'m Text<'a>,
    pub(crate) descriptor: &'m Text<'a>,
}

impl Drop for NamedMethod<'_, '_> {
    fn drop(self) {
        let NamedMethod {
            method: _,
            name: _,
            descriptor: _,
        } = self;
    }
}

/// Whether it is an instance method, not `<init>` (JVMS 2.9, 4.6).
pub fn is_instance(method: &Member<'_>) -> bool
    ensures { result ≡ is_instance (as_method method.now) }
{
    !MethodFlags(method.access_flags).intersects(MethodFlags::STATIC)
        && method.name != b"<init>".as_slice()
}

/// Whether it is a final instance method (JVMS 4.6).
pub fn is_final_instance(method: &Member<'_>) -> bool
    ensures { result ≡ is_final_instance (as_method method.now) }
{
    MethodFlags(method.access_flags).intersects(MethodFlags::FINAL) && is_instance(method)
}

/// Whether it is an instance method that is not private, which can override (JVMS 5.4.5).
pub(crate) fn can_override(method: &Member<'_>) -> bool
    ensures { result ≡ can_override (as_method method.now) }
{
    is_instance(method) && !MethodFlags(method.access_flags).intersects(MethodFlags::PRIVATE)
}

/// Whether a method with these flags is overridden, where `found` says whether its package is among
/// those found (JVMS 5.4.5).
pub fn is_overridden(found: bool, access_flags: u16) -> bool
    ensures { result ≡ is_overridden_if found access_flags }
{
    MethodFlags(access_flags).intersects(OPEN)
        || (!MethodFlags(access_flags).intersects(SOME_ACCESS) && found)
}
