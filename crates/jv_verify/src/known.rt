//! What a method's name, flags and descriptor say.

ghost use Rattle.std.specs.Prelude.{◌≡◌, ℕ, List, Some, IsSome, IfSome, IfNone};
ghost use Rattle.jv_text.specs.Name.{is_init};
ghost use Rattle.jv_pool.specs.Constants.{utf8_at};
ghost use Rattle.jv_class_structure.specs.Flags.{has, acc_static};
ghost use Rattle.jv_class_structure.specs.Seen.{seen_method, seen_code};
ghost use Rattle.jv_meaning_typing.specs.Typing.{argument_words};
ghost use Rattle.jv_verify.specs.Inside.Known.{AreArgumentWords, AreWithin, AreNotWithin, IsWithinLocals, SaysTypes};

use bitflags::Flags;
use jv_class_structure::{Method, MethodCode, MethodFlags};
use jv_text::{is_init, types_agree};
use jv_verify_types::{CurrentClass, MethodTypes};

pub(crate) fn is_static(method: &Method<'_>) -> bool
    ensures { result ≡ has method.now.access_flags.0 acc_static }
{
    method.access_flags.intersects(MethodFlags::STATIC)
}

/// Whether a method's name is `<init>`.
pub(crate) fn is_named_init(class: &CurrentClass<'_, '_, '_>, method: &Method<'_>) -> bool
    requires { IsSome (utf8_at class.now.by.class.constant_pool method.now.name.0) }
    ensures { (name : List ℕ) → utf8_at class.now.by.class.constant_pool method.now.name.0 ≡ Some name → result ≡ is_init name }
{
    let name = class.constants().pool().utf8(method.name);
    is_init(name)
}

/// The words of a method's arguments, the receiver's among them; `None` where its descriptor is none of a method.
fn argument_words(class: &CurrentClass<'_, '_, '_>, method: &Method<'_>) -> Option<u16>
    requires { IsSome (utf8_at class.now.by.class.constant_pool method.now.descriptor.0) }
    ensures { AreArgumentWords class.now (seen_method method.now) result }
{
    types_agree();
    let facts = class.constants().pool().facts(method.descriptor);
    let of_method = facts.method?;
    let receiver = if is_static(method) { 0 } else { 1 };
    Some(u16::from(of_method.slots) + receiver)
}

/// Whether a method's arguments are within the local variables of its body.
fn arguments_fit(
    class: &CurrentClass<'_, '_, '_>,
    method: &Method<'_>,
    body: &MethodCode<'_>,
) -> bool
    requires { IsSome (utf8_at class.now.by.class.constant_pool method.now.descriptor.0) }
    ensures { IsWithinLocals class.now (seen_method method.now) (seen_code body.now) result }
{
    match argument_words(class, method) {
        Some(words) => words <= body.max_locals,
        None => false,
    }
}

/// The types that a method's descriptor says, where its arguments are within the local variables; `None` where they aren't, or
/// the descriptor is none of a method.
pub(crate) fn known_types<'e>(
    class: &CurrentClass<'e, '_, '_>,
    method: &Method<'_>,
    body: &MethodCode<'_>,
) -> Option<MethodTypes<'e>>
    requires { IsSome (utf8_at class.now.by.class.constant_pool method.now.descriptor.0) }
    ensures said { IfSome result (SaysTypes class.now method.now.descriptor.0) }
    ensures fit { IfSome result (λ _. AreWithin class.now (seen_method method.now) (seen_code body.now)) }
    ensures none { IfNone result (AreNotWithin class.now (seen_method method.now) (seen_code body.now)) }
{
    if arguments_fit(class, method, body) {
        class.constants().method_type(method.descriptor.0)
    } else {
        None
    }
}
