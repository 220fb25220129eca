//! What the host's profile supports, code aside.

ghost use Rattle.std.specs.Prelude.{◌≡◌, ◌↔◌, ℕ, List, IsTrue, IfSome, map, slice_get};
ghost use Rattle.std.specs.List.{All};
ghost use Rattle.std.specs.Option.{IsSomeAnd};
ghost use Rattle.jv_pool.specs.Constants.{utf8_at};
ghost use Rattle.jv_pool.specs.Facts.{IsFieldKnown, IsMethodKnown, AreFacts};
ghost use Rattle.jv_pool.specs.Seen.{seen};
ghost use Rattle.jv_class_structure.specs.Parts.{methods_of};
ghost use Rattle.jv_class_structure.specs.Seen.{seen_field, seen_method};
ghost use Rattle.jv_class.specs.Inside.Reading.{IsSupportedAt};
ghost use Rattle.jv_class.specs.Supported.{HasNoFloatingField, HasNoFloatingMethod, HasNoFloating, IsNoFloatingArray, IsSupportedConstant, is_supported_method};
ghost use Rattle.jv_class.specs.Inside.Shown.{IsFieldShownSupported, IsMethodShownSupported};

use crate::names::is_clinit;
use bitflags::Flags;
use jv_class_structure::{Field, Method, MethodFlags, Parts};
use jv_pool::{Constant, FieldFacts, MethodFacts, Pool, TextFacts};
use jv_text::is_array_name;

/// Native and synchronized.
const NOT_SUPPORTED: MethodFlags = MethodFlags(0x0120);

fn is_no_floating_field(facts: Option<FieldFacts>) -> bool
    ensures { (text : List ℕ) → IsFieldKnown text facts → (IsTrue result ↔ HasNoFloatingField text) }
{
    match facts {
        Some(facts) => !facts.floating,
        None => true,
    }
}

fn is_no_floating_method(facts: Option<MethodFacts>) -> bool
    ensures { (text : List ℕ) → IsMethodKnown text facts → (IsTrue result ↔ HasNoFloatingMethod text) }
{
    match facts {
        Some(facts) => !facts.floating,
        None => true,
    }
}

/// Whether a text of which this is known describes no floating point numbers.
fn has_no_floating(facts: TextFacts) -> bool
    ensures { (text : List ℕ) → AreFacts text facts → (IsTrue result ↔ HasNoFloating text) }
{
    is_no_floating_field(facts.field) && is_no_floating_method(facts.method)
}

/// Whether the text at an index describes no floating point numbers.
fn has_no_floating_at(pool: &Pool<'_>, index: u16) -> bool
    ensures { IsTrue result ↔ IsSomeAnd (utf8_at pool.now index) HasNoFloating }
{
    match pool.utf8_index(index) {
        Some(index) => has_no_floating(pool.facts(index)),
        None => false,
    }
}

/// Whether the text at an index is no array of floating point numbers.
fn is_no_floating_array_at(pool: &Pool<'_>, index: u16) -> bool
    ensures { IsTrue result ↔ IsSomeAnd (utf8_at pool.now index) IsNoFloatingArray }
{
    match pool.utf8_index(index) {
        Some(index) => !is_array_name(pool.utf8(index)) || has_no_floating(pool.facts(index)),
        None => false,
    }
}

fn is_supported_constant(pool: &Pool<'_>, constant: Constant<&[u8]>) -> bool
    ensures { IsTrue result ↔ IsSupportedConstant pool.now (seen constant.entry) }
{
    match constant {
        Constant::Float(_)
        | Constant::Double(_, _)
        | Constant::MethodHandle(_, _)
        | Constant::MethodType(_)
        | Constant::InvokeDynamic(_, _) => false,
        Constant::Class(name) => is_no_floating_array_at(pool, name),
        Constant::NameAndType(_, descriptor) => has_no_floating_at(pool, descriptor),
        _ => true,
    }
}

/// Whether what stands at an index, if anything does, is one of the profile.
fn is_supported_entry(pool: &Pool<'_>, index: u16) -> bool
    ensures { IsTrue result ↔ IsSupportedAt pool.now index }
{
    match pool.constant(index) {
        Some(constant) => is_supported_constant(pool, constant),
        None => true,
    }
}

/// Whether each constant is one of the profile.
pub(crate) fn are_supported_constants(pool: &Pool<'_>) -> bool
    ensures { IsTrue result ↔ All (IsSupportedConstant pool.now) pool.now }
{
    for index in 1..pool.count() {
        if !is_supported_entry(pool, index) {
            return false;
        }
    }
    true
}

/// Whether each field's type is one of the profile.
pub(crate) fn are_supported_fields(pool: &Pool<'_>, fields: &[Field]) -> bool
    ensures { IsTrue result ↔ All (IsFieldShownSupported pool.now) (map seen_field fields.now) }
{
    each_field_is_supported(pool, fields)
}

/// The same of each as it was read.
fn each_field_is_supported(pool: &Pool<'_>, fields: &[Field]) -> bool
    ensures { IsTrue result ↔ All (λ x. IsFieldShownSupported pool.now (seen_field x)) fields.now }
{
    fields
        .iter()
        .all(|field| has_no_floating_at(pool, field.descriptor.0))
}

fn is_supported_named(name: &[u8], flags: MethodFlags) -> bool
    ensures { result ≡ is_supported_method name.now flags.0 }
{
    is_clinit(name) || !flags.intersects(NOT_SUPPORTED)
}

fn is_supported_at(pool: &Pool<'_>, name: u16, flags: MethodFlags) -> bool
    ensures { IsTrue result ↔ IsSomeAnd (utf8_at pool.now name) (λ text. IsTrue (is_supported_method text flags.0)) }
{
    match pool.utf8_index(name) {
        Some(index) => is_supported_named(pool.utf8(index), flags),
        None => false,
    }
}

fn is_supported_method(pool: &Pool<'_>, method: Method<'_>) -> bool
    ensures { IsTrue result ↔ IsMethodShownSupported pool.now (seen_method method.entry) }
{
    has_no_floating_at(pool, method.descriptor.0)
        && is_supported_at(pool, method.name.0, method.access_flags)
}

/// Whether the method at a place is one of the profile; also where there is none.
fn is_method_supported_at(parts: &Parts<'_>, place: usize) -> bool
    ensures { IsTrue result ↔ IfSome (slice_get (methods_of parts.now) place) (IsMethodShownSupported parts.now.constant_pool) }
{
    match parts.method(place) {
        Some(method) => is_supported_method(parts.pool(), method),
        None => true,
    }
}

/// Whether each method is one of the profile.
pub(crate) fn are_supported_methods(parts: &Parts<'_>) -> bool
    ensures { IsTrue result ↔ All (IsMethodShownSupported parts.now.constant_pool) (methods_of parts.now) }
{
    (0..parts.method_count()).all(|place| is_method_supported_at(parts, place))
}
