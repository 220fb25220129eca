//! What the profile supports of types, flags and constants.

ghost use Rattle.std.specs.Prelude.{◌≡◌, ◌↔◌, ℕ, List, IsTrue, IfSome, slice_get};
ghost use Rattle.std.specs.Option.{IsSomeAnd};
ghost use Rattle.jv_pool.specs.Constants.{utf8_at};
ghost use Rattle.jv_pool.specs.Facts.{AreFacts, IsFieldKnown, IsMethodKnown};
ghost use Rattle.jv_pool.specs.Seen.{seen};
ghost use Rattle.jv_class_structure.specs.Seen.{seen_method};
ghost use Rattle.jv_class.specs.Inside.Reading.{IsSupportedAt};
ghost use Rattle.jv_class.specs.Supported.{AreSupportedFlags, HasNoFloating, HasNoFloatingField, HasNoFloatingMethod, IsNoFloatingArray, IsSupportedConstant, IsSupportedType, is_supported_method};

use bitflags::Flags;
use jv_class::is_clinit;
use jv_class_structure::{Method, MethodFlags};
use jv_pool::{Constant, FieldFacts, MethodFacts, Pool, TextFacts};
use jv_text::is_array_name;

/// Native and synchronized.
const NOT_SUPPORTED: MethodFlags = MethodFlags(0x0120);

fn is_no_floating_field(facts: Option<FieldFacts>) -> bool
    ensures { (text : List ℕ) → IsFieldKnown text facts → (IsTrue result ↔ HasNoFloatingField text) }
{
    match facts {
        Some(facts) => !facts.floating,
        None => true,
    }
}

fn is_no_floating_method(facts: Option<MethodFacts>) -> bool
    ensures { (text : List ℕ) → IsMethodKnown text facts → (IsTrue result ↔ HasNoFloatingMethod text) }
{
    match facts {
        Some(facts) => !facts.floating,
        None => true,
    }
}

/// Whether a text of which this is known describes no floating point numbers.
fn has_no_floating(facts: TextFacts) -> bool
    ensures { (text : List ℕ) → AreFacts text facts → (IsTrue result ↔ HasNoFloating text) }
{
    is_no_floating_field(facts.field) && is_no_floating_method(facts.method)
}

/// Whether the profile supports the type at an index.
pub(crate) fn is_supported_type(pool: &Pool<'_>, index: u16) -> bool
    ensures { IsTrue result ↔ IsSupportedType pool.now index }
{
    match pool.utf8_index(index) {
        Some(index) => has_no_floating(pool.facts(index)),
        None => false,
    }
}

/// Whether the text at an index is no array of floating point numbers.
fn is_no_floating_array(pool: &Pool<'_>, index: u16) -> bool
    ensures { IsTrue result ↔ IsSomeAnd (utf8_at pool.now index) IsNoFloatingArray }
{
    match pool.utf8_index(index) {
        Some(index) => !is_array_name(pool.utf8(index)) || has_no_floating(pool.facts(index)),
        None => false,
    }
}

/// Whether the profile supports a constant.
fn is_supported_constant(pool: &Pool<'_>, constant: Constant<&[u8]>) -> bool
    ensures { IsTrue result ↔ IsSupportedConstant pool.now (seen constant.entry) }
{
    match constant {
        Constant::Float(_)
        | Constant::Double(_, _)
        | Constant::MethodHandle(_, _)
        | Constant::MethodType(_)
        | Constant::InvokeDynamic(_, _) => false,
        Constant::Class(name) => is_no_floating_array(pool, name),
        Constant::NameAndType(_, descriptor) => is_supported_type(pool, descriptor),
        _ => true,
    }
}

/// Whether the profile supports what stands at an index, if anything does.
pub(crate) fn is_supported_entry(pool: &Pool<'_>, index: u16) -> bool
    ensures { IsTrue result ↔ IsSupportedAt pool.now index }
{
    match pool.constant(index) {
        Some(constant) => is_supported_constant(pool, constant),
        None => true,
    }
}

fn is_supported_method(name: &[u8], flags: MethodFlags) -> bool
    ensures { result ≡ is_supported_method name.now flags.0 }
{
    is_clinit(name) || !flags.intersects(NOT_SUPPORTED)
}

fn are_supported_at(pool: &Pool<'_>, name: u16, flags: MethodFlags) -> bool
    ensures { IsTrue result ↔ AreSupportedFlags pool.now name flags.0 }
{
    match pool.utf8_index(name) {
        Some(index) => is_supported_method(pool.utf8(index), flags),
        None => false,
    }
}

/// Whether the profile supports the flags of a method.
pub(crate) fn are_supported_flags(pool: &Pool<'_>, method: Method<'_>) -> bool
    ensures { IsTrue result ↔ AreSupportedFlags pool.now (seen_method method.entry).name_index (seen_method method.entry).access_flags }
{
    are_supported_at(pool, method.name.0, method.access_flags)
}
