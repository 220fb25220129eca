//! Types as numbers that are ordered.

ghost use Rattle.std.specs.Prelude.{◌≡◌};
ghost use Rattle.jv_verify_wants.specs.Inside.Codes.{base_code, code, same_code};

use jv_stackmap::VerificationTypeOf;
use jv_text::{Base, Element};
use jv_verify_types::Item;

/// A type as numbers: its kind, how many dimensions it has, and the number of a name or an offset; 0 for what it doesn't have. No two types
/// have the same.
pub(crate) type Code = (u8, u8, u32);

/// A primitive type as a number, which is the kind of its arrays.
fn base_code(base: Base) -> u8
    ensures { result ≡ base_code base }
{
    match base {
        Base::Byte => 8,
        Base::Char => 9,
        Base::Double => 10,
        Base::Float => 11,
        Base::Int => 12,
        Base::Long => 13,
        Base::Short => 14,
        Base::Boolean => 15,
    }
}

/// A type as numbers.
pub(crate) fn code(item: Item) -> Code
    ensures { result ≡ code item }
{
    match item {
        VerificationTypeOf::Top => (0, 0, 0),
        VerificationTypeOf::Int => (1, 0, 0),
        VerificationTypeOf::Long => (2, 0, 0),
        VerificationTypeOf::Null => (3, 0, 0),
        VerificationTypeOf::UninitializedThis => (4, 0, 0),
        VerificationTypeOf::Class(number) => (5, 0, number),
        VerificationTypeOf::Uninitialized(offset) => (6, 0, u32::from(offset)),
        VerificationTypeOf::Array(array) => match array.element {
            Element::Class(number) => (7, array.dimensions, number),
            Element::Base(base) => (base_code(base), array.dimensions, 0),
        },
    }
}

/// Whether two types are one.
#[inline]
pub(crate) fn same_item(one: Item, other: Item) -> bool
    ensures { result ≡ same_code (code one) (code other) }
{
    let (one_kind, one_dimensions, one_number) = code(one);
    let (kind, dimensions, number) = code(other);
    one_kind == kind && one_dimensions == dimensions && one_number == number
}
