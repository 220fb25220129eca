//! Whether a want is met.

ghost use Rattle.std.specs.Prelude.{◌≡◌};
ghost use Rattle.jv_meaning_world.specs.FrameFlow.{item_flows};
ghost use Rattle.jv_meaning_typing.specs.FrameChanges.{is_reference};
ghost use Rattle.jv_meaning_typing.specs.ValueRules.{is_array_or_null};
ghost use Rattle.jv_stackmap.specs.Seen.{seen_type};
ghost use Rattle.jv_operands.specs.Seen.{seen_want};
ghost use Rattle.jv_operands.specs.Unmet.{is_met, is_uninitialized};
ghost use Rattle.jv_operands.specs.Inside.Met.{holds_references, is_word};

use crate::want::Want;
use jv_assign::flows;
use jv_classes::ClassTable;
use jv_stackmap::VerificationTypeOf;
use jv_text::Element;

/// Whether an item flows to a type.
fn item_flows(
    table: &ClassTable<'_>,
    from: &VerificationTypeOf<&[u8]>,
    to: &VerificationTypeOf<&[u8]>,
) -> bool
    ensures { result ≡ item_flows table.now (seen_type from.now) (seen_type to.now) }
{
    match from {
        VerificationTypeOf::Long => matches!(to, VerificationTypeOf::Long),
        _ => flows(table, from, to),
    }
}

/// Whether a type is that of an object, also one that is not initialized, of an array or of null.
fn is_reference(of: &VerificationTypeOf<&[u8]>) -> bool
    ensures { result ≡ is_reference (seen_type of.now) }
{
    !matches!(
        of,
        VerificationTypeOf::Top | VerificationTypeOf::Int | VerificationTypeOf::Long
    )
}

/// Whether a type is that of an array or of null.
fn is_array(of: &VerificationTypeOf<&[u8]>) -> bool
    ensures { result ≡ is_array_or_null (seen_type of.now) }
{
    matches!(of, VerificationTypeOf::Null | VerificationTypeOf::Array(_))
}

/// Whether a type is that of an array of references or of null.
fn holds_references(of: &VerificationTypeOf<&[u8]>) -> bool
    ensures { result ≡ holds_references (seen_type of.now) }
{
    match of {
        VerificationTypeOf::Null => true,
        VerificationTypeOf::Array(components) => {
            components.dimensions != 0 || matches!(components.element, Element::Class(_))
        }
        _ => false,
    }
}

/// Whether a type is that of an object that is not initialized.
fn is_uninitialized(of: &VerificationTypeOf<&[u8]>) -> bool
    ensures { result ≡ is_uninitialized (seen_type of.now) }
{
    matches!(
        of,
        VerificationTypeOf::UninitializedThis | VerificationTypeOf::Uninitialized(_)
    )
}

/// Whether a type is that of a value of one word.
fn is_word(of: &VerificationTypeOf<&[u8]>) -> bool
    ensures { result ≡ is_word (seen_type of.now) }
{
    !matches!(of, VerificationTypeOf::Top | VerificationTypeOf::Long)
}

/// Whether what is there meets a want.
pub(crate) fn is_met(
    table: &ClassTable<'_>,
    want: &Want<&[u8]>,
    found: &VerificationTypeOf<&[u8]>,
) -> bool
    ensures { result ≡ is_met table.now (seen_want want.now) (seen_type found.now) }
{
    match want {
        Want::Type(to) => item_flows(table, found, to),
        Want::Either(one, other) => {
            item_flows(table, found, one) || item_flows(table, found, other)
        }
        Want::Reference => is_reference(found),
        Want::Array => is_array(found),
        Want::ReferenceArray => holds_references(found),
        Want::Uninitialized => is_uninitialized(found),
        Want::Word => is_word(found),
        Want::Any => true,
    }
}
