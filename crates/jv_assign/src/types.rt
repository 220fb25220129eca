//! All verification types.

ghost use Rattle.std.specs.Prelude.{◌≡◌};
ghost use Rattle.jv_stackmap.specs.declared.verification.VerificationTypeOf.TheVariants as variants;
ghost use Rattle.jv_text.specs.Seen.{seen_field_type};
ghost use Rattle.jv_meaning_world.specs.World.{World};
ghost use Rattle.jv_meaning_world.specs.Flow.{flows};
ghost use Rattle.jv_stackmap.specs.Seen.{seen_type};

use crate::arrays::{component_flows, is_above_arrays};
use crate::classes::class_flows;
use jv_classes::ClassTable;
use jv_stackmap::VerificationTypeOf;
use jv_text::FieldType;

/// Whether a type flows to a class: null, a class by its name, or an array to a class above arrays.
fn flows_to_class(table: &ClassTable<'_>, from: &VerificationTypeOf<&[u8]>, name: &[u8]) -> bool
    ensures { result ≡ flows table.now (seen_type from.now) (variants.Class name.now) }
{
    match from {
        VerificationTypeOf::Null => true,
        VerificationTypeOf::Class(from_name) => class_flows(table, from_name, name),
        VerificationTypeOf::Array(_) => is_above_arrays(name),
        _ => false,
    }
}

/// Whether a type flows to an array: null, or an array as its components do.
fn flows_to_array(
    table: &ClassTable<'_>,
    from: &VerificationTypeOf<&[u8]>,
    components: FieldType<'_>,
) -> bool
    ensures { result ≡ flows table.now (seen_type from.now) (variants.Array (seen_field_type components.entry)) }
{
    match from {
        VerificationTypeOf::Null => true,
        VerificationTypeOf::Array(from_components) => {
            component_flows(table, *from_components, components)
        }
        _ => false,
    }
}

/// Whether a type is what the `new` at an offset made.
fn is_uninitialized(from: &VerificationTypeOf<&[u8]>, offset: u16) -> bool
    ensures { (world : World) → result ≡ flows world (seen_type from.now) (variants.Uninitialized offset) }
{
    match from {
        VerificationTypeOf::Uninitialized(from_offset) => *from_offset == offset,
        _ => false,
    }
}

/// Whether a type can stand where another is expected (JVMS 4.10.1.2).
pub fn flows(
    table: &ClassTable<'_>,
    from: &VerificationTypeOf<&[u8]>,
    to: &VerificationTypeOf<&[u8]>,
) -> bool
    ensures { result ≡ flows table.now (seen_type from.now) (seen_type to.now) }
{
    match to {
        VerificationTypeOf::Top => true,
        VerificationTypeOf::Int => matches!(from, VerificationTypeOf::Int),
        VerificationTypeOf::Long => matches!(from, VerificationTypeOf::Long),
        VerificationTypeOf::Null => matches!(from, VerificationTypeOf::Null),
        VerificationTypeOf::UninitializedThis => {
            matches!(from, VerificationTypeOf::UninitializedThis)
        }
        VerificationTypeOf::Class(name) => flows_to_class(table, from, name),
        VerificationTypeOf::Array(components) => flows_to_array(table, from, *components),
        VerificationTypeOf::Uninitialized(offset) => is_uninitialized(from, *offset),
    }
}
