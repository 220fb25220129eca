//! Instructions that take items of fixed types and give one of a fixed type (JVMS 4.10.1.9).

ghost use Rattle.std.specs.Prelude.{◌≡◌, ℕ, List, [], ◌∷◌};
ghost use Rattle.jv_stackmap.specs.declared.verification.VerificationTypeOf.TheVariants as variants;
ghost use Rattle.jv_meaning_typing.specs.NumberRules.{number_type, conversion, computation};
ghost use Rattle.jv_verify_types.specs.Typed.{typed};
ghost use Rattle.jv_verify_types.specs.Outcomes.{Exchanges};

use crate::stack::exchange;
use jv_code::{Computation, Conversion, NumberKind};
use jv_stackmap::VerificationTypeOf;
use jv_verify_frame::TypeFrame;
use jv_verify_types::{Item, Outcome, TypeNames};

/// The type of a number of a kind.
pub fn number_type(kind: NumberKind) -> Item
    ensures { (names : List (List ℕ)) → typed names result ≡ number_type kind }
{
    match kind {
        NumberKind::Int => VerificationTypeOf::Int,
        NumberKind::Long => VerificationTypeOf::Long,
    }
}

/// Converts a number.
fn convert(types: &TypeNames<'_, '_>, frame: &mut TypeFrame, to: Conversion) -> Outcome
    ensures { Exchanges types.now (conversion to).takes (conversion to).gives frame.old frame.new result }
{
    match to {
        Conversion::IntToLong => exchange(
            types,
            frame,
            &[VerificationTypeOf::Int],
            Some(VerificationTypeOf::Long),
        ),
        Conversion::LongToInt => exchange(
            types,
            frame,
            &[VerificationTypeOf::Long],
            Some(VerificationTypeOf::Int),
        ),
        _ => exchange(
            types,
            frame,
            &[VerificationTypeOf::Int],
            Some(VerificationTypeOf::Int),
        ),
    }
}

/// Takes two numbers of a kind and gives one.
pub fn combine(types: &TypeNames<'_, '_>, frame: &mut TypeFrame, kind: NumberKind) -> Outcome
    ensures { Exchanges types.now (number_type kind ∷ number_type kind ∷ []) (number_type kind ∷ []) frame.old frame.new result }
{
    let number = number_type(kind);
    exchange(types, frame, &[number, number], Some(number))
}

/// Takes a number of a kind and an int, and gives one of the kind.
fn shift(types: &TypeNames<'_, '_>, frame: &mut TypeFrame, kind: NumberKind) -> Outcome
    ensures { Exchanges types.now (number_type kind ∷ variants.Int ∷ []) (number_type kind ∷ []) frame.old frame.new result }
{
    let number = number_type(kind);
    exchange(
        types,
        frame,
        &[number, VerificationTypeOf::Int],
        Some(number),
    )
}

/// Takes a number of a kind and gives one.
fn negate(types: &TypeNames<'_, '_>, frame: &mut TypeFrame, kind: NumberKind) -> Outcome
    ensures { Exchanges types.now (number_type kind ∷ []) (number_type kind ∷ []) frame.old frame.new result }
{
    let number = number_type(kind);
    exchange(types, frame, &[number], Some(number))
}

/// Gives an int.
#[inline]
pub fn give_int(types: &TypeNames<'_, '_>, frame: &mut TypeFrame) -> Outcome
    ensures { Exchanges types.now [] (variants.Int ∷ []) frame.old frame.new result }
{
    exchange(types, frame, &[], Some(VerificationTypeOf::Int))
}

/// Takes the numbers of a computation and gives its result.
pub fn compute(types: &TypeNames<'_, '_>, frame: &mut TypeFrame, what: Computation) -> Outcome
    ensures { Exchanges types.now (computation what).takes (computation what).gives frame.old frame.new result }
{
    match what {
        Computation::IntConstant(_, _) => give_int(types, frame),
        Computation::LongConstant(_) => {
            exchange(types, frame, &[], Some(VerificationTypeOf::Long))
        }
        Computation::Arithmetic(kind, _) => combine(types, frame, kind),
        Computation::Negate(kind) => negate(types, frame, kind),
        Computation::Shift(kind, _) => shift(types, frame, kind),
        Computation::Convert(to) => convert(types, frame, to),
        Computation::CompareLongs => exchange(
            types,
            frame,
            &[VerificationTypeOf::Long, VerificationTypeOf::Long],
            Some(VerificationTypeOf::Int),
        ),
    }
}
