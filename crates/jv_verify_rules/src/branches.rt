//! Branches and switches (JVMS 4.10.1.9).

ghost use Rattle.std.specs.Prelude.{◌∷◌, []};
ghost use Rattle.jv_stackmap.specs.declared.verification.VerificationTypeOf.TheVariants as variants;
ghost use Rattle.jv_meaning_typing.specs.Rule.{test_references};
ghost use Rattle.jv_verify_types.specs.Outcomes.{Exchanges};
ghost use Rattle.jv_verify_rules.specs.Inside.Over.{TestsReferences, branch_of};

use crate::references::{test_reference, test_references};
use crate::stack::exchange;
use jv_code::Test;
use jv_stackmap::VerificationTypeOf;
use jv_verify_frame::TypeFrame;
use jv_verify_types::{Outcome, TypeNames};

/// Takes an int.
pub(crate) fn take_int(types: &TypeNames<'_, '_>, frame: &mut TypeFrame) -> Outcome
    ensures { Exchanges types.now (variants.Int ∷ []) [] frame.old frame.new result }
{
    exchange(types, frame, &[VerificationTypeOf::Int], None)
}

/// Takes two ints.
fn take_ints(types: &TypeNames<'_, '_>, frame: &mut TypeFrame) -> Outcome
    ensures { Exchanges types.now (variants.Int ∷ variants.Int ∷ []) [] frame.old frame.new result }
{
    exchange(
        types,
        frame,
        &[VerificationTypeOf::Int, VerificationTypeOf::Int],
        None,
    )
}

/// Takes what a branch tests.
pub(crate) fn branch(types: &TypeNames<'_, '_>, frame: &mut TypeFrame, condition: Test) -> Outcome
    ensures { TestsReferences types.now (branch_of condition) frame.old frame.new result }
{
    match condition {
        Test::IfInt(_) => take_int(types, frame),
        Test::IfInts(_) => take_ints(types, frame),
        Test::IfReferences(_) => test_references(frame),
        Test::IfNull(_) => test_reference(frame),
    }
}
