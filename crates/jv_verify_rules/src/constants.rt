//! Constants that instructions push (JVMS 4.10.1.9): ldc, ldc_w, ldc2_w.

ghost use Rattle.jv_meaning_typing.specs.ValueRules.{push_constant, push_long_constant};
ghost use Rattle.jv_verify_rules.specs.Inside.Over.{PushesByPool};

use jv_verify_types::{ConstantTypes, Outcome, long_constant_type, one_word_constant_type};

/// Pushes a constant of one word.
pub(crate) fn push_constant(constants: &ConstantTypes<'_, '_>, index: u16) -> Outcome
    ensures { PushesByPool constants.now (λ env. push_constant env index) result }
{
    match one_word_constant_type(constants, index) {
        Some(item) => Outcome::Gives(item),
        None => Outcome::Fails,
    }
}

/// Pushes a constant of two words.
pub(crate) fn push_long_constant(constants: &ConstantTypes<'_, '_>, index: u16) -> Outcome
    ensures { PushesByPool constants.now (λ env. push_long_constant env index) result }
{
    match long_constant_type(constants, index) {
        Some(item) => Outcome::Gives(item),
        None => Outcome::Fails,
    }
}
