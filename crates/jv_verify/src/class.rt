//! The verdict on one class.

ghost use Rattle.std.specs.Prelude.{◌<◌, IfOk, length};
ghost use Rattle.jv_meaning_world.specs.Numbers.{HoldsAtNumber};
ghost use Rattle.jv_meaning_typing.specs.Judgement.{IsVerdictOfClass};

use crate::files::verdict_of;
use jv_loader::Classes;
use jv_meaning_typing::Verdict;
use std::alloc::{AllocError, Global};
use std::hash::RandomState;

/// The verdict on the class with a number (JVMS 4.10, 5.3.5): what is wrong with it before its methods are looked at, and
/// else the first rule that its first ill-typed method breaks. Names are hashed with the state.
///
/// # Errors
///
/// Where the host had no memory for what is known of the class, or for the frames of a method.
pub fn check_class<'a>(
    alloc: Global,
    state: RandomState,
    classes: &Classes<'a>,
    class: usize,
) -> Result<Verdict, AllocError>
    requires { class < length classes.now.world }
    ensures { IfOk result (λ verdict. HoldsAtNumber classes.now.world class (λ l. IsVerdictOfClass classes.now.world l verdict)) }
{
    let why = classes.class_verdict(alloc, state, class)?;
    verdict_of(alloc, state, classes, class, why)
}
