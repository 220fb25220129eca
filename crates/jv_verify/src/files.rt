//! The verdicts on a guest's files.

ghost use Rattle.std.specs.Prelude.{◌≡◌, ◌<◌, IfOk, IfNone, IsTrue, length};
ghost use Rattle.jv_meaning_world.specs.World.{Loaded, World};
ghost use Rattle.jv_meaning_typing.specs.Judgement.{IsVerdictOfMethods};
ghost use Rattle.jv_verify.specs.Methods.{AreJudged};
ghost use Rattle.jv_verify.specs.Inside.Numbered.{joins, next_number, AreOfLibrary, AreVerdictsOn, IsVerdictAt};

use crate::methods::check_methods;
use jv_loader::{Classes, LoadVerdict};
use jv_meaning_typing::{Verdict, VerifyFault};
use std::alloc::{AllocError, Global};
use std::hash::RandomState;

/// The verdict on a class whose methods decide.
fn verdict_on(fault: Option<VerifyFault>) -> Verdict
    ensures { (world : World) (l : Loaded) → AreJudged world l fault → IsVerdictOfMethods world l result }
{
    match fault {
        Some(fault) => Verdict::Verify(fault),
        None => Verdict::Accepted,
    }
}

/// The verdict on a file whose class has a number, where its methods decide.
pub(crate) fn verdict_of<'a>(
    alloc: Global,
    state: RandomState,
    classes: &Classes<'a>,
    class: usize,
    why: Option<LoadVerdict>,
) -> Result<Verdict, AllocError>
    requires { IfNone why (class < length classes.now.world) }
    ensures { IfOk result (IsVerdictAt classes.now.world class why) }
{
    match why {
        Some(why) => Ok(Verdict::Refused(why)),
        None => Ok(verdict_on(check_methods(alloc, state, classes, class)?)),
    }
}

/// Whether the class of a file is one of the world's.
pub(crate) fn joins(why: Option<LoadVerdict>) -> bool
    ensures { result ≡ joins why }
{
    match why {
        Some(LoadVerdict::Version)
        | Some(LoadVerdict::Format)
        | Some(LoadVerdict::Unsupported)
        | Some(LoadVerdict::Reserved)
        | Some(LoadVerdict::Duplicate) => false,
        _ => true,
    }
}

/// The number that the class of the next file has.
pub(crate) fn next_number(classes: &Classes<'_>, number: usize, why: Option<LoadVerdict>) -> usize
    requires { IsTrue (joins why) → number < length classes.now.world }
    ensures { result ≡ next_number number why }
{
    // Its clauses tell that the classes are few.
    let _count = classes.table().count();
    if joins(why) { number + 1 } else { number }
}

/// The verdicts on the files, in their order.
pub(crate) fn verdicts_of<'a>(
    alloc: Global,
    state: RandomState,
    classes: &Classes<'a>,
) -> Result<Vec<Verdict>, AllocError>
    requires { AreOfLibrary classes.now }
    ensures { IfOk result (λ verdicts. AreVerdictsOn classes.now verdicts.items) }
{
    let mut verdicts = Vec::new(alloc);
    let mut number = classes.host_count();
    for file in 0..classes.file_count() {
        let why = classes.load_verdict(file);
        verdicts.push(verdict_of(alloc, state, classes, number, why)?)?;
        number = next_number(classes, number, why);
    }
    Ok(verdicts)
}
