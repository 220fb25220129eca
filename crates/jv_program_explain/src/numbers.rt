//! The classes of files by number.

ghost use Rattle.std.specs.Prelude.{◌≡◌, ◌<◌, IsTrue, length};
ghost use Rattle.jv_program_explain.specs.Inside.Numbered.{why_of};
ghost use Rattle.jv_verify.specs.Inside.Numbered.{joins, next_number};

use jv_loader::{Classes, LoadVerdict};
use jv_meaning_typing::Verdict;

/// Whether the class of a file with this verdict is one of the guest's.
fn joins(verdict: Verdict) -> bool
    ensures { result ≡ joins (why_of verdict) }
{
    match verdict {
        Verdict::Refused(LoadVerdict::Version)
        | Verdict::Refused(LoadVerdict::Format)
        | Verdict::Refused(LoadVerdict::Unsupported)
        | Verdict::Refused(LoadVerdict::Reserved)
        | Verdict::Refused(LoadVerdict::Duplicate) => false,
        _ => true,
    }
}

/// The number that the class of the next file has.
pub(crate) fn next_number(classes: &Classes<'_>, number: usize, verdict: Verdict) -> usize
    requires { IsTrue (joins (why_of verdict)) → number < length classes.now.world }
    ensures { result ≡ next_number number (why_of verdict) }
{
    // Its clauses tell that the classes are few.
    let _count = classes.table().count();
    if joins(verdict) { number + 1 } else { number }
}
