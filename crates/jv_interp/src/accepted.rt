//! Which classes of a guest were accepted.

ghost use Rattle.std.specs.Prelude.{◌≡◌, ◌++◌, IfOk, OnOk};
ghost use Rattle.std.specs.Option.{option_to_list};
ghost use Rattle.jv_interp.specs.VerifiedClasses.{class_accepted, accepted_by};

use jv_meaning_typing::Verdict;
use jv_meaning_world::LoadVerdict;
use jv_verify::Verified;
use std::alloc::{AllocError, Global};

/// Whether the class of a file with a verdict was accepted, where it is one of the world's.
fn class_accepted(verdict: Verdict) -> Option<bool>
    ensures { result ≡ class_accepted verdict }
{
    match verdict {
        Verdict::Refused(LoadVerdict::Version)
        | Verdict::Refused(LoadVerdict::Format)
        | Verdict::Refused(LoadVerdict::Unsupported)
        | Verdict::Refused(LoadVerdict::Reserved)
        | Verdict::Refused(LoadVerdict::Duplicate) => None,
        Verdict::Accepted => Some(true),
        _ => Some(false),
    }
}

/// A flag comes behind the others, if there is one.
fn push_some(flags: &mut Vec<bool>, flag: Option<bool>) -> Result<(), AllocError>
    ensures { OnOk result (flags.new.items ≡ flags.old.items ++ option_to_list flag) }
{
    match flag {
        Some(flag) => Ok(flags.push(flag)?),
        None => Ok(()),
    }
}

/// Of each class, by its number, whether it was accepted (JVMS 4.10): each that the host gives was.
pub(crate) fn accepted_classes(
    alloc: Global,
    verified: &Verified<'_>,
) -> Result<Vec<bool>, AllocError>
    ensures { IfOk result (λ flags. flags.items ≡ accepted_by verified.now.host verified.now.verdicts) }
{
    let mut flags = vec![in alloc; true; verified.host_count()]?;
    for file in 0..verified.file_count() {
        push_some(&mut flags, class_accepted(verified.verdict(file)))?;
    }
    Ok(flags)
}
