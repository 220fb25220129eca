//! Lists of wants.

ghost use Rattle.std.specs.Prelude.{◌≡◌, ◌∷◌, ◌++◌, [], Option, Some, None, map, replicate, IfOk};
ghost use Rattle.jv_stackmap.specs.declared.verification.VerificationTypeOf.TheVariants as types;
ghost use Rattle.jv_operands.specs.Seen.{seen_want};
ghost use Rattle.jv_operands.specs.Wants.{of_type};
ghost use Rattle.jv_operands.specs.Inside.Listed.{as_list};

use crate::want::Want;
use jv_stackmap::VerificationTypeOf;
use std::alloc::{AllocError, Global};

/// These wants.
pub(crate) fn listed<'a>(
    alloc: Global,
    wants: &[Want<&'a [u8]>],
) -> Result<Vec<Want<&'a [u8]>>, AllocError>
    ensures { IfOk result (λ list. list.items ≡ wants.now) }
{
    wants.iter().copied().collect(alloc)
}

/// An int so many times.
pub(crate) fn ints<'a>(alloc: Global, count: u8) -> Result<Vec<Want<&'a [u8]>>, AllocError>
    ensures { IfOk result (λ list. map seen_want list.items ≡ replicate count (of_type types.Int)) }
{
    let mut list = Vec::with_capacity(alloc, usize::from(count))?;
    for _ in 0..count {
        list.push(Want::Type(VerificationTypeOf::Int))?;
    }
    Ok(list)
}

/// These wants, and one of the item below, where there is one.
pub(crate) fn with_receiver<'a>(
    mut wants: Vec<Want<&'a [u8]>>,
    receiver: Option<Want<&'a [u8]>>,
) -> Result<Vec<Want<&'a [u8]>>, AllocError>
    ensures { IfOk result (λ list. list.items ≡ wants.entry.items ++ as_list receiver.entry) }
{
    if let Some(want) = receiver {
        wants.push(want)?;
    }
    Ok(wants)
}
