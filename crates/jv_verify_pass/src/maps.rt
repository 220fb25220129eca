//! Stack maps (JVMS 4.7.4).

ghost use Rattle.std.specs.Prelude.{◌≡◌, ◌≤◌, ℕ, List, IfOk, IfSome};
ghost use Rattle.std.specs.List.{All};
ghost use Rattle.std.specs.Option.{option_map};
ghost use Rattle.jv_class_structure.specs.Seen.{seen_bytes};
ghost use Rattle.jv_stackmap.specs.Entries.{HaveWidths, word_count};
ghost use Rattle.jv_stackmap.specs.Types.{width};
ghost use Rattle.jv_verify_types.specs.Typed.{typed, typed_all};
ghost use Rattle.jv_verify_pass.specs.Tables.{entry_types, IsMapOf};
ghost use Rattle.jv_verify_pass.specs.Inside.Parts.{IsSpelled};
ghost use Rattle.jv_verify_types.specs.Mapped.{HaveWords};

use crate::standing::frames_stand;
use jv_code::{Code, Starts};
use jv_stackmap::{
    FrameFault, Limits, MapFrames, VerificationTypeOf, Width, no_frames, one_maps, read_frames,
};
use jv_verify_types::{ConstantTypes, Item};
use std::alloc::{AllocError, Global};

fn width_of(item: Item) -> Width
    ensures { (names : List (List ℕ)) → width (typed names item) ≡ word_count result }
{
    match item {
        VerificationTypeOf::Long => Width::Two,
        _ => Width::One,
    }
}

/// The widths of the initial local entries.
fn widths_of(alloc: Global, entries: &[Item]) -> Result<Vec<Width>, AllocError>
    ensures { IfOk result (λ widths. (names : List (List ℕ)) → HaveWidths (typed_all names entries.now) widths.items) }
{
    let mut widths = Vec::with_capacity(alloc, entries.len())?;
    for item in entries {
        widths.push(width_of(*item))?;
    }
    Ok(widths)
}

/// The frames that the contents of a stack map spell; `None` where they spell none.
fn spelled_frames(
    alloc: Global,
    constants: &ConstantTypes<'_, '_>,
    initial: &[Item],
    limits: Limits,
    bytes: &[u8],
) -> Result<Option<MapFrames>, AllocError>
    ensures spelled { IfOk result (λ found. IsSpelled (entry_types constants.now initial.now) limits bytes.now found) }
    ensures words { IfOk result (λ found. IfSome found (HaveWords (entry_types constants.now initial.now))) }
    ensures room { IfOk result (λ found. IfSome found (λ frames. All (λ f. f.local_words ≤ limits.max_locals) frames)) }
{
    let widths = widths_of(alloc, initial)?;
    match read_frames(alloc, bytes, constants.pool(), &widths, limits) {
        Ok(frames) => Ok(Some(frames)),
        Err(FrameFault::BadFrames) => Ok(None),
        Err(FrameFault::OutOfMemory) => Err(AllocError),
    }
}

/// The frames of a method's stack map behind initial local entries, where they are right: without the attribute none.
///
/// # Errors
///
/// Where the host had no memory for them, or they have more than 4,294,967,295 entries.
pub fn read_map(
    alloc: Global,
    constants: &ConstantTypes<'_, '_>,
    initial: &[Item],
    starts: &Starts<'_>,
    code: &Code<'_>,
    limits: Limits,
    bytes: Option<&[u8]>,
) -> Result<Option<MapFrames>, AllocError>
    requires { starts.now ≡ code.now.bytes.now }
    ensures map { IfOk result (IsMapOf constants.now initial.now code.now.bytes.now limits (option_map seen_bytes bytes.entry)) }
    ensures words { IfOk result (λ found. IfSome found (HaveWords (entry_types constants.now initial.now))) }
    ensures room { IfOk result (λ found. IfSome found (λ frames. All (λ f. f.local_words ≤ limits.max_locals) frames)) }
{
    one_maps();
    let Some(bytes) = bytes else {
        return Ok(Some(no_frames(alloc)));
    };
    let Some(frames) = spelled_frames(alloc, constants, initial, limits, bytes)? else {
        return Ok(None);
    };
    if frames_stand(starts, code, &frames) {
        Ok(Some(frames))
    } else {
        Ok(None)
    }
}
