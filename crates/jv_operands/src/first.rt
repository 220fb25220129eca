//! The first want that is not met.

ghost use Rattle.std.specs.Prelude.{◌≡◌, Some, map, slice_get, IfOk};
ghost use Rattle.std.specs.Option.{option_map};
ghost use Rattle.jv_code.specs.Insns.{instruction_of};
ghost use Rattle.jv_meaning_typing.specs.Environment.{Environment};
ghost use Rattle.jv_stackmap.specs.Frames.{Frame};
ghost use Rattle.jv_stackmap.specs.Seen.{seen_type};
ghost use Rattle.jv_operands.specs.Seen.{IsFrameOf, IsMethodOf, seen_unmet, seen_want};
ghost use Rattle.jv_operands.specs.Unmet.{first_unmet, first_unmet_item, unmet_local};
ghost use Rattle.jv_operands.specs.Inside.Locals.{seen_local};
ghost use Rattle.jv_operands.specs.Inside.Met.{is_met_by};

use crate::frame::FrameTypes;
use crate::local::{LocalWant, local_want};
use crate::met::is_met;
use crate::method::MethodParts;
use crate::unmet::{Place, UnmetWant};
use crate::want::Want;
use crate::wants::item_wants;
use jv_classes::ClassTable;
use jv_code::Insn;
use jv_stackmap::VerificationTypeOf;
use std::alloc::{AllocError, Global};

/// The type at a place.
fn type_at<'a>(
    types: &[VerificationTypeOf<&'a [u8]>],
    place: usize,
) -> Option<VerificationTypeOf<&'a [u8]>>
    ensures { option_map seen_type result ≡ slice_get (map seen_type types.now) place }
{
    types.get(place).copied()
}

/// Whether what is there, if anything is, meets a want.
fn is_met_by(
    table: &ClassTable<'_>,
    want: &Want<&[u8]>,
    found: Option<VerificationTypeOf<&[u8]>>,
) -> bool
    ensures { result ≡ is_met_by table.now (seen_want want.now) (option_map seen_type found.entry) }
{
    match found {
        Some(item) => is_met(table, want, &item),
        None => false,
    }
}

/// The first item from the top down that doesn't meet what is wanted of it.
fn first_unmet_item<'a>(
    table: &ClassTable<'_>,
    wants: &[Want<&'a [u8]>],
    stack: &[VerificationTypeOf<&'a [u8]>],
) -> Option<UnmetWant<&'a [u8]>>
    ensures { option_map seen_unmet result ≡ first_unmet_item table.now 0 (map seen_want wants.now) (map seen_type stack.now) }
{
    for depth in 0..wants.len() {
        let want = wants[depth];
        let found = type_at(stack, depth);
        if !is_met_by(table, &want, found) {
            return Some(UnmetWant {
                place: Place::Item(depth),
                want,
                found,
            });
        }
    }
    None
}

/// The local variable, where it doesn't meet what is wanted of it.
fn unmet_at<'a>(
    table: &ClassTable<'_>,
    wanted: LocalWant<'a>,
    locals: &[VerificationTypeOf<&'a [u8]>],
) -> Option<UnmetWant<&'a [u8]>>
    ensures { option_map seen_unmet result ≡ unmet_local table.now (Some (seen_local wanted.entry)) (map seen_type locals.now) }
{
    let found = type_at(locals, wanted.index);
    if is_met_by(table, &wanted.want, found) {
        None
    } else {
        Some(UnmetWant {
            place: Place::Local(wanted.index),
            want: wanted.want,
            found,
        })
    }
}

/// The local variable, where one is wanted and doesn't meet it.
fn unmet_local<'a>(
    table: &ClassTable<'_>,
    wanted: Option<LocalWant<'a>>,
    locals: &[VerificationTypeOf<&'a [u8]>],
) -> Option<UnmetWant<&'a [u8]>>
    ensures { option_map seen_unmet result ≡ unmet_local table.now (option_map seen_local wanted.entry) (map seen_type locals.now) }
{
    match wanted {
        Some(wanted) => unmet_at(table, wanted, locals),
        None => None,
    }
}

/// The first want of an instruction of a method, of the stack's items from the top down and then of a local variable, that the frame
/// before it doesn't meet (JVMS 4.10.1.9); `None` where all are met, or the constant that the instruction names is of another kind than
/// it wants. Where there is one, the instruction is not type safe there (`unmet_is_unsafe`).
///
/// # Errors
///
/// Where there was no memory for the wants.
pub fn first_unmet<'a>(
    alloc: Global,
    table: &ClassTable<'_>,
    method: &MethodParts<'_, 'a>,
    insn: &Insn<&[u8]>,
    types: FrameTypes<'_, 'a>,
) -> Result<Option<UnmetWant<&'a [u8]>>, AllocError>
    ensures { (env : Environment) (frame : Frame) → env.world ≡ table.now → IsMethodOf method.now env → IsFrameOf types.entry frame
        → IfOk result (λ found. option_map seen_unmet found ≡ first_unmet env (instruction_of insn.now) frame) }
{
    let wants = item_wants(alloc, method, insn)?;
    match first_unmet_item(table, &wants, types.stack) {
        Some(unmet) => Ok(Some(unmet)),
        None => Ok(unmet_local(table, local_want(insn), types.locals)),
    }
}
