//! Which local variables an instruction can give other types: those that it stores into, and those that hold a copy of an object that it
//! replaces (JVMS 4.10.1.4).

ghost use Rattle.std.specs.Prelude.{◌≡◌, ℕ, List, IfOk};
ghost use Rattle.std.specs.Option.{option_map};
ghost use Rattle.jv_code.specs.Insns.{instruction_of};
ghost use Rattle.jv_meaning_typing.specs.Environment.{Environment};
ghost use Rattle.jv_meaning_typing.specs.Rule.{constructed_object};
ghost use Rattle.jv_verify_types.specs.Typed.{typed};
ghost use Rattle.jv_verify_types.specs.Numbered.{frame_of};
ghost use Rattle.jv_verify_pass.specs.Pass.{IsOfPass, names_in};
ghost use Rattle.jv_verify_pass.specs.Inside.Changes.{stored_index, made_at, object_replaced, HoldCopies, CoversChanges};

use crate::pass::Pass;
use jv_code::Insn;
use jv_stackmap::VerificationTypeOf;
use jv_verify_frame::TypeFrame;
use jv_verify_rules::constructed_object;
use jv_verify_types::Item;
use std::alloc::{AllocError, Global};

/// The first local variable into which an instruction stores, if it does.
pub(crate) fn stored_index(insn: &Insn<&[u8]>) -> Option<u16>
    ensures { result ≡ stored_index (instruction_of insn.now) }
{
    match insn {
        Insn::Store(_, index, _) => Some(*index),
        Insn::StoreLong(index, _) => Some(*index),
        _ => None,
    }
}

/// What a `new` at an offset makes.
fn made_at(insn: &Insn<&[u8]>, offset: u16) -> Option<Item>
    ensures { (names : List (List ℕ)) → option_map (typed names) result ≡ made_at offset (instruction_of insn.now) }
{
    match insn {
        Insn::New(_) => Some(VerificationTypeOf::Uninitialized(offset)),
        _ => None,
    }
}

/// The object whose copies an instruction at an offset replaces.
fn object_replaced(
    pass: &Pass<'_, '_, '_, '_, '_>,
    frame: &TypeFrame,
    offset: u16,
    insn: &Insn<&[u8]>,
) -> Option<Item>
    ensures { (env : Environment) → IsOfPass pass.now env → option_map (typed (names_in pass.now)) result
        ≡ object_replaced offset (constructed_object env (instruction_of insn.now) (frame_of (names_in pass.now) frame.now))
        (instruction_of insn.now) }
{
    match made_at(insn, offset) {
        Some(object) => Some(object),
        None => constructed_object(pass.context, frame, insn),
    }
}

/// The places of local variables that hold a copy of an object, if there is one.
fn copies_of(alloc: Global, frame: &TypeFrame, object: Option<Item>) -> Result<Vec<u16>, AllocError>
    ensures { IfOk result (λ places. HoldCopies places.items object frame.now.locals) }
{
    match object {
        None => Ok(Vec::new(alloc)),
        Some(object) => frame.copies_in_locals(alloc, object),
    }
}

/// The places at which an instruction can change local variables, but for those that it stores into.
pub(crate) fn copies_changed(
    alloc: Global,
    pass: &Pass<'_, '_, '_, '_, '_>,
    frame: &TypeFrame,
    offset: u16,
    insn: &Insn<&[u8]>,
) -> Result<Vec<u16>, AllocError>
    ensures { IfOk result (λ copies. CoversChanges pass.now offset (instruction_of insn.now) frame.now copies.items) }
{
    let object = object_replaced(pass, frame, offset, insn);
    let copies = copies_of(alloc, frame, object)?;
    Ok(copies)
}
