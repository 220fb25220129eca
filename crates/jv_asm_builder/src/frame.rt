//! Stack maps (JVMS 4.7.4).

ghost use Rattle.std.specs.Prelude.{◌≡◌, ◌++◌, ◌<◌, OnOk, length, map};
ghost use Rattle.jv_stackmap.specs.Bytes.{item_bytes, counted_bytes};
ghost use Rattle.jv_asm_builder.specs.Faults.{IsAnswer};
ghost use Rattle.jv_asm_builder.specs.Assembly.{stack_map_type, stack_map_table};
ghost use Rattle.jv_asm_builder.specs.Inside.Kept.{frame_kept, contents_kept, full_bytes};
ghost use Rattle.jv_asm_builder.specs.Inside.Behind.{frame_behind, frames_behind};

use crate::fault::BuilderFault;
use jv_asm::{put_half, put_index};
use std::alloc::{AllocError, Global};

/// What a local variable or a stack entry holds (JVMS 4.7.4, 4.10.1.2).
#[derive(Clone, Copy)]
pub enum VerificationType {
    Top,
    Integer,
    /// Two words, one entry.
    Long,
    Null,
    UninitializedThis,
    /// The class or array type at an index, as `ClassBuilder::class` gives it.
    Object(u16),
    /// What the `new` at an offset made, as `CodeBuilder::offset` gave it before that `new`.
    Uninitialized(u16),
}

/// A frame at an offset.
#[derive(Drop)]
pub(crate) struct BuiltFrame {
    pub(crate) offset: u16,
    pub(crate) locals: Vec<VerificationType>,
    pub(crate) stack: Vec<VerificationType>,
}

fn put_type(out: &mut Vec<u8>, entry: VerificationType) -> Result<(), AllocError>
    ensures { OnOk result (out.new.items ≡ out.old.items ++ item_bytes (stack_map_type entry)) }
{
    match entry {
        VerificationType::Top => Ok(out.push(0)?),
        VerificationType::Integer => Ok(out.push(1)?),
        VerificationType::Long => Ok(out.push(4)?),
        VerificationType::Null => Ok(out.push(5)?),
        VerificationType::UninitializedThis => Ok(out.push(6)?),
        VerificationType::Object(class) => put_index(out, 7, class),
        VerificationType::Uninitialized(offset) => put_index(out, 8, offset),
    }
}

/// Entries behind their number.
fn put_types(out: &mut Vec<u8>, entries: &[VerificationType]) -> Result<(), AllocError>
    requires { length entries.now < 65536 }
    ensures { OnOk result (out.new.items ≡ out.old.items ++ counted_bytes (map stack_map_type entries.now)) }
{
    put_half(out, entries.len() as u16)?;
    for entry in entries {
        put_type(out, *entry)?;
    }
    Ok(())
}

/// What a full frame holds, its offset_delta first.
fn put_full(out: &mut Vec<u8>, delta: u16, frame: &BuiltFrame) -> Result<(), AllocError>
    requires locals { length frame.now.locals.items < 65536 }
    requires stack { length frame.now.stack.items < 65536 }
    ensures { OnOk result (out.new.items ≡ out.old.items ++ full_bytes delta frame.now) }
{
    put_index(out, 255, delta)?;
    put_types(out, &frame.locals)?;
    put_types(out, &frame.stack)
}

/// A full frame, where the frames before it leave the place from `base`.
fn put_frame(out: &mut Vec<u8>, base: u32, frame: &BuiltFrame) -> Result<(), BuilderFault>
    ensures { IsAnswer (frame_behind out.old.items base (frame_kept frame.now)) (λ _. out.new.items) result }
{
    let offset = u32::from(frame.offset);
    if offset < base {
        return Err(BuilderFault::TwoFrames);
    }
    if frame.locals.len() > 65535 || frame.stack.len() > 65535 {
        return Err(BuilderFault::TooLarge);
    }
    put_full(out, (offset - base) as u16, frame)?;
    Ok(())
}

/// Frames, the first of which can stand at the start.
fn put_frames(out: &mut Vec<u8>, frames: &[BuiltFrame]) -> Result<(), BuilderFault>
    ensures { IsAnswer (frames_behind out.old.items 0 (map frame_kept frames.now)) (λ _. out.new.items) result }
{
    let mut base = 0;
    for frame in frames {
        put_frame(out, base, frame)?;
        base = u32::from(frame.offset) + 1;
    }
    Ok(())
}

/// What a StackMapTable with these frames holds, if there are some.
pub(crate) fn stack_map_contents(
    alloc: Global,
    frames: &[BuiltFrame],
) -> Result<Option<Vec<u8>>, BuilderFault>
    ensures { IsAnswer (stack_map_table (map frame_kept frames.now)) contents_kept result }
{
    if frames.is_empty() {
        return Ok(None);
    }
    if frames.len() > 65535 {
        return Err(BuilderFault::TooLarge);
    }
    let mut out = Vec::new(alloc);
    put_half(&mut out, frames.len() as u16)?;
    put_frames(&mut out, frames)?;
    Ok(Some(out))
}
