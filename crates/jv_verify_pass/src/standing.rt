//! Where frames of a stack map stand, and where what is not initialized in them was made (JVMS 4.7.4).

ghost use Rattle.std.specs.Prelude.{◌≡◌, ◌<◌, true, length, slice_get, take, Some, IfSome, is_some};
ghost use Rattle.std.specs.List.{list_all};
ghost use Rattle.std.specs.Option.{option_map};
ghost use Rattle.jv_code.specs.Insns.{instruction_of};
ghost use Rattle.jv_stackmap.specs.Entries.{ReadFrame};
ghost use Rattle.jv_meaning_typing.specs.Environment.{Environment, instruction_at};
ghost use Rattle.jv_meaning_typing.specs.Typing.{is_new};
ghost use Rattle.jv_verify_pass.specs.Inside.Parts.{HasCode, SharesBelowBefore, is_made_by_new, frame_stands};

use jv_code::{Code, Insn, Starts};
use jv_meaning_typing::instruction_at_is;
use jv_stackmap::{Entries, FrameEntry, MapFrame, MapFrames};

/// The instruction that starts at an offset; `None` where none does.
fn instruction_at<'a>(starts: &Starts<'_>, code: &Code<'a>, offset: u32) -> Option<Insn<&'a [u8]>>
    requires { starts.now ≡ code.now.bytes.now }
    ensures { (env : Environment) → HasCode code.now.bytes.now env → option_map instruction_of result ≡ instruction_at env offset }
{
    instruction_at_is();
    if starts.is_start(offset) {
        let (insn, _next) = code.insn_at(offset);
        Some(insn)
    } else {
        None
    }
}

/// Whether an instruction starts at an offset: none is decoded.
fn has_instruction(starts: &Starts<'_>, code: &Code<'_>, offset: u32) -> bool
    requires { starts.now ≡ code.now.bytes.now }
    ensures { (env : Environment) → HasCode code.now.bytes.now env → result ≡ is_some (instruction_at env offset) }
{
    instruction_at_is();
    // Reads a field, so that the invariant is known.
    let _bytes = code.bytes;
    starts.is_start(offset)
}

fn is_new(insn: &Insn<&[u8]>) -> bool
    ensures { result ≡ is_new (Some (instruction_of insn.now)) }
{
    matches!(insn, Insn::New(_))
}

/// Whether a `new` starts at an offset.
fn has_new(starts: &Starts<'_>, code: &Code<'_>, offset: u32) -> bool
    requires { starts.now ≡ code.now.bytes.now }
    ensures { (env : Environment) → HasCode code.now.bytes.now env → result ≡ is_new (instruction_at env offset) }
{
    match instruction_at(starts, code, offset) {
        Some(insn) => is_new(&insn),
        None => false,
    }
}

/// Whether what an entry stands for was made by a `new`, where it says which.
fn is_made_by_new(starts: &Starts<'_>, code: &Code<'_>, entry: FrameEntry) -> bool
    requires { starts.now ≡ code.now.bytes.now }
    ensures { (env : Environment) → HasCode code.now.bytes.now env → result ≡ is_made_by_new env entry }
{
    match entry {
        FrameEntry::Uninitialized(offset) => has_new(starts, code, u32::from(offset)),
        _ => true,
    }
}

/// Whether each of so many of the last local entries of a frame was.
fn last_are_made(
    starts: &Starts<'_>,
    code: &Code<'_>,
    mut entries: Entries<'_>,
    count: usize,
) -> bool
    requires { starts.now ≡ code.now.bytes.now }
    ensures { (env : Environment) → HasCode code.now.bytes.now env
        → result ≡ list_all (is_made_by_new env) (take count entries.entry) }
{
    let mut left = count;
    while left > 0 {
        let Some(entry) = entries.next() else {
            return true;
        };
        if !is_made_by_new(starts, code, entry) {
            return false;
        }
        left -= 1;
    }
    true
}

/// Whether each of these entries was.
fn are_made_by_new(starts: &Starts<'_>, code: &Code<'_>, mut entries: Entries<'_>) -> bool
    requires { starts.now ≡ code.now.bytes.now }
    ensures { (env : Environment) → HasCode code.now.bytes.now env → result ≡ list_all (is_made_by_new env) entries.entry }
{
    while let Some(entry) = entries.next() {
        if !is_made_by_new(starts, code, entry) {
            return false;
        }
    }
    true
}

/// How many local entries the frame at a place has above those that it is known to share with the one before it, if it has fewer than all.
fn above_before(frames: &MapFrames, place: usize, words: u16) -> Option<usize>
    requires { place < length frames.now }
    ensures { IfSome result (SharesBelowBefore frames.now place) }
{
    let before = place.checked_sub(1)?;
    let above = frames.above_shared(place, before, usize::from(words))?;
    Some(above.0)
}

/// Whether what is not initialized in the local entries of the frame at a place was made by a `new`, where the frames before it
/// stand: entries that the one before it has, too, are not gone through again.
fn locals_are_made(starts: &Starts<'_>, code: &Code<'_>, frames: &MapFrames, place: usize) -> bool
    requires starts { starts.now ≡ code.now.bytes.now }
    requires place { place < length frames.now }
    ensures { (env : Environment) → HasCode code.now.bytes.now env → list_all (frame_stands env) (take place frames.now) ≡ true
        → (f : ReadFrame) → slice_get frames.now place ≡ Some f → result ≡ list_all (is_made_by_new env) f.locals }
{
    let map = frames.frame_at(place);
    match above_before(frames, place, map.local_words()) {
        Some(count) => last_are_made(starts, code, map.locals(), count),
        None => are_made_by_new(starts, code, map.locals()),
    }
}

/// Whether a frame stands at an instruction, and what is not initialized in it was made by a `new`, as it is known whether that in
/// its local entries was.
fn frame_stands(starts: &Starts<'_>, code: &Code<'_>, map: &MapFrame<'_>, are_made: bool) -> bool
    requires { starts.now ≡ code.now.bytes.now }
    ensures { (env : Environment) → HasCode code.now.bytes.now env → are_made ≡ list_all (is_made_by_new env) map.now.locals
        → result ≡ frame_stands env map.now }
{
    has_instruction(starts, code, map.offset())
        && are_made
        && are_made_by_new(starts, code, map.stack())
}

/// Whether each frame does.
pub(crate) fn frames_stand(starts: &Starts<'_>, code: &Code<'_>, frames: &MapFrames) -> bool
    requires { starts.now ≡ code.now.bytes.now }
    ensures { (env : Environment) → HasCode code.now.bytes.now env → result ≡ list_all (frame_stands env) frames.now }
{
    for place in 0..frames.count() {
        let are_made = locals_are_made(starts, code, frames, place);
        if !frame_stands(starts, code, &frames.frame_at(place), are_made) {
            return false;
        }
    }
    true
}
