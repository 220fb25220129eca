//! What a frame of a stack map wants of local variables.

ghost use Rattle.std.specs.Prelude.{◌≤◌, ◌<◌, length, IfOk, OnOk};
ghost use Rattle.jv_verify_maps.specs.Words.{words_at};
ghost use Rattle.jv_verify_open.specs.Inside.Finding.{AreMoreWanted};

use jv_verify_maps::MapWords;
use jv_verify_types::EntryTypes;
use jv_verify_wants::Wants;
use std::alloc::AllocError;

/// Where it is asked: what the entries of the map's frames stand for, these frames by words, and the offset of the instruction.
#[derive(Clone, Copy)]
pub struct At<'w, 'e, 't, 'a> {
    pub types: &'w EntryTypes<'e, 't, 'a>,
    pub words: &'w MapWords,
    pub offset: u32,
}

/// Words of the frame at a place, from one on before another, which are wanted before an offset.
#[derive(Clone, Copy)]
pub(crate) struct Stretch {
    pub(crate) place: usize,
    pub(crate) from: u16,
    pub(crate) to: u16,
    pub(crate) until: u32,
}

/// The last words of a stretch that stand beside each other come to be wanted. Where the first of them is.
fn want_last(wants: &mut Wants, at: At<'_, '_, '_, '_>, words: Stretch) -> Result<u16, AllocError>
    requires place { words.place < length at.words.now.frames }
    requires some { words.from < words.to }
    requires to { words.to ≤ length (words_at at.words.now words.place) }
    ensures from { IfOk result (λ end. words.from ≤ end) }
    ensures some { IfOk result (λ end. end < words.to) }
    ensures wanted { IfOk result (λ end.
        AreMoreWanted at.entry.types.now at.entry.words.now at.entry.offset words end wants.old wants.new) }
{
    let (first, stretch) = at.words.stretch(words.place, words.to);
    let end = first.max(words.from);
    let mut left = words.to;
    while left > end {
        left -= 1;
        let item = at.types.item(stretch[usize::from(words.to - 1 - left)]);
        wants.add(left, item, words.until, at.offset)?;
    }
    Ok(end)
}

/// The words of a stretch come to be wanted, if that doesn't end before.
pub(crate) fn want_words(
    wants: &mut Wants,
    at: At<'_, '_, '_, '_>,
    words: Stretch,
) -> Result<(), AllocError>
    requires place { words.place < length at.words.now.frames }
    requires to { words.to ≤ length (words_at at.words.now words.place) }
    ensures { OnOk result (AreMoreWanted at.entry.types.now at.entry.words.now at.entry.offset words words.from wants.old wants.new) }
{
    if words.until <= at.offset {
        return Ok(());
    }
    let mut left = words.to;
    while left > words.from {
        left = want_last(wants, at, Stretch { to: left, ..words })?;
    }
    Ok(())
}
