//! Frames by words, made of those of a stack map.

ghost use Rattle.std.specs.Prelude.{◌≡◌, ◌≤◌, ◌<◌, ◌+◌, ◌∷◌, ◌++◌, List, drop, length, take, IfOk, OnOk};
ghost use Rattle.jv_stackmap.specs.declared.entry.FrameEntry.{FrameEntry};
ghost use Rattle.jv_verify_types.specs.Mapped.{HaveWords, local_entry_words};
ghost use Rattle.jv_verify_maps.specs.Words.{entry_by_words, map_by_words};
ghost use Rattle.jv_verify_maps.specs.Inside.Made.{first_this_behind, is_this, pushed_words, AreMade, Lays, SharesBefore};

use crate::frames::{MapWords, WordsOf};
use jv_stackmap::{FrameEntry, MapFrame, MapFrames, VerificationTypeOf};
use jv_verify_types::{EntryTypes, words_of};
use std::alloc::{AllocError, Global};

/// No word is `this`: a frame has fewer.
const NONE: u16 = 65_535;

/// How many words of a frame are below those that are laid, and the first of these that is `this`, not initialized.
#[derive(Clone, Copy)]
struct Laid {
    at: u16,
    this: u16,
}

/// Whether an entry is `this`, not initialized.
fn is_this(types: &EntryTypes<'_, '_, '_>, entry: FrameEntry) -> bool
    ensures { result ≡ is_this types.now entry }
{
    matches!(types.item(entry), VerificationTypeOf::UninitializedThis)
}

/// Puts an entry behind others, and top before it where it has two words.
fn push_words(words: &mut Vec<FrameEntry>, entry: FrameEntry, count: u16) -> Result<(), AllocError>
    ensures { OnOk result (words.new.items ≡ words.old.items ++ pushed_words entry count) }
{
    if count == 2 {
        words.push(FrameEntry::Top)?;
    }
    words.push(entry)?;
    Ok(())
}

/// Puts the words of an entry behind others, the last first.
fn push_entry(
    types: &EntryTypes<'_, '_, '_>,
    words: &mut Vec<FrameEntry>,
    laid: Laid,
    entry: FrameEntry,
) -> Result<Laid, AllocError>
    requires { length (entry_by_words types.now entry) ≤ laid.at }
    ensures { IfOk result (λ more. (locals left old : List FrameEntry) → Lays types.now locals (entry ∷ left) old words.old.items laid
        → Lays types.now locals left old words.new.items more) }
{
    let count = words_of(types.item(entry));
    push_words(words, entry, count)?;
    let at = laid.at - count;
    if is_this(types, entry) {
        return Ok(Laid { at, this: at });
    }
    Ok(Laid {
        at,
        this: laid.this,
    })
}

/// Adds the words of so many of the last local entries of a frame, the last first.
fn push_above(
    types: &EntryTypes<'_, '_, '_>,
    words: &mut Vec<FrameEntry>,
    map: &MapFrame<'_>,
    above: usize,
) -> Result<Laid, AllocError>
    requires { map.now.local_words ≡ local_entry_words types.now map.now }
    ensures { IfOk result (λ laid. Lays types.now map.now.locals (drop above map.now.locals) words.old.items words.new.items laid) }
{
    let mut laid = Laid {
        at: map.local_words(),
        this: NONE,
    };
    let mut entries = map.locals();
    let mut left = above;
    while left > 0 {
        let Some(entry) = entries.next() else {
            return Ok(laid);
        };
        laid = push_entry(types, words, laid, entry)?;
        left -= 1;
    }
    Ok(laid)
}

/// How many of the last local entries the frame at a place has that the one before it is not known to have; at least all of the first.
fn above_before(frames: &MapFrames, place: usize) -> usize
    requires { place < length frames.now }
    ensures { SharesBefore frames.now place result }
{
    if place == 0 {
        return usize::MAX;
    }
    match frames.above_shared(place, place - 1, usize::MAX) {
        Some((above, _)) => above,
        None => usize::MAX,
    }
}

/// The first word that is `this`, of those that a frame shares with the one before it, or of those above.
fn first_this(made: &[WordsOf], laid: Laid) -> u16
    ensures { result ≡ first_this_behind made.now laid }
{
    match made.last() {
        Some(before) if before.this < laid.at => before.this,
        _ => laid.this,
    }
}

/// The number of the next of some words; want of memory where it would not fit.
fn end_of(words: &[FrameEntry]) -> Result<u32, AllocError>
    ensures { IfOk result (λ end. end ≡ length words.now) }
{
    match u32::try_from(words.len()) {
        Ok(end) => Ok(end),
        Err(_) => Err(AllocError),
    }
}

/// Adds the frame at a place behind those before it.
fn push(
    types: &EntryTypes<'_, '_, '_>,
    words: &mut Vec<FrameEntry>,
    made: &mut Vec<WordsOf>,
    frames: &MapFrames,
    place: usize,
) -> Result<(), AllocError>
    requires words { HaveWords types.now frames.now }
    requires place { place < length frames.now }
    requires made { AreMade types.now (take place frames.now) words.old.items made.old.items }
    ensures { OnOk result (AreMade types.now (take (place + 1) frames.now) words.new.items made.new.items) }
{
    let map = frames.frame_at(place);
    let start = end_of(words)?;
    let laid = push_above(types, words, &map, above_before(frames, place))?;
    made.push(WordsOf {
        start,
        count: map.local_words(),
        shared: laid.at,
        this: first_this(made, laid),
    })?;
    Ok(())
}

/// The frames of a stack map by words.
///
/// # Errors
///
/// Where the host had no memory for them, or they have 4,294,967,296 words of their own.
pub fn map_words(
    alloc: Global,
    types: &EntryTypes<'_, '_, '_>,
    frames: &MapFrames,
) -> Result<MapWords, AllocError>
    requires { HaveWords types.now frames.now }
    ensures { IfOk result (λ words. words ≡ map_by_words types.now frames.now) }
{
    let mut words = Vec::new(alloc);
    let mut made = Vec::with_capacity(alloc, frames.count())?;
    for place in 0..frames.count() {
        push(types, &mut words, &mut made, frames, place)?;
    }
    MapWords::of(alloc, words, made)
}
