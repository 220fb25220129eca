//! Local variables that are made those of a frame of the stack map (JVMS 4.10.1.6).

ghost use Rattle.std.specs.Prelude.{◌≡◌, ◌≤◌, ◌<◌, ◌+◌, ◌*◌, ◌-◌, length};
ghost use Rattle.jv_stackmap.specs.declared.verification.VerificationTypeOf.TheVariants as variants;
ghost use Rattle.jv_verify_types.specs.Mapped.{names_of_types, EntryTypes};
ghost use Rattle.jv_verify_types.specs.Numbered.{with_locals};
ghost use Rattle.jv_verify_types.specs.Typed.{typed};
ghost use Rattle.jv_verify_maps.specs.Words.{words_at};
ghost use Rattle.jv_verify_known.specs.Known.{word_at};
ghost use Rattle.jv_verify_known.specs.Inside.Setting.{type_in, AreSet, AreSetWhereWritten};

use crate::blocks::range_of;
use crate::flowing::{entry_at, is_same};
use crate::writes::Writes;
use jv_stackmap::{FrameEntry, VerificationTypeOf};
use jv_verify_frame::TypeFrame;
use jv_verify_maps::MapWords;
use jv_verify_types::{EntryTypes, Item};

/// Gives a local variable a type, where it has another.
fn set_at(writes: &mut Writes, frame: &mut TypeFrame, at: u16, item: Item)
    requires { length frame.old.locals ≤ length writes.old.numbers * 16 }
    ensures set { (types : EntryTypes) → AreSet types writes.old writes.new frame.old.locals frame.new.locals
        (λ k. typed (names_of_types types) item) at (at + 1) }
    ensures blocks { length frame.new.locals ≤ length writes.new.numbers * 16 }
    ensures same { frame.new ≡ with_locals frame.new.locals frame.old }
{
    match frame.local(at) {
        Some(local) if is_same(local, item) => {}
        _ => {
            frame.put(at, item);
            writes.write(at);
        }
    }
}

/// Gives local variables from one on, before another, the type top.
fn set_tops(writes: &mut Writes, frame: &mut TypeFrame, from: u16, to: u16)
    requires { length frame.old.locals ≤ length writes.old.numbers * 16 }
    ensures set { (types : EntryTypes) → AreSet types writes.old writes.new frame.old.locals frame.new.locals
        (λ k. variants.Top) from to }
    ensures blocks { length frame.new.locals ≤ length writes.new.numbers * 16 }
    ensures same { frame.new ≡ with_locals frame.new.locals frame.old }
{
    let mut at = to;
    while at > from {
        at -= 1;
        set_at(writes, frame, at, VerificationTypeOf::Top);
    }
}

/// Gives local variables from one on, before another, the types of the entries of a stretch of words, which has the last first.
fn set_stretch(
    writes: &mut Writes,
    types: &EntryTypes<'_, '_, '_>,
    frame: &mut TypeFrame,
    stretch: &[FrameEntry],
    from: u16,
    to: u16,
)
    requires from { from ≤ to }
    requires blocks { length frame.old.locals ≤ length writes.old.numbers * 16 }
    ensures set { AreSet types.now writes.old writes.new frame.old.locals frame.new.locals (type_in types.now stretch.now to) from to }
    ensures same { frame.new ≡ with_locals frame.new.locals frame.old }
{
    let mut at = to;
    while at > from {
        at -= 1;
        let item = types.item(entry_at(stretch, to, at));
        set_at(writes, frame, at, item);
    }
}

/// Gives local variables from one on, before another, the types of their words of the frame at a place, which has as many.
fn set_words(
    words: &MapWords,
    writes: &mut Writes,
    types: &EntryTypes<'_, '_, '_>,
    frame: &mut TypeFrame,
    place: usize,
    from: u16,
    to: u16,
)
    requires place { place < length words.now.frames }
    requires to { to ≤ length (words_at words.now place) }
    requires blocks { length frame.old.locals ≤ length writes.old.numbers * 16 }
    ensures set { AreSet types.now writes.old writes.new frame.old.locals frame.new.locals (word_at types.now words.now place) from to }
    ensures same { frame.new ≡ with_locals frame.new.locals frame.old }
{
    let mut at = to;
    while at > from {
        let (first, stretch) = words.stretch(place, at);
        let end = first.max(from);
        set_stretch(writes, types, frame, stretch, end, at);
        at = end;
    }
}

/// Gives local variables from one on, before another, the types of their words of the frame at a place, top behind the last.
pub(crate) fn set_between(
    words: &MapWords,
    writes: &mut Writes,
    types: &EntryTypes<'_, '_, '_>,
    frame: &mut TypeFrame,
    place: usize,
    from: u16,
    to: u16,
)
    requires place { place < length words.now.frames }
    requires blocks { length frame.old.locals ≤ length writes.old.numbers * 16 }
    ensures set { AreSet types.now writes.old writes.new frame.old.locals frame.new.locals (word_at types.now words.now place) from to }
    ensures same { frame.new ≡ with_locals frame.new.locals frame.old }
{
    let count = words.count(place);
    set_tops(writes, frame, count.max(from), to);
    set_words(words, writes, types, frame, place, from, to.min(count));
}

/// Gives those of so many local variables these types that were written since a number.
pub(crate) fn set_written(
    words: &MapWords,
    writes: &mut Writes,
    types: &EntryTypes<'_, '_, '_>,
    frame: &mut TypeFrame,
    place: usize,
    since: u32,
    to: u16,
)
    requires place { place < length words.now.frames }
    requires since { since < writes.old.next }
    requires to { to ≤ length frame.old.locals }
    requires blocks { length frame.old.locals ≤ length writes.old.numbers * 16 }
    ensures set { AreSetWhereWritten types.now writes.old writes.new frame.old.locals frame.new.locals words.now place since to }
    ensures same { frame.new ≡ with_locals frame.new.locals frame.old }
{
    let end = writes.blocks();
    let mut block = 0;
    while let Some(found) = writes.written(block, end, since) {
        let (first, last) = range_of(found, 0, to);
        set_between(words, writes, types, frame, place, first, last);
        block = found + 1;
    }
}
