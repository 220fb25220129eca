//! The entries of frames (JVMS 4.7.4).

ghost use Rattle.std.specs.Prelude.{◌≡◌, slice_index_or, IsTrue};
ghost use Rattle.jv_stackmap.specs.Entries.{word_count, entry_words};
ghost use Rattle.jv_stackmap.specs.Inside.Steps.{object_at, entry_of};

use crate::item::Item;
use crate::width::Width;
use jv_pool::Pool;

/// A local variable or a stack item of a frame, where a long is one: an item of the stack map, or
/// an initial local entry. Which type it is, is a question to the class's pool and to the method's
/// descriptor.
#[derive(Clone, Copy)]
pub enum FrameEntry {
    /// Any word, which no instruction can use.
    Top,
    /// An int, a short, a char, a byte or a boolean.
    Int,
    /// A long, two words.
    Long,
    /// The type of `null`.
    Null,
    /// The receiver of a constructor that has not yet called another.
    UninitializedThis,
    /// What the Class constant at an index names.
    Object(u16),
    /// What the `new` at this offset in the code, in bytes, made.
    Uninitialized(u16),
    /// The initial local entry at a place, which counts from 0.
    Initial(u16),
}

fn object_at(pool: &Pool<'_>, class: u16) -> Option<FrameEntry>
    ensures { result ≡ object_at pool.now class }
{
    let _index = pool.class_index(class)?;
    Some(FrameEntry::Object(class))
}

/// The entry of an item; `None` where an Object's index is not that of a Class constant.
pub(crate) fn entry_of(pool: &Pool<'_>, item: Item) -> Option<FrameEntry>
    ensures { result ≡ entry_of pool.now item }
{
    match item {
        Item::Top => Some(FrameEntry::Top),
        Item::Integer => Some(FrameEntry::Int),
        Item::Long => Some(FrameEntry::Long),
        Item::Null => Some(FrameEntry::Null),
        Item::UninitializedThis => Some(FrameEntry::UninitializedThis),
        Item::Object(class) => object_at(pool, class),
        Item::Uninitialized(offset) => Some(FrameEntry::Uninitialized(offset)),
    }
}

/// Whether two entries are one.
#[inline(always)]
pub(crate) fn is_same(one: FrameEntry, other: FrameEntry) -> bool
    ensures { IsTrue result → one ≡ other }
{
    match (one, other) {
        (FrameEntry::Top, FrameEntry::Top) => true,
        (FrameEntry::Int, FrameEntry::Int) => true,
        (FrameEntry::Long, FrameEntry::Long) => true,
        (FrameEntry::Null, FrameEntry::Null) => true,
        (FrameEntry::Object(one), FrameEntry::Object(other)) => one == other,
        (FrameEntry::Uninitialized(one), FrameEntry::Uninitialized(other)) => one == other,
        (FrameEntry::Initial(one), FrameEntry::Initial(other)) => one == other,
        _ => false,
    }
}

fn word_count(width: Width) -> usize
    ensures { result ≡ word_count width }
{
    match width {
        Width::One => 1,
        Width::Two => 2,
    }
}

/// The words of the initial local entry at a place.
fn initial_words(place: u16, widths: &[Width]) -> usize
    ensures { result ≡ word_count (slice_index_or widths.now place Width.One) }
{
    match widths.get(usize::from(place)) {
        Some(width) => word_count(*width),
        None => 1,
    }
}

/// The words of an entry, by the widths of the initial ones.
pub(crate) fn entry_words(entry: FrameEntry, widths: &[Width]) -> usize
    ensures { result ≡ entry_words widths.now entry }
{
    match entry {
        FrameEntry::Long => 2,
        FrameEntry::Initial(place) => initial_words(place, widths),
        _ => 1,
    }
}
