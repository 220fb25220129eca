//! Reads frames from the front of bytes into a table.

ghost use Rattle.std.specs.Prelude.{◌≡◌, ◌<◌, ◌≤◌, [], length};
ghost use Rattle.jv_format.specs.Format.{Finds};
ghost use Rattle.jv_stackmap.specs.Inside.Reading.{IsGiven, item};
ghost use Rattle.jv_stackmap.specs.Inside.Steps.{item_laid, items_laid, counted_laid, short_begun, append_begun, full_begun, form_begun, frame_read, frames_read, started, table_read};

use crate::entry::entry_of;
use crate::fault::FrameFault;
use crate::item::Item;
use crate::limits::Limits;
use crate::table::FrameTable;
use crate::width::Width;
use jv_format::{byte_at, half_at};
use jv_pool::Pool;
use std::alloc::Global;

/// The item at the front, and what follows it.
fn item_at(bytes: &[u8]) -> Option<(Item, &[u8])>
    ensures { Finds item bytes.now (λ x. (x.0, x.1.now)) result }
{
    let Some((tag, rest)) = byte_at(bytes) else {
        return None;
    };
    match tag {
        0 => Some((Item::Top, rest)),
        1 => Some((Item::Integer, rest)),
        4 => Some((Item::Long, rest)),
        5 => Some((Item::Null, rest)),
        6 => Some((Item::UninitializedThis, rest)),
        7 => {
            let Some((class, rest)) = half_at(rest) else {
                return None;
            };
            Some((Item::Object(class), rest))
        }
        8 => {
            let Some((offset, rest)) = half_at(rest) else {
                return None;
            };
            Some((Item::Uninitialized(offset), rest))
        }
        _ => None,
    }
}

/// Lays the item at the front, and gives what follows it.
fn lay_item<'b>(
    table: &mut FrameTable<'_>,
    pool: &Pool<'_>,
    bytes: &'b [u8],
) -> Result<&'b [u8], FrameFault>
    ensures { IsGiven (item_laid pool.now table.old bytes.now) (λ rest. (table.new, rest.now)) result }
{
    let Some((item, rest)) = item_at(bytes) else {
        return Err(FrameFault::BadFrames);
    };
    let Some(entry) = entry_of(pool, item) else {
        return Err(FrameFault::BadFrames);
    };
    table.push(entry)?;
    Ok(rest)
}

/// Lays as many items as the number says, and gives what follows them.
fn lay_items<'b>(
    table: &mut FrameTable<'_>,
    pool: &Pool<'_>,
    count: u16,
    bytes: &'b [u8],
) -> Result<&'b [u8], FrameFault>
    ensures { IsGiven (items_laid pool.now count table.old bytes.now) (λ rest. (table.new, rest.now)) result }
{
    let mut rest = bytes;
    for _ in 0..count {
        rest = lay_item(table, pool, rest)?;
    }
    Ok(rest)
}

/// Lays the items behind the count at the front, and gives what follows them.
fn lay_counted<'b>(
    table: &mut FrameTable<'_>,
    pool: &Pool<'_>,
    bytes: &'b [u8],
) -> Result<&'b [u8], FrameFault>
    ensures { IsGiven (counted_laid pool.now table.old bytes.now) (λ rest. (table.new, rest.now)) result }
{
    let Some((count, rest)) = half_at(bytes) else {
        return Err(FrameFault::BadFrames);
    };
    lay_items(table, pool, count, rest)
}

/// Begins the frame of a type below 252; its delta, and what follows it.
fn begin_short<'b>(
    table: &mut FrameTable<'_>,
    pool: &Pool<'_>,
    tag: u8,
    bytes: &'b [u8],
) -> Result<(u16, &'b [u8]), FrameFault>
    requires { tag < 252 }
    ensures { IsGiven (short_begun pool.now tag table.old bytes.now) (λ x. ((x.0, table.new), x.1.now)) result }
{
    if tag < 64 {
        Ok((u16::from(tag), bytes))
    } else if tag < 128 {
        let rest = lay_item(table, pool, bytes)?;
        Ok((u16::from(tag - 64), rest))
    } else if tag < 247 {
        Err(FrameFault::BadFrames)
    } else {
        begin_extended(table, pool, tag, bytes)
    }
}

/// Begins the frame of a type from 247 to 251; its delta, and what follows it.
fn begin_extended<'b>(
    table: &mut FrameTable<'_>,
    pool: &Pool<'_>,
    tag: u8,
    bytes: &'b [u8],
) -> Result<(u16, &'b [u8]), FrameFault>
    requires low { 247 ≤ tag }
    requires high { tag < 252 }
    ensures { IsGiven (short_begun pool.now tag table.old bytes.now) (λ x. ((x.0, table.new), x.1.now)) result }
{
    let Some((delta, rest)) = half_at(bytes) else {
        return Err(FrameFault::BadFrames);
    };
    if tag == 247 {
        let rest = lay_item(table, pool, rest)?;
        Ok((delta, rest))
    } else if tag < 251 {
        if table.chop(251 - tag) {
            Ok((delta, rest))
        } else {
            Err(FrameFault::BadFrames)
        }
    } else {
        Ok((delta, rest))
    }
}

/// Begins the frame of a type from 252 to 254, which adds so many local entries; its delta, and
/// what follows it.
fn begin_append<'b>(
    table: &mut FrameTable<'_>,
    pool: &Pool<'_>,
    count: u16,
    bytes: &'b [u8],
) -> Result<(u16, &'b [u8]), FrameFault>
    ensures { IsGiven (append_begun pool.now count table.old bytes.now) (λ x. ((x.0, table.new), x.1.now)) result }
{
    let Some((delta, rest)) = half_at(bytes) else {
        return Err(FrameFault::BadFrames);
    };
    table.resume();
    let rest = lay_items(table, pool, count, rest)?;
    table.settle();
    Ok((delta, rest))
}

/// Begins the frame of type 255; its delta, and what follows it.
fn begin_full<'b>(
    table: &mut FrameTable<'_>,
    pool: &Pool<'_>,
    bytes: &'b [u8],
) -> Result<(u16, &'b [u8]), FrameFault>
    ensures { IsGiven (full_begun pool.now table.old bytes.now) (λ x. ((x.0, table.new), x.1.now)) result }
{
    let Some((delta, rest)) = half_at(bytes) else {
        return Err(FrameFault::BadFrames);
    };
    let rest = lay_counted(table, pool, rest)?;
    table.settle();
    let rest = lay_counted(table, pool, rest)?;
    Ok((delta, rest))
}

/// Begins the frame whose type and whose further bytes these are; its delta, and what follows it.
fn begin<'b>(
    table: &mut FrameTable<'_>,
    pool: &Pool<'_>,
    tag: u8,
    bytes: &'b [u8],
) -> Result<(u16, &'b [u8]), FrameFault>
    ensures { IsGiven (form_begun pool.now tag table.old bytes.now) (λ x. ((x.0, table.new), x.1.now)) result }
{
    if tag < 252 {
        begin_short(table, pool, tag, bytes)
    } else if tag < 255 {
        begin_append(table, pool, u16::from(tag - 251), bytes)
    } else {
        begin_full(table, pool, bytes)
    }
}

/// Reads the frame at the front, and gives what follows it.
fn read_frame<'b>(
    table: &mut FrameTable<'_>,
    pool: &Pool<'_>,
    limits: Limits,
    bytes: &'b [u8],
) -> Result<&'b [u8], FrameFault>
    requires { length table.old.frames < 65535 }
    ensures { IsGiven (frame_read pool.now limits table.old bytes.now) (λ rest. (table.new, rest.now)) result }
{
    let Some((tag, rest)) = byte_at(bytes) else {
        return Err(FrameFault::BadFrames);
    };
    let (delta, rest) = begin(table, pool, tag, rest)?;
    table.finish(limits, delta)?;
    Ok(rest)
}

/// Reads as many frames as the number says, and gives what follows them.
fn read_frames_at<'b>(
    table: &mut FrameTable<'_>,
    pool: &Pool<'_>,
    limits: Limits,
    count: u16,
    bytes: &'b [u8],
) -> Result<&'b [u8], FrameFault>
    requires { table.old.frames ≡ [] }
    ensures { IsGiven (frames_read pool.now limits count table.old bytes.now) (λ rest. (table.new, rest.now)) result }
{
    let mut rest = bytes;
    for _ in 0..count {
        rest = read_frame(table, pool, limits, rest)?;
    }
    Ok(rest)
}

/// The frames of the table that the bytes are, behind initial local entries of these widths.
pub(crate) fn read_table<'i>(
    alloc: Global,
    bytes: &[u8],
    pool: &Pool<'_>,
    widths: &'i [Width],
    limits: Limits,
) -> Result<FrameTable<'i>, FrameFault>
    ensures { IsGiven (table_read pool.now limits (started widths.now) bytes.now) (λ t. t) result }
{
    let Some((count, rest)) = half_at(bytes) else {
        return Err(FrameFault::BadFrames);
    };
    let capacity = bytes.len().saturating_add(widths.len());
    let mut table = FrameTable::new(alloc, widths, capacity)?;
    let rest = read_frames_at(&mut table, pool, limits, count, rest)?;
    if rest.is_empty() {
        Ok(table)
    } else {
        Err(FrameFault::BadFrames)
    }
}
