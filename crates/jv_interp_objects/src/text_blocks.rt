//! Strings of known texts.

ghost use Rattle.std.specs.Prelude.{◌≡◌, ◌+◌, ◌<◌, ◌≤◌, length, IfOk, IsOk, IsTrue, OnOk, OnErr};
ghost use Rattle.jv_text.specs.Text.{IsText};
ghost use Rattle.jv_interp_objects.specs.Units.{HasUnits};
ghost use Rattle.jv_interp_objects.specs.TextBlocks.{JoinsText, PaysText};

use crate::blocks::array_block;
use crate::units::{CHARS, fill};
use jv_interp_heap::{STRING, make_object};
use jv_store::{OutOfMemory, Store};

/// Makes a String of a text with so many units, and then its array of chars, and answers the String's address.
///
/// # Errors
///
/// Where the host had no memory for them; the store is then as it was.
fn text_blocks<S: Store>(store: &mut S, text: &[u8], count: u32) -> Result<u32, OutOfMemory>
    requires few { length text.now < 2147483648 }
    requires text { IsText text.now }
    requires count { HasUnits text.now count }
    requires some { count < 2147483648 }
    requires room { 4 + count ≤ S.room_left store.old }
    ensures made { IfOk result (JoinsText text.now (S.content store.old) (S.content store.new)) }
    ensures room { OnOk result (S.room_left store.new + (4 + count) ≡ S.room_left store.old) }
    ensures refused { OnErr result (S.content store.new ≡ S.content store.old) }
    ensures refused_room { OnErr result (S.room_left store.new ≡ S.room_left store.old) }
    ensures sure { IsTrue S.SURE → IsOk result }
{
    let string = make_object(store, STRING, 1)?;
    match array_block(store, CHARS, count, 1) {
        Ok(chars) => {
            fill(store, chars, text);
            store.set(string, 1, chars);
            Ok(string)
        }
        Err(memory) => {
            store.take_back(string, 2);
            Err(memory)
        }
    }
}

/// The same, where the cells of both are left: they are taken from the store's room.
///
/// # Errors
///
/// Where the host had no memory for them; all is then as it was.
pub fn pay_text<S: Store>(
    store: &mut S,
    cells: &mut u32,
    text: &[u8],
    count: u32,
) -> Result<Option<u32>, OutOfMemory>
    requires few { length text.now < 2147483648 }
    requires text { IsText text.now }
    requires count { HasUnits text.now count }
    requires cells { cells.old ≤ S.room_left store.old }
    ensures paid { IfOk result (PaysText text.now cells.old cells.new (S.content store.old) (S.content store.new)) }
    ensures room { OnOk result (S.room_left store.old + cells.new ≡ S.room_left store.new + cells.old) }
    ensures refused_cells { OnErr result (cells.new ≡ cells.old) }
    ensures refused { OnErr result (S.content store.new ≡ S.content store.old) }
    ensures refused_room { OnErr result (S.room_left store.new ≡ S.room_left store.old) }
    ensures sure { IsTrue S.SURE → IsOk result }
{
    if *cells < count + 4 {
        return Ok(None);
    }
    let string = text_blocks(store, text, count)?;
    *cells = *cells - (count + 4);
    Ok(Some(string))
}
