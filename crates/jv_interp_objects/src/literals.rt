//! String literals.

ghost use Rattle.std.specs.Prelude.{◌≡◌, ◌+◌, ◌<◌, ◌≤◌, length, IfOk, IsOk, IsTrue, OnOk, OnErr};
ghost use Rattle.jv_interp_objects.specs.Literals.{CanFindLiteral, FindsLiteral};
ghost use Rattle.jv_interp_objects.specs.Units.{HasUnits};

use crate::text_blocks::pay_text;
use jv_interp_held::{Held, keep_literal};
use jv_store::{OutOfMemory, Store};

/// The address of the String of the text with a number, which has so many units: of the one that it has, or of one that is made now.
/// None where its cells are not left.
///
/// # Errors
///
/// Where the host had no memory for it; all is then as it was.
pub fn literal<S: Store>(
    store: &mut S,
    held: &mut Held,
    number: usize,
    text: &[u8],
    count: u32,
) -> Result<Option<u32>, OutOfMemory>
    requires few { length text.now < 2147483648 }
    requires count { HasUnits text.now count }
    requires can { CanFindLiteral number text.now held.old (S.content store.old) }
    requires cells { held.old.cells ≤ S.room_left store.old }
    ensures finds { IfOk result (FindsLiteral number text.now held.old (S.content store.old) held.new (S.content store.new)) }
    ensures room { OnOk result (S.room_left store.old + held.new.cells ≡ S.room_left store.new + held.old.cells) }
    ensures refused_held { OnErr result (held.new ≡ held.old) }
    ensures refused { OnErr result (S.content store.new ≡ S.content store.old) }
    ensures refused_room { OnErr result (S.room_left store.new ≡ S.room_left store.old) }
    ensures sure { IsTrue S.SURE → IsOk result }
{
    let known = held.literals[number];
    if known != 0 {
        return Ok(Some(known));
    }
    let mut cells = held.cells;
    let made = pay_text(store, &mut cells, text, count)?;
    match made {
        Some(string) => {
            keep_literal(held, number, string, cells);
            Ok(Some(string))
        }
        None => Ok(None),
    }
}
