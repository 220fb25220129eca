//! Exceptions that the machine makes (own): their fields are null, and no constructor runs.

ghost use Rattle.std.specs.Prelude.{◌≡◌, ◌+◌, ◌<◌, ◌≤◌, IfOk, IsOk, IsTrue, OnOk, OnErr};
ghost use Rattle.jv_interp_control.specs.Exceptions.{IsMade};

use jv_interp_heap::make_object;
use jv_interp_held::Held;
use jv_store::{OutOfMemory, Store};

/// A new object of the class with a number, whose objects have so many words, and its address; none where its cells are not left.
///
/// # Errors
///
/// Where the host had no memory for it; all is then as it was.
pub(crate) fn make_exception<S: Store>(
    held: &mut Held,
    store: &mut S,
    class: u32,
    words: usize,
) -> Result<Option<u32>, OutOfMemory>
    requires few { held.old.cells < 2147483648 }
    requires room { held.old.cells ≤ S.room_left store.old }
    ensures made { IfOk result (IsMade class words held.old.cells held.new.cells (S.content store.old) (S.content store.new)) }
    ensures held { held.new ≡ record held.old { cells = held.new.cells } }
    ensures fewer { held.new.cells ≤ held.old.cells }
    ensures room { OnOk result (S.room_left store.old + held.new.cells ≡ S.room_left store.new + held.old.cells) }
    ensures refused { OnErr result (held.new ≡ held.old) }
    ensures refused_content { OnErr result (S.content store.new ≡ S.content store.old) }
    ensures refused_room { OnErr result (S.room_left store.new ≡ S.room_left store.old) }
    ensures sure { IsTrue S.SURE → IsOk result }
{
    if words >= held.cells as usize {
        return Ok(None);
    }
    let words = words as u32;
    let address = make_object(store, class, words)?;
    held.cells = held.cells - (1 + words);
    Ok(Some(address))
}
