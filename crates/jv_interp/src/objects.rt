//! The objects of the start.

ghost use Rattle.std.specs.Prelude.{◌≡◌, ◌+◌, ◌≤◌, IfOk, OnOk, OnErr};
ghost use Rattle.jv_interp.specs.Starting.{BothJoin};

use jv_interp_heap::{OUT_OF_MEMORY, make_array, make_object};
use jv_store::{OutOfMemory, Store};

/// The first word of an array of Strings.
const STRINGS: u32 = 2_147_483_659;

/// Makes an OutOfMemoryError object, which has one field, and an empty array of Strings, and answers their addresses.
///
/// # Errors
///
/// Where the host had no memory for them; the store is then as it was.
pub(crate) fn start_objects<S: Store>(store: &mut S) -> Result<(u32, u32), OutOfMemory>
    requires room { 4 ≤ S.room_left store.old }
    ensures made { IfOk result (λ made. BothJoin made.0 made.1 (S.content store.old) (S.content store.new)) }
    ensures room { OnOk result (S.room_left store.new + 4 ≡ S.room_left store.old) }
    ensures refused { OnErr result (S.content store.new ≡ S.content store.old) }
    ensures refused_room { OnErr result (S.room_left store.new ≡ S.room_left store.old) }
{
    let error = make_object(store, OUT_OF_MEMORY, 1)?;
    match make_array(store, STRINGS, 0, 1) {
        Ok(strings) => Ok((error, strings)),
        Err(memory) => {
            store.take_back(error, 2);
            Err(memory)
        }
    }
}
