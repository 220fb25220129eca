//! Objects that are thrown, and exceptions that the machine throws (JVMS 2.10).

ghost use Rattle.std.specs.Prelude.{◌≡◌, ◌+◌, ◌<◌, ◌≤◌, IsOk, IsTrue, OnOk, OnErr};
ghost use Rattle.jv_link_cache.specs.Linked.{IsLinked};
ghost use Rattle.jv_interp_members.specs.Methods.{AreMethods};
ghost use Rattle.jv_interp_control.specs.Standing.{kept, CanMove, Moved};
ghost use Rattle.jv_interp_control.specs.Moves.{Throwing, Raising};

use crate::control::Control;
use crate::exceptions::make_exception;
use crate::frames::Frames;
use crate::places::place_behind;
use crate::throwing::{Thrown, once_more};
use crate::unwinding::unwind;
use jv_interp_held::Held;
use jv_interp_members::Methods;
use jv_link_cache::Linked;
use jv_loader::Classes;
use jv_store::{OutOfMemory, Store};

/// The object at an address is thrown in the newest frame (JVMS 2.10, 6.5, athrow).
///
/// # Errors
///
/// Where the host had no memory for an exception that is thrown in place of another one; all is then as it was.
pub fn throw<S: Store>(
    classes: &Classes<'_>,
    linked: &Linked<'_>,
    methods: &Methods<'_>,
    frames: &mut Frames,
    control: &mut Control,
    held: &mut Held,
    store: &mut S,
    address: u32,
) -> Result<(), OutOfMemory>
    requires can { CanMove classes.now.world (Throwing address) (kept frames.old control.old held.old (S.content store.old)) }
    requires linked { IsLinked classes.now.world linked.now }
    requires methods { AreMethods classes.now.world methods.now }
    requires few { held.old.cells < 2147483648 }
    requires room { held.old.cells ≤ S.room_left store.old }
    ensures thrown { OnOk result (Moved classes.now.world (Throwing address)
        (kept frames.old control.old held.old (S.content store.old))
        (kept frames.new control.new held.new (S.content store.new))) }
    ensures fewer { held.new.cells ≤ held.old.cells }
    ensures room { OnOk result (S.room_left store.old + held.new.cells ≡ S.room_left store.new + held.old.cells) }
    ensures refused_frames { OnErr result (frames.new ≡ frames.old) }
    ensures refused_control { OnErr result (control.new ≡ control.old) }
    ensures refused { OnErr result (held.new ≡ held.old) }
    ensures refused_content { OnErr result (S.content store.new ≡ S.content store.old) }
    ensures refused_room { OnErr result (S.room_left store.new ≡ S.room_left store.old) }
    ensures sure { IsTrue S.SURE → IsOk result }
{
    let class = store.get(address, 0);
    let throws = once_more(control.throws);
    let place = place_behind(&frames.records, 0);
    let thrown = Thrown {
        address,
        class,
        throws,
        place,
        made: false,
    };
    unwind(
        classes, linked, methods, frames, control, held, store, thrown,
    )
}

/// A new exception of the class with a number, of which no constructor runs, is thrown in the newest frame (own); where its cells are not
/// left the OutOfMemoryError object of the start is.
///
/// # Errors
///
/// Where the host had no memory for it, or for one that is thrown in place of it; all is then as it was.
pub fn raise<S: Store>(
    classes: &Classes<'_>,
    linked: &Linked<'_>,
    methods: &Methods<'_>,
    frames: &mut Frames,
    control: &mut Control,
    held: &mut Held,
    store: &mut S,
    class: u32,
) -> Result<(), OutOfMemory>
    requires can { CanMove classes.now.world (Raising class) (kept frames.old control.old held.old (S.content store.old)) }
    requires linked { IsLinked classes.now.world linked.now }
    requires methods { AreMethods classes.now.world methods.now }
    requires few_classes { class < 2147483648 }
    requires few { held.old.cells < 2147483648 }
    requires room { held.old.cells ≤ S.room_left store.old }
    ensures raised { OnOk result (Moved classes.now.world (Raising class)
        (kept frames.old control.old held.old (S.content store.old))
        (kept frames.new control.new held.new (S.content store.new))) }
    ensures fewer { held.new.cells ≤ held.old.cells }
    ensures room { OnOk result (S.room_left store.old + held.new.cells ≡ S.room_left store.new + held.old.cells) }
    ensures refused_frames { OnErr result (frames.new ≡ frames.old) }
    ensures refused_control { OnErr result (control.new ≡ control.old) }
    ensures refused { OnErr result (held.new ≡ held.old) }
    ensures refused_content { OnErr result (S.content store.new ≡ S.content store.old) }
    ensures refused_room { OnErr result (S.room_left store.new ≡ S.room_left store.old) }
    ensures sure { IsTrue S.SURE → IsOk result }
{
    let words = linked.object_words(class as usize);
    let Some(address) = make_exception(held, store, class, words)? else {
        let address = held.out_of_memory;
        return throw(
            classes, linked, methods, frames, control, held, store, address,
        );
    };
    match throw(
        classes, linked, methods, frames, control, held, store, address,
    ) {
        Ok(()) => Ok(()),
        Err(refused) => {
            let words = words as u32 + 1;
            store.take_back(address, words);
            held.cells = held.cells + words;
            Err(refused)
        }
    }
}
