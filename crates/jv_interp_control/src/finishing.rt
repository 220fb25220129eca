//! The end of an initialization (JVMS 5.5, step 10).

ghost use Rattle.std.specs.Prelude.{◌≡◌, ◌+◌, ◌<◌, ◌≤◌, IsOk, IsTrue, OnOk, OnErr};
ghost use Rattle.jv_link_cache.specs.Linked.{IsLinked};
ghost use Rattle.jv_interp_members.specs.Methods.{AreMethods};
ghost use Rattle.jv_interp_control.specs.Standing.{kept, CanMove, Moved};
ghost use Rattle.jv_interp_control.specs.Acting.{AreAsBefore};
ghost use Rattle.jv_interp_control.specs.Initializing.{IsAsBefore};
ghost use Rattle.jv_interp_control.specs.Inside.Finishing.{Finishing, CanMark, Marks, CanSetBack};

use crate::control::Control;
use crate::entering::enter;
use crate::frames::Frames;
use jv_interp_held::{ClassState, Held};
use jv_interp_members::Methods;
use jv_link::class_at;
use jv_link_cache::Linked;
use jv_loader::Classes;
use jv_store::{OutOfMemory, Store};

/// The class with a number is initialized, and the words of its initialization, whose record is gone, are given back.
fn mark(classes: &Classes<'_>, frames: &mut Frames, control: &mut Control, class: u32)
    requires { CanMark classes.now.world class frames.old control.old }
    ensures marks { Marks classes.now.world class frames.old control.old frames.new control.new }
    ensures frames { frames.new ≡ record frames.old { left = frames.old.left + 4 } }
    ensures control { control.new ≡ record control.old { states = control.new.states } }
    ensures back { CanSetBack class control.old.states.items control.new.states.items }
{
    let table = classes.table();
    table.is_numbered();
    let by_system = class_at(table, class as usize).by_system();
    frames.left = frames.left + 4;
    if !by_system {
        control.states[class as usize] = ClassState::Initialized;
    }
}

/// The class with a number is initialized: its initialization's record is gone, and its words are given back. Where no frame is left main
/// is entered, with the array of Strings that was made at the start (own).
///
/// # Errors
///
/// Where the host had no memory for what is thrown; all is then as it was.
pub(crate) fn finish<S: Store>(
    classes: &Classes<'_>,
    linked: &Linked<'_>,
    methods: &Methods<'_>,
    frames: &mut Frames,
    control: &mut Control,
    held: &mut Held,
    store: &mut S,
    class: u32,
) -> Result<(), OutOfMemory>
    requires can { CanMove classes.now.world (Finishing class frames.old) (kept frames.old control.old held.old (S.content store.old)) }
    requires linked { IsLinked classes.now.world linked.now }
    requires methods { AreMethods classes.now.world methods.now }
    requires few { held.old.cells < 2147483648 }
    requires room { held.old.cells ≤ S.room_left store.old }
    ensures finished { OnOk result (Moved classes.now.world (Finishing class frames.old)
        (kept frames.old control.old held.old (S.content store.old))
        (kept frames.new control.new held.new (S.content store.new))) }
    ensures room { OnOk result (S.room_left store.old + held.new.cells ≡ S.room_left store.new + held.old.cells) }
    ensures refused_frames { OnErr result (AreAsBefore frames.old frames.new) }
    ensures refused_control { OnErr result (IsAsBefore control.old control.new) }
    ensures refused { OnErr result (held.new ≡ held.old) }
    ensures refused_content { OnErr result (S.content store.new ≡ S.content store.old) }
    ensures refused_room { OnErr result (S.room_left store.new ≡ S.room_left store.old) }
    ensures sure { IsTrue S.SURE → IsOk result }
{
    let state = control.states[class as usize];
    mark(classes, frames, control, class);
    if frames.records.len() != 0 {
        return Ok(());
    }
    let Some(main) = control.main else {
        unreachable!();
    };
    let word = frames.words[0];
    frames.words[0] = held.arguments;
    match enter(classes, linked, methods, frames, control, held, store, main) {
        Ok(()) => Ok(()),
        Err(refused) => {
            frames.left = frames.left - 4;
            frames.words[0] = word;
            control.states[class as usize] = state;
            Err(refused)
        }
    }
}
