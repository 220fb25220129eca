//! How a guest that has its memory begins (JVMS 5.2).

ghost use Rattle.std.specs.Prelude.{◌≡◌, ◌+◌, ◌<◌, ◌≤◌, IfSome, OnOk, OnErr, length};
ghost use Rattle.jv_lookups.specs.Places.{IsMethodPlace};
ghost use Rattle.jv_link_cache.specs.Linked.{IsLinked};
ghost use Rattle.jv_interp_members.specs.Methods.{AreMethods};
ghost use Rattle.jv_interp_control.specs.Standing.{kept, CanMove, Moved};
ghost use Rattle.jv_interp.specs.Opening.{Opening};

use jv_interp_control::{Control, End, Frames, Program, begin};
use jv_interp_held::Held;
use jv_link_cache::Linked;
use jv_loader::Place;
use jv_store::{OutOfMemory, Store};

/// Begins the class of the main method, which is at a place; where there is none the guest has ended (own).
///
/// # Errors
///
/// Where the host had no memory for an exception that is thrown at once; all is then as it was.
pub(crate) fn begin_main<S: Store>(
    program: &Program<'_, '_>,
    linked: &Linked<'_>,
    frames: &mut Frames,
    control: &mut Control,
    held: &mut Held,
    store: &mut S,
    place: Option<Place>,
) -> Result<(), OutOfMemory>
    requires can { CanMove program.now.classes.now.world (Opening place program.now.verified.now)
        (kept frames.old control.old held.old (S.content store.old)) }
    requires linked { IsLinked program.now.classes.now.world linked.now }
    requires methods { AreMethods program.now.classes.now.world program.now.methods.now }
    requires place { IfSome place (IsMethodPlace program.now.classes.now.world) }
    requires few_classes { length program.now.classes.now.world < 2147483648 }
    requires few { held.old.cells < 2147483648 }
    requires room { held.old.cells ≤ S.room_left store.old }
    ensures begun { OnOk result (Moved program.now.classes.now.world (Opening place program.now.verified.now)
        (kept frames.old control.old held.old (S.content store.old))
        (kept frames.new control.new held.new (S.content store.new))) }
    ensures fewer { held.new.cells ≤ held.old.cells }
    ensures room { OnOk result (S.room_left store.old + held.new.cells ≡ S.room_left store.new + held.old.cells) }
    ensures refused { OnErr result (held.new ≡ held.old) }
    ensures refused_content { OnErr result (S.content store.new ≡ S.content store.old) }
    ensures refused_room { OnErr result (S.room_left store.new ≡ S.room_left store.old) }
{
    let Some(place) = place else {
        control.end = End::NoMain;
        return Ok(());
    };
    begin(
        program,
        linked,
        frames,
        control,
        held,
        store,
        place.class as u32,
    )
}
