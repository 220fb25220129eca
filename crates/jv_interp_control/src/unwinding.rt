//! What is thrown goes up the frames of a guest (JVMS 2.10).

ghost use Rattle.std.specs.Prelude.{◌≡◌, ◌+◌, ◌<◌, ◌≤◌, false, IsOk, IsTrue, OnOk, OnErr};
ghost use Rattle.jv_link_cache.specs.Linked.{IsLinked};
ghost use Rattle.jv_interp_members.specs.Methods.{AreMethods};
ghost use Rattle.jv_interp_control.specs.Standing.{kept};
ghost use Rattle.jv_interp_control.specs.Inside.Unwinding.{CanUnwind, Unwinds};

use crate::control::{Control, End};
use crate::frames::Frames;
use crate::passing::{catch_thrown, pass_frames};
use crate::throwing::{Thrown, walk};
use jv_interp_held::Held;
use jv_interp_members::Methods;
use jv_link_cache::Linked;
use jv_loader::Classes;
use jv_store::{OutOfMemory, Store};

/// What is thrown goes up the frames, to a handler or out of all of them.
///
/// # Errors
///
/// Where the host had no memory for an exception that is thrown in place of another one; all is then as it was.
pub(crate) fn unwind<S: Store>(
    classes: &Classes<'_>,
    linked: &Linked<'_>,
    methods: &Methods<'_>,
    frames: &mut Frames,
    control: &mut Control,
    held: &mut Held,
    store: &mut S,
    thrown: Thrown,
) -> Result<(), OutOfMemory>
    requires can { CanUnwind classes.now.world thrown (kept frames.old control.old held.old (S.content store.old)) }
    requires linked { IsLinked classes.now.world linked.now }
    requires methods { AreMethods classes.now.world methods.now }
    requires not_made { thrown.made ≡ false }
    requires few { held.old.cells < 2147483648 }
    requires room { held.old.cells ≤ S.room_left store.old }
    ensures unwinds { OnOk result (Unwinds classes.now.world thrown
        (kept frames.old control.old held.old (S.content store.old))
        (kept frames.new control.new held.new (S.content store.new))) }
    ensures fewer { held.new.cells ≤ held.old.cells }
    ensures room { OnOk result (S.room_left store.old + held.new.cells ≡ S.room_left store.new + held.old.cells) }
    ensures refused_frames { OnErr result (frames.new ≡ frames.old) }
    ensures refused_control { OnErr result (control.new ≡ control.old) }
    ensures refused { OnErr result (held.new ≡ held.old) }
    ensures refused_content { OnErr result (S.content store.new ≡ S.content store.old) }
    ensures refused_room { OnErr result (S.room_left store.new ≡ S.room_left store.old) }
    ensures sure { IsTrue S.SURE → IsOk result }
{
    let landing = walk(
        classes,
        linked,
        methods,
        &frames.records,
        held,
        store,
        thrown,
    )?;
    pass_frames(classes, methods, frames, control, landing.passed);
    control.throws = landing.thrown.throws;
    control.last = Some(landing.thrown.class);
    control.place = landing.thrown.place;
    let Some(pc) = landing.handler else {
        control.end = End::Threw(landing.thrown.class);
        return Ok(());
    };
    catch_thrown(methods, frames, pc, landing.thrown.address);
    Ok(())
}
