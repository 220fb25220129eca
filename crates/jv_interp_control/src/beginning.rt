//! Initializations that are begun (JVMS 5.5).

ghost use Rattle.std.specs.Prelude.{◌≡◌, ◌+◌, ◌<◌, ◌≤◌, IsOk, IsTrue, OnOk, OnErr};
ghost use Rattle.jv_link_cache.specs.Linked.{IsLinked};
ghost use Rattle.jv_interp_members.specs.Methods.{AreMethods};
ghost use Rattle.jv_interp_control.specs.Standing.{kept, CanMove, Moved};
ghost use Rattle.jv_interp_control.specs.Moves.{Beginning};

use crate::control::Control;
use crate::frames::{Frames, push_record};
use crate::program::Program;
use crate::throws::raise;
use jv_interp_heap::{NO_CLASS, STACK_OVERFLOW, VERIFY, system_has_numbers};
use jv_interp_held::{ClassState, Held, mark_begun};
use jv_interp_words::{FrameRecord, InitializationRecord};
use jv_link::class_at;
use jv_link_cache::Linked;
use jv_store::{OutOfMemory, Store};

/// The initialization of the class with a number is begun, by its state (JVMS 5.5, steps 3 to 6): where it goes on or is done, nothing is
/// done; where it ended in a throw a NoClassDefFoundError is thrown, where the class was not verified a VerifyError, and where its words
/// are not left a StackOverflowError.
///
/// # Errors
///
/// Where the host had no memory for what is thrown; all is then as it was.
pub fn begin<S: Store>(
    program: &Program<'_, '_>,
    linked: &Linked<'_>,
    frames: &mut Frames,
    control: &mut Control,
    held: &mut Held,
    store: &mut S,
    class: u32,
) -> Result<(), OutOfMemory>
    requires can { CanMove program.now.classes.now.world (Beginning class program.now.verified.now)
        (kept frames.old control.old held.old (S.content store.old)) }
    requires linked { IsLinked program.now.classes.now.world linked.now }
    requires methods { AreMethods program.now.classes.now.world program.now.methods.now }
    requires few { held.old.cells < 2147483648 }
    requires room { held.old.cells ≤ S.room_left store.old }
    ensures begun { OnOk result (Moved program.now.classes.now.world (Beginning class program.now.verified.now)
        (kept frames.old control.old held.old (S.content store.old))
        (kept frames.new control.new held.new (S.content store.new))) }
    ensures fewer { held.new.cells ≤ held.old.cells }
    ensures room { OnOk result (S.room_left store.old + held.new.cells ≡ S.room_left store.new + held.old.cells) }
    ensures refused_frames { OnErr result (frames.new ≡ frames.old) }
    ensures refused_control { OnErr result (control.new ≡ control.old) }
    ensures refused { OnErr result (held.new ≡ held.old) }
    ensures refused_content { OnErr result (S.content store.new ≡ S.content store.old) }
    ensures refused_room { OnErr result (S.room_left store.new ≡ S.room_left store.old) }
    ensures sure { IsTrue S.SURE → IsOk result }
{
    system_has_numbers();
    let table = program.classes.table();
    table.is_numbered();
    match control.states[class as usize] {
        ClassState::Begun => return Ok(()),
        ClassState::Initialized => return Ok(()),
        ClassState::Erroneous => {
            return raise(
                program.classes,
                linked,
                program.methods,
                frames,
                control,
                held,
                store,
                NO_CLASS,
            );
        }
        ClassState::Untouched => {}
    }
    if !program.verified[class as usize] {
        return raise(
            program.classes,
            linked,
            program.methods,
            frames,
            control,
            held,
            store,
            VERIFY,
        );
    }
    if frames.left < 4 {
        return raise(
            program.classes,
            linked,
            program.methods,
            frames,
            control,
            held,
            store,
            STACK_OVERFLOW,
        );
    }
    let by_system = class_at(table, class as usize).by_system();
    frames.left = frames.left - 4;
    push_record(
        &mut frames.records,
        FrameRecord::Initializes(InitializationRecord { class, done: 0 }),
    );
    mark_begun(&mut control.states, class, by_system);
    Ok(())
}
