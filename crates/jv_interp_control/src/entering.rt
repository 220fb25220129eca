//! Methods that are entered (JVMS 2.6).

ghost use Rattle.std.specs.Prelude.{◌≡◌, ◌+◌, ◌<◌, ◌≤◌, IsOk, IsTrue, OnOk, OnErr};
ghost use Rattle.jv_link_cache.specs.Linked.{IsLinked};
ghost use Rattle.jv_interp_members.specs.Methods.{AreMethods};
ghost use Rattle.jv_interp_control.specs.Standing.{kept, CanMove, Moved};
ghost use Rattle.jv_interp_control.specs.Moves.{Entering};

use crate::code::{code_of, words_of};
use crate::control::Control;
use crate::frames::{Frames, push_record};
use crate::throws::raise;
use jv_interp_heap::{STACK_OVERFLOW, system_has_numbers};
use jv_interp_held::Held;
use jv_interp_members::Methods;
use jv_interp_words::{FrameRecord, MethodRecord};
use jv_link_cache::Linked;
use jv_loader::Classes;
use jv_store::{OutOfMemory, Store};

/// The method with a number is entered above the others: its receiver and its arguments are words on those in use, and become its first
/// local variables where they stand. Where its words are not left a StackOverflowError is thrown in the newest frame (JVMS 2.5.2).
///
/// # Errors
///
/// Where the host had no memory for what is thrown; all is then as it was.
pub fn enter<S: Store>(
    classes: &Classes<'_>,
    linked: &Linked<'_>,
    methods: &Methods<'_>,
    frames: &mut Frames,
    control: &mut Control,
    held: &mut Held,
    store: &mut S,
    method: u32,
) -> Result<(), OutOfMemory>
    requires can { CanMove classes.now.world (Entering method frames.old) (kept frames.old control.old held.old (S.content store.old)) }
    requires linked { IsLinked classes.now.world linked.now }
    requires methods { AreMethods classes.now.world methods.now }
    requires few { held.old.cells < 2147483648 }
    requires room { held.old.cells ≤ S.room_left store.old }
    ensures entered { OnOk result (Moved classes.now.world (Entering method frames.old)
        (kept frames.old control.old held.old (S.content store.old))
        (kept frames.new control.new held.new (S.content store.new))) }
    ensures fewer { held.new.cells ≤ held.old.cells }
    ensures room { OnOk result (S.room_left store.old + held.new.cells ≡ S.room_left store.new + held.old.cells) }
    ensures refused_frames { OnErr result (frames.new ≡ frames.old) }
    ensures refused_control { OnErr result (control.new ≡ control.old) }
    ensures refused { OnErr result (held.new ≡ held.old) }
    ensures refused_content { OnErr result (S.content store.new ≡ S.content store.old) }
    ensures refused_room { OnErr result (S.room_left store.new ≡ S.room_left store.old) }
    ensures sure { IsTrue S.SURE → IsOk result }
{
    system_has_numbers();
    let code = code_of(methods, method);
    let words = words_of(&code);
    if words > frames.left {
        return raise(
            classes,
            linked,
            methods,
            frames,
            control,
            held,
            store,
            STACK_OVERFLOW,
        );
    }
    let base = frames.top as u32;
    frames.left = frames.left - words;
    frames.top = frames.top + usize::from(code.max_locals);
    push_record(
        &mut frames.records,
        FrameRecord::Runs(MethodRecord {
            method,
            pc: 0,
            base,
        }),
    );
    Ok(())
}
