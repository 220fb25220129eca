//! Methods that wait, and what is done above them (JVMS 2.6, 2.10, 5.5).

ghost use Rattle.std.specs.Prelude.{◌≡◌, ◌+◌, ◌<◌, ◌≤◌, ◌∷◌, ◌++◌, [], false, IsOk, IsTrue, OnOk, OnErr, length};
ghost use Rattle.jv_link_cache.specs.Linked.{IsLinked};
ghost use Rattle.jv_interp_members.specs.Methods.{AreMethods};
ghost use Rattle.jv_interp_control.specs.Standing.{kept, CanMove, Moved};
ghost use Rattle.jv_interp_control.specs.Acting.{CanAct, Acted, AreAsBefore};
ghost use Rattle.jv_interp_control.specs.Inside.Above.{IsAbove, IsWithin, top_without as top_without_passed, Doing};

use crate::beginning::begin;
use crate::control::Control;
use crate::entering::enter;
use crate::frames::Frames;
use crate::program::Program;
use crate::suspending::{suspend, take_out};
use crate::throws::{raise, throw};
use jv_interp_held::{Effect, Held};
use jv_interp_words::Registers;
use jv_link_cache::Linked;
use jv_store::{OutOfMemory, Store};

/// How many words are in use without what is passed to the method that is entered.
#[inline(always)]
fn top_without(effect: Effect, top: usize) -> usize
    requires { IsWithin effect top }
    ensures { result ≡ top_without_passed effect top }
{
    match effect {
        Effect::Enters { method: _, words } => top - words as usize,
        _ => top,
    }
}

/// What the effect asks for is done above the frames, the newest of which waits.
///
/// # Errors
///
/// Where the host had no memory for what is thrown; all is then as it was.
#[inline(always)]
fn do_above<S: Store>(
    program: &Program<'_, '_>,
    linked: &Linked<'_>,
    frames: &mut Frames,
    control: &mut Control,
    held: &mut Held,
    store: &mut S,
    effect: Effect,
) -> Result<(), OutOfMemory>
    requires above { IsAbove effect }
    requires can { CanMove program.now.classes.now.world (Doing effect program.now.verified.now frames.old)
        (kept frames.old control.old held.old (S.content store.old)) }
    requires linked { IsLinked program.now.classes.now.world linked.now }
    requires methods { AreMethods program.now.classes.now.world program.now.methods.now }
    requires few_classes { length program.now.classes.now.world < 2147483648 }
    requires few { held.old.cells < 2147483648 }
    requires room { held.old.cells ≤ S.room_left store.old }
    ensures done { OnOk result (Moved program.now.classes.now.world (Doing effect program.now.verified.now frames.old)
        (kept frames.old control.old held.old (S.content store.old))
        (kept frames.new control.new held.new (S.content store.new))) }
    ensures fewer { held.new.cells ≤ held.old.cells }
    ensures room { OnOk result (S.room_left store.old + held.new.cells ≡ S.room_left store.new + held.old.cells) }
    ensures refused_frames { OnErr result (frames.new ≡ frames.old) }
    ensures refused_control { OnErr result (control.new ≡ control.old) }
    ensures refused { OnErr result (held.new ≡ held.old) }
    ensures refused_content { OnErr result (S.content store.new ≡ S.content store.old) }
    ensures refused_room { OnErr result (S.room_left store.new ≡ S.room_left store.old) }
    ensures sure { IsTrue S.SURE → IsOk result }
{
    match effect {
        Effect::Enters { method, words: _ } => enter(
            program.classes,
            linked,
            program.methods,
            frames,
            control,
            held,
            store,
            method,
        ),
        Effect::Throws { address } => throw(
            program.classes,
            linked,
            program.methods,
            frames,
            control,
            held,
            store,
            address,
        ),
        Effect::Raises { class } => raise(
            program.classes,
            linked,
            program.methods,
            frames,
            control,
            held,
            store,
            class,
        ),
        Effect::Begins { class } => begin(program, linked, frames, control, held, store, class),
        _ => unreachable!(),
    }
}

/// The method that the registers tell waits, and what the effect of its instruction asks for is done above it.
///
/// # Errors
///
/// Where the host had no memory for what is thrown; all is then as it was.
pub(crate) fn act_above<'l, S: Store>(
    program: &Program<'_, '_>,
    linked: &Linked<'_>,
    frames: &mut Frames,
    control: &mut Control,
    held: &mut Held,
    store: &mut S,
    at: Registers<'l>,
    effect: Effect,
) -> Result<(), OutOfMemory>
    requires above { IsAbove effect }
    requires can { CanAct program.now.classes.now.world program.now.verified.now at effect
        (kept frames.old control.old held.old (S.content store.old)) }
    requires linked { IsLinked program.now.classes.now.world linked.now }
    requires methods { AreMethods program.now.classes.now.world program.now.methods.now }
    requires few_classes { length program.now.classes.now.world < 2147483648 }
    requires few { held.old.cells < 2147483648 }
    requires room { held.old.cells ≤ S.room_left store.old }
    ensures acted { OnOk result (Acted program.now.classes.now.world program.now.verified.now at.entry effect
        (kept frames.old control.old held.old (S.content store.old))
        (kept frames.new control.new held.new (S.content store.new)) false) }
    ensures fewer { held.new.cells ≤ held.old.cells }
    ensures room { OnOk result (S.room_left store.old + held.new.cells ≡ S.room_left store.new + held.old.cells) }
    ensures refused_frames { OnErr result (AreAsBefore frames.old frames.new) }
    ensures refused_control { OnErr result (control.new ≡ control.old) }
    ensures refused { OnErr result (held.new ≡ held.old) }
    ensures refused_content { OnErr result (S.content store.new ≡ S.content store.old) }
    ensures refused_room { OnErr result (S.room_left store.new ≡ S.room_left store.old) }
    ensures sure { IsTrue S.SURE → IsOk result }
{
    let top = frames.top;
    suspend(frames, at, top_without(effect, at.top));
    match do_above(program, linked, frames, control, held, store, effect) {
        Ok(()) => Ok(()),
        Err(refused) => {
            take_out(frames, top);
            Err(refused)
        }
    }
}
