//! Instructions' effects on frames (JVMS 2.11).

ghost use Rattle.std.specs.Prelude.{◌≡◌, ◌↔◌, ◌+◌, ◌<◌, ◌≤◌, IfOk, IsOk, IsTrue, OnOk, OnErr, length};
ghost use Rattle.jv_link_cache.specs.Linked.{IsLinked};
ghost use Rattle.jv_interp_held.specs.declared.effect.Effect.TheVariants.{Goes};
ghost use Rattle.jv_interp_members.specs.Methods.{AreMethods};
ghost use Rattle.jv_interp_control.specs.Standing.{kept};
ghost use Rattle.jv_interp_control.specs.Acting.{CanAct, Acted, AreAsBefore};

use crate::above::act_above;
use crate::control::Control;
use crate::frames::Frames;
use crate::program::Program;
use crate::returning::return_from;
use jv_interp_held::{Effect, Held};
use jv_interp_words::Registers;
use jv_link_cache::Linked;
use jv_store::{OutOfMemory, Store};

/// What an instruction's effect asks for is done. Answers whether its method goes on in the registers; where it doesn't, it is left or
/// waits, and all frames stand in their records, from which the newest goes on.
///
/// # Errors
///
/// Where the host had no memory for what is thrown; the method's record is then taken out again, and all is as it was.
#[inline(always)]
pub fn act<'l, S: Store>(
    program: &Program<'_, '_>,
    linked: &Linked<'_>,
    frames: &mut Frames,
    control: &mut Control,
    held: &mut Held,
    store: &mut S,
    at: Registers<'l>,
    effect: Effect,
) -> Result<bool, OutOfMemory>
    requires can { CanAct program.now.classes.now.world program.now.verified.now at effect
        (kept frames.old control.old held.old (S.content store.old)) }
    requires linked { IsLinked program.now.classes.now.world linked.now }
    requires methods { AreMethods program.now.classes.now.world program.now.methods.now }
    requires few_classes { length program.now.classes.now.world < 2147483648 }
    requires few { held.old.cells < 2147483648 }
    requires room { held.old.cells ≤ S.room_left store.old }
    ensures acted { IfOk result (Acted program.now.classes.now.world program.now.verified.now at.entry effect
        (kept frames.old control.old held.old (S.content store.old))
        (kept frames.new control.new held.new (S.content store.new))) }
    ensures goes { IfOk result (λ goes_on. IsTrue goes_on ↔ (effect ≡ Goes)) }
    ensures going { effect ≡ Goes → IsOk result }
    ensures fewer { held.new.cells ≤ held.old.cells }
    ensures room { OnOk result (S.room_left store.old + held.new.cells ≡ S.room_left store.new + held.old.cells) }
    ensures refused_frames { OnErr result (AreAsBefore frames.old frames.new) }
    ensures refused_control { OnErr result (control.new ≡ control.old) }
    ensures refused { OnErr result (held.new ≡ held.old) }
    ensures refused_content { OnErr result (S.content store.new ≡ S.content store.old) }
    ensures refused_room { OnErr result (S.room_left store.new ≡ S.room_left store.old) }
    ensures sure { IsTrue S.SURE → IsOk result }
{
    match effect {
        Effect::Goes => Ok(true),
        Effect::Leaves { words } => {
            return_from(program.methods, frames, control, at, words);
            Ok(false)
        }
        _ => {
            act_above(program, linked, frames, control, held, store, at, effect)?;
            Ok(false)
        }
    }
}
