//! The states of classes (JVMS 5.5).

ghost use Rattle.std.specs.Prelude.{◌<◌, length};
ghost use Rattle.jv_meaning_world.specs.World.{World};
ghost use Rattle.jv_meaning_world.specs.Numbers.{IsNumbered};
ghost use Rattle.jv_interp_control.specs.Inside.States.{IsSet};

use jv_interp_held::ClassState;

/// The class with a number has this state from now on, unless it is the system's: those are all initialized from the start (own).
#[inline(always)]
pub(crate) fn set_state(states: &mut [ClassState], class: u32, by_system: bool, state: ClassState)
    requires { class < length states.old }
    ensures { (world : World) → IsNumbered world → IsSet world class by_system state states.old states.new }
{
    if !by_system {
        states[class as usize] = state;
    }
}
