//! How far the initialization of a class is.

ghost use Rattle.std.specs.Prelude.{◌≡◌, ◌<◌, true, false, length, set};
ghost use Rattle.jv_interp_held.specs.declared.class_state.ClassState.TheVariants.{Begun as BegunState};

/// The state of a class or interface (JVMS 5.5): it was not begun, goes on, is done, or ended in a throw.
#[derive(Clone, Copy)]
pub enum ClassState {
    Untouched,
    Begun,
    Initialized,
    Erroneous,
}

/// The class or interface with a number is marked as one whose initialization has begun (JVMS 5.5, step 6): before anything else of that is
/// done, its superclass's initialization among it (step 7). Those of the system are all initialized from the start (own).
#[inline(always)]
pub fn mark_begun(states: &mut [ClassState], class: u32, by_system: bool)
    requires { class < length states.old }
    ensures system { by_system ≡ true → states.new ≡ states.old }
    ensures guests { by_system ≡ false → states.new ≡ set states.old class BegunState }
{
    if !by_system {
        states[class as usize] = ClassState::Begun;
    }
}
