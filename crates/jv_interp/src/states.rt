//! The states of classes at the start.

ghost use Rattle.std.specs.Prelude.{◌≡◌, [], IfOk};
ghost use Rattle.jv_meaning_machine.specs.State.{class_state};
ghost use Rattle.jv_interp_held.specs.ClassStates.{kept_state};
ghost use Rattle.jv_interp.specs.StartStates.{AreStatesAtStart};

use jv_interp_held::ClassState;
use jv_link::class_at;
use jv_loader::{ClassTable, LoadedClass};
use std::alloc::{AllocError, Global};

/// The state of a class before anything is begun (JVMS 5.5): a class of the system is initialized (own), and no other one.
fn first_state(class: &LoadedClass<'_>) -> ClassState
    ensures { result ≡ kept_state (class_state [] class.now) }
{
    if class.by_system() {
        ClassState::Initialized
    } else {
        ClassState::Untouched
    }
}

/// The states of a guest's classes before anything is begun (JVMS 5.5): those of the system are initialized (own), and no other.
///
/// # Errors
///
/// Where the host had no memory for them.
pub fn start_states(alloc: Global, table: &ClassTable<'_>) -> Result<Vec<ClassState>, AllocError>
    ensures { IfOk result (λ states. AreStatesAtStart table.now states.items) }
{
    let mut states = Vec::with_capacity(alloc, table.count())?;
    for class in 0..table.count() {
        states.push(first_state(class_at(table, class)))?;
    }
    Ok(states)
}
