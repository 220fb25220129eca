//! What stands behind a handle: a host, and what it borrows.

ghost use Rattle.std.specs.Prelude.{◌≡◌, IfSome, Some};
ghost use Rattle.libjvhost.specs.Calls.{new_host};
ghost use Rattle.libjvhost.specs.Inside.Held.{held_in, DoesOver};

use crate::codes::NO_HOST;
use crate::done::{Done, coded};
use crate::jobs::{Job, do_job};
use crate::loose::Loose;
use jv_host::Host;
use jv_loader::SystemFiles;
use jv_store::Cells;
use std::alloc::Global;
use std::hash::RandomState;

/// What a host borrows, and what it begins with.
#[derive(Drop)]
pub struct Owned {
    pub(crate) alloc: Global,
    pub(crate) state: RandomState,
    pub(crate) system: SystemFiles,
}

/// A host, and what its guests stand on and are hashed with.
#[derive(Drop)]
pub struct Begun<'a> {
    pub(crate) state: RandomState,
    pub(crate) system: &'a SystemFiles,
    pub(crate) host: Host<'a, Cells>,
}

/// A host, once it has begun.
#[derive(Drop)]
pub struct Kept<'a> {
    pub(crate) alloc: Global,
    pub(crate) begun: Option<Begun<'a>>,
}

/// What a new host borrows, and room for it.
pub(crate) fn make(
    alloc: Global,
    state: RandomState,
    system: SystemFiles,
) -> Option<(Loose<Owned, Global>, Loose<Kept<'static>, Global>)>
    ensures { IfSome result (λ made. made.0.value.system ≡ system) }
{
    let owned = Box::new(
        alloc,
        Owned {
            alloc,
            state,
            system,
        },
    )
    .ok()?;
    let room = Box::new(alloc, Kept { alloc, begun: None }).ok()?;
    Some((Loose::of(owned), Loose::of(room)))
}

/// A host without a guest.
pub(crate) fn begin<'a>(owned: &'a mut Owned) -> Kept<'a>
    ensures { held_in result ≡ Some (new_host owned.old.system) }
{
    let owned: &'a Owned = owned;
    Kept {
        alloc: owned.alloc,
        begun: Some(Begun {
            state: owned.state,
            system: &owned.system,
            host: Host::new(owned.alloc, owned.state),
        }),
    }
}

/// Does what is asked for.
pub(crate) fn work<'a>(kept: &mut Kept<'a>, job: Job<'_>) -> Done
    ensures { DoesOver job.entry (held_in kept.old) (held_in kept.new) result }
{
    match &mut kept.begun {
        Some(begun) => do_job(kept.alloc, begun.state, begun.system, &mut begun.host, job),
        None => coded(kept.alloc, NO_HOST),
    }
}

fn moves_to_another_thread<T: Send>() {}

/// What a host borrows, and a host, may each be used by one thread after the other: a call that does nothing, and is proved only where both
/// are `Send`.
pub fn kept_is_send() {
    moves_to_another_thread::<Owned>();
    moves_to_another_thread::<Kept<'static>>();
}
