//! The handle that the caller holds.

ghost use Rattle.std.specs.Prelude.{◌≡◌, ◌≢◌, Option, Some, None, IsSome};
ghost use Rattle.libjvhost.specs.Inside.Held.{Held, held_of, DoesOver};
ghost use Rattle.libjvhost.specs.Inside.Jobs.{Does};
ghost use Rattle.libjvhost.specs.Calls.{OverHost, library_in, new_host};

use crate::codes::NO_HOST;
use crate::done::{Done, coded};
use crate::jobs::Job;
use crate::kept::{Kept, Owned, begin, work};
use crate::loose::Loose;
use std::alloc::Global;
use std::marker::Model;
use std::{mem, ptr};

/// What a pointer of a handle leads to.
#[repr(C)]
pub struct Opaque {
    hidden: u8,
}

/// Owns a host and what it borrows, or nothing.
#[repr(C)]
#[derive(Drop)]
pub struct Owner {
    kept: *mut Opaque,
    owned: *mut Opaque,
    pub ghost value: { Option Held },
}

impl Model for Owner {
    ghost use Rattle.libjvhost.specs.Inside.Owning.{owns_held};

    ghost also_owns = { λ h. owns_held h.kept h.owned h.value };
}

/// A handle, which holds a host or nothing: `jvhost_t`, but for its last field. Of zeros it holds nothing.
#[repr(C)]
#[derive(Drop)]
pub struct JvHost {
    pub(crate) owner: Owner,
    pub(crate) holds: u32,
    pub ghost none: { holds ≡ 0 → owner.value ≡ None },
    pub ghost some: { holds ≢ 0 → IsSome (held_of owner.value) },
}

/// An owner after a job, and what came of it.
pub(crate) struct Stepped {
    pub(crate) host: Owner,
    pub(crate) done: Done,
}

/// Ends the host.
fn finish<'a>(kept: Loose<Kept<'a>, Global>) {
    drop(kept.into_box());
}

impl Owner {
    pub(crate) fn empty() -> Owner
        ensures { result.value ≡ None }
    {
        Owner {
            kept: ptr::null_mut(),
            owned: ptr::null_mut(),
        }
    }

    pub(crate) fn start(owned: Loose<Owned, Global>, room: Loose<Kept<'static>, Global>) -> Owner
        ensures { result.value ≡ Some (Some (new_host owned.value.system)) }
    {
        let Loose {
            at: owned,
            alloc: _,
        } = owned;
        let Loose { at: room, alloc: _ } = room;
        let kept = begin(unsafe { &mut *owned });
        unsafe { room.write(kept) };
        Owner {
            kept: room as *mut Opaque,
            owned: owned as *mut Opaque,
        }
    }

    pub(crate) fn step(self, job: Job<'_>) -> Stepped
        requires { IsSome self.value }
        ensures did { DoesOver job.entry (held_of self.value) (held_of result.host.value) result.done }
        ensures live { IsSome result.host.value }
    {
        let Owner { kept, owned } = self;
        let done = work(unsafe { &mut *(kept as *mut Kept<'static>) }, job);
        let host = Owner { kept, owned };
        Stepped { host, done }
    }

    // The allocator is passed once for each box.
    pub(crate) fn end(self, first: Global, second: Global) -> Loose<Owned, Global>
        requires { IsSome self.value }
    {
        let Owner { kept, owned } = self;
        finish(Loose {
            at: kept as *mut Kept<'static>,
            alloc: first,
        });
        Loose {
            at: owned as *mut Owned,
            alloc: second,
        }
    }
}

impl JvHost {
    /// A handle that holds nothing.
    pub(crate) fn empty() -> JvHost
        ensures { result.owner.value ≡ None }
    {
        JvHost {
            owner: Owner::empty(),
            holds: 0,
        }
    }

    /// A handle that holds a new host.
    pub(crate) fn start(owned: Loose<Owned, Global>, room: Loose<Kept<'static>, Global>) -> JvHost
        ensures { result.owner.value ≡ Some (Some (new_host owned.value.system)) }
    {
        JvHost {
            owner: Owner::start(owned, room),
            holds: 1,
        }
    }
}

/// The owner of a handle that holds a host, which then holds nothing.
fn taken(host: &mut JvHost) -> Owner
    ensures owner { result.value ≡ host.old.owner.value }
    ensures none { host.new.owner.value ≡ None }
{
    let JvHost { owner, holds: _ } = mem::replace(host, JvHost::empty());
    owner
}

/// Does a job with what the handle holds, if it holds a host.
pub(crate) fn perform(alloc: Global, host: &mut JvHost, job: Job<'_>) -> Done
    ensures { OverHost (held_of host.old.owner.value) (held_of host.new.owner.value) result.code
        (λ old new. Does job.entry (library_in (held_of host.old.owner.value)) old new result) }
{
    if host.holds == 0 {
        return coded(alloc, NO_HOST);
    }
    let Stepped { host: owner, done } = taken(host).step(job);
    *host = JvHost { owner, holds: 1 };
    done
}

/// Ends what the handle holds.
pub(crate) fn close(alloc: Global, host: &mut JvHost)
    ensures { host.new.owner.value ≡ None }
{
    if host.holds != 0 {
        drop(taken(host).end(alloc, alloc).into_box());
    }
}
