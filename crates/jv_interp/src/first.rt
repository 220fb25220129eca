//! What is kept of a guest before anything is begun.

ghost use Rattle.std.specs.Prelude.{◌≡◌, ◌+◌, ◌≤◌, [], IfOk, IfSome, OnOk, OnErr, length};
ghost use Rattle.jv_lookups.specs.Places.{IsMethodPlace};
ghost use Rattle.jv_link_cache.specs.Linked.{IsLinked};
ghost use Rattle.jv_interp_members.specs.Methods.{AreMethods};
ghost use Rattle.jv_interp_objects.specs.Texts.{AreTexts};
ghost use Rattle.jv_interp.specs.Starting.{BothJoin};
ghost use Rattle.jv_interp.specs.Started.{FirstFrames, FirstControl, FirstStands};

use crate::budget::Budget;
use crate::main_method::number_of;
use crate::room::start_memory;
use crate::states::start_states;
use jv_interp_control::{Control, End, Frames, Program};
use jv_interp_held::Held;
use jv_interp_members::Methods;
use jv_link_cache::Linked;
use jv_loader::{Classes, Place};
use jv_store::{OutOfMemory, Store};
use std::alloc::{AllocError, Global};

/// What is kept of a guest from its start on, beside the blocks of the store.
#[derive(Drop)]
pub struct Started {
    pub frames: Frames,
    pub control: Control,
    pub held: Held,
}

/// No frames, with room for so many words of them, and for a record of each: a frame has four words at least.
fn first_frames(alloc: Global, left: u32) -> Result<Frames, AllocError>
    ensures { IfOk result (FirstFrames left) }
{
    let count = left as usize;
    let words = vec![in alloc; 0; count]?;
    let records = Vec::with_capacity(alloc, count / 4 + 1)?;
    Ok(Frames {
        words,
        records,
        top: 0,
        left,
    })
}

/// The control of a guest that runs, and whose main method is at a place, if it has one.
fn first_control(
    alloc: Global,
    classes: &Classes<'_>,
    methods: &Methods<'_>,
    place: Option<Place>,
) -> Result<Control, AllocError>
    requires methods { AreMethods classes.now.world methods.now }
    requires place { IfSome place (IsMethodPlace classes.now.world) }
    ensures { IfOk result (FirstControl classes.now.world place) }
{
    let states = start_states(alloc, classes.table())?;
    Ok(Control {
        states,
        throws: 0,
        last: None,
        place: None,
        main: number_of(methods, place),
        end: End::Running,
    })
}

/// All that is kept of a guest before anything is begun.
///
/// # Errors
///
/// Where the host had no memory for it; the store is then as it was.
pub(crate) fn first_kept<S: Store>(
    alloc: Global,
    program: &Program<'_, '_>,
    linked: &Linked<'_>,
    place: Option<Place>,
    input: &[u8],
    budget: Budget,
    store: &mut S,
) -> Result<Started, OutOfMemory>
    requires linked { IsLinked program.now.classes.now.world linked.now }
    requires methods { AreMethods program.now.classes.now.world program.now.methods.now }
    requires texts { AreTexts program.now.classes.now.world program.now.texts.now }
    requires place { IfSome place (IsMethodPlace program.now.classes.now.world) }
    requires some { 4 ≤ budget.cells }
    requires cells { budget.cells ≤ S.room_left store.old }
    ensures stands { IfOk result (λ first.
        FirstStands program.now.classes.now.world program.now.texts.now.names place input.now budget first (S.content store.new)) }
    ensures made { IfOk result (λ first.
        BothJoin first.held.out_of_memory first.held.arguments (S.content store.old) (S.content store.new)) }
    ensures paid { IfOk result (λ first. first.held.cells + 4 ≡ budget.cells) }
    ensures room { OnOk result (S.room_left store.new + 4 ≡ S.room_left store.old) }
    ensures refused { OnErr result (S.content store.new ≡ S.content store.old) }
    ensures refused_room { OnErr result (S.room_left store.new ≡ S.room_left store.old) }
{
    let frames = first_frames(alloc, budget.words)?;
    let control = first_control(alloc, program.classes, program.methods, place)?;
    let held = start_memory(
        alloc,
        linked.static_words(),
        program.texts.names.count(),
        input,
        budget.cells,
        budget.output,
        store,
    )?;
    Ok(Started {
        frames,
        control,
        held,
    })
}
