//! A guest at its start.

ghost use Rattle.std.specs.Prelude.{◌≡◌, ◌+◌, ◌<◌, ◌≤◌, IfOk, OnErr, length};
ghost use Rattle.jv_store.specs.Content.{words_held};
ghost use Rattle.jv_interp.specs.Beginning.{HasBegun, HasStanding};

use crate::budget::Budget;
use crate::first::Started;
use crate::guest::Guest;
use crate::starting::start;
use crate::verified::verified_classes;
use jv_interp_control::Program;
use jv_interp_members::Methods;
use jv_interp_objects::Texts;
use jv_link_cache::link;
use jv_meaning_machine::judged_by_verdicts;
use jv_meaning_world::one_content;
use jv_sound::never_faults;
use jv_store::{OutOfMemory, Store};
use jv_verify::Verified;
use std::alloc::Global;
use std::hash::RandomState;

/// A guest at its start, whose cells are in the store's room.
fn begin_in_room<'a, S: Store>(
    alloc: Global,
    state: RandomState,
    judged: Verified<'a>,
    main: &[u8],
    input: &[u8],
    budget: Budget,
    store: &mut S,
) -> Result<Guest<'a>, OutOfMemory>
    requires files { HasStanding judged }
    requires few { length judged.world ≤ 2083 }
    requires some { 4 ≤ budget.cells }
    requires few_cells { budget.cells < 2147483648 }
    requires cells { budget.cells ≤ S.room_left store.old }
    ensures begun { IfOk result (λ guest.
        HasBegun judged.entry main.now input.now budget (S.content store.old) guest (S.content store.new)) }
    ensures room { IfOk result (λ guest. S.room_left store.old + guest.held.cells ≡ S.room_left store.new + budget.cells) }
    ensures refused { OnErr result (S.content store.new ≡ S.content store.old) }
    ensures refused_room { OnErr result (S.room_left store.new ≡ S.room_left store.old) }
{
    one_content();
    judged_by_verdicts();
    never_faults();
    let classes = judged.classes();
    let Ok(linked) = link(alloc, classes) else {
        return Err(OutOfMemory);
    };
    let methods = Methods::of(alloc, classes)?;
    let texts = Texts::of(alloc, state, classes)?;
    let verified = verified_classes(alloc, &judged)?;
    let program = Program {
        classes,
        methods: &methods,
        texts: &texts,
        verified: &verified,
    };
    let Started {
        frames,
        control,
        held,
    } = start(alloc, &program, &linked, main, input, budget, store)?;
    Ok(Guest {
        judged,
        linked,
        methods,
        texts,
        verified,
        frames,
        control,
        held,
        steps: 0,
    })
}

impl<'a> Guest<'a> {
    /// A guest at its start (JVMS 5.2): its classes are linked as far as that is done beforehand, all that its steps need is reserved,
    /// and its main class's initialization is begun, or it has ended where there is no main method. Its cells are reserved in the store.
    /// Texts are hashed with the state.
    ///
    /// # Errors
    ///
    /// Where the host had no memory for it; the classes are then gone, and the store is as it was.
    pub fn new<S: Store>(
        alloc: Global,
        state: RandomState,
        judged: Verified<'a>,
        main: &[u8],
        input: &[u8],
        budget: Budget,
        store: &mut S,
    ) -> Result<Guest<'a>, OutOfMemory>
        requires files { HasStanding judged }
        requires few { length judged.world ≤ 2083 }
        requires some { 4 ≤ budget.cells }
        requires few_cells { budget.cells < 2147483648 }
        requires total { S.room_left store.old + words_held (S.content store.old) + budget.cells ≤ 4294967294 }
        ensures begun { IfOk result (λ guest.
            HasBegun judged.entry main.now input.now budget (S.content store.old) guest (S.content store.new)) }
        ensures room { IfOk result (λ guest. S.room_left store.new ≡ S.room_left store.old + guest.held.cells) }
        ensures refused { OnErr result (S.content store.new ≡ S.content store.old) }
        ensures refused_room { OnErr result (S.room_left store.new ≡ S.room_left store.old) }
    {
        let cells = u64::from(budget.cells);
        store.reserve(cells)?;
        match begin_in_room(alloc, state, judged, main, input, budget, store) {
            Ok(guest) => Ok(guest),
            Err(memory) => {
                store.release(cells);
                Err(memory)
            }
        }
    }
}
