//! The start of a guest (JVMS 5.2).

ghost use Rattle.std.specs.Prelude.{◌≡◌, ◌+◌, ◌<◌, ◌≤◌, IfOk, OnErr, length};
ghost use Rattle.jv_link_cache.specs.Linked.{IsLinked};
ghost use Rattle.jv_interp_members.specs.Methods.{AreMethods};
ghost use Rattle.jv_interp_objects.specs.Texts.{AreTexts};
ghost use Rattle.jv_interp_heap.specs.ObjectsInBlocks.{Blocks};
ghost use Rattle.jv_interp.specs.Starting.{BothJoin};
ghost use Rattle.jv_interp.specs.Started.{CanStart, HasStarted};

use crate::budget::Budget;
use crate::first::{Started, first_kept};
use crate::main_method::main_place;
use crate::opening::begin_main;
use jv_interp_control::Program;
use jv_link_cache::Linked;
use jv_store::{OutOfMemory, Store};
use std::alloc::Global;

/// Takes back the two objects of the start, of which the second is the newest block.
fn take_back_objects<S: Store>(store: &mut S, error: u32, strings: u32)
    requires { (before : Blocks) × BothJoin error strings before (S.content store.old) }
    ensures content { (before : Blocks) → BothJoin error strings before (S.content store.old) → S.content store.new ≡ before }
    ensures room { S.room_left store.new ≡ S.room_left store.old + 4 }
{
    store.take_back(strings, 2);
    store.take_back(error, 2);
}

/// Makes what the interpreter keeps of a guest, and begins the class of its main method, by the class's name (JVMS 5.2, 5.5); where
/// there is no main method the guest has ended (own). Frames have room for all words that they may take, and for their records; the output
/// for all bytes that may be written.
///
/// # Errors
///
/// Where the host had no memory for it; the store is then as it was.
pub fn start<S: Store>(
    alloc: Global,
    program: &Program<'_, '_>,
    linked: &Linked<'_>,
    main: &[u8],
    input: &[u8],
    budget: Budget,
    store: &mut S,
) -> Result<Started, OutOfMemory>
    requires can { CanStart program.now.classes.now.world program.now.verified.now main.now input.now budget }
    requires linked { IsLinked program.now.classes.now.world linked.now }
    requires methods { AreMethods program.now.classes.now.world program.now.methods.now }
    requires texts { AreTexts program.now.classes.now.world program.now.texts.now }
    requires few_classes { length program.now.classes.now.world < 2147483648 }
    requires some { 4 ≤ budget.cells }
    requires few { budget.cells < 2147483648 }
    requires cells { budget.cells ≤ S.room_left store.old }
    ensures started { IfOk result (λ started. HasStarted program.now.classes.now.world program.now.verified.now
        program.now.texts.now.names main.now input.now budget (S.content store.old) started (S.content store.new)) }
    ensures fewer { IfOk result (λ started. started.held.cells + 4 ≤ budget.cells) }
    ensures room { IfOk result (λ started. S.room_left store.old + started.held.cells ≡ S.room_left store.new + budget.cells) }
    ensures refused { OnErr result (S.content store.new ≡ S.content store.old) }
    ensures refused_room { OnErr result (S.room_left store.new ≡ S.room_left store.old) }
{
    let place = main_place(program.classes, main);
    let mut started = first_kept(alloc, program, linked, place, input, budget, store)?;
    match begin_main(
        program,
        linked,
        &mut started.frames,
        &mut started.control,
        &mut started.held,
        store,
        place,
    ) {
        Ok(()) => Ok(started),
        Err(memory) => {
            take_back_objects(store, started.held.out_of_memory, started.held.arguments);
            Err(memory)
        }
    }
}
