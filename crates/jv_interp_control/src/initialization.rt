//! Steps of initializations (JVMS 5.5).

ghost use Rattle.std.specs.Prelude.{◌≡◌, ◌+◌, ◌<◌, ◌≤◌, ◌++◌, ◌∷◌, [], IsOk, IsTrue, OnOk, OnErr, length, vec_capacity};
ghost use Rattle.jv_link_cache.specs.Linked.{IsLinked};
ghost use Rattle.jv_interp_members.specs.Methods.{AreMethods};
ghost use Rattle.jv_interp_objects.specs.Texts.{AreTexts};
ghost use Rattle.jv_interp_control.specs.Standing.{kept};
ghost use Rattle.jv_interp_control.specs.Acting.{AreAsBefore};
ghost use Rattle.jv_interp_control.specs.Initializing.{Initializing, CanMoveWith, MovedWith, IsAsBefore};
ghost use Rattle.jv_interp_words.specs.declared.records.FrameRecord.TheVariants.{Initializes};
ghost use Rattle.jv_interp_control.specs.Inside.DoingTasks.{DoingTask, CanTake};

use crate::beginning::begin;
use crate::constants::set_constant;
use crate::control::Control;
use crate::entering::enter;
use crate::finishing::finish;
use crate::frames::{Frames, push_record};
use crate::program::Program;
use crate::tasks::{Task, next_task};
use jv_interp_held::Held;
use jv_interp_words::{FrameRecord, InitializationRecord};
use jv_link_cache::Linked;
use jv_loader::Place;
use jv_store::{OutOfMemory, Store};

/// A task of the class with a number is done.
///
/// # Errors
///
/// Where the host had no memory for it; all is then as it was.
fn do_task<'a, S: Store>(
    program: &Program<'_, 'a>,
    linked: &Linked<'a>,
    frames: &mut Frames,
    control: &mut Control,
    held: &mut Held,
    store: &mut S,
    class: u32,
    task: Task,
) -> Result<(), OutOfMemory>
    requires can { CanMoveWith program.now.classes.now.world program.now.texts.now.names (DoingTask class task program.now.verified.now)
        (kept frames.old control.old held.old (S.content store.old)) }
    requires linked { IsLinked program.now.classes.now.world linked.now }
    requires methods { AreMethods program.now.classes.now.world program.now.methods.now }
    requires texts { AreTexts program.now.classes.now.world program.now.texts.now }
    requires few { held.old.cells < 2147483648 }
    requires room { held.old.cells ≤ S.room_left store.old }
    ensures done { OnOk result (MovedWith program.now.classes.now.world program.now.texts.now.names
        (DoingTask class task program.now.verified.now)
        (kept frames.old control.old held.old (S.content store.old))
        (kept frames.new control.new held.new (S.content store.new))) }
    ensures room { OnOk result (S.room_left store.old + held.new.cells ≡ S.room_left store.new + held.old.cells) }
    ensures refused_frames { OnErr result (frames.new ≡ frames.old) }
    ensures refused_control { OnErr result (control.new ≡ control.old) }
    ensures refused { OnErr result (held.new ≡ held.old) }
    ensures refused_content { OnErr result (S.content store.new ≡ S.content store.old) }
    ensures refused_room { OnErr result (S.room_left store.new ≡ S.room_left store.old) }
    ensures sure { IsTrue S.SURE → IsOk result }
{
    match task {
        Task::Sets(member) => set_constant(
            program, linked, frames, control, held, store, class, member,
        ),
        Task::Begins(number) => begin(program, linked, frames, control, held, store, number),
        Task::Runs(member) => {
            let method = program.methods.number_of(Place {
                class: class as usize,
                member,
            });
            enter(
                program.classes,
                linked,
                program.methods,
                frames,
                control,
                held,
                store,
                method,
            )
        }
    }
}

/// The record of the newest frame, which is an initialization, is taken out.
fn take_initialization(frames: &mut Frames) -> InitializationRecord
    requires { CanTake frames.old }
    ensures items { frames.old.records.items ≡ frames.new.records.items ++ Initializes result ∷ [] }
    ensures capacity { vec_capacity frames.new.records ≡ vec_capacity frames.old.records }
    ensures others { frames.new ≡ record frames.old { records = frames.new.records } }
{
    let Some(FrameRecord::Initializes(own)) = frames.records.pop() else {
        unreachable!();
    };
    own
}

/// The first task of the newest frame, which is an initialization, is done (JVMS 5.5): a static field gets its constant, a class or
/// interface that is neither initialized nor being initialized is initialized first, or `<clinit>` is entered. Where no task is left the
/// class is initialized.
///
/// # Errors
///
/// Where the host had no memory for it; all is then as it was.
pub fn initialization_step<'a, S: Store>(
    program: &Program<'_, 'a>,
    linked: &Linked<'a>,
    frames: &mut Frames,
    control: &mut Control,
    held: &mut Held,
    store: &mut S,
) -> Result<(), OutOfMemory>
    requires can { CanMoveWith program.now.classes.now.world program.now.texts.now.names (Initializing program.now.verified.now)
        (kept frames.old control.old held.old (S.content store.old)) }
    requires linked { IsLinked program.now.classes.now.world linked.now }
    requires methods { AreMethods program.now.classes.now.world program.now.methods.now }
    requires texts { AreTexts program.now.classes.now.world program.now.texts.now }
    requires few_classes { length program.now.classes.now.world < 2147483648 }
    requires few { held.old.cells < 2147483648 }
    requires room { held.old.cells ≤ S.room_left store.old }
    ensures done { OnOk result (MovedWith program.now.classes.now.world program.now.texts.now.names
        (Initializing program.now.verified.now)
        (kept frames.old control.old held.old (S.content store.old))
        (kept frames.new control.new held.new (S.content store.new))) }
    ensures room { OnOk result (S.room_left store.old + held.new.cells ≡ S.room_left store.new + held.old.cells) }
    ensures refused_frames { OnErr result (AreAsBefore frames.old frames.new) }
    ensures refused_control { OnErr result (IsAsBefore control.old control.new) }
    ensures refused { OnErr result (held.new ≡ held.old) }
    ensures refused_content { OnErr result (S.content store.new ≡ S.content store.old) }
    ensures refused_room { OnErr result (S.room_left store.new ≡ S.room_left store.old) }
    ensures sure { IsTrue S.SURE → IsOk result }
{
    let own = take_initialization(frames);
    let Some(next) = next_task(program.classes.table(), linked, &control.states, own) else {
        return match finish(
            program.classes,
            linked,
            program.methods,
            frames,
            control,
            held,
            store,
            own.class,
        ) {
            Ok(()) => Ok(()),
            Err(refused) => {
                push_record(&mut frames.records, FrameRecord::Initializes(own));
                Err(refused)
            }
        };
    };
    push_record(
        &mut frames.records,
        FrameRecord::Initializes(InitializationRecord {
            class: own.class,
            done: next.done,
        }),
    );
    match do_task(
        program, linked, frames, control, held, store, own.class, next.task,
    ) {
        Ok(()) => Ok(()),
        Err(refused) => {
            let _next = frames.records.pop();
            push_record(&mut frames.records, FrameRecord::Initializes(own));
            Err(refused)
        }
    }
}
