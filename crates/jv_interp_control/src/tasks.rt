//! The tasks of an initialization (JVMS 5.5).

ghost use Rattle.std.specs.Prelude.{◌≡◌, ◌≤◌, ◌<◌, length};
ghost use Rattle.jv_interp_control.specs.Inside.Tasks.{CanAsk, AreNext, PassesReady, StopsAtUnready};

use jv_interp_held::ClassState;
use jv_interp_members::is_ready;
use jv_interp_words::InitializationRecord;
use jv_link::class_at;
use jv_link_cache::Linked;
use jv_loader::ClassTable;

/// A task of a class: the static field at a place gets its constant, the class or interface with a number is initialized, or the `<clinit>`
/// at a place runs.
#[derive(Clone, Copy)]
pub(crate) enum Task {
    Sets(usize),
    Begins(u32),
    Runs(usize),
}

/// A task, and how many are done with it.
#[derive(Clone, Copy)]
pub(crate) struct Next {
    pub(crate) task: Task,
    pub(crate) done: u32,
}

/// The place from one on at which a class stands that is neither initialized nor being initialized; the end where there is none.
fn first_unready(order: &[usize], states: &[ClassState], start: usize) -> usize
    requires { start ≤ length order.now }
    ensures low { start ≤ result }
    ensures within { result ≤ length order.now }
    ensures passes { PassesReady states.now order.now start result }
    ensures stops { StopsAtUnready states.now order.now result }
{
    for place in start..order.len() {
        if !is_ready(states, order[place]) {
            return place;
        }
    }
    order.len()
}

/// The first task that is left of an initialization; none where all are done.
pub(crate) fn next_task(
    table: &ClassTable<'_>,
    linked: &Linked<'_>,
    states: &[ClassState],
    own: InitializationRecord,
) -> Option<Next>
    requires { CanAsk table.now linked.now own states.now }
    ensures { AreNext table.now linked.now own states.now result }
{
    let class = own.class as usize;
    let done = own.done as usize;
    let settings = linked.settings(class);
    if done < settings.len() {
        return Some(Next {
            task: Task::Sets(settings[done]),
            done: own.done + 1,
        });
    }
    let order = linked.init_order(class);
    let behind = done - settings.len();
    if behind > order.len() {
        return None;
    }
    let place = first_unready(order, states, behind);
    if place < order.len() {
        return Some(Next {
            task: Task::Begins(order[place] as u32),
            done: (settings.len() + place + 1) as u32,
        });
    }
    let Some(member) = linked.initializer(class) else {
        return None;
    };
    if member >= class_at(table, class).method_count() {
        return None;
    }
    Some(Next {
        task: Task::Runs(member),
        done: (settings.len() + order.len() + 1) as u32,
    })
}
