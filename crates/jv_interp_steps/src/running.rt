//! Steps one after the other, with the registers of the method that runs in a local variable.

ghost use Rattle.std.specs.Prelude.{◌≡◌, ◌+◌, ◌-◌, ◌<◌, ◌≤◌, IsTrue, [], false, get_or};
ghost use Rattle.jv_link_cache.specs.Linked.{IsLinked};
ghost use Rattle.jv_interp_members.specs.Methods.{AreMethods};
ghost use Rattle.jv_interp_objects.specs.Texts.{AreTexts};
ghost use Rattle.jv_interp_control.specs.Standing.{kept};
ghost use Rattle.jv_interp_steps.specs.Running.{CanRun, RanTo, CanRunIn, RanOnTo, RanFrom};

use crate::alone::run_alone;
use crate::going::step_going;
use crate::stepping::step_in_method;
use jv_interp_control::{Control, Frames, Program, initialization_step, resume, suspend};
use jv_interp_held::{Held, steps_behind};
use jv_interp_members::Methods;
use jv_interp_objects::Texts;
use jv_interp_words::Registers;
use jv_link_cache::Linked;
use jv_loader::Classes;
use jv_meaning_machine::step_keeps;
use jv_store::Store;

/// What came of a number of steps that were to be taken.
#[derive(Clone, Copy)]
pub struct Turn {
    /// How many of them are left.
    pub left: u64,
    /// Whether the host had no memory for the next one.
    pub refused: bool,
}

/// Takes at most so many steps of the method in the registers, while each of them only goes on there; answers how many are left, and writes
/// one more than the opcode at hand where some are.
#[inline(always)]
fn run_going<'a, 'l, S: Store>(
    classes: &Classes<'a>,
    linked: &mut Linked<'a>,
    methods: &Methods<'a>,
    texts: &Texts<'a>,
    verified: &[bool],
    frames: &mut Frames,
    control: &Control,
    held: &mut Held,
    store: &mut S,
    at: &mut Registers<'l>,
    n: u64,
    rest: &mut u16,
) -> u64
    requires can { CanRunIn classes.now.world verified.now texts.now.names at.old
        (kept frames.old control.now held.old (S.content store.old)) }
    requires linked { IsLinked classes.now.world linked.old }
    requires methods { AreMethods classes.now.world methods.now }
    requires texts { AreTexts classes.now.world texts.now }
    requires cells { held.old.cells ≤ S.room_left store.old }
    requires few { held.old.cells < 2147483648 }
    ensures ran { RanOnTo (n - result) classes.now.world verified.now texts.now.names at.old
        (kept frames.old control.now held.old (S.content store.old)) at.new
        (kept frames.new control.now held.new (S.content store.new)) }
    ensures most { result ≤ n }
    ensures rest { 0 < result → rest.new ≡ get_or at.new.code.now at.new.pc 0 + 1 }
    ensures fewer { held.new.cells ≤ held.old.cells }
    ensures room { S.room_left store.old + held.new.cells ≡ S.room_left store.new + held.old.cells }
    ensures still_held { result ≡ n → held.new ≡ held.old }
    ensures still_content { result ≡ n → S.content store.new ≡ S.content store.old }
    ensures linked { IsLinked classes.now.world linked.new }
{
    let mut left = n;
    while left > 0 {
        left = run_alone(frames, at, left, rest);
        if left > 0 {
            if !step_going(
                classes, linked, methods, texts, verified, frames, control, held, store, at, *rest,
            ) {
                return left;
            }
            left -= 1;
        }
    }
    left
}

/// Takes at most so many steps, from that of the method in the registers on, through the methods that it calls and that it returns to,
/// until an initialization is the newest frame or none is left. Then all frames stand in their records.
fn run_method<'a, 'l, S: Store>(
    frames: &mut Frames,
    at: Registers<'l>,
    n: u64,
    verified: &[bool],
    texts: &Texts<'a>,
    classes: &Classes<'a>,
    linked: &mut Linked<'a>,
    methods: &Methods<'a>,
    control: &mut Control,
    held: &mut Held,
    store: &mut S,
) -> Turn
    requires can { CanRunIn classes.now.world verified.now texts.now.names at
        (kept frames.old control.old held.old (S.content store.old)) }
    requires linked { IsLinked classes.now.world linked.old }
    requires methods { AreMethods classes.now.world methods.now }
    requires texts { AreTexts classes.now.world texts.now }
    requires cells { held.old.cells ≤ S.room_left store.old }
    requires few { held.old.cells < 2147483648 }
    ensures ran { RanFrom (n - result.left) classes.now.world verified.now texts.now.names at.entry
        (kept frames.old control.old held.old (S.content store.old))
        (kept frames.new control.new held.new (S.content store.new)) }
    ensures most { result.left ≤ n }
    ensures some { 0 < n → result.refused ≡ false → result.left < n }
    ensures some_left { IsTrue result.refused → 0 < result.left }
    ensures running { IsTrue result.refused → frames.new.records.items ≡ [] → ⊥ }
    ensures fewer { held.new.cells ≤ held.old.cells }
    ensures room { S.room_left store.old + held.new.cells ≡ S.room_left store.new + held.old.cells }
    ensures still_held { result.left ≡ n → held.new ≡ held.old }
    ensures still_content { result.left ≡ n → S.content store.new ≡ S.content store.old }
    ensures linked { IsLinked classes.now.world linked.new }
    ensures sure { IsTrue S.SURE → result.refused ≡ false }
{
    let mut now = at;
    let mut left = n;
    let mut rest = 0;
    while left > 0 {
        left = run_going(
            classes, linked, methods, texts, verified, frames, control, held, store, &mut now,
            left, &mut rest,
        );
        if left > 0 {
            match step_in_method(
                classes, linked, methods, texts, verified, frames, control, held, store, &mut now,
                rest,
            ) {
                Ok(true) => {
                    left -= 1;
                }
                Ok(false) => {
                    left = steps_behind(left);
                    match resume(methods, frames) {
                        Some(next) => {
                            now = next;
                        }
                        None => {
                            return Turn {
                                left,
                                refused: false,
                            };
                        }
                    }
                }
                Err(_) => {
                    suspend(frames, now, now.top);
                    return Turn {
                        left,
                        refused: true,
                    };
                }
            }
        }
    }
    suspend(frames, now, now.top);
    Turn {
        left: 0,
        refused: false,
    }
}

/// Takes at most so many steps of a guest (JVMS 2.11, 5.5), fewer only where it ends, which is where no frame is left, or where the host
/// had no memory for the next one: that step is then not taken, and all is as it was before it, but for what linking has found.
pub fn run<'a, S: Store>(
    classes: &Classes<'a>,
    linked: &mut Linked<'a>,
    methods: &Methods<'a>,
    texts: &Texts<'a>,
    verified: &[bool],
    frames: &mut Frames,
    control: &mut Control,
    held: &mut Held,
    store: &mut S,
    n: u64,
) -> Turn
    requires can { CanRun classes.now.world verified.now texts.now.names
        (kept frames.old control.old held.old (S.content store.old)) }
    requires linked { IsLinked classes.now.world linked.old }
    requires methods { AreMethods classes.now.world methods.now }
    requires texts { AreTexts classes.now.world texts.now }
    requires cells { held.old.cells ≤ S.room_left store.old }
    requires few { held.old.cells < 2147483648 }
    ensures ran { RanTo (n - result.left) classes.now.world verified.now texts.now.names
        (kept frames.old control.old held.old (S.content store.old))
        (kept frames.new control.new held.new (S.content store.new)) }
    ensures most { result.left ≤ n }
    ensures ended { 0 < result.left → result.refused ≡ false → frames.new.records.items ≡ [] }
    ensures some_left { IsTrue result.refused → 0 < result.left }
    ensures running { IsTrue result.refused → frames.new.records.items ≡ [] → ⊥ }
    ensures fewer { held.new.cells ≤ held.old.cells }
    ensures room { S.room_left store.old + held.new.cells ≡ S.room_left store.new + held.old.cells }
    ensures still_held { result.left ≡ n → held.new ≡ held.old }
    ensures still_content { result.left ≡ n → S.content store.new ≡ S.content store.old }
    ensures linked { IsLinked classes.now.world linked.new }
    ensures sure { IsTrue S.SURE → result.refused ≡ false }
{
    step_keeps();
    let mut left = n;
    while left > 0 && !frames.records.is_empty() {
        match resume(methods, frames) {
            Some(at) => {
                let turn = run_method(
                    frames, at, left, verified, texts, classes, linked, methods, control, held,
                    store,
                );
                if turn.refused {
                    return turn;
                }
                left = turn.left;
            }
            None => {
                let program = Program {
                    classes,
                    methods,
                    texts,
                    verified,
                };
                match initialization_step(&program, linked, frames, control, held, store) {
                    Ok(()) => {
                        left -= 1;
                    }
                    Err(_) => {
                        return Turn {
                            left,
                            refused: true,
                        };
                    }
                }
            }
        }
    }
    Turn {
        left,
        refused: false,
    }
}
