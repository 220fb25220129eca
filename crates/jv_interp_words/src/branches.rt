//! Where control goes (JVMS 6.5).

ghost use Rattle.std.specs.Prelude.{◌≡◌, ◌<◌, ◌^◌, IsSome, Some};
ghost use Rattle.jv_code.specs.Targets.{target_of};
ghost use Rattle.jv_code.specs.declared.insn.Insn.TheVariants.{Goto as GotoInsn};
ghost use Rattle.jv_interp_words.specs.Going.{CanWork, GoesOn, StaysIn};
ghost use Rattle.jv_interp_words.specs.Inside.Branches.{LeadsOn, BranchesTo, if_int, if_ints};

use crate::numbers::holds;
use crate::operands::top_int;
use crate::registers::Registers;
use jv_code::{Condition, JumpForm};

/// The offset at a distance from an instruction's own.
#[inline(always)]
pub(crate) fn target(pc: u32, distance: i32) -> u32
    requires { IsSome (target_of pc distance) }
    ensures { target_of pc distance ≡ Some result }
{
    (i64::from(pc) + i64::from(distance)) as u32
}

/// Where a branch leads: to the offset at its distance where it is taken, and else to the next instruction.
#[inline(always)]
pub(crate) fn branch(pc: u32, distance: i32, next: u32, taken: bool) -> u32
    requires { LeadsOn pc distance taken }
    ensures { BranchesTo pc distance next taken result }
{
    if taken { target(pc, distance) } else { next }
}

/// `ifeq` and its kin.
#[inline(always)]
pub fn if_int<'l>(
    words: &[u32],
    at: &mut Registers<'l>,
    next: u32,
    condition: Condition,
    distance: i32,
)
    requires { CanWork (if_int condition distance) next at.old words.now }
    ensures went { GoesOn (if_int condition distance) next at.old words.now at.new words.now }
    ensures stays { StaysIn at.old at.new words.now }
{
    let a = top_int(words, at.top);
    let taken = holds(condition, a, 0);
    at.pc = branch(at.pc, distance, next, taken);
    at.top = at.top - 1;
}

/// `if_icmpeq` and its kin.
#[inline(always)]
pub fn if_ints<'l>(
    words: &[u32],
    at: &mut Registers<'l>,
    next: u32,
    condition: Condition,
    distance: i32,
)
    requires { CanWork (if_ints condition distance) next at.old words.now }
    ensures went { GoesOn (if_ints condition distance) next at.old words.now at.new words.now }
    ensures stays { StaysIn at.old at.new words.now }
{
    let b = top_int(words, at.top);
    let under = at.top - 1;
    let a = top_int(words, under);
    let taken = holds(condition, a, b);
    at.pc = branch(at.pc, distance, next, taken);
    at.top = under - 1;
}

/// `goto`, `goto_w`.
#[inline(always)]
pub fn jump<'l>(words: &[u32], at: &mut Registers<'l>, next: u32, distance: i32, form: JumpForm)
    requires { CanWork (GotoInsn distance form) next at.old words.now }
    ensures went { GoesOn (GotoInsn distance form) next at.old words.now at.new words.now }
    ensures stays { StaysIn at.old at.new words.now }
{
    // Only the clauses speak of these.
    let _words = words;
    let _next = next;
    let _form = form;
    at.pc = target(at.pc, distance);
}
