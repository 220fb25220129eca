//! Branches on references (JVMS 6.5): two are the same where their words are, and null's word is 0.

ghost use Rattle.std.specs.Prelude.{◌≡◌, nat_eq};
ghost use Rattle.jv_meaning_machine.specs.Instructions.{is_met};
ghost use Rattle.jv_interp_words.specs.Going.{CanWork, GoesOn, StaysIn};
ghost use Rattle.jv_interp_words.specs.Inside.Branches.{if_same, if_null};

use crate::branches::branch;
use crate::registers::Registers;
use crate::words::top_word;
use jv_code::Equality;

/// Whether a test on two words is met.
#[inline(always)]
fn meets(equality: Equality, a: u32, b: u32) -> bool
    ensures { result ≡ is_met equality (nat_eq a b) }
{
    match equality {
        Equality::Same => a == b,
        Equality::Different => a != b,
    }
}

/// `if_acmpeq`, `if_acmpne`.
#[inline(always)]
pub fn if_same<'l>(
    words: &[u32],
    at: &mut Registers<'l>,
    next: u32,
    equality: Equality,
    distance: i32,
)
    requires { CanWork (if_same equality distance) next at.old words.now }
    ensures went { GoesOn (if_same equality distance) next at.old words.now at.new words.now }
    ensures stays { StaysIn at.old at.new words.now }
{
    let b = top_word(words, at.top);
    let under = at.top - 1;
    let a = top_word(words, under);
    let taken = meets(equality, a, b);
    at.pc = branch(at.pc, distance, next, taken);
    at.top = under - 1;
}

/// `ifnull`, `ifnonnull`.
#[inline(always)]
pub fn if_null<'l>(
    words: &[u32],
    at: &mut Registers<'l>,
    next: u32,
    equality: Equality,
    distance: i32,
)
    requires { CanWork (if_null equality distance) next at.old words.now }
    ensures went { GoesOn (if_null equality distance) next at.old words.now at.new words.now }
    ensures stays { StaysIn at.old at.new words.now }
{
    let a = top_word(words, at.top);
    let taken = meets(equality, a, 0);
    at.pc = branch(at.pc, distance, next, taken);
    at.top = at.top - 1;
}
