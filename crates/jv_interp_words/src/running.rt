//! Steps one after the other, with the registers in a local variable.

ghost use Rattle.std.specs.Prelude.{◌≡◌, ◌+◌, ◌-◌, ◌≤◌, ◌<◌, false, get_or};
ghost use Rattle.jv_interp_words.specs.Opcodes.{works_alone};
ghost use Rattle.jv_interp_words.specs.Running.{CanRun, RunsTo};

use crate::dispatch::step_in_words;
use crate::registers::Registers;

/// Takes at most so many steps, while the opcode at hand is one of those at which `step_in_words` takes one; answers how many are left, and
/// writes one more than the opcode at hand where some are.
pub fn run_in_words<'l>(words: &mut [u32], at: &mut Registers<'l>, n: u64, rest: &mut u16) -> u64
    requires { CanRun at.old words.old }
    ensures ran { RunsTo (n - result) at.old words.old at.new words.new }
    ensures most { result ≤ n }
    ensures stops { 0 < result → works_alone (get_or at.new.code.now at.new.pc 0) ≡ false }
    ensures rest { 0 < result → rest.new ≡ get_or at.new.code.now at.new.pc 0 + 1 }
{
    let mut now = *at;
    let mut left = n;
    while left > 0 {
        let other = step_in_words(words, &mut now);
        if other != 0 {
            *at = now;
            *rest = other;
            return left;
        }
        left -= 1;
    }
    *at = now;
    left
}
