//! Runs of instructions that work on the words of their frame alone.

ghost use Rattle.std.specs.Prelude.{◌≡◌, ◌+◌, ◌-◌, ◌<◌, ◌≤◌, get_or};
ghost use Rattle.jv_interp_words.specs.Running.{CanRun, RunsTo};
ghost use Rattle.jv_interp_steps.specs.Inside.Words.{OnlyInWords};

use jv_interp_control::Frames;
use jv_interp_words::{Registers, run_in_words};

/// Takes at most so many steps of the method in the registers, while they work on its frame's words alone; answers how many are left, and
/// writes one more than the opcode at hand where some are.
#[inline(always)]
pub(crate) fn run_alone<'l>(
    frames: &mut Frames,
    at: &mut Registers<'l>,
    n: u64,
    rest: &mut u16,
) -> u64
    requires { CanRun at.old frames.old.words.items }
    ensures ran { RunsTo (n - result) at.old frames.old.words.items at.new frames.new.words.items }
    ensures only { OnlyInWords frames.old frames.new }
    ensures most { result ≤ n }
    ensures rest { 0 < result → rest.new ≡ get_or at.new.code.now at.new.pc 0 + 1 }
{
    let mut own = *at;
    let left = run_in_words(&mut frames.words, &mut own, n, rest);
    *at = own;
    left
}
