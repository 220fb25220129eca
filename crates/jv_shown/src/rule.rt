//! Rules as they are printed.

ghost use Rattle.std.specs.Prelude.{◌≡◌, Some};
ghost use Rattle.jv_shown.specs.Rules.{rule_text};

use jv_meaning_typing::VerifyRule;
use std::fmt;

/// The sentence of a rule (JVMS 4.10.1).
fn rule_text(rule: VerifyRule) -> &'static str
    ensures { result.now ≡ rule_text rule }
{
    match rule {
        VerifyRule::Code =>
            "rule 1: the code is a list of instructions, and the arguments fit max_locals (JVMS 4.7.3, 4.9.1)",
        VerifyRule::HandlerTable =>
            "rule 2: each handler covers instructions, begins at one, and catches a Throwable (JVMS 4.7.3, 4.10.1.6)",
        VerifyRule::MapFrames =>
            "rule 3: the frames of the stack map stand at instructions, within max_locals and max_stack (JVMS 4.7.4)",
        VerifyRule::Merge =>
            "rule 4: what falls into an instruction flows to its frame in the stack map; without that it has such a frame (JVMS 4.10.1.6)",
        VerifyRule::CoveredHandler =>
            "rule 5: each handler of the instruction has a frame in the stack map, and what it begins with flows to it (JVMS 4.10.1.6)",
        VerifyRule::Instruction =>
            "rule 6: the instruction is type safe in the frame before it (JVMS 4.10.1.8, 4.10.1.9)",
        VerifyRule::BranchTarget =>
            "rule 7: each target has a frame in the stack map, and what the instruction leaves flows to it (JVMS 4.10.1.9)",
        VerifyRule::EndOfCode =>
            "rule 8: control does not go on behind the last instruction (JVMS 4.10.1.6)",
    }
}

/// A rule as a sentence, with its section of the JVMS.
#[derive(Clone, Copy)]
pub struct ShownRule(pub VerifyRule);

impl fmt::Display for ShownRule {
    ghost output = { λ shown. Some (rule_text shown.0) };

    fn fmt<W: fmt::Write>(&self, f: &mut fmt::Formatter<W>) -> fmt::Result {
        f.write_str(rule_text(self.0))
    }
}
