//! Verdicts as they are printed.
ghost use Rattle.std.specs.Prelude.{◌≡◌, Some};
ghost use Rattle.jv_program_base.specs.Verdict.{fault_text, reason_name, rule_number, verdict_text};

use jv_meaning_typing::{Verdict, VerifyFault, VerifyRule};
use jv_meaning_world::LoadVerdict;
use std::fmt;

/// The rule that a method breaks, and where, as it is printed.
#[derive(Clone, Copy)]
struct ShownFault(VerifyFault);

/// A verdict, as it is printed.
#[derive(Clone, Copy)]
pub struct ShownVerdict(pub Verdict);

/// The name of what is wrong with a file before its methods are looked at.
pub fn reason_name(reason: LoadVerdict) -> &'static str
    ensures { result.now ≡ reason_name reason }
{
    match reason {
        LoadVerdict::Version => "Version",
        LoadVerdict::Format => "Format",
        LoadVerdict::Unsupported => "Unsupported",
        LoadVerdict::Reserved => "Reserved",
        LoadVerdict::Duplicate => "Duplicate",
        LoadVerdict::Circular => "Circular",
        LoadVerdict::NoSuper => "NoSuper",
        LoadVerdict::WrongKind => "WrongKind",
        LoadVerdict::NoAccess => "NoAccess",
        LoadVerdict::FinalBroken => "FinalBroken",
    }
}

/// The place of a rule in the order in which the rules are asked.
pub fn rule_number(rule: VerifyRule) -> u8
    ensures { result ≡ rule_number rule }
{
    match rule {
        VerifyRule::Code => 1,
        VerifyRule::HandlerTable => 2,
        VerifyRule::MapFrames => 3,
        VerifyRule::Merge => 4,
        VerifyRule::CoveredHandler => 5,
        VerifyRule::Instruction => 6,
        VerifyRule::BranchTarget => 7,
        VerifyRule::EndOfCode => 8,
    }
}

impl fmt::Display for ShownFault {
    ghost output = { λ fault. Some (fault_text fault.0) };

    fn fmt<W: fmt::Write>(&self, f: &mut fmt::Formatter<W>) -> fmt::Result {
        let method = self.0.method;
        let offset = self.0.offset;
        let rule = rule_number(self.0.rule);
        write!(f, "Verify method {method} offset {offset} rule {rule}")
    }
}

impl fmt::Display for ShownVerdict {
    ghost output = { λ verdict. Some (verdict_text verdict.0) };

    fn fmt<W: fmt::Write>(&self, f: &mut fmt::Formatter<W>) -> fmt::Result {
        match self.0 {
            Verdict::Refused(reason) => {
                let reason = reason_name(reason);
                write!(f, "{reason}")
            }
            Verdict::Verify(fault) => {
                let fault = ShownFault(fault);
                write!(f, "{fault}")
            }
            Verdict::Accepted => write!(f, "Accepted"),
        }
    }
}
