//! A verdict that is told, as text.

ghost use Rattle.std.specs.Prelude.{◌≡◌, ◌≢◌, ◌↔◌, ◌<◌, IfSome, IfNone, IsTrue};
ghost use Rattle.jv_program_base.specs.Verdict.{rule_number};
ghost use Rattle.libjvhost.specs.Calls.{TellsText};
ghost use Rattle.libjvhost.specs.Codes.{ok};
ghost use Rattle.libjvhost.specs.Told.{IsTellable, reason_number, told_verdict};

use crate::codes::{HOST_MEMORY, OK, WRONG_VERDICT};
use crate::room::fill;
use crate::told::ToldVerdict;
use jv_meaning_typing::{Verdict, VerifyFault, VerifyRule};
use jv_meaning_world::LoadVerdict;
use jv_program_base::ShownVerdict;
use std::alloc::Global;

fn reason_of(kind: u32) -> Option<LoadVerdict>
    ensures some { IfSome result (λ reason. reason_number reason ≡ kind) }
    ensures none { IfNone result ((reason : LoadVerdict) → reason_number reason ≢ kind) }
{
    match kind {
        2 => Some(LoadVerdict::Version),
        3 => Some(LoadVerdict::Format),
        4 => Some(LoadVerdict::Unsupported),
        5 => Some(LoadVerdict::Reserved),
        6 => Some(LoadVerdict::Duplicate),
        7 => Some(LoadVerdict::Circular),
        8 => Some(LoadVerdict::NoSuper),
        9 => Some(LoadVerdict::WrongKind),
        10 => Some(LoadVerdict::NoAccess),
        11 => Some(LoadVerdict::FinalBroken),
        _ => None,
    }
}

fn rule_of(number: u32) -> Option<VerifyRule>
    ensures some { IfSome result (λ rule. rule_number rule ≡ number) }
    ensures none { IfNone result ((rule : VerifyRule) → rule_number rule ≢ number) }
{
    match number {
        1 => Some(VerifyRule::Code),
        2 => Some(VerifyRule::HandlerTable),
        3 => Some(VerifyRule::MapFrames),
        4 => Some(VerifyRule::Merge),
        5 => Some(VerifyRule::CoveredHandler),
        6 => Some(VerifyRule::Instruction),
        7 => Some(VerifyRule::BranchTarget),
        8 => Some(VerifyRule::EndOfCode),
        _ => None,
    }
}

/// The fault that is told, if one is.
fn fault_of(told: &ToldVerdict) -> Option<VerifyFault>
    requires { told.now.kind ≡ 1 }
    ensures some { IfSome result (λ fault. told.now ≡ told_verdict (Verdict.Verify fault)) }
    ensures none { IfNone result ((fault : VerifyFault) → fault.method < 65536 → told.now ≢ told_verdict (Verdict.Verify fault)) }
{
    let Ok(method) = u16::try_from(told.method) else {
        return None;
    };
    let Some(rule) = rule_of(told.rule) else {
        return None;
    };
    Some(VerifyFault {
        method,
        offset: told.offset,
        rule,
    })
}

/// Whether the three numbers that only a fault has are 0.
fn is_plain(told: &ToldVerdict) -> bool
    ensures { IsTrue result ↔ (told.now ≡ record { kind = told.now.kind; method = 0; offset = 0; rule = 0 }) }
{
    told.method == 0 && told.offset == 0 && told.rule == 0
}

/// The verdict that is told, if one is.
fn verdict_of(told: &ToldVerdict) -> Option<Verdict>
    ensures some { IfSome result (λ v. told.now ≡ told_verdict v) }
    ensures none { IfNone result ((v : Verdict) → IsTellable v → told.now ≢ told_verdict v) }
{
    if told.kind == 1 {
        return match fault_of(told) {
            Some(fault) => Some(Verdict::Verify(fault)),
            None => None,
        };
    }
    if !is_plain(told) {
        return None;
    }
    if told.kind == 0 {
        return Some(Verdict::Accepted);
    }
    match reason_of(told.kind) {
        Some(reason) => Some(Verdict::Refused(reason)),
        None => None,
    }
}

/// Copies the text of a verdict, as much as fits, and says how long it is.
#[unsafe(no_mangle)]
pub extern "C" fn jvhost_verdict_text(
    alloc: Global,
    verdict: &ToldVerdict,
    room: &mut [u8],
    count: &mut usize,
) -> u32
    ensures tells { TellsText verdict.now result room.old room.new count.new }
    ensures count { result ≢ ok → count.new ≡ count.old }
{
    let Some(verdict) = verdict_of(verdict) else {
        return WRONG_VERDICT;
    };
    let Ok(text) = ShownVerdict(verdict).to_string(alloc) else {
        return HOST_MEMORY;
    };
    fill(text.as_bytes(), room);
    *count = text.len();
    OK
}
