//! The instructions below the one at which a method breaks a rule, listed.

ghost use Rattle.std.specs.Prelude.{◌≡◌, ◌<◌, IfOk, IsTrue, Option, Some, false, length, string_bytes};
ghost use Rattle.jv_class.specs.Class.{class_of};
ghost use Rattle.jv_explain.specs.Explained.{is_at_instruction};
ghost use Rattle.jv_meaning_typing.specs.Judgement.{IsFirstFault, IsVerdictOfContent};
ghost use Rattle.jv_meaning_world.specs.FileContent.{FileContent};
ghost use Rattle.jv_meaning_world.specs.Numbers.{HoldsAtNumber};
ghost use Rattle.jv_meaning_world.specs.declared.verdict.LoadVerdict.{LoadVerdict};
ghost use Rattle.jv_program_explain.specs.Explain.{IsAsked, TellsBelow};
ghost use Rattle.jv_program_explain.specs.Listing.{IsFaultListed, IsFaultListedOf};
ghost use Rattle.jv_program_explain.specs.Inside.Numbered.{IsJudgedAt, StandsAt, is_on_methods};

use crate::walk::list_to;
use jv_class::ClassFile;
use jv_code::stands_in_list;
use jv_explain::is_at_instruction;
use jv_lines::Lines;
use jv_link::class_at;
use jv_loader::Classes;
use jv_meaning_typing::{Verdict, VerifyFault};
use jv_verify::{ConstantTypes, CurrentClass};
use std::alloc::{AllocError, Global};
use std::hash::RandomState;

/// The instructions below the one at which a method breaks a rule, of the class with a number, which is that of the file.
fn below_in<'a>(
    alloc: Global,
    state: RandomState,
    classes: &Classes<'a>,
    class: usize,
    file: &ClassFile<'a>,
    bytes: &[u8],
    fault: VerifyFault,
) -> Result<String, AllocError>
    requires class { class < length classes.now.world }
    requires guest { HoldsAtNumber classes.now.world class (λ l. l.by_system ≡ false) }
    requires file { HoldsAtNumber classes.now.world class (λ l. class_of file.now ≡ Some l.class) }
    requires judged { HoldsAtNumber classes.now.world class (λ l. IsFirstFault classes.now.world l fault) }
    requires instruction { IsTrue (is_at_instruction fault.rule) }
    ensures { IfOk result (λ text. HoldsAtNumber classes.now.world class (λ l.
        IsFaultListed classes.now.world l fault (string_bytes text))) }
{
    stands_in_list();
    let lines = Lines::read(alloc, bytes);
    let constants = ConstantTypes::new(alloc, state, classes.table(), file.pool())?;
    let current = CurrentClass::new(alloc, classes, class, file, &constants)?;
    list_to(alloc, &current, file, &lines, fault.method, fault.offset)
}

/// The instructions below the one at which a method breaks a rule, of the class with a number; nothing where it is broken by the whole
/// code. These bytes are to be those of the class's file.
fn below_at(
    alloc: Global,
    state: RandomState,
    classes: &Classes<'_>,
    class: usize,
    bytes: &[u8],
    fault: VerifyFault,
) -> Result<String, AllocError>
    requires class { class < length classes.now.world }
    requires guest { HoldsAtNumber classes.now.world class (λ l. l.by_system ≡ false) }
    requires judged { HoldsAtNumber classes.now.world class (λ l. IsFirstFault classes.now.world l fault) }
    ensures { IfOk result (λ text. HoldsAtNumber classes.now.world class (λ l.
        IsFaultListedOf classes.now.world l fault fault.rule (string_bytes text))) }
{
    if !is_at_instruction(fault.rule) {
        return Ok(String::new(alloc));
    }
    match class_at(classes.table(), class).file() {
        Some(file) => below_in(alloc, state, classes, class, file, bytes, fault),
        None => Ok(String::new(alloc)),
    }
}

/// The instructions below the one that a verdict on the class with a number is about; nothing where it is about no instruction. These
/// bytes are to be those of its file.
fn list_below(
    alloc: Global,
    state: RandomState,
    classes: &Classes<'_>,
    number: usize,
    bytes: &[u8],
    verdict: Verdict,
) -> Result<String, AllocError>
    requires { IsTrue (is_on_methods verdict) → IsJudgedAt classes.now.world number verdict }
    ensures { IfOk result (λ text. (why : Option LoadVerdict) (content : FileContent)
        → IsVerdictOfContent classes.now.world why (Some content) verdict
        → (IsTrue (is_on_methods verdict) → StandsAt classes.now.world number content)
        → TellsBelow classes.now.world content verdict (string_bytes text)) }
{
    match verdict {
        Verdict::Verify(fault) => below_at(alloc, state, classes, number, bytes, fault),
        _ => Ok(String::new(alloc)),
    }
}

/// The same, where it is asked for. Names are hashed with the state.
pub(crate) fn below_told(
    alloc: Global,
    state: RandomState,
    asked: bool,
    classes: &Classes<'_>,
    number: usize,
    bytes: &[u8],
    verdict: Verdict,
) -> Result<String, AllocError>
    requires { IsTrue (is_on_methods verdict) → IsJudgedAt classes.now.world number verdict }
    ensures { IfOk result (λ text. (why : Option LoadVerdict) (content : FileContent)
        → IsVerdictOfContent classes.now.world why (Some content) verdict
        → (IsTrue (is_on_methods verdict) → StandsAt classes.now.world number content)
        → IsAsked asked (TellsBelow classes.now.world content verdict) (string_bytes text)) }
{
    if asked {
        list_below(alloc, state, classes, number, bytes, verdict)
    } else {
        Ok(String::new(alloc))
    }
}
