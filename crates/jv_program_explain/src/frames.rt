//! The frames where a method breaks a rule, as text.

ghost use Rattle.std.specs.Prelude.{◌≡◌, ◌++◌, [], IfOk, IsTrue, Option, Some, string_bytes};
ghost use Rattle.std.specs.Option.{option_map};
ghost use Rattle.jv_meaning_typing.specs.Judgement.{IsVerdictOfContent};
ghost use Rattle.jv_meaning_typing.specs.declared.verdict.Verdict.TheVariants.{Verify};
ghost use Rattle.jv_meaning_world.specs.FileContent.{FileContent};
ghost use Rattle.jv_meaning_world.specs.Numbers.{HoldsAtNumber};
ghost use Rattle.jv_meaning_world.specs.declared.verdict.LoadVerdict.{LoadVerdict};
ghost use Rattle.jv_program_explain.specs.Frames.{AreFramesShown, ShowsFramesOf, both_text, frames_text, some_text, unmet_text, want_text};
ghost use Rattle.jv_program_explain.specs.Inside.Numbered.{IsJudgedAt, StandsAt, is_on_methods};
ghost use Rattle.jv_operands.specs.Seen.{seen_unmet as seen_want_unmet};
ghost use Rattle.jv_shown.specs.Instructions.{first_of};
ghost use Rattle.jv_verify.specs.Before.{seen_frame, seen_unmet};

use crate::unmet::ShownUnmet;
use crate::wanting::{ShownWant, unmet_want};
use jv_explain::is_at_instruction;
use jv_loader::Classes;
use jv_meaning_typing::{Verdict, VerifyFault, VerifyRule};
use jv_operands::UnmetWant;
use jv_shown::ShownFrame;
use jv_verify::{FramesBefore, NamedFrame, NamedUnmet, frames_before};
use std::alloc::{AllocError, Global};
use std::fmt;
use std::hash::RandomState;

/// A frame as it is printed, behind whose it is, where there is one.
#[derive(Clone, Copy)]
struct ShownSome<'f, 'a> {
    whose: &'f str,
    frame: Option<&'f NamedFrame<'a>>,
}

/// A frame, and one of the stack map, as they are printed.
#[derive(Clone, Copy)]
struct ShownBoth<'f, 'a> {
    falling: Option<&'f NamedFrame<'a>>,
    map: Option<&'f NamedFrame<'a>>,
}

impl fmt::Display for ShownSome<'_, '_> {
    ghost output = { λ shown. Some (some_text shown.whose.now (option_map (λ f. seen_frame f.now) shown.frame)) };

    fn fmt<W: fmt::Write>(&self, f: &mut fmt::Formatter<W>) -> fmt::Result {
        match self.frame {
            Some(frame) => {
                let shown = ShownFrame {
                    whose: self.whose,
                    locals: frame.locals.as_slice(),
                    stack: frame.stack.as_slice(),
                    flag: frame.flag_this_uninit,
                };
                write!(f, "{shown}")
            }
            None => Ok(()),
        }
    }
}

impl fmt::Display for ShownBoth<'_, '_> {
    ghost output = { λ both. Some (both_text (option_map (λ f. seen_frame f.now) both.falling)
        (option_map (λ f. seen_frame f.now) both.map)) };

    fn fmt<W: fmt::Write>(&self, f: &mut fmt::Formatter<W>) -> fmt::Result {
        let falling = ShownSome {
            whose: "",
            frame: self.falling,
        };
        let map = ShownSome {
            whose: "map ",
            frame: self.map,
        };
        write!(f, "{falling}{map}")
    }
}

/// The text of a frame, and of one of the stack map, where there are these.
fn both_told(
    alloc: Global,
    falling: Option<&NamedFrame<'_>>,
    map: Option<&NamedFrame<'_>>,
) -> Result<String, AllocError>
    ensures { IfOk result (λ text. string_bytes text
        ≡ both_text (option_map (λ f. seen_frame f.now) falling.entry) (option_map (λ f. seen_frame f.now) map.entry)) }
{
    let shown = ShownBoth { falling, map };
    shown.to_string(alloc)
}

/// The first of two frames that is there.
fn first_of<'f, 'a>(
    one: Option<&'f NamedFrame<'a>>,
    other: Option<&'f NamedFrame<'a>>,
) -> Option<&'f NamedFrame<'a>>
    ensures { option_map (λ f. seen_frame f.now) result
        ≡ first_of (option_map (λ f. seen_frame f.now) one.entry) (option_map (λ f. seen_frame f.now) other.entry) }
{
    match one {
        Some(frame) => Some(frame),
        None => other,
    }
}

/// The frame before an instruction: that of the stack map, where it has one there, else what falls there.
fn before_of<'f, 'a>(found: &'f FramesBefore<'a>) -> Option<&'f NamedFrame<'a>>
    ensures { option_map (λ f. seen_frame f.now) result
        ≡ first_of (option_map seen_frame found.now.map) (option_map seen_frame found.now.falling) }
{
    first_of(found.map.as_ref(), found.falling.as_ref())
}

/// The text of a frame, and of what goes on, whose frame this is.
fn onward_told(
    alloc: Global,
    frame: Option<&NamedFrame<'_>>,
    whose: &str,
    unmet: Option<&NamedUnmet<'_>>,
) -> Result<String, AllocError>
    ensures { IfOk result (λ text. string_bytes text ≡ some_text [] (option_map (λ f. seen_frame f.now) frame.entry)
        ++ unmet_text whose.now (option_map (λ u. seen_unmet u.now) unmet.entry)) }
{
    let frame = ShownSome { whose: "", frame };
    let unmet = ShownUnmet { whose, unmet };
    format!(in alloc; "{frame}{unmet}")
}

/// The text of a frame, and of what the instruction wants first that isn't there.
fn wanting_told(
    alloc: Global,
    frame: Option<&NamedFrame<'_>>,
    want: Option<UnmetWant<&[u8]>>,
) -> Result<String, AllocError>
    ensures { IfOk result (λ text. string_bytes text
        ≡ some_text [] (option_map (λ f. seen_frame f.now) frame.entry) ++ want_text (option_map seen_want_unmet want.entry)) }
{
    let frame = ShownSome { whose: "", frame };
    let want = ShownWant(want);
    format!(in alloc; "{frame}{want}")
}

/// The text of the frames before an instruction that breaks a rule, of what goes on from it, and of what it wants first that isn't there.
fn frames_told(
    alloc: Global,
    rule: VerifyRule,
    found: &FramesBefore<'_>,
    want: Option<UnmetWant<&[u8]>>,
) -> Result<String, AllocError>
    ensures { IfOk result (λ text. string_bytes text ≡ frames_text rule (option_map seen_frame found.now.falling)
        (option_map seen_frame found.now.map) (option_map seen_unmet found.now.unmet) (option_map seen_want_unmet want.entry)) }
{
    let falling = found.falling.as_ref();
    let map = found.map.as_ref();
    let unmet = found.unmet.as_ref();
    match rule {
        VerifyRule::Merge => both_told(alloc, falling, map),
        VerifyRule::CoveredHandler => onward_told(alloc, first_of(map, falling), "thrown ", unmet),
        VerifyRule::Instruction => wanting_told(alloc, first_of(map, falling), want),
        VerifyRule::BranchTarget => onward_told(alloc, first_of(map, falling), "left ", unmet),
        _ => both_told(alloc, first_of(map, falling), None),
    }
}

/// The text of the frames where a method of the class with a number breaks a rule; nothing where it is broken by the whole code.
fn frames_at(
    alloc: Global,
    state: RandomState,
    classes: &Classes<'_>,
    number: usize,
    fault: VerifyFault,
) -> Result<String, AllocError>
    requires { IsJudgedAt classes.now.world number (Verify fault) }
    ensures { IfOk result (λ text. HoldsAtNumber classes.now.world number (λ l.
        ShowsFramesOf classes.now.world l fault fault.rule (string_bytes text))) }
{
    if !is_at_instruction(fault.rule) {
        return Ok(String::new(alloc));
    }
    let found = frames_before(alloc, state, classes, number, fault.method, fault.offset)?;
    let before = before_of(&found);
    let want = unmet_want(alloc, classes, number, fault, before)?;
    frames_told(alloc, fault.rule, &found, want)
}

/// The text of the frames that a verdict on the class with a number is about; nothing where it is about no instruction. Names are hashed
/// with the state.
pub(crate) fn frames_shown(
    alloc: Global,
    state: RandomState,
    classes: &Classes<'_>,
    number: usize,
    verdict: Verdict,
) -> Result<String, AllocError>
    requires { IsTrue (is_on_methods verdict) → IsJudgedAt classes.now.world number verdict }
    ensures { IfOk result (λ text. (why : Option LoadVerdict) (content : FileContent)
        → IsVerdictOfContent classes.now.world why (Some content) verdict
        → (IsTrue (is_on_methods verdict) → StandsAt classes.now.world number content)
        → AreFramesShown classes.now.world content verdict (string_bytes text)) }
{
    match verdict {
        Verdict::Verify(fault) => frames_at(alloc, state, classes, number, fault),
        _ => Ok(String::new(alloc)),
    }
}
