//! What is said of the files of a guest.

ghost use Rattle.std.specs.Prelude.{◌≡◌, ℕ, IfOk, IsTrue, List, Option, Some, map, string_bytes};
ghost use Rattle.jv_limits.specs.Bytes.{bytes_of};
ghost use Rattle.jv_links.specs.Text.{AreLinksTold};
ghost use Rattle.jv_program_explain.specs.Listing.{AreMethodsListed};
ghost use Rattle.jv_meaning_typing.specs.Judgement.{IsVerdictOfContent};
ghost use Rattle.jv_meaning_typing.specs.declared.verdict.Verdict.TheVariants.{Accepted, Refused};
ghost use Rattle.jv_meaning_world.specs.FileContent.{FileContent, IsContent};
ghost use Rattle.jv_meaning_world.specs.Numbers.{HoldsAtNumber};
ghost use Rattle.jv_meaning_world.specs.declared.verdict.LoadVerdict.{LoadVerdict};
ghost use Rattle.jv_program_explain.specs.Explain.{IsAcceptedTold, IsAsked, IsExplainedBy, IsRefusedTold, IsSaid};
ghost use Rattle.jv_program_explain.specs.Inside.Below.{AreSaid};
ghost use Rattle.jv_program_explain.specs.Inside.Numbered.{IsContentFor, IsJudgedAt, StandsAt, is_on_methods};
ghost use Rattle.jv_verify.specs.Files.{AreFilesOf};

use crate::below::below_told;
use crate::class::list_methods;
use crate::frames::frames_shown;
use crate::numbers::next_number;
use crate::settings::ExplainSettings;
use jv_beyond::explain_unsupported;
use jv_explain::{explain_file, explain_refusal};
use jv_links::explain_links;
use jv_loader::{Classes, LoadVerdict, OutOfMemory};
use jv_malformed::{explain_malformed, explain_version};
use jv_meaning_typing::Verdict;
use jv_program_base::{bytes_at, verdict_at};
use jv_verify::Verified;
use std::alloc::{AllocError, Global};
use std::hash::RandomState;

/// The references of the accepted class with a number that don't resolve, where they are asked for.
fn links_told(
    alloc: Global,
    asked: bool,
    classes: &Classes<'_>,
    number: usize,
    bytes: &[u8],
) -> Result<String, AllocError>
    requires { IsJudgedAt classes.now.world number Accepted }
    ensures { IfOk result (λ text. HoldsAtNumber classes.now.world number (λ l.
        IsAsked asked (AreLinksTold classes.now.world l) (string_bytes text))) }
{
    if asked {
        explain_links(alloc, classes, number, bytes)
    } else {
        Ok(String::new(alloc))
    }
}

/// The methods of the accepted class with a number, with the frame before each instruction, where they are asked for. Names are hashed with
/// the state.
fn methods_told(
    alloc: Global,
    state: RandomState,
    asked: bool,
    classes: &Classes<'_>,
    number: usize,
    bytes: &[u8],
) -> Result<String, AllocError>
    requires { IsJudgedAt classes.now.world number Accepted }
    ensures { IfOk result (λ text. HoldsAtNumber classes.now.world number (λ l.
        IsAsked asked (AreMethodsListed classes.now.world l) (string_bytes text))) }
{
    if asked {
        list_methods(alloc, state, classes, number, bytes)
    } else {
        Ok(String::new(alloc))
    }
}

/// What is asked of a file with these bytes, whose class has a number and is accepted. Names are hashed with the state.
fn accepted_told(
    alloc: Global,
    state: RandomState,
    settings: ExplainSettings,
    classes: &Classes<'_>,
    number: usize,
    bytes: &[u8],
) -> Result<String, AllocError>
    requires { IsJudgedAt classes.now.world number Accepted }
    ensures { IfOk result (λ text. (why : Option LoadVerdict) (content : FileContent)
        → IsVerdictOfContent classes.now.world why (Some content) Accepted → StandsAt classes.now.world number content
        → IsAcceptedTold settings classes.now.world content (string_bytes text)) }
{
    let mut text = methods_told(alloc, state, settings.frames, classes, number, bytes)?;
    let links = links_told(alloc, settings.links, classes, number, bytes)?;
    text.push_str(&links)?;
    Ok(text)
}

/// What is said of a file with these bytes that is refused before the methods of its class are looked at.
fn refused_told(
    alloc: Global,
    classes: &Classes<'_>,
    bytes: &[u8],
    why: LoadVerdict,
) -> Result<String, OutOfMemory>
    ensures { IfOk result (λ text. (content : FileContent) → IsContent bytes.now content → IsContentFor (Refused why) content
        → IsRefusedTold classes.now.world bytes.now content why (string_bytes text)) }
{
    match why {
        LoadVerdict::Version => Ok(explain_version(alloc, bytes)?),
        LoadVerdict::Format => Ok(explain_malformed(alloc, bytes)?),
        LoadVerdict::Unsupported => Ok(explain_unsupported(alloc, bytes)?),
        _ => explain_refusal(alloc, classes, bytes, why),
    }
}

/// What is said of the verdict on the methods of the class of a file with these bytes, which has a number. Names are hashed with the state.
fn verdict_told(
    alloc: Global,
    state: RandomState,
    settings: ExplainSettings,
    classes: &Classes<'_>,
    number: usize,
    bytes: &[u8],
    verdict: Verdict,
) -> Result<String, OutOfMemory>
    requires { IsTrue (is_on_methods verdict) → IsJudgedAt classes.now.world number verdict }
    ensures { IfOk result (λ text. (why : Option LoadVerdict) (content : FileContent) → IsContent bytes.now content
        → IsVerdictOfContent classes.now.world why (Some content) verdict
        → (IsTrue (is_on_methods verdict) → StandsAt classes.now.world number content)
        → IsExplainedBy settings classes.now.world content verdict (string_bytes text)) }
{
    let above = below_told(
        alloc,
        state,
        settings.frames,
        classes,
        number,
        bytes,
        verdict,
    )?;
    let frames = frames_shown(alloc, state, classes, number, verdict)?;
    explain_file(alloc, bytes, verdict, &above, &frames)
}

/// What is said of a file with these bytes and this verdict, whose class has a number where its methods were looked at. Names are hashed
/// with the state.
fn said_at(
    alloc: Global,
    state: RandomState,
    settings: ExplainSettings,
    classes: &Classes<'_>,
    number: usize,
    bytes: &[u8],
    verdict: Verdict,
) -> Result<String, OutOfMemory>
    requires { IsTrue (is_on_methods verdict) → IsJudgedAt classes.now.world number verdict }
    ensures { IfOk result (λ text. (why : Option LoadVerdict) (content : FileContent) → IsContent bytes.now content
        → IsVerdictOfContent classes.now.world why (Some content) verdict
        → (IsTrue (is_on_methods verdict) → StandsAt classes.now.world number content) → IsContentFor verdict content
        → IsSaid settings classes.now.world bytes.now content verdict (string_bytes text)) }
{
    match verdict {
        Verdict::Accepted => Ok(accepted_told(alloc, state, settings, classes, number, bytes)?),
        Verdict::Refused(why) => refused_told(alloc, classes, bytes, why),
        Verdict::Verify(_) => {
            verdict_told(alloc, state, settings, classes, number, bytes, verdict)
        }
    }
}

/// What is said of the files of a guest, of which this is found. Names are hashed with the state.
pub(crate) fn said_of(
    alloc: Global,
    state: RandomState,
    settings: ExplainSettings,
    verified: &Verified<'_>,
    files: &[&[u8]],
) -> Result<Vec<String>, AllocError>
    requires { (library : List (List ℕ)) × AreFilesOf library (map bytes_of files.now) verified.now }
    ensures { IfOk result (λ said. AreSaid settings (map bytes_of files.now) verified.now (map string_bytes said.items)) }
{
    let classes = verified.classes();
    let verdicts = verified.verdicts();
    let mut said = Vec::new(alloc);
    let mut number = verified.host_count();
    for place in 0..files.len().min(verdicts.len()) {
        let bytes = bytes_at(files, place);
        let verdict = verdict_at(verdicts, place);
        let Ok(text) = said_at(alloc, state, settings, classes, number, bytes, verdict) else {
            return Err(AllocError);
        };
        said.push(text).map_err(AllocError::from)?;
        number = next_number(classes, number, verdict);
    }
    Ok(said)
}
