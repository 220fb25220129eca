//! What is said of a file.

ghost use Rattle.std.specs.Prelude.{Option, Some, IfOk, string_bytes};
ghost use Rattle.jv_meaning_world.specs.FileContent.{FileContent, IsContent};
ghost use Rattle.jv_meaning_world.specs.World.{World};
ghost use Rattle.jv_meaning_world.specs.declared.verdict.LoadVerdict.{LoadVerdict};
ghost use Rattle.jv_meaning_typing.specs.Judgement.{IsVerdictOfContent};
ghost use Rattle.jv_explain.specs.Explained.{IsExplanation};

use crate::fault::explain_in;
use jv_loader::{OutOfMemory, read_content};
use jv_meaning_typing::Verdict;
use jv_meaning_world::{Content, one_content};
use std::alloc::Global;

/// What is said of a file with these bytes behind the verdict on it: of one whose class's method breaks a rule the method, what stands
/// above the instruction, the instruction, with its line of source where the file says it, the frames there, and the rule (JVMS 4.10.1),
/// and of others nothing. What stands above and the frames are these texts.
///
/// # Errors
///
/// Where there was no memory for the class or for the text.
pub fn explain_file(
    alloc: Global,
    bytes: &[u8],
    verdict: Verdict,
    above: &str,
    frames: &str,
) -> Result<String, OutOfMemory>
    ensures { IfOk result (λ text. (world : World) (why : Option LoadVerdict) (content : FileContent) → IsContent bytes.now content
        → IsVerdictOfContent world why (Some content) verdict → IsExplanation content verdict above.now frames.now (string_bytes text)) }
{
    one_content();
    let Verdict::Verify(fault) = verdict else {
        return Ok(String::new(alloc));
    };
    match read_content(alloc, bytes)? {
        Content::Holds(file) => Ok(explain_in(alloc, bytes, &file, fault, above, frames)?),
        _ => Ok(String::new(alloc)),
    }
}
