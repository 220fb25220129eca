//! The part at fault as it is printed.

ghost use Rattle.std.specs.Prelude.{IfOk, Some, string_bytes};
ghost use Rattle.jv_meaning_world.specs.FileContent.{IsContent};
ghost use Rattle.jv_meaning_world.specs.declared.content.Content.TheVariants.{NoClassFile};
ghost use Rattle.jv_malformed.specs.Text.{TellsFault, part_text};

use crate::part::{FaultyPart, faulty_part};
use std::alloc::{AllocError, Global};
use std::fmt;

impl fmt::Display for FaultyPart {
    ghost output = { λ part. Some (part_text part) };

    fn fmt<W: fmt::Write>(&self, f: &mut fmt::Formatter<W>) -> fmt::Result {
        match *self {
            FaultyPart::Start => {
                f.write_str(
                    "  the start is not that of a class file: CAFEBABE and a version, eight bytes (JVMS 4.1)\n",
                )
            }
            FaultyPart::Constants(fault) => write!(f, "{fault}"),
            FaultyPart::Structure(fault) => write!(f, "{fault}"),
            FaultyPart::Rules(fault) => write!(f, "{fault}"),
        }
    }
}

/// What is said of bytes that are no class file (JVMS 4.1): the first part that is at fault; of other bytes any of these texts.
///
/// # Errors
///
/// Where there was no memory for what was read, or for the text.
pub fn explain_malformed(alloc: Global, bytes: &[u8]) -> Result<String, AllocError>
    ensures { IfOk result (λ text. IsContent bytes.now NoClassFile → TellsFault bytes.now (string_bytes text)) }
{
    let part = faulty_part(alloc, bytes)?;
    part.to_string(alloc)
}
