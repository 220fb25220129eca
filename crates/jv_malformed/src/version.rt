//! The version of a file that this host doesn't read, as it is printed.

ghost use Rattle.std.specs.Prelude.{IfOk, Some, string_bytes};
ghost use Rattle.jv_meaning_world.specs.FileContent.{IsContent};
ghost use Rattle.jv_meaning_world.specs.declared.content.Content.TheVariants.{OtherVersion};
ghost use Rattle.jv_malformed.specs.Text.{TellsVersion, version_text};

use crate::part::version_at;
use std::alloc::{AllocError, Global};
use std::fmt;

/// A version by its numbers.
#[derive(Clone, Copy)]
struct ShownVersion {
    minor: u16,
    major: u16,
}

impl fmt::Display for ShownVersion {
    ghost output = { λ v. Some (version_text v.minor v.major) };

    fn fmt<W: fmt::Write>(&self, f: &mut fmt::Formatter<W>) -> fmt::Result {
        let minor = self.minor;
        let major = self.major;
        write!(
            f,
            "  version {major}.{minor}: this host reads 50.0, 51.0 and 52.0 (JVMS 4.1), the last of which javac makes by --release 8\n"
        )
    }
}

/// What is said of bytes that begin like a class file of another version than this host reads (JVMS 4.1): which one. Nothing is promised of
/// other bytes.
///
/// # Errors
///
/// Where there was no memory for the text.
pub fn explain_version(alloc: Global, bytes: &[u8]) -> Result<String, AllocError>
    ensures { IfOk result (λ text. IsContent bytes.now OtherVersion → TellsVersion bytes.now (string_bytes text)) }
{
    match version_at(bytes) {
        Some(((minor, major), _)) => {
            let shown = ShownVersion { minor, major };
            shown.to_string(alloc)
        }
        None => Ok(String::new(alloc)),
    }
}
