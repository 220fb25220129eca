//! What is said of a file that is beyond the profile.

ghost use Rattle.std.specs.Prelude.{IfOk, string_bytes};
ghost use Rattle.jv_meaning_world.specs.FileContent.{IsContent};
ghost use Rattle.jv_meaning_world.specs.declared.content.Content.TheVariants.{MoreThanProfile};
ghost use Rattle.jv_beyond.specs.Inside.Told.{IsFoundTold};
ghost use Rattle.jv_beyond.specs.Text.{TellsBeyond};

use crate::finding::first_beyond;
use crate::header::version_at;
use crate::law::some_is_beyond;
use crate::telling::tell;
use jv_class_structure::{Parts, PartsFault, one_behind_version, read_parts};
use std::alloc::{AllocError, Global};

/// What is said of the first part of a class that is beyond the profile; nothing where there is none.
fn explain_parts(alloc: Global, bytes: &[u8], parts: &Parts<'_>) -> Result<String, AllocError>
    ensures { IfOk result (λ text. IsFoundTold parts.now (string_bytes text)) }
{
    match first_beyond(parts) {
        Some(part) => tell(alloc, bytes, parts, part),
        None => Ok(String::new(alloc)),
    }
}

/// What is said of a class file with these bytes that has more than this host's profile: the first part that is beyond it, and what of it
/// is. That is an instruction, with its method and, where the file says it, its line of source (JVMS 4.7.12), where code has one that the
/// profile leaves out; else a field, a method or a constant (4.4 to 4.6, 6.5). Nothing is promised of other files.
///
/// # Errors
///
/// Where there was no memory for the class or for the text.
pub fn explain_unsupported(alloc: Global, bytes: &[u8]) -> Result<String, AllocError>
    ensures { IfOk result (λ text. IsContent bytes.now MoreThanProfile → TellsBeyond bytes.now (string_bytes text)) }
{
    one_behind_version();
    some_is_beyond();
    let Some(((_minor, major), rest)) = version_at(bytes) else {
        return Ok(String::new(alloc));
    };
    match read_parts(alloc, major, rest) {
        Ok(parts) => explain_parts(alloc, bytes, &parts),
        Err(PartsFault::Format) => Ok(String::new(alloc)),
        Err(PartsFault::OutOfMemory) => Err(AllocError),
    }
}
