//! Reads what a file holds.

ghost use Rattle.std.specs.Prelude.{◌↔◌, IsTrue, IfSome, IfOk, IsSomeAnd, slice_get};
ghost use Rattle.std.specs.List.{All};
ghost use Rattle.jv_class_structure.specs.Seen.{seen_method};
ghost use Rattle.jv_class_structure.specs.Parts.{methods_of};
ghost use Rattle.jv_meaning_world.specs.FileContent.{HasNoUnsupportedCode, IsContent};
ghost use Rattle.jv_loader.specs.Inside.Reading.{content_of};

use crate::out_of_memory::OutOfMemory;
use jv_class::{ClassFault, ClassFile, Method, is_some_class, read_class};
use jv_code::unsupported;
use jv_meaning_world::{Content, FileClass};
use std::alloc::Global;

/// Whether the method's code, where it has any, stays within the profile.
fn has_profile_code(method: Method<'_>) -> bool
    ensures { IsTrue result ↔ HasNoUnsupportedCode (seen_method method.entry).code }
{
    match method.code() {
        Some(code) => !unsupported(code.code),
        None => true,
    }
}

/// Whether the code of the method at a place stays within the profile; also where there is none.
fn has_profile_code_at(class: &ClassFile<'_>, place: usize) -> bool
    ensures { IsTrue result ↔ IfSome (slice_get (methods_of class.now) place) (λ m. HasNoUnsupportedCode m.code) }
{
    match class.method(place) {
        Some(method) => has_profile_code(method),
        None => true,
    }
}

/// Whether the code of each method stays within the profile.
fn is_within_profile(class: &ClassFile<'_>) -> bool
    ensures { IsTrue result ↔ All (λ m. HasNoUnsupportedCode m.code) (methods_of class.now) }
{
    (0..class.method_count()).all(|place| has_profile_code_at(class, place))
}

/// What the file with these bytes holds (JVMS 4.1, 5.3.5).
///
/// # Errors
///
/// Where the host had no memory for what was read.
pub fn read_content<'a>(alloc: Global, bytes: &'a [u8]) -> Result<FileClass<'a>, OutOfMemory>
    ensures { IfOk result (λ found. IsSomeAnd (content_of found) (IsContent bytes.now)) }
{
    match read_class(alloc, bytes) {
        Ok(class) => {
            is_some_class();
            class.is_well_formed();
            if is_within_profile(&class) {
                Ok(Content::Holds(class))
            } else {
                Ok(Content::MoreThanProfile)
            }
        }
        Err(ClassFault::Version) => Ok(Content::OtherVersion),
        Err(ClassFault::Format) => Ok(Content::NoClassFile),
        Err(ClassFault::Unsupported) => Ok(Content::MoreThanProfile),
        Err(ClassFault::OutOfMemory) => Err(OutOfMemory),
    }
}
