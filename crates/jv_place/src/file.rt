//! The instruction at a place of a file.

ghost use Rattle.std.specs.Prelude.{IfOk};
ghost use Rattle.jv_place.specs.Inside.Found.{IsInClass, text_in};
ghost use Rattle.jv_place.specs.Instruction.{IsInstructionIn};

use crate::method::{Wanted, text_in};
use jv_class::ClassFile;
use jv_loader::{OutOfMemory, read_content};
use jv_meaning_world::{Content, one_content};
use std::alloc::{AllocError, Global};

/// The text of the instruction at a place of a class.
fn text_in_class(
    alloc: Global,
    file: &ClassFile<'_>,
    class: &[u8],
    wanted: Wanted<'_>,
) -> Result<Option<String>, AllocError>
    ensures { IfOk result (λ text. IsInClass file.now class.now wanted.entry (text_in text)) }
{
    if file.name() != class {
        return Ok(None);
    }
    text_in(alloc, file, wanted)
}

/// The text of the instruction at an offset of the method with this name and descriptor of the class with this name, where a file with
/// these bytes holds that class and an instruction starts there: its mnemonic, and its operands by name (JVMS 4.6, 4.7.3, 6.5).
///
/// # Errors
///
/// Where there was no memory for the class or for the text.
pub fn instruction_of(
    alloc: Global,
    bytes: &[u8],
    class: &[u8],
    name: &[u8],
    descriptor: &[u8],
    offset: u32,
) -> Result<Option<String>, OutOfMemory>
    ensures { IfOk result (λ text. IsInstructionIn bytes.now
        (record { class = class.now; method = name.now; descriptor = descriptor.now; offset = offset }) (text_in text)) }
{
    one_content();
    let wanted = Wanted {
        name,
        descriptor,
        offset,
    };
    match read_content(alloc, bytes)? {
        Content::Holds(file) => Ok(text_in_class(alloc, &file, class, wanted)?),
        _ => Ok(None),
    }
}
