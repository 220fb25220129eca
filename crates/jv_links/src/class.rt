//! What is said of a class.

ghost use Rattle.std.specs.Prelude.{◌≡◌, ◌<◌, IfOk, Some, false, length, string_bytes};
ghost use Rattle.jv_class.specs.Class.{class_of};
ghost use Rattle.jv_lines.specs.Lines.{line_at};
ghost use Rattle.jv_links.specs.Inside.Walked.{AreBlocks};
ghost use Rattle.jv_links.specs.Text.{AreLinksTold};
ghost use Rattle.jv_meaning_typing.specs.Judgement.{AreTyped};
ghost use Rattle.jv_meaning_world.specs.Numbers.{HoldsAtNumber};

use crate::block::block_of;
use jv_class::ClassFile;
use jv_explain::append;
use jv_lines::Lines;
use jv_link::{Site, class_at};
use jv_loader::Classes;
use std::alloc::{AllocError, Global};

/// What is said of the references of a class's methods, of which there are so many, that don't resolve, with these lines. The file is that
/// of the class.
fn blocks_of(
    alloc: Global,
    classes: &Classes<'_>,
    class: usize,
    count: usize,
    file: &ClassFile<'_>,
    lines: &Lines,
) -> Result<String, AllocError>
    requires class { class < length classes.now.world }
    requires count { HoldsAtNumber classes.now.world class (λ l. count ≡ length l.class.methods) }
    requires file { HoldsAtNumber classes.now.world class (λ l. class_of file.now ≡ Some l.class) }
    ensures { IfOk result (λ text. HoldsAtNumber classes.now.world class (λ l.
        AreBlocks classes.now.world l (line_at lines.now) (string_bytes text))) }
{
    let mut text = String::new(alloc);
    for method in 0..count {
        let site = Site { class, method };
        let block = block_of(alloc, classes, file, site, lines)?;
        append(&mut text, &block)?;
    }
    Ok(text)
}

/// What is said of the class with a number, one of a guest's whose methods are typed (JVMS 4.10.1): each reference of its methods that
/// doesn't resolve where the instruction is run (5.4.3, 6.5), by method and offset, with the error that is thrown, and with the line of
/// source where these bytes, which are to be those of its file, say it (4.7.12). It costs as much as to resolve each reference once.
///
/// # Errors
///
/// Where there was no memory for the text; there is none for one that is longer than 16,777,216 bytes by more than a reference or a method.
pub fn explain_links(
    alloc: Global,
    classes: &Classes<'_>,
    class: usize,
    bytes: &[u8],
) -> Result<String, AllocError>
    requires class { class < length classes.now.world }
    requires guest { HoldsAtNumber classes.now.world class (λ l. l.by_system ≡ false) }
    requires typed { HoldsAtNumber classes.now.world class (λ l. AreTyped classes.now.world l l.class.methods) }
    ensures { IfOk result (λ text. HoldsAtNumber classes.now.world class (λ l. AreLinksTold classes.now.world l (string_bytes text))) }
{
    let loaded = class_at(classes.table(), class);
    match loaded.file() {
        Some(file) => {
            let lines = Lines::read(alloc, bytes);
            blocks_of(alloc, classes, class, loaded.method_count(), file, &lines)
        }
        None => Ok(String::new(alloc)),
    }
}
