//! A class, listed.

ghost use Rattle.std.specs.Prelude.{◌≡◌, ◌<◌, IfOk, Some, false, length, string_bytes};
ghost use Rattle.jv_class.specs.Class.{class_of};
ghost use Rattle.jv_lines.specs.Lines.{line_at};
ghost use Rattle.jv_program_explain.specs.Listing.{AreMethodsListed};
ghost use Rattle.jv_program_explain.specs.Inside.Walked.{AreFirstListed};
ghost use Rattle.jv_meaning_typing.specs.Judgement.{AreTyped};
ghost use Rattle.jv_meaning_world.specs.Numbers.{HoldsAtNumber};

use crate::method::method_listed;
use jv_class::ClassFile;
use jv_explain::append;
use jv_lines::Lines;
use jv_link::class_at;
use jv_loader::Classes;
use jv_verify::{ConstantTypes, CurrentClass};
use std::alloc::{AllocError, Global};
use std::hash::RandomState;

/// The listings of the methods of the current class, which is that of the file, of which there are so many.
fn methods_listed<'a>(
    alloc: Global,
    class: &CurrentClass<'_, '_, 'a>,
    file: &ClassFile<'a>,
    lines: &Lines,
    count: u16,
) -> Result<String, AllocError>
    requires count { count ≡ length class.now.by.class.methods }
    requires file { class_of file.now ≡ Some class.now.by.class }
    requires typed { AreTyped class.now.types.world class.now.by class.now.by.class.methods }
    ensures { IfOk result (λ text.
        AreFirstListed class.now.types.world class.now.by (line_at lines.now) count (string_bytes text)) }
{
    let mut text = String::new(alloc);
    for number in 0..count {
        let one = method_listed(alloc, class, file, lines, number)?;
        append(&mut text, &one)?;
    }
    Ok(text)
}

/// The listings of the methods of the class with a number, which is that of the file. Names are hashed with the state.
fn class_listed<'a>(
    alloc: Global,
    state: RandomState,
    classes: &Classes<'a>,
    class: usize,
    file: &ClassFile<'a>,
    bytes: &[u8],
) -> Result<String, AllocError>
    requires class { class < length classes.now.world }
    requires guest { HoldsAtNumber classes.now.world class (λ l. l.by_system ≡ false) }
    requires file { HoldsAtNumber classes.now.world class (λ l. class_of file.now ≡ Some l.class) }
    requires typed { HoldsAtNumber classes.now.world class (λ l. AreTyped classes.now.world l l.class.methods) }
    ensures { IfOk result (λ text. HoldsAtNumber classes.now.world class (λ l. AreMethodsListed classes.now.world l (string_bytes text))) }
{
    file.is_well_formed();
    let lines = Lines::read(alloc, bytes);
    let count = class_at(classes.table(), class).method_count();
    let constants = ConstantTypes::new(alloc, state, classes.table(), file.pool())?;
    let current = CurrentClass::new(alloc, classes, class, file, &constants)?;
    methods_listed(alloc, &current, file, &lines, count as u16)
}

/// What is listed of the class with a number, one of a guest's whose methods are typed (JVMS 4.10.1): of each method with code its
/// instructions, each with the frame before it (4.10.1.6), and with the line of source where these bytes, which are to be those of its
/// file, say it (4.7.12). The list of a method ends early where it has 1,048,576 bytes at least, which a line says. It costs what it does
/// to check the class, and what is printed. Names are hashed with the state.
///
/// # Errors
///
/// Where there was no memory for what is known of the class, for the frames, or for the text; there is none for one that is longer than
/// 16,777,216 bytes by more than a method.
pub(crate) fn list_methods(
    alloc: Global,
    state: RandomState,
    classes: &Classes<'_>,
    class: usize,
    bytes: &[u8],
) -> Result<String, AllocError>
    requires class { class < length classes.now.world }
    requires guest { HoldsAtNumber classes.now.world class (λ l. l.by_system ≡ false) }
    requires typed { HoldsAtNumber classes.now.world class (λ l. AreTyped classes.now.world l l.class.methods) }
    ensures { IfOk result (λ text. HoldsAtNumber classes.now.world class (λ l. AreMethodsListed classes.now.world l (string_bytes text))) }
{
    match class_at(classes.table(), class).file() {
        Some(file) => class_listed(alloc, state, classes, class, file, bytes),
        None => Ok(String::new(alloc)),
    }
}
