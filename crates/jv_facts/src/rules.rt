//! A table of class files that each differ from one plain file in one part, with what the reader is to
//! answer (JVMS 4.1 to 4.7): the file `data/rules`.
//!
//! A line has a part's name, the answer, what the case is, and the part's bytes in hexadecimal, with a
//! tab between them. The part `constants` has two: the count, and the constants behind the thirty.

use crate::fault_name;
use jv_class::read_class;
use std::alloc::{AllocError, Global};

/// The magic number and the version.
const FRONT: &[u8] = b"\xca\xfe\xba\xbe\x00\x00\x00\x34";

/// Constants 1 to 30: `A`, its Class, `java/lang/Object`, its Class, `Code`, `f`, `I`, `m`, `()V`,
/// `ConstantValue`, an Integer, a Long (12 and 13), `J`, a String, `Ljava/lang/String;`,
/// `StackMapTable`, `SourceFile`, `[I`, its Class, `F`, `g`, `I` again, `<init>`, `<clinit>`, `p/B`,
/// its Class, `()D`, `<x>`, `Z`.
const CONSTANTS: &[u8] =
    b"\x01\x00\x01A\x07\x00\x01\x01\x00\x10java/lang/Object\x07\x00\x03\x01\x00\x04Code\x01\
\x00\x01f\x01\x00\x01I\x01\x00\x01m\x01\x00\x03()V\x01\x00\x0dConstantValue\x03\x00\x00\
\x00\x07\x05\x00\x00\x00\x00\x00\x00\x00\x07\x01\x00\x01J\x08\x00\x06\x01\x00\x12Ljav\
a/lang/String;\x01\x00\x0dStackMapTable\x01\x00\x0aSourceFile\x01\x00\x02[I\x07\x00\x13\
\x01\x00\x01F\x01\x00\x01g\x01\x00\x01I\x01\x00\x06<init>\x01\x00\x08<clinit>\x01\x00\
\x03p/B\x07\x00\x1a\x01\x00\x03()D\x01\x00\x03<x>\x01\x00\x01Z";

/// An interface `A`.
const INTERFACE: &[u8] = b"\x06\x00\x00\x02\x00\x04\x00\x00";

/// The flags, the class, the superclass and the interfaces of a class `A` below java/lang/Object.
const CLASS: &[u8] = b"\x00\x21\x00\x02\x00\x04\x00\x00";

/// No fields, no methods, or no attributes.
const NONE: &[u8] = b"\x00\x00";

/// Whether a part is one of an interface, and its place among the pieces of a file.
fn place_of(part: &str) -> Option<(bool, usize)> {
    match part {
        "constants" => Some((false, 1)),
        "head" => Some((false, 4)),
        "fields" => Some((false, 5)),
        "interface-fields" => Some((true, 5)),
        "methods" => Some((false, 6)),
        "interface-methods" => Some((true, 6)),
        "attributes" => Some((false, 7)),
        _ => None,
    }
}

/// The plain file with other bytes in one part, and `second` behind its constants.
fn file_of<'a>(alloc: Global, part: &str, first: &'a [u8], second: &'a [u8]) -> Option<Vec<u8>> {
    let Some((is_interface, place)) = place_of(part) else {
        return None;
    };
    let head: &'a [u8] = if is_interface { INTERFACE } else { CLASS };
    let pieces: [&'a [u8]; 8] = [
        FRONT,
        b"\x00\x1f",
        CONSTANTS,
        second,
        head,
        NONE,
        NONE,
        NONE,
    ];
    let mut bytes = Vec::new(alloc);
    for at in 0..pieces.len() {
        let piece: &'a [u8] = if at == place { first } else { pieces[at] };
        if bytes.extend_from_slice(piece).is_err() {
            return None;
        }
    }
    Some(bytes)
}

fn answer_to(alloc: Global, bytes: &[u8]) -> &'static str {
    match read_class(alloc, bytes) {
        Ok(_) => "Read",
        Err(fault) => fault_name(fault),
    }
}

/// The answer to the file that a line's last two parts make of the plain one.
fn answer_of(alloc: Global, part: &str, text: &str) -> &'static str {
    let (first, second) = match text.split_once('\t') {
        Some(both) => both,
        None => (text, ""),
    };
    let (Ok(first), Ok(second)) = (hex::decode(alloc, first), hex::decode(alloc, second)) else {
        return "no hexadecimal";
    };
    match file_of(alloc, part, &first, &second) {
        Some(file) => answer_to(alloc, &file),
        None => "no file",
    }
}

/// Whether the reader answers what a line says.
fn is_right(alloc: Global, line: &str) -> bool {
    let Some((part, rest)) = line.split_once('\t') else {
        return false;
    };
    let Some((wanted, rest)) = rest.split_once('\t') else {
        return false;
    };
    let Some((_case, rest)) = rest.split_once('\t') else {
        return false;
    };
    answer_of(alloc, part, rest) == wanted
}

/// Writes each line that the reader answers otherwise, and how many it answers as they say.
pub(crate) fn write_table(out: &mut String, name: &str, table: &str) -> Result<(), AllocError> {
    let alloc = *out.allocator();
    let mut lines: usize = 0;
    let mut right: usize = 0;
    for line in table.lines() {
        lines = lines.saturating_add(1);
        if is_right(alloc, line) {
            right = right.saturating_add(1);
        } else {
            write!(out, "{name}\tline {lines} is answered otherwise\n")?;
        }
    }
    write!(out, "{name}\t{right} of {lines}\n")
}
