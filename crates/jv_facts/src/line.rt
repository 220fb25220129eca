//! The lines that are shown: a file's name and cells, with a tab before each cell.

use jv_text::decode;
use std::alloc::AllocError;

/// What stands in a cell.
#[derive(Copy)]
pub(crate) enum Cell<'a> {
    /// A word as it is.
    Word(&'static str),
    /// A name, byte by byte.
    Name(&'a [u8]),
    Number(usize),
    /// Access flags, in hexadecimal.
    Flags(u16),
    /// The constant of a static field.
    Integer(i32),
    Long(i64),
    String(&'a [u8]),
    /// `-`.
    Nothing,
}

impl<'a> Clone for Cell<'a> {
    fn clone(&self) -> Result<Cell<'a>, AllocError> {
        Ok(*self)
    }
}

fn write_name(out: &mut String, name: &[u8]) -> Result<(), AllocError> {
    for byte in name {
        out.push(char::from(*byte))?;
    }
    Ok(())
}

/// Writes a unit of a text: as it is where it is plain, else as `\uxxxx`.
fn write_unit(out: &mut String, unit: u16) -> Result<(), AllocError> {
    match u8::try_from(unit) {
        Ok(byte) if 32 <= byte && byte <= 126 && byte != b'\\' => out.push(char::from(byte)),
        _ => write!(out, "\\u{unit:04x}"),
    }
}

fn write_text(out: &mut String, text: &[u8]) -> Result<(), AllocError> {
    out.push_str("String:")?;
    let Ok(units) = decode(*out.allocator(), text) else {
        return Err(AllocError);
    };
    for unit in &units {
        write_unit(out, *unit)?;
    }
    Ok(())
}

fn write_cell(out: &mut String, cell: Cell<'_>) -> Result<(), AllocError> {
    match cell {
        Cell::Word(word) => out.push_str(word),
        Cell::Name(name) => write_name(out, name),
        Cell::Number(number) => write!(out, "{number}"),
        Cell::Flags(flags) => write!(out, "0x{flags:04x}"),
        Cell::Integer(value) => write!(out, "Integer:{value}"),
        Cell::Long(value) => write!(out, "Long:{value}"),
        Cell::String(text) => write_text(out, text),
        Cell::Nothing => out.push_str("-"),
    }
}

/// Writes cells, with a tab before each.
pub(crate) fn write_cells(out: &mut String, cells: &[Cell<'_>]) -> Result<(), AllocError> {
    for cell in cells {
        out.push_str("\t")?;
        write_cell(out, *cell)?;
    }
    Ok(())
}

/// Writes a line on a file.
pub(crate) fn write_line(
    out: &mut String,
    file: &str,
    cells: &[Cell<'_>],
) -> Result<(), AllocError> {
    out.push_str(file)?;
    write_cells(out, cells)?;
    out.push_str("\n")
}
