//! What stands in a table: writing it at the end of bytes, and whether its numbers fit.

ghost use Rattle.std.specs.Prelude.{◌≡◌, ◌++◌, ◌<◌, ◌&&◌, ℕ, Bool, List, OnOk, IsTrue, length, map};
ghost use Rattle.std.specs.List.{flat_map, list_all};
ghost use Rattle.jv_format.specs.Format.{half, quad};
ghost use Rattle.jv_class_structure.specs.Structure.{table_bytes, table_fits};

use byteorder::{BigEndian, ByteOrder};
use jv_format::are_big_endian;
use std::alloc::AllocError;

/// A part of a class file.
pub(crate) trait Part {
    /// What it is a value of in a class structure.
    ghost Value: { Type 0 };

    /// Its value there.
    ghost view: { Self → Value };

    /// The bytes of such a value.
    ghost bytes: { Value → List ℕ };

    /// Whether its counts and lengths fit their fields.
    ghost fits: { Value → Bool };

    /// Writes a part behind what there is.
    fn put(&self, out: &mut Vec<u8>) -> Result<(), AllocError>
        requires { IsTrue (fits (view self.now)) }
        ensures { OnOk result (out.new.items ≡ out.old.items ++ bytes (view self.now)) };

    /// Whether its counts and lengths fit their fields.
    fn fits_fields(&self) -> bool
        ensures { result ≡ fits (view self.now) };
}

impl Part for u16 {
    ghost Value = { ℕ };

    ghost view = { λ n. n };

    ghost bytes = { half.spelling };

    ghost fits = { half.fits };

    fn put(&self, out: &mut Vec<u8>) -> Result<(), AllocError> {
        put_half(out, *self)
    }

    fn fits_fields(&self) -> bool {
        half_fits(*self)
    }
}

/// Whether a number fits two bytes; by its type it does.
pub(crate) fn half_fits(number: u16) -> bool
    ensures { result ≡ half.fits number }
{
    true
}

pub(crate) fn halves_fit(first: u16, second: u16) -> bool
    ensures { result ≡ (half.fits first && half.fits second) }
{
    half_fits(first) && half_fits(second)
}

/// A number in two bytes.
pub fn put_half(out: &mut Vec<u8>, number: u16) -> Result<(), AllocError>
    ensures { OnOk result (out.new.items ≡ out.old.items ++ half.spelling number) }
{
    are_big_endian();
    let mut bytes = [0; 2];
    BigEndian::write_u16(&mut bytes, number);
    out.extend_from_slice(&bytes)
}

pub(crate) fn put_quad(out: &mut Vec<u8>, number: u32) -> Result<(), AllocError>
    ensures { OnOk result (out.new.items ≡ out.old.items ++ quad.spelling number) }
{
    are_big_endian();
    let mut bytes = [0; 4];
    BigEndian::write_u32(&mut bytes, number);
    out.extend_from_slice(&bytes)
}

pub(crate) fn put_three(
    out: &mut Vec<u8>,
    first: u16,
    second: u16,
    third: u16,
) -> Result<(), AllocError>
    ensures { OnOk result (out.new.items ≡ out.old.items ++ half.spelling first ++ half.spelling second ++ half.spelling third) }
{
    put_half(out, first)?;
    put_half(out, second)?;
    put_half(out, third)
}

/// Parts, one after the other.
pub(crate) fn put_all<T: Part>(out: &mut Vec<u8>, items: &[T]) -> Result<(), AllocError>
    requires { IsTrue (list_all T.fits (map T.view items.now)) }
    ensures { OnOk result (out.new.items ≡ out.old.items ++ flat_map T.bytes (map T.view items.now)) }
{
    for item in items {
        item.put(out)?;
    }
    Ok(())
}

/// How many parts there are, and the parts.
pub(crate) fn put_table<T: Part>(out: &mut Vec<u8>, items: &[T]) -> Result<(), AllocError>
    requires { IsTrue (table_fits T.fits (map T.view items.now)) }
    ensures { OnOk result (out.new.items ≡ out.old.items ++ table_bytes T.bytes (map T.view items.now)) }
{
    put_half(out, items.len() as u16)?;
    put_all(out, items)
}

/// Whether the numbers of all parts fit.
pub(crate) fn all_fit<T: Part>(items: &[T]) -> bool
    ensures { result ≡ list_all T.fits (map T.view items.now) }
{
    for item in items {
        if !item.fits_fields() {
            return false;
        }
    }
    true
}

/// Whether there are so few parts that their number fits, and their numbers fit.
pub(crate) fn table_fits<T: Part>(items: &[T]) -> bool
    ensures { result ≡ table_fits T.fits (map T.view items.now) }
{
    items.len() < 65536 && all_fit(items)
}

/// How many numbers there are, and the numbers.
pub(crate) fn put_halves(out: &mut Vec<u8>, numbers: &[u16]) -> Result<(), AllocError>
    requires { IsTrue (table_fits half.fits numbers.now) }
    ensures { OnOk result (out.new.items ≡ out.old.items ++ table_bytes half.spelling numbers.now) }
{
    put_table(out, numbers)
}

/// Whether there are so few numbers that their number fits.
pub(crate) fn are_halves(numbers: &[u16]) -> bool
    ensures { result ≡ table_fits half.fits numbers.now }
{
    table_fits(numbers)
}
