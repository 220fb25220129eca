//! Constants (JVMS 4.4).

ghost use Rattle.std.specs.Prelude.{◌≡◌, ◌++◌, ◌∷◌, ◌<◌, ◌&&◌, OnOk, length};
ghost use Rattle.jv_format.specs.Format.{byte, half, quad, text};
ghost use Rattle.jv_pool.specs.Constants.{Entry, constant_bytes, constant_fits, entries_of};
ghost use Rattle.jv_pool.specs.Seen.{seen};

use crate::part::{Part, half_fits, halves_fit, put_half, put_quad};
use jv_pool::Constant;
use std::alloc::AllocError;

/// A text behind its tag and its length (4.4.7).
fn put_text(out: &mut Vec<u8>, bytes: &[u8]) -> Result<(), AllocError>
    requires { length bytes.now < 65536 }
    ensures { OnOk result (out.new.items ≡ out.old.items ++ (1 ∷ text.spelling bytes.now)) }
{
    out.push(1)?;
    put_half(out, bytes.len() as u16)?;
    out.extend_from_slice(bytes)
}

/// A number of four bytes behind a tag.
pub(crate) fn put_bits(out: &mut Vec<u8>, tag: u8, bits: u32) -> Result<(), AllocError>
    ensures { OnOk result (out.new.items ≡ out.old.items ++ (tag ∷ quad.spelling bits)) }
{
    out.push(tag)?;
    put_quad(out, bits)
}

/// A number of eight bytes behind a tag, the high four first.
fn put_long_bits(out: &mut Vec<u8>, tag: u8, high: u32, low: u32) -> Result<(), AllocError>
    ensures { OnOk result (out.new.items ≡ out.old.items ++ (tag ∷ (quad.spelling high ++ quad.spelling low))) }
{
    put_bits(out, tag, high)?;
    put_quad(out, low)
}

/// An index behind a tag.
pub fn put_index(out: &mut Vec<u8>, tag: u8, index: u16) -> Result<(), AllocError>
    ensures { OnOk result (out.new.items ≡ out.old.items ++ (tag ∷ half.spelling index)) }
{
    out.push(tag)?;
    put_half(out, index)
}

/// Two indices behind a tag.
fn put_indices(out: &mut Vec<u8>, tag: u8, first: u16, second: u16) -> Result<(), AllocError>
    ensures { OnOk result (out.new.items ≡ out.old.items ++ (tag ∷ (half.spelling first ++ half.spelling second))) }
{
    put_index(out, tag, first)?;
    put_half(out, second)
}

/// A method handle: its kind and an index behind a tag (4.4.8).
fn put_handle(out: &mut Vec<u8>, kind: u8, index: u16) -> Result<(), AllocError>
    ensures { OnOk result (out.new.items ≡ out.old.items ++ (15 ∷ (byte.spelling kind ++ half.spelling index))) }
{
    out.push(15)?;
    out.push(kind)?;
    put_half(out, index)
}

fn handle_fits(kind: u8, index: u16) -> bool
    ensures { result ≡ (byte.fits kind && half.fits index) }
{
    half_fits(u16::from(kind)) && half_fits(index)
}

fn quad_fits(number: u32) -> bool
    ensures { result ≡ quad.fits number }
{
    true
}

fn quads_fit(first: u32, second: u32) -> bool
    ensures { result ≡ (quad.fits first && quad.fits second) }
{
    quad_fits(first) && quad_fits(second)
}

impl Part for Constant<&[u8]> {
    ghost Value = { Entry };

    ghost view = { seen };

    ghost bytes = { constant_bytes };

    ghost fits = { constant_fits };

    fn put(&self, out: &mut Vec<u8>) -> Result<(), AllocError> {
        match *self {
            Constant::Utf8(text) => put_text(out, text),
            Constant::Integer(bits) => put_bits(out, 3, bits),
            Constant::Float(bits) => put_bits(out, 4, bits),
            Constant::Long(high, low) => put_long_bits(out, 5, high, low),
            Constant::Double(high, low) => put_long_bits(out, 6, high, low),
            Constant::Class(name) => put_index(out, 7, name),
            Constant::String(text) => put_index(out, 8, text),
            Constant::Fieldref(class, member) => put_indices(out, 9, class, member),
            Constant::Methodref(class, member) => put_indices(out, 10, class, member),
            Constant::InterfaceMethodref(class, member) => put_indices(out, 11, class, member),
            Constant::NameAndType(name, descriptor) => put_indices(out, 12, name, descriptor),
            Constant::MethodHandle(kind, index) => put_handle(out, kind, index),
            Constant::MethodType(descriptor) => put_index(out, 16, descriptor),
            Constant::InvokeDynamic(bootstrap, member) => put_indices(out, 18, bootstrap, member),
        }
    }

    fn fits_fields(&self) -> bool {
        match *self {
            Constant::Utf8(text) => text.len() < 65536,
            Constant::Integer(bits) => quad_fits(bits),
            Constant::Float(bits) => quad_fits(bits),
            Constant::Long(high, low) => quads_fit(high, low),
            Constant::Double(high, low) => quads_fit(high, low),
            Constant::Class(name) => half_fits(name),
            Constant::String(text) => half_fits(text),
            Constant::Fieldref(class, member) => halves_fit(class, member),
            Constant::Methodref(class, member) => halves_fit(class, member),
            Constant::InterfaceMethodref(class, member) => halves_fit(class, member),
            Constant::NameAndType(name, descriptor) => halves_fit(name, descriptor),
            Constant::MethodHandle(kind, index) => handle_fits(kind, index),
            Constant::MethodType(descriptor) => half_fits(descriptor),
            Constant::InvokeDynamic(bootstrap, member) => halves_fit(bootstrap, member),
        }
    }
}

/// Whether the numbers of a constant fit their fields: all but a text with more than 65,535 bytes
/// do.
pub fn constant_fits(constant: &Constant<&[u8]>) -> bool
    ensures { result ≡ constant_fits (seen constant.now) }
{
    constant.fits_fields()
}

/// How many entries of the table a constant takes (4.4.5).
pub fn entries(constant: &Constant<&[u8]>) -> u64
    ensures { result ≡ length (entries_of (seen constant.now)) }
{
    match constant {
        Constant::Long(_, _) => 2,
        Constant::Double(_, _) => 2,
        _ => 1,
    }
}
