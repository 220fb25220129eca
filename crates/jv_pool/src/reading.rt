//! Reads constants from the front of bytes.

ghost use Rattle.std.specs.Prelude.{◌≡◌, ◌<◌};
ghost use Rattle.std.specs.Option.{option_map};
ghost use Rattle.jv_format.specs.Format.{Finds};
ghost use Rattle.jv_pool.specs.declared.shape.ConstantShape.TheVariants as shapes;
ghost use Rattle.jv_pool.specs.Constants.{takes_two};
ghost use Rattle.jv_pool.specs.Seen.{seen};
ghost use Rattle.jv_pool.specs.Inside.Reading.{Gives, of_quad, of_two_quads, of_half, of_two_halves, shaped, contents_read, seen_found, constant, entries, constants, step_read, seen_step};

use crate::constant::Constant;
use crate::fault::PoolFault;
use crate::shape::{ConstantShape, HalfKind, QuadKind, TwoHalvesKind, TwoQuadsKind, shape_of};
use crate::table::{Table, place_behind};
use jv_format::{byte_at, half_at, quad_at, text_at};
use std::alloc::Global;

#[inline(always)]
fn of_quad(kind: QuadKind, bits: u32) -> Constant<&'static [u8]>
    ensures { seen result ≡ of_quad kind bits }
{
    match kind {
        QuadKind::Integer => Constant::Integer(bits),
        QuadKind::Float => Constant::Float(bits),
    }
}

#[inline(always)]
fn of_two_quads(kind: TwoQuadsKind, high: u32, low: u32) -> Constant<&'static [u8]>
    ensures { seen result ≡ of_two_quads kind (high, low) }
{
    match kind {
        TwoQuadsKind::Long => Constant::Long(high, low),
        TwoQuadsKind::Double => Constant::Double(high, low),
    }
}

#[inline(always)]
fn of_half(kind: HalfKind, index: u16) -> Constant<&'static [u8]>
    ensures { seen result ≡ of_half kind index }
{
    match kind {
        HalfKind::Class => Constant::Class(index),
        HalfKind::String => Constant::String(index),
        HalfKind::MethodType => Constant::MethodType(index),
    }
}

#[inline(always)]
fn of_two_halves(kind: TwoHalvesKind, first: u16, second: u16) -> Constant<&'static [u8]>
    ensures { seen result ≡ of_two_halves kind (first, second) }
{
    match kind {
        TwoHalvesKind::Fieldref => Constant::Fieldref(first, second),
        TwoHalvesKind::Methodref => Constant::Methodref(first, second),
        TwoHalvesKind::InterfaceMethodref => Constant::InterfaceMethodref(first, second),
        TwoHalvesKind::NameAndType => Constant::NameAndType(first, second),
        TwoHalvesKind::InvokeDynamic => Constant::InvokeDynamic(first, second),
    }
}

#[inline(always)]
fn text_constant(bytes: &[u8]) -> Option<(Constant<&[u8]>, &[u8])>
    ensures { Finds (shaped shapes.Text) bytes.now (λ x. (seen x.0, x.1.now)) result }
{
    let Some((text, rest)) = text_at(bytes) else {
        return None;
    };
    Some((Constant::Utf8(text), rest))
}

#[inline(always)]
fn quad_constant(kind: QuadKind, bytes: &[u8]) -> Option<(Constant<&[u8]>, &[u8])>
    ensures { Finds (shaped (shapes.Quad kind)) bytes.now (λ x. (seen x.0, x.1.now)) result }
{
    let Some((bits, rest)) = quad_at(bytes) else {
        return None;
    };
    Some((of_quad(kind, bits), rest))
}

#[inline(always)]
fn two_quads_constant(kind: TwoQuadsKind, bytes: &[u8]) -> Option<(Constant<&[u8]>, &[u8])>
    ensures { Finds (shaped (shapes.TwoQuads kind)) bytes.now (λ x. (seen x.0, x.1.now)) result }
{
    let Some((high, rest)) = quad_at(bytes) else {
        return None;
    };
    let Some((low, rest)) = quad_at(rest) else {
        return None;
    };
    Some((of_two_quads(kind, high, low), rest))
}

#[inline(always)]
fn half_constant(kind: HalfKind, bytes: &[u8]) -> Option<(Constant<&[u8]>, &[u8])>
    ensures { Finds (shaped (shapes.Half kind)) bytes.now (λ x. (seen x.0, x.1.now)) result }
{
    let Some((index, rest)) = half_at(bytes) else {
        return None;
    };
    Some((of_half(kind, index), rest))
}

#[inline(always)]
fn two_halves_constant(kind: TwoHalvesKind, bytes: &[u8]) -> Option<(Constant<&[u8]>, &[u8])>
    ensures { Finds (shaped (shapes.TwoHalves kind)) bytes.now (λ x. (seen x.0, x.1.now)) result }
{
    let Some((first, rest)) = half_at(bytes) else {
        return None;
    };
    let Some((second, rest)) = half_at(rest) else {
        return None;
    };
    Some((of_two_halves(kind, first, second), rest))
}

#[inline(always)]
fn handle_constant(bytes: &[u8]) -> Option<(Constant<&[u8]>, &[u8])>
    ensures { Finds (shaped shapes.ByteAndHalf) bytes.now (λ x. (seen x.0, x.1.now)) result }
{
    let Some((kind, rest)) = byte_at(bytes) else {
        return None;
    };
    let Some((index, rest)) = half_at(rest) else {
        return None;
    };
    Some((Constant::MethodHandle(kind, index), rest))
}

/// The constant of this shape at the front, and what follows it.
#[inline(always)]
fn shaped_at(shape: ConstantShape, bytes: &[u8]) -> Option<(Constant<&[u8]>, &[u8])>
    ensures { Finds (shaped shape) bytes.now (λ x. (seen x.0, x.1.now)) result }
{
    match shape {
        ConstantShape::Text => text_constant(bytes),
        ConstantShape::Quad(kind) => quad_constant(kind, bytes),
        ConstantShape::TwoQuads(kind) => two_quads_constant(kind, bytes),
        ConstantShape::Half(kind) => half_constant(kind, bytes),
        ConstantShape::TwoHalves(kind) => two_halves_constant(kind, bytes),
        ConstantShape::ByteAndHalf => handle_constant(bytes),
    }
}

/// The constant at the front of what stands behind its tag, and what follows it.
#[inline(always)]
fn contents_at(shape: Option<ConstantShape>, bytes: &[u8]) -> Option<(Constant<&[u8]>, &[u8])>
    ensures { option_map seen_found result ≡ contents_read shape bytes.now }
{
    match shape {
        Some(shape) => shaped_at(shape, bytes),
        None => None,
    }
}

/// The constant at the front, and what follows it. In line where one kind is asked for, it is read as that kind alone.
#[inline(always)]
pub fn constant_at(bytes: &[u8]) -> Option<(Constant<&[u8]>, &[u8])>
    ensures { Finds constant bytes.now (λ x. (seen x.0, x.1.now)) result }
{
    let Some((tag, rest)) = byte_at(bytes) else {
        return None;
    };
    contents_at(shape_of(tag), rest)
}

/// Whether the constant takes two entries of the table (4.4.5).
fn takes_two(constant: Constant<&[u8]>) -> bool
    ensures { result ≡ takes_two (seen constant.entry) }
{
    matches!(constant, Constant::Long(_, _) | Constant::Double(_, _))
}

/// The next entry of the table, whether one more entry belongs to it, and what follows.
fn entry_at(unusable: bool, bytes: &[u8]) -> Option<(Option<Constant<&[u8]>>, bool, &[u8])>
    ensures { option_map seen_step result ≡ step_read unusable bytes.now }
{
    if unusable {
        return Some((None, false, bytes));
    }
    let Some((constant, rest)) = constant_at(bytes) else {
        return None;
    };
    Some((Some(constant), takes_two(constant), rest))
}

/// The table of so many entries, and what follows it.
fn listed(alloc: Global, length: u16, bytes: &[u8]) -> Result<(Table<'_>, &[u8]), PoolFault>
    requires { length < 65535 }
    ensures { Gives (entries length) bytes.now (λ x. (x.0, x.1.now)) result }
{
    let room = usize::from(length).min(bytes.len());
    let mut places = Vec::with_capacity(alloc, room)?;
    let mut rest = bytes;
    let mut unusable = false;
    for _ in 0..length {
        let before = bytes.len() - rest.len();
        let Some((entry, more, after)) = entry_at(unusable, rest) else {
            return Err(PoolFault::BadPool);
        };
        let place = place_behind(entry.is_some(), before)?;
        places.push(place)?;
        unusable = more;
        rest = after;
    }
    if unusable {
        return Err(PoolFault::BadPool);
    }
    Ok((Table::new(length + 1, bytes, places), rest))
}

/// The count at the front and the constants behind it, and what follows them.
///
/// # Errors
///
/// `BadPool` where none are spelled there; `OutOfMemory` where the host had none for their places.
#[tactic(auto, using(crate::proofs::Constants::constants_read))]
pub fn table_at(alloc: Global, bytes: &[u8]) -> Result<(Table<'_>, &[u8]), PoolFault>
    ensures { Gives constants bytes.now (λ x. (x.0, x.1.now)) result }
{
    let Some((count, rest)) = half_at(bytes) else {
        return Err(PoolFault::BadPool);
    };
    if count == 0 {
        return Err(PoolFault::BadPool);
    }
    listed(alloc, count - 1, rest)
}
