//! Writes code.

ghost use Rattle.std.specs.Prelude.{◌≡◌, ◌++◌, ◌∷◌, [], ◌+◌, ◌-◌, ◌*◌, ◌%◌, ◌<◌, ◌≤◌, ◌↔◌, Err, IfOk, OnOk, ℤ, true, length, replicate};
ghost use Rattle.std.specs.List.{flat_map};
ghost use Rattle.jv_format.specs.Format.{byte, half, quad};
ghost use Rattle.jv_code.specs.Numbers.{signed8, signed16, signed32};
ghost use Rattle.jv_code.specs.Switches.{pair};
ghost use Rattle.jv_asm.specs.Items.{zeros, table_switch_bytes, lookup_switch_bytes, code_of_item, code_of_items, IsCapped, ItemsAreCode};
ghost use Rattle.jv_asm.specs.declared.fault.AsmFault.TheVariants.{TooLarge};

use crate::constant::{put_bits, put_index};
use crate::fault::AsmFault;
use crate::item::Item;
use crate::part::{Part, put_all, put_half, put_quad};
use std::alloc::{AllocError, Global};

/// The law of written code: items that are instructions of the profile are code, and that list of
/// instructions.
pub fn items_are_code()
    ensures { ItemsAreCode }
{}

pub(crate) fn put_signed_quad(out: &mut Vec<u8>, number: i32) -> Result<(), AllocError>
    ensures { OnOk result (out.new.items ≡ out.old.items ++ signed32.spelling number) }
{
    put_quad(out, number.cast_unsigned())
}

impl Part for i32 {
    ghost Value = { ℤ };

    ghost view = { λ z. z };

    ghost bytes = { signed32.spelling };

    ghost fits = { λ _. true };

    fn put(&self, out: &mut Vec<u8>) -> Result<(), AllocError> {
        put_signed_quad(out, *self)
    }

    fn fits_fields(&self) -> bool {
        true
    }
}

impl Part for (i32, i32) {
    ghost Value = { ℤ × ℤ };

    ghost view = { λ p. p };

    ghost bytes = { pair.spelling };

    ghost fits = { λ _. true };

    fn put(&self, out: &mut Vec<u8>) -> Result<(), AllocError> {
        put_signed_quad(out, self.0)?;
        put_signed_quad(out, self.1)
    }

    fn fits_fields(&self) -> bool {
        true
    }
}

fn put_distances(out: &mut Vec<u8>, distances: &[i32]) -> Result<(), AllocError>
    ensures { OnOk result (out.new.items ≡ out.old.items ++ flat_map signed32.spelling distances.now) }
{
    put_all(out, distances)
}

fn put_pairs(out: &mut Vec<u8>, pairs: &[(i32, i32)]) -> Result<(), AllocError>
    ensures { OnOk result (out.new.items ≡ out.old.items ++ flat_map pair.spelling pairs.now) }
{
    put_all(out, pairs)
}

/// An opcode and one byte.
fn put_two(out: &mut Vec<u8>, opcode: u8, operand: u8) -> Result<(), AllocError>
    ensures { OnOk result (out.new.items ≡ out.old.items ++ (opcode ∷ byte.spelling operand)) }
{
    out.push(opcode)?;
    out.push(operand)?;
    Ok(())
}

fn put_iinc(out: &mut Vec<u8>, local: u8, by: i8) -> Result<(), AllocError>
    ensures { OnOk result (out.new.items ≡ out.old.items ++ (132 ∷ (byte.spelling local ++ signed8.spelling by))) }
{
    put_two(out, 132, local)?;
    out.push(by.cast_unsigned())?;
    Ok(())
}

fn put_wide(out: &mut Vec<u8>, opcode: u8, local: u16) -> Result<(), AllocError>
    ensures { OnOk result (out.new.items ≡ out.old.items ++ (196 ∷ opcode ∷ half.spelling local)) }
{
    out.push(196)?;
    put_index(out, opcode, local)
}

fn put_wide_iinc(out: &mut Vec<u8>, local: u16, by: i16) -> Result<(), AllocError>
    ensures { OnOk result (out.new.items ≡ out.old.items ++ (196 ∷ 132 ∷ (half.spelling local ++ signed16.spelling by))) }
{
    put_wide(out, 132, local)?;
    put_half(out, by.cast_unsigned())
}

fn put_invokeinterface(out: &mut Vec<u8>, index: u16, count: u8) -> Result<(), AllocError>
    ensures { OnOk result (out.new.items ≡ out.old.items ++ (185 ∷ (half.spelling index ++ (count ∷ 0 ∷ [])))) }
{
    put_index(out, 185, index)?;
    put_two(out, count, 0)
}

fn put_multianewarray(out: &mut Vec<u8>, index: u16, dimensions: u8) -> Result<(), AllocError>
    ensures { OnOk result (out.new.items ≡ out.old.items ++ (197 ∷ (half.spelling index ++ byte.spelling dimensions))) }
{
    put_index(out, 197, index)?;
    out.push(dimensions)?;
    Ok(())
}

fn put_zeros(out: &mut Vec<u8>, count: usize) -> Result<(), AllocError>
    ensures { OnOk result (out.new.items ≡ out.old.items ++ replicate count 0) }
{
    for _i in 0..count {
        out.push(0)?;
    }
    Ok(())
}

/// The opcode of a switch, its padding and its default distance.
fn put_switch(out: &mut Vec<u8>, opcode: u8, default: i32) -> Result<(), AllocError>
    ensures { OnOk result (out.new.items ≡ out.old.items
        ++ (opcode ∷ (zeros (length out.old.items) ++ signed32.spelling default))) }
{
    let padding = 3 - out.len() % 4;
    out.push(opcode)?;
    put_zeros(out, padding)?;
    put_signed_quad(out, default)
}

fn put_bounds(out: &mut Vec<u8>, low: i32, high: i32) -> Result<(), AllocError>
    ensures { OnOk result (out.new.items ≡ out.old.items ++ (signed32.spelling low ++ signed32.spelling high)) }
{
    put_signed_quad(out, low)?;
    put_signed_quad(out, high)
}

fn put_tableswitch(
    out: &mut Vec<u8>,
    default: i32,
    low: i32,
    high: i32,
    offsets: &[i32],
) -> Result<(), AllocError>
    ensures { OnOk result (out.new.items ≡ out.old.items
        ++ table_switch_bytes (length out.old.items) default low high offsets.now) }
{
    put_switch(out, 170, default)?;
    put_bounds(out, low, high)?;
    put_distances(out, offsets)
}

fn put_lookupswitch(out: &mut Vec<u8>, default: i32, pairs: &[(i32, i32)]) -> Result<(), AllocError>
    requires { length pairs.now < 65536 }
    ensures { OnOk result (out.new.items ≡ out.old.items
        ++ lookup_switch_bytes (length out.old.items) default pairs.now) }
{
    put_switch(out, 171, default)?;
    put_quad(out, pairs.len() as u32)?;
    put_pairs(out, pairs)
}

/// An item behind those before it.
pub fn put_item(out: &mut Vec<u8>, item: &Item<'_>) -> Result<(), AllocError>
    requires { length (code_of_item (length out.old.items) item.now) < 65536 }
    ensures { OnOk result (out.new.items ≡ out.old.items ++ code_of_item (length out.old.items) item.now) }
{
    match *item {
        Item::Plain(opcode) => Ok(out.push(opcode)?),
        Item::Byte(opcode, operand) => put_two(out, opcode, operand),
        Item::SignedByte(opcode, operand) => put_two(out, opcode, operand.cast_unsigned()),
        Item::Half(opcode, operand) => put_index(out, opcode, operand),
        Item::SignedHalf(opcode, operand) => put_index(out, opcode, operand.cast_unsigned()),
        Item::SignedQuad(opcode, operand) => put_bits(out, opcode, operand.cast_unsigned()),
        Item::Iinc(local, by) => put_iinc(out, local, by),
        Item::Wide(opcode, local) => put_wide(out, opcode, local),
        Item::WideIinc(local, by) => put_wide_iinc(out, local, by),
        Item::Invokeinterface(index, count) => put_invokeinterface(out, index, count),
        Item::Multianewarray(index, dimensions) => put_multianewarray(out, index, dimensions),
        Item::Tableswitch(default, low, high, offsets) => {
            put_tableswitch(out, default, low, high, offsets)
        }
        Item::Lookupswitch(default, pairs) => put_lookupswitch(out, default, pairs),
    }
}

/// The size of a `tableswitch` at an offset, by the number of its distances.
pub fn tableswitch_size(at: u64, count: usize) -> u64
    ensures size { IsCapped (16 - at % 4 + 4 * count) result }
    ensures small { result < 1000000 }
{
    16 - at % 4 + 4 * count.min(65536) as u64
}

/// The size of a `lookupswitch` at an offset, by the number of its pairs.
pub fn lookupswitch_size(at: u64, count: usize) -> u64
    ensures size { IsCapped (12 - at % 4 + 8 * count) result }
    ensures small { result < 1000000 }
{
    12 - at % 4 + 8 * count.min(65536) as u64
}

/// The size of an item at an offset; 65,536 or more stands for any size from there.
pub fn item_size(at: u64, item: &Item<'_>) -> u64
    ensures size { IsCapped (length (code_of_item at item.now)) result }
    ensures small { result < 1000000 }
{
    match *item {
        Item::Plain(_) => 1,
        Item::Byte(_, _) => 2,
        Item::SignedByte(_, _) => 2,
        Item::Half(_, _) => 3,
        Item::SignedHalf(_, _) => 3,
        Item::SignedQuad(_, _) => 5,
        Item::Iinc(_, _) => 3,
        Item::Wide(_, _) => 4,
        Item::WideIinc(_, _) => 6,
        Item::Invokeinterface(_, _) => 5,
        Item::Multianewarray(_, _) => 4,
        Item::Tableswitch(_, _, _, offsets) => tableswitch_size(at, offsets.len()),
        Item::Lookupswitch(_, pairs) => lookupswitch_size(at, pairs.len()),
    }
}

/// The size of items; 65,536 stands for any size from there.
fn items_size(items: &[Item<'_>]) -> u64
    ensures { IsCapped (length (code_of_items 0 items.now)) result }
{
    let mut at = 0;
    for item in items {
        at += item_size(at, item);
        if at > 65535 {
            return 65536;
        }
    }
    at
}

/// The bytes of items whose size is at most 65,535.
fn written(alloc: Global, items: &[Item<'_>]) -> Result<Vec<u8>, AllocError>
    requires { length (code_of_items 0 items.now) < 65536 }
    ensures { IfOk result (λ code. code.items ≡ code_of_items 0 items.now) }
{
    let mut out = Vec::new(alloc);
    for item in items {
        put_item(&mut out, item)?;
    }
    Ok(out)
}

/// The code that items spell (4.9.1).
///
/// # Errors
///
/// `TooLarge` exactly where there are more than 65,535 bytes, `OutOfMemory` where the host's memory was
/// refused.
pub fn write_code(alloc: Global, items: &[Item<'_>]) -> Result<Vec<u8>, AsmFault>
    ensures ok { IfOk result (λ code. code.items ≡ code_of_items 0 items.now) }
    ensures few { IfOk result (λ code. length code.items ≤ 65535) }
    ensures too_large { (result ≡ Err TooLarge) ↔ (65535 < length (code_of_items 0 items.now)) }
{
    if items_size(items) > 65535 {
        return Err(AsmFault::TooLarge);
    }
    let code = written(alloc, items)?;
    Ok(code)
}
