//! The types of methods' arguments, in four bytes each: a class file says up to 255 of them in as many bytes.

ghost use Rattle.std.specs.Prelude.{◌≡◌, ◌+◌, ◌*◌, ◌/◌, ◌<◌, ℕ, List, IfOk, IfSome};
ghost use Rattle.jv_stackmap.specs.Types.{value_type};
ghost use Rattle.jv_verify_types.specs.Typed.{typed, typed_field};
ghost use Rattle.jv_verify_types.specs.Inside.Packed.{base_with, element_with, value_item};

use crate::names::Item;
use crate::value::value_item;
use jv_text::{Base, Element, FieldTypeOf};
use std::alloc::AllocError;
use std::marker::Model;

/// The type of an argument's values: its dimensions, and a number for its element in 24 bits, the higher 8 of them and the lower 16.
#[derive(Drop)]
pub struct Argument {
    dimensions: u8,
    high: u8,
    low: u16,
}

impl Model for Argument {
    ghost use Rattle.jv_verify_types.specs.Numbered.{Item};
    ghost use Rattle.jv_verify_types.specs.Inside.Packed.{argument_with};

    ghost Value = { Item };

    ghost view = { λ a. argument_with a.dimensions a.high a.low };
}

static BASES: [Base; 8] = [
    Base::Byte,
    Base::Char,
    Base::Double,
    Base::Float,
    Base::Int,
    Base::Long,
    Base::Short,
    Base::Boolean,
];

/// The primitive type with a number below 8.
fn base_with(number: u32) -> Base
    ensures { result ≡ base_with number }
{
    match BASES.get(number as usize) {
        Some(base) => *base,
        None => Base::Boolean,
    }
}

fn number_of_base(base: Base) -> u32
    ensures base { base_with result ≡ base }
    ensures less { result < 8 }
{
    match base {
        Base::Byte => 0,
        Base::Char => 1,
        Base::Double => 2,
        Base::Float => 3,
        Base::Int => 4,
        Base::Long => 5,
        Base::Short => 6,
        Base::Boolean => 7,
    }
}

/// The element with a number: one of the 8 primitive types, or a class, whose own number is 8 less.
fn element_with(number: u32) -> Element<u32>
    ensures { result ≡ element_with number }
{
    if number < 8 {
        Element::Base(base_with(number))
    } else {
        Element::Class(number - 8)
    }
}

/// The number of an element; `None` where it has none of 32 bits.
fn number_of(element: Element<u32>) -> Option<u32>
    ensures { IfSome result (λ n. element_with n ≡ element) }
{
    match element {
        Element::Base(base) => Some(number_of_base(base)),
        Element::Class(number) => number.checked_add(8),
    }
}

/// The higher 8 of 24 bits; `None` where there are more.
fn high_of(number: u32) -> Option<u8>
    ensures { IfSome result (λ high. high ≡ number / 65536) }
{
    match u8::try_from(number / 65536) {
        Ok(high) => Some(high),
        Err(_) => None,
    }
}

/// The number in its two parts; `None` where it doesn't fit 24 bits.
fn parts_of(number: u32) -> Option<(u8, u16)>
    ensures { IfSome result (λ parts. parts.0 * 65536 + parts.1 ≡ number) }
{
    let high = high_of(number)?;
    Some((high, (number % 65536) as u16))
}

/// The type of the values of a field type, in four bytes; `None` where its class has a number that doesn't fit 24 bits.
fn packed(type_of: FieldTypeOf<u32>) -> Option<Argument>
    ensures { IfSome result (λ a. a ≡ value_item type_of) }
{
    let number = number_of(type_of.element)?;
    let (high, low) = parts_of(number)?;
    Some(Argument {
        dimensions: type_of.dimensions,
        high,
        low,
    })
}

/// The type of the values of a parameter; want of memory where its class has a number that doesn't fit 24 bits.
pub(crate) fn argument_of(type_of: FieldTypeOf<u32>) -> Result<Argument, AllocError>
    ensures { IfOk result (λ a. (names : List (List ℕ)) → typed names a ≡ value_type (typed_field names type_of)) }
{
    match packed(type_of) {
        Some(argument) => Ok(argument),
        None => Err(AllocError),
    }
}

impl Argument {
    /// The type.
    #[inline]
    pub fn item(&self) -> Item
        ensures { result ≡ self.now }
    {
        let number = u32::from(self.high) * 65536 + u32::from(self.low);
        value_item(FieldTypeOf {
            dimensions: self.dimensions,
            element: element_with(number),
        })
    }
}
