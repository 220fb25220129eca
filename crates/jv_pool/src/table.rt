//! The table of constants (JVMS 4.1, 4.4.5), and what an index names there.

ghost use Rattle.std.specs.Prelude.{◌≡◌, List, ℕ, map, IfOk, IfErr};
ghost use Rattle.std.specs.Option.{option_map};
ghost use Rattle.jv_pool.specs.Constants.{pool_count, at_index, kind_of, kind_at, utf8_in, utf8_at, integer_in, integer_at, long_in, long_at, class_name_in, class_name_at, string_at, named_at, name_and_type_at, member_at, field_reference_at, method_reference_at, interface_method_reference_at};
ghost use Rattle.jv_pool.specs.Seen.{seen, seen_text, seen_name_and_type, seen_member};
ghost use Rattle.jv_pool.specs.Inside.Reading.{IsTable, constants_in, entries_in, entry_of, entry_at, place_behind};
ghost use Rattle.jv_pool.specs.declared.fault.PoolFault.TheVariants.{OutOfMemory};

use crate::constant::{Constant, Kind, MemberName, NameAndTypeTexts};
use crate::fault::PoolFault;
use crate::reading::constant_at;
use std::marker::Model;

/// The table: where each constant stands in the file, and behind a Long and a Double a second entry, 0. Constants may break their
/// rules. An entry takes four bytes, and what it is is read again where it is asked for.
#[derive(Drop)]
pub struct Table<'a> {
    count: u16,
    bytes: &'a [u8],
    places: Vec<u32>,
}

impl<'a> Model for Table<'a> {
    ghost use Rattle.std.specs.Prelude.{List};
    ghost use Rattle.jv_pool.specs.Constants.{Entry};
    ghost use Rattle.jv_pool.specs.Inside.Reading.{IsTable, constants_in, entries_in};

    ghost Value = { List Entry };

    ghost view = { λ t. constants_in (entries_in t.bytes.now t.places.items) };

    ghost invariant = { λ t. IsTable t.count (entries_in t.bytes.now t.places.items) };
}

/// The place of what follows so many bytes, where it is a constant.
///
/// # Errors
///
/// `OutOfMemory` for a place that has no room in an entry, which none of a pool has: 65,534 constants take less than 2^32 bytes.
pub(crate) fn place_behind(is_constant: bool, before: usize) -> Result<u32, PoolFault>
    ensures ok { IfOk result (λ place. place ≡ place_behind is_constant before) }
    ensures err { IfErr result (λ e. e ≡ OutOfMemory) }
{
    if !is_constant {
        return Ok(0);
    }
    if before < 4294967295 {
        Ok(before as u32 + 1)
    } else {
        Err(PoolFault::OutOfMemory)
    }
}

/// The constant at a place.
#[inline(always)]
fn constant_of<'a>(bytes: &'a [u8], place: u32) -> Option<Constant<&'a [u8]>>
    ensures { option_map seen result ≡ entry_of bytes.now place }
{
    if place == 0 {
        return None;
    }
    let before = place as usize - 1;
    if before > bytes.len() {
        return None;
    }
    let (_, rest) = bytes.split_at(before);
    match constant_at(rest) {
        Some((constant, _)) => Some(constant),
        None => None,
    }
}

#[inline(always)]
fn entry_at<'a>(bytes: &'a [u8], places: &[u32], index: u16) -> Option<Constant<&'a [u8]>>
    ensures { option_map seen result ≡ entry_at (entries_in bytes.now places.now) index }
{
    if index == 0 {
        return None;
    }
    match places.get(usize::from(index) - 1) {
        Some(place) => constant_of(bytes, *place),
        None => None,
    }
}

fn kind_among(constant: Constant<&[u8]>) -> Kind
    ensures { result ≡ kind_of (seen constant.entry) }
{
    match constant {
        Constant::Utf8(_) => Kind::Utf8,
        Constant::Integer(_) => Kind::Integer,
        Constant::Float(_) => Kind::Float,
        Constant::Long(_, _) => Kind::Long,
        Constant::Double(_, _) => Kind::Double,
        Constant::Class(_) => Kind::Class,
        Constant::String(_) => Kind::String,
        Constant::Fieldref(_, _) => Kind::Fieldref,
        Constant::Methodref(_, _) => Kind::Methodref,
        Constant::InterfaceMethodref(_, _) => Kind::InterfaceMethodref,
        Constant::NameAndType(_, _) => Kind::NameAndType,
        Constant::MethodHandle(_, _) => Kind::MethodHandle,
        Constant::MethodType(_) => Kind::MethodType,
        Constant::InvokeDynamic(_, _) => Kind::InvokeDynamic,
    }
}

impl<'a> Table<'a> {
    /// The table of the constants at these places, one less than the count.
    pub(crate) fn new(count: u16, bytes: &'a [u8], places: Vec<u32>) -> Table<'a>
        requires { IsTable count (entries_in bytes.now places.items) }
        ensures { result ≡ constants_in (entries_in bytes.now places.items) }
    {
        Table {
            count,
            bytes,
            places,
        }
    }

    /// One more than the number of entries.
    pub fn count(&self) -> u16
        ensures { result ≡ pool_count self.now }
    {
        self.count
    }

    /// The constant at an index.
    #[inline(always)]
    pub fn constant(&self, index: u16) -> Option<Constant<&'a [u8]>>
        ensures { option_map seen result ≡ at_index self.now index }
    {
        entry_at(self.bytes, &self.places, index)
    }

    /// The kind of the constant at an index.
    pub fn kind(&self, index: u16) -> Option<Kind>
        ensures { result ≡ kind_at self.now index }
    {
        match self.constant(index) {
            Some(constant) => Some(kind_among(constant)),
            None => None,
        }
    }

    /// The text of the Utf8 constant at an index.
    pub(crate) fn utf8(&self, index: u16) -> Option<&'a [u8]>
        ensures { option_map seen_text result ≡ utf8_at self.now index }
    {
        match self.constant(index) {
            Some(Constant::Utf8(text)) => Some(text),
            _ => None,
        }
    }

    /// The bits of the Integer constant at an index.
    pub(crate) fn integer(&self, index: u16) -> Option<u32>
        ensures { result ≡ integer_at self.now index }
    {
        match self.constant(index) {
            Some(Constant::Integer(bits)) => Some(bits),
            _ => None,
        }
    }

    /// The bits of the Long constant at an index.
    pub(crate) fn long(&self, index: u16) -> Option<u64>
        ensures { result ≡ long_at self.now index }
    {
        match self.constant(index) {
            Some(Constant::Long(high, low)) => Some(u64::from(high) * 4294967296 + u64::from(low)),
            _ => None,
        }
    }

    /// The text that the Class constant at an index names.
    pub(crate) fn class_name(&self, index: u16) -> Option<&'a [u8]>
        ensures { option_map seen_text result ≡ class_name_at self.now index }
    {
        match self.constant(index) {
            Some(Constant::Class(name)) => self.utf8(name),
            _ => None,
        }
    }

    /// The text of the String constant at an index.
    pub(crate) fn string(&self, index: u16) -> Option<&'a [u8]>
        ensures { option_map seen_text result ≡ string_at self.now index }
    {
        match self.constant(index) {
            Some(Constant::String(text)) => self.utf8(text),
            _ => None,
        }
    }

    fn named(&self, name: u16, descriptor: u16) -> Option<NameAndTypeTexts<'a>>
        ensures { option_map seen_name_and_type result ≡ named_at self.now name descriptor }
    {
        match (self.utf8(name), self.utf8(descriptor)) {
            (Some(name), Some(descriptor)) => Some(NameAndTypeTexts { name, descriptor }),
            _ => None,
        }
    }

    /// The texts that the NameAndType constant at an index names.
    pub(crate) fn name_and_type(&self, index: u16) -> Option<NameAndTypeTexts<'a>>
        ensures { option_map seen_name_and_type result ≡ name_and_type_at self.now index }
    {
        match self.constant(index) {
            Some(Constant::NameAndType(name, descriptor)) => self.named(name, descriptor),
            _ => None,
        }
    }

    fn member(&self, class: u16, name_and_type: u16) -> Option<MemberName<'a>>
        ensures { option_map seen_member result ≡ member_at self.now class name_and_type }
    {
        match (self.class_name(class), self.name_and_type(name_and_type)) {
            (Some(class), Some(member)) => Some(MemberName {
                class,
                name: member.name,
                descriptor: member.descriptor,
            }),
            _ => None,
        }
    }

    /// The field that the Fieldref constant at an index names.
    pub(crate) fn field_reference(&self, index: u16) -> Option<MemberName<'a>>
        ensures { option_map seen_member result ≡ field_reference_at self.now index }
    {
        match self.constant(index) {
            Some(Constant::Fieldref(class, name_and_type)) => self.member(class, name_and_type),
            _ => None,
        }
    }

    /// The method that the Methodref constant at an index names.
    pub(crate) fn method_reference(&self, index: u16) -> Option<MemberName<'a>>
        ensures { option_map seen_member result ≡ method_reference_at self.now index }
    {
        match self.constant(index) {
            Some(Constant::Methodref(class, name_and_type)) => self.member(class, name_and_type),
            _ => None,
        }
    }

    /// The method that the InterfaceMethodref constant at an index names.
    pub(crate) fn interface_method_reference(&self, index: u16) -> Option<MemberName<'a>>
        ensures { option_map seen_member result ≡ interface_method_reference_at self.now index }
    {
        match self.constant(index) {
            Some(Constant::InterfaceMethodref(class, name_and_type)) => self.member(
                class,
                name_and_type,
            ),
            _ => None,
        }
    }
}
