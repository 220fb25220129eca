//! Fields and methods as they were read (JVMS 4.5, 4.6). What a slice holds is a part of the file.

ghost use Rattle.std.specs.Prelude.{◌≡◌, is_some};
ghost use Rattle.std.specs.Option.{option_map};
ghost use Rattle.jv_class_structure.specs.Packed.{part_of, map_in};
ghost use Rattle.jv_class_structure.specs.Seen.{seen_code, unpacked, seen_method};
ghost use Rattle.jv_class_structure.specs.Inside.Kept.{seen_map};

use crate::flags::{FieldFlags, MethodFlags};
use crate::members::code_in;
use jv_format::ExceptionTable;
use jv_pool::Utf8Index;

/// A field.
#[derive(Clone, Copy)]
pub struct Field {
    pub access_flags: FieldFlags,
    pub name: Utf8Index,
    pub descriptor: Utf8Index,
    /// The index of the constant that a static field has as its value (4.7.2); `None` where it has
    /// none, and on every other field.
    pub constant_value: Option<u16>,
}

/// What a method's Code attribute holds (4.7.3).
#[derive(Clone, Copy)]
pub struct MethodCode<'a> {
    /// How many words the operand stack holds at most.
    pub max_stack: u16,
    /// How many local variables there are.
    pub max_locals: u16,
    /// The instructions, 1 to 65,535 bytes.
    pub code: &'a [u8],
    /// The handlers, in the order of the file.
    pub exception_table: ExceptionTable<'a>,
    /// What its StackMapTable holds (4.7.4); `None` where it has none.
    pub stack_map_table: Option<&'a [u8]>,
}

/// A Code attribute that was read, as the bytes that hold it.
#[derive(Clone, Copy)]
pub(crate) struct PackedCode<'a> {
    /// Its contents, from max_stack on (4.7.3).
    pub(crate) contents: &'a [u8],
    /// Where among these the contents of the StackMapTable (4.7.4) begin; 0, where max_stack
    /// stands, says that it has none.
    pub(crate) map_place: u32,
    /// How many bytes those are.
    pub(crate) map_length: u32,
}

const _: () = prove!(size_of::<PackedCode<'static>>() <= 24);

/// A method (4.6). Its code is read from the bytes that hold it where it is asked for.
#[derive(Clone, Copy)]
pub struct Method<'a> {
    pub access_flags: MethodFlags,
    pub name: Utf8Index,
    pub descriptor: Utf8Index,
    /// What its Code attribute holds; `None` where it has none.
    pub(crate) code: Option<PackedCode<'a>>,
}

/// As many bytes as the number says, from this place on; fewer where they end before.
fn part_of(bytes: &[u8], place: u32, count: u32) -> &[u8]
    ensures { result.now ≡ part_of bytes.now place count }
{
    let (_, rest) = bytes.split_at((place as usize).min(bytes.len()));
    let (part, _) = rest.split_at((count as usize).min(rest.len()));
    part
}

/// The contents of the StackMapTable that begin at a place; `None` where that is 0.
fn stack_map_in(contents: &[u8], place: u32, count: u32) -> Option<&[u8]>
    ensures { seen_map result ≡ map_in contents.now place count }
{
    if place == 0 {
        None
    } else {
        Some(part_of(contents, place, count))
    }
}

/// What the bytes of a Code attribute hold.
fn unpacked(code: PackedCode<'_>) -> MethodCode<'_>
    ensures { seen_code result ≡ unpacked code.entry }
{
    let map = stack_map_in(code.contents, code.map_place, code.map_length);
    code_in(code.contents, map)
}

impl<'a> Method<'a> {
    /// What its Code attribute holds; `None` where it has none.
    #[inline]
    pub fn code(&self) -> Option<MethodCode<'a>>
        ensures { option_map seen_code result ≡ (seen_method self.now).code }
    {
        match self.code {
            Some(code) => Some(unpacked(code)),
            None => None,
        }
    }

    /// Whether it has a Code attribute.
    #[inline]
    pub fn has_code(&self) -> bool
        ensures { result ≡ is_some (seen_method self.now).code }
    {
        self.code.is_some()
    }
}
