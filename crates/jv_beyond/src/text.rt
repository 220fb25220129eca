//! The parts that are beyond the profile as they are printed.

ghost use Rattle.std.specs.Prelude.{◌≡◌, ◌++◌, Some, unwrap_or, []};
ghost use Rattle.jv_code.specs.Insns.{instruction_of};
ghost use Rattle.jv_pool.specs.Seen.{seen};
ghost use Rattle.jv_beyond.specs.Text.{constant_text, entry_text, feature_of_entry, field_line, line_text, method_line, offset_line, place_text, reason_text, text_at, use_line};

use crate::feature::{Feature, ShownReason};
use crate::instruction::{ShownFront, front_feature};
use jv_code::Insn;
use jv_pool::{Constant, Pool};
use jv_program_base::Escaped;
use jv_shown::ShownInsn;
use std::fmt;

/// A field by its place, its name and its descriptor.
#[derive(Clone, Copy)]
pub(crate) struct ShownField<'a> {
    pub(crate) place: usize,
    pub(crate) name: &'a [u8],
    pub(crate) descriptor: &'a [u8],
}

/// A field, and what the profile leaves out of it.
#[derive(Clone, Copy)]
pub(crate) struct ShownVariable<'a> {
    pub(crate) field: ShownField<'a>,
    pub(crate) feature: Feature,
}

/// A method by its place, its name and its descriptor.
#[derive(Clone, Copy)]
pub(crate) struct ShownMethod<'a> {
    pub(crate) place: usize,
    pub(crate) name: &'a [u8],
    pub(crate) descriptor: &'a [u8],
}

/// A method, and what the profile leaves out of it.
#[derive(Clone, Copy)]
pub(crate) struct ShownMember<'a> {
    pub(crate) method: ShownMethod<'a>,
    pub(crate) feature: Feature,
}

/// A line of source, where there is one.
#[derive(Clone, Copy)]
struct ShownLine(Option<u16>);

/// The instruction at an offset, of which these are the bytes and those behind it, with the line of source where there is one.
#[derive(Clone, Copy)]
struct ShownOffset<'a> {
    offset: usize,
    line: Option<u16>,
    rest: &'a [u8],
}

/// Such an instruction, and what the profile leaves out of it.
#[derive(Clone, Copy)]
pub(crate) struct ShownPlace<'a> {
    pub(crate) offset: usize,
    pub(crate) line: Option<u16>,
    pub(crate) rest: &'a [u8],
}

/// A method and an instruction of its code.
#[derive(Clone, Copy)]
pub(crate) struct ShownCode<'a> {
    pub(crate) method: ShownMethod<'a>,
    pub(crate) place: ShownPlace<'a>,
}

/// An instruction of the profile at an offset, with the line of source where there is one.
#[derive(Clone, Copy)]
pub(crate) struct ShownInstruction<'p, 'a> {
    pub(crate) pool: &'p Pool<'a>,
    pub(crate) offset: u32,
    pub(crate) line: Option<u16>,
    pub(crate) insn: Insn<&'a [u8]>,
}

/// A method, an instruction of its code, and a constant that this names.
#[derive(Clone, Copy)]
pub(crate) struct ShownUse<'p, 'a> {
    pub(crate) method: ShownMethod<'a>,
    pub(crate) instruction: ShownInstruction<'p, 'a>,
    pub(crate) constant: ShownConstant<'p, 'a>,
}

/// A constant by its kind, and by what it says of types.
#[derive(Clone, Copy)]
struct ShownEntry<'p, 'a> {
    pool: &'p Pool<'a>,
    constant: Constant<&'a [u8]>,
}

/// A constant at an index.
#[derive(Clone, Copy)]
pub(crate) struct ShownConstant<'p, 'a> {
    pub(crate) pool: &'p Pool<'a>,
    pub(crate) index: u16,
    pub(crate) constant: Constant<&'a [u8]>,
}

/// The text at an index of the pool; nothing where none stands there.
pub(crate) fn text_at<'a>(pool: &Pool<'a>, index: u16) -> &'a [u8]
    ensures { result.now ≡ text_at pool.now index }
{
    match pool.utf8_index(index) {
        Some(index) => pool.utf8(index),
        None => &[],
    }
}

impl fmt::Display for ShownField<'_> {
    ghost output = { λ field. Some (field_line field.place field.name.now field.descriptor.now) };

    fn fmt<W: fmt::Write>(&self, f: &mut fmt::Formatter<W>) -> fmt::Result {
        let place = self.place;
        let name = Escaped(self.name);
        let descriptor = Escaped(self.descriptor);
        write!(f, "  field {place}: {name}:{descriptor}\n")
    }
}

impl fmt::Display for ShownVariable<'_> {
    ghost output = { λ v. Some (field_line v.field.place v.field.name.now v.field.descriptor.now ++ reason_text v.feature) };

    fn fmt<W: fmt::Write>(&self, f: &mut fmt::Formatter<W>) -> fmt::Result {
        let field = self.field;
        let reason = ShownReason(self.feature);
        write!(f, "{field}{reason}")
    }
}

impl fmt::Display for ShownMethod<'_> {
    ghost output = { λ method. Some (method_line method.place method.name.now method.descriptor.now) };

    fn fmt<W: fmt::Write>(&self, f: &mut fmt::Formatter<W>) -> fmt::Result {
        let place = self.place;
        let name = Escaped(self.name);
        let descriptor = Escaped(self.descriptor);
        write!(f, "  method {place}: {name}{descriptor}\n")
    }
}

impl fmt::Display for ShownMember<'_> {
    ghost output = { λ m. Some (method_line m.method.place m.method.name.now m.method.descriptor.now ++ reason_text m.feature) };

    fn fmt<W: fmt::Write>(&self, f: &mut fmt::Formatter<W>) -> fmt::Result {
        let method = self.method;
        let reason = ShownReason(self.feature);
        write!(f, "{method}{reason}")
    }
}

impl fmt::Display for ShownLine {
    ghost output = { λ line. Some (line_text line.0) };

    fn fmt<W: fmt::Write>(&self, f: &mut fmt::Formatter<W>) -> fmt::Result {
        match self.0 {
            Some(line) => write!(f, ", line {line}"),
            None => Ok(()),
        }
    }
}

impl fmt::Display for ShownOffset<'_> {
    ghost output = { λ place. Some (offset_line place.offset place.line place.rest.now) };

    fn fmt<W: fmt::Write>(&self, f: &mut fmt::Formatter<W>) -> fmt::Result {
        let offset = self.offset;
        let line = ShownLine(self.line);
        let front = ShownFront(self.rest);
        write!(f, "  offset {offset}{line}: {front}\n")
    }
}

impl fmt::Display for ShownPlace<'_> {
    ghost output = { λ place. Some (place_text place.offset place.line place.rest.now) };

    fn fmt<W: fmt::Write>(&self, f: &mut fmt::Formatter<W>) -> fmt::Result {
        let place = ShownOffset {
            offset: self.offset,
            line: self.line,
            rest: self.rest,
        };
        let reason = ShownReason(front_feature(self.rest));
        write!(f, "{place}{reason}")
    }
}

impl fmt::Display for ShownCode<'_> {
    ghost output = { λ code. Some (method_line code.method.place code.method.name.now code.method.descriptor.now
        ++ place_text code.place.offset code.place.line code.place.rest.now) };

    fn fmt<W: fmt::Write>(&self, f: &mut fmt::Formatter<W>) -> fmt::Result {
        let method = self.method;
        let place = self.place;
        write!(f, "{method}{place}")
    }
}

fn feature_of_entry(constant: Constant<&[u8]>) -> Feature
    ensures { result ≡ feature_of_entry (seen constant.entry) }
{
    match constant {
        Constant::MethodHandle(_, _) | Constant::MethodType(_) => Feature::MethodHandles,
        Constant::InvokeDynamic(_, _) => Feature::DynamicCalls,
        _ => Feature::FloatingPoint,
    }
}

impl fmt::Display for ShownEntry<'_, '_> {
    ghost output = { λ entry. Some (entry_text entry.pool.now (seen entry.constant)) };

    fn fmt<W: fmt::Write>(&self, f: &mut fmt::Formatter<W>) -> fmt::Result {
        match self.constant {
            Constant::Float(_) => f.write_str("Float"),
            Constant::Double(_, _) => f.write_str("Double"),
            Constant::Class(name) => {
                let name = Escaped(text_at(self.pool, name));
                write!(f, "Class {name}")
            }
            Constant::NameAndType(name, descriptor) => {
                let name = Escaped(text_at(self.pool, name));
                let descriptor = Escaped(text_at(self.pool, descriptor));
                write!(f, "NameAndType {name}:{descriptor}")
            }
            Constant::MethodHandle(_, _) => f.write_str("MethodHandle"),
            Constant::MethodType(_) => f.write_str("MethodType"),
            Constant::InvokeDynamic(_, _) => f.write_str("InvokeDynamic"),
            _ => Ok(()),
        }
    }
}

impl fmt::Display for ShownConstant<'_, '_> {
    ghost output = { λ constant. Some (constant_text constant.pool.now constant.index (seen constant.constant)) };

    fn fmt<W: fmt::Write>(&self, f: &mut fmt::Formatter<W>) -> fmt::Result {
        let index = self.index;
        let entry = ShownEntry {
            pool: self.pool,
            constant: self.constant,
        };
        let reason = ShownReason(feature_of_entry(self.constant));
        write!(f, "  constant {index}: {entry}\n{reason}")
    }
}

impl fmt::Display for ShownInstruction<'_, '_> {
    ghost output = { λ i. Some (use_line i.pool.now i.offset i.line (instruction_of i.insn)) };

    fn fmt<W: fmt::Write>(&self, f: &mut fmt::Formatter<W>) -> fmt::Result {
        let offset = self.offset;
        let insn = ShownInsn {
            pool: self.pool,
            offset,
            insn: self.insn,
        };
        let line = ShownLine(self.line);
        write!(f, "  offset {offset}{line}: {insn}\n")
    }
}

impl fmt::Display for ShownUse<'_, '_> {
    ghost output = { λ u. Some (method_line u.method.place u.method.name.now u.method.descriptor.now
        ++ use_line u.instruction.pool.now u.instruction.offset u.instruction.line (instruction_of u.instruction.insn)
        ++ constant_text u.constant.pool.now u.constant.index (seen u.constant.constant)) };

    fn fmt<W: fmt::Write>(&self, f: &mut fmt::Formatter<W>) -> fmt::Result {
        let method = self.method;
        let instruction = self.instruction;
        let constant = self.constant;
        write!(f, "{method}{instruction}{constant}")
    }
}
