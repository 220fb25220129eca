//! Frames as they are printed.

ghost use Rattle.std.specs.Prelude.{◌++◌, Some, codes, map};
ghost use Rattle.std.specs.List.{flat_map};
ghost use Rattle.jv_text.specs.Seen.{seen_element};
ghost use Rattle.jv_stackmap.specs.Seen.{seen_type};
ghost use Rattle.jv_shown.specs.Frames.{base_name, brackets_text, element_text, flag_line, frame_text, next_text, type_text, types_line, types_text};

use jv_program_base::Escaped;
use jv_stackmap::VerificationTypeOf;
use jv_text::{Base, Element};
use std::fmt;

/// A primitive type as it is printed.
#[derive(Clone, Copy)]
struct ShownBase(Base);

/// What an array's elements are, as it is printed.
#[derive(Clone, Copy)]
struct ShownElement<'a>(Element<&'a [u8]>);

/// A pair of brackets for each dimension.
#[derive(Clone, Copy)]
struct ShownBrackets(u8);

/// The type of a local variable or of a stack item, as it is printed.
#[derive(Clone, Copy)]
pub struct ShownType<'a>(pub VerificationTypeOf<&'a [u8]>);

/// Types behind another one.
#[derive(Clone, Copy)]
struct ShownMore<'f, 'a>(&'f [VerificationTypeOf<&'a [u8]>]);

/// Types, one behind the other.
#[derive(Clone, Copy)]
struct ShownTypes<'f, 'a>(&'f [VerificationTypeOf<&'a [u8]>]);

/// A line with types, whose they are and what they are.
#[derive(Clone, Copy)]
struct ShownLine<'f, 'a> {
    whose: &'f str,
    word: &'f str,
    types: &'f [VerificationTypeOf<&'a [u8]>],
}

/// A line with the flag, where it is set.
#[derive(Clone, Copy)]
struct ShownFlag<'f> {
    whose: &'f str,
    flag: bool,
}

/// A frame as it is printed.
#[derive(Clone, Copy)]
pub struct ShownFrame<'f, 'a> {
    /// Whose frame it is: a word and a space, or nothing.
    pub whose: &'f str,
    /// The types of the local variables, the first first.
    pub locals: &'f [VerificationTypeOf<&'a [u8]>],
    /// The types of the stack's items, the top first.
    pub stack: &'f [VerificationTypeOf<&'a [u8]>],
    /// Whether `this` may not be initialized.
    pub flag: bool,
}

impl fmt::Display for ShownBase {
    ghost output = { λ base. Some (base_name base.0) };

    fn fmt<W: fmt::Write>(&self, f: &mut fmt::Formatter<W>) -> fmt::Result {
        match self.0 {
            Base::Byte => f.write_str("byte"),
            Base::Char => f.write_str("char"),
            Base::Double => f.write_str("double"),
            Base::Float => f.write_str("float"),
            Base::Int => f.write_str("int"),
            Base::Long => f.write_str("long"),
            Base::Short => f.write_str("short"),
            Base::Boolean => f.write_str("boolean"),
        }
    }
}

impl fmt::Display for ShownElement<'_> {
    ghost output = { λ element. Some (element_text (seen_element element.0)) };

    fn fmt<W: fmt::Write>(&self, f: &mut fmt::Formatter<W>) -> fmt::Result {
        match self.0 {
            Element::Base(base) => {
                let base = ShownBase(base);
                write!(f, "{base}")
            }
            Element::Class(name) => {
                let name = Escaped(name);
                write!(f, "{name}")
            }
        }
    }
}

impl fmt::Display for ShownBrackets {
    ghost output = { λ brackets. Some (brackets_text brackets.0) };

    fn fmt<W: fmt::Write>(&self, f: &mut fmt::Formatter<W>) -> fmt::Result {
        for _ in 0..self.0 {
            f.write_str("[]")?;
        }
        Ok(())
    }
}

impl fmt::Display for ShownType<'_> {
    ghost output = { λ shown. Some (type_text (seen_type shown.0)) };

    fn fmt<W: fmt::Write>(&self, f: &mut fmt::Formatter<W>) -> fmt::Result {
        match self.0 {
            VerificationTypeOf::Top => f.write_str("top"),
            VerificationTypeOf::Int => f.write_str("int"),
            VerificationTypeOf::Long => f.write_str("long"),
            VerificationTypeOf::Null => f.write_str("null"),
            VerificationTypeOf::UninitializedThis => f.write_str("uninitializedThis"),
            VerificationTypeOf::Class(name) => {
                let name = Escaped(name);
                write!(f, "{name}")
            }
            VerificationTypeOf::Array(components) => {
                let element = ShownElement(components.element);
                let brackets = ShownBrackets(components.dimensions);
                write!(f, "{element}{brackets}[]")
            }
            VerificationTypeOf::Uninitialized(offset) => {
                write!(f, "uninitialized(offset {offset})")
            }
        }
    }
}

impl fmt::Display for ShownMore<'_, '_> {
    ghost output = { λ more. Some (flat_map next_text (map seen_type more.0.now)) };

    fn fmt<W: fmt::Write>(&self, f: &mut fmt::Formatter<W>) -> fmt::Result {
        let types = self.0;
        for item in types {
            let shown = ShownType(*item);
            write!(f, ", {shown}")?;
        }
        Ok(())
    }
}

impl fmt::Display for ShownTypes<'_, '_> {
    ghost output = { λ types. Some (types_text (map seen_type types.0.now)) };

    fn fmt<W: fmt::Write>(&self, f: &mut fmt::Formatter<W>) -> fmt::Result {
        match self.0.split_first() {
            Some((first, more)) => {
                let first = ShownType(*first);
                let more = ShownMore(more);
                write!(f, " {first}{more}")
            }
            None => Ok(()),
        }
    }
}

impl fmt::Display for ShownLine<'_, '_> {
    ghost output = { λ line. Some (types_line line.whose.now line.word.now (map seen_type line.types.now)) };

    fn fmt<W: fmt::Write>(&self, f: &mut fmt::Formatter<W>) -> fmt::Result {
        let whose = self.whose;
        let word = self.word;
        let types = ShownTypes(self.types);
        write!(f, "  {whose}{word}{types}\n")
    }
}

impl fmt::Display for ShownFlag<'_> {
    ghost output = { λ line. Some (flag_line line.whose.now line.flag) };

    fn fmt<W: fmt::Write>(&self, f: &mut fmt::Formatter<W>) -> fmt::Result {
        let whose = self.whose;
        if self.flag {
            write!(f, "  {whose}flag uninitializedThis\n")
        } else {
            Ok(())
        }
    }
}

impl fmt::Display for ShownFrame<'_, '_> {
    ghost output = { λ shown. Some (frame_text shown.whose.now (record {
      locals = map seen_type shown.locals.now;
      stack = map seen_type shown.stack.now;
      flag_this_uninit = shown.flag;
    })) };

    fn fmt<W: fmt::Write>(&self, f: &mut fmt::Formatter<W>) -> fmt::Result {
        let locals = ShownLine {
            whose: self.whose,
            word: "locals",
            types: self.locals,
        };
        let stack = ShownLine {
            whose: self.whose,
            word: "stack",
            types: self.stack,
        };
        let flag = ShownFlag {
            whose: self.whose,
            flag: self.flag,
        };
        write!(f, "{locals}{stack}{flag}")
    }
}
