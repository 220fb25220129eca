//! The parts of operands as they are printed.

ghost use Rattle.std.specs.Prelude.{◌≡◌, Some};
ghost use Rattle.std.specs.Option.{option_map};
ghost use Rattle.jv_pool.specs.Seen.{seen_member};
ghost use Rattle.jv_pool.specs.Constants.{class_name_at, interface_method_reference_at, method_reference_at};
ghost use Rattle.jv_code.specs.Targets.{target_of};
ghost use Rattle.jv_shown.specs.Instructions.{class_text, computation_text, first_of, increment_text, int_text, local_text, member_named, member_text, member_text_of, table_text, target_text};

use jv_code::{Computation, IncrementForm, IntForm, LocalForm, LongValue, target_of};
use jv_pool::{MemberName, Pool};
use jv_program_base::Escaped;
use std::fmt;

/// The class that the constant at an index names, as it is printed.
#[derive(Clone, Copy)]
pub(crate) struct ShownClass<'p, 'a> {
    pub(crate) pool: &'p Pool<'a>,
    pub(crate) index: u16,
}

/// A member by its names, as it is printed.
#[derive(Clone, Copy)]
struct ShownName<'a>(MemberName<'a>);

/// The field or the method that the constant at an index names, as it is printed.
#[derive(Clone, Copy)]
pub(crate) struct ShownMember<'p, 'a> {
    pub(crate) pool: &'p Pool<'a>,
    pub(crate) index: u16,
}

/// Where a jump of a distance from an offset goes, as it is printed.
#[derive(Clone, Copy)]
pub(crate) struct ShownTarget {
    pub(crate) offset: u32,
    pub(crate) distance: i32,
}

/// The numbers of a tableswitch, and where it goes for any other, as they are printed.
#[derive(Clone, Copy)]
pub(crate) struct ShownTable {
    pub(crate) low: i32,
    pub(crate) high: i32,
    pub(crate) target: ShownTarget,
}

/// A local of an instruction, as it is printed.
#[derive(Clone, Copy)]
pub(crate) struct ShownLocal(pub(crate) u16, pub(crate) LocalForm);

/// A local and what is added to it, as they are printed.
#[derive(Clone, Copy)]
pub(crate) struct ShownIncrement(pub(crate) u16, pub(crate) i16, pub(crate) IncrementForm);

/// A number that is pushed, as it is printed.
#[derive(Clone, Copy)]
struct ShownInt(i16, IntForm);

/// The constant of a computation, as it is printed.
#[derive(Clone, Copy)]
pub(crate) struct ShownComputation(pub(crate) Computation);

/// The class that the constant at an index names, where it names one.
fn class_named<'a>(pool: &Pool<'a>, index: u16) -> Option<&'a [u8]>
    ensures { option_map (λ name. name.now) result ≡ class_name_at pool.now index }
{
    match pool.class_index(index) {
        Some(class) => Some(pool.class_name(class)),
        None => None,
    }
}

/// The method that the constant at an index names, where it names one of a class or of an interface.
fn method_named<'a>(pool: &Pool<'a>, index: u16) -> Option<MemberName<'a>>
    ensures { option_map seen_member result ≡ first_of (method_reference_at pool.now index) (interface_method_reference_at pool.now index) }
{
    match pool.methodref_index(index) {
        Some(method) => Some(pool.method_reference(method)),
        None => match pool.interface_methodref_index(index) {
            Some(method) => Some(pool.interface_method_reference(method)),
            None => None,
        },
    }
}

/// The field or the method that the constant at an index names, where it names one.
fn member_named<'a>(pool: &Pool<'a>, index: u16) -> Option<MemberName<'a>>
    ensures { option_map seen_member result ≡ member_named pool.now index }
{
    match pool.fieldref_index(index) {
        Some(field) => Some(pool.field_reference(field)),
        None => method_named(pool, index),
    }
}

impl fmt::Display for ShownClass<'_, '_> {
    ghost output = { λ shown. Some (class_text shown.pool.now shown.index) };

    fn fmt<W: fmt::Write>(&self, f: &mut fmt::Formatter<W>) -> fmt::Result {
        let index = self.index;
        match class_named(self.pool, index) {
            Some(name) => {
                let name = Escaped(name);
                write!(f, "{name}")
            }
            None => write!(f, "#{index}"),
        }
    }
}

impl fmt::Display for ShownName<'_> {
    ghost output = { λ shown. Some (member_text (seen_member shown.0)) };

    fn fmt<W: fmt::Write>(&self, f: &mut fmt::Formatter<W>) -> fmt::Result {
        let class = Escaped(self.0.class);
        let name = Escaped(self.0.name);
        let descriptor = Escaped(self.0.descriptor);
        write!(f, "{class}.{name}:{descriptor}")
    }
}

impl fmt::Display for ShownMember<'_, '_> {
    ghost output = { λ shown. Some (member_text_of shown.index (member_named shown.pool.now shown.index)) };

    fn fmt<W: fmt::Write>(&self, f: &mut fmt::Formatter<W>) -> fmt::Result {
        let index = self.index;
        match member_named(self.pool, index) {
            Some(member) => {
                let member = ShownName(member);
                write!(f, "{member}")
            }
            None => write!(f, "#{index}"),
        }
    }
}

impl fmt::Display for ShownTarget {
    ghost output = { λ shown. Some (target_text (target_of shown.offset shown.distance)) };

    fn fmt<W: fmt::Write>(&self, f: &mut fmt::Formatter<W>) -> fmt::Result {
        match target_of(self.offset, self.distance) {
            Some(target) => write!(f, "{target}"),
            None => f.write_str("outside"),
        }
    }
}

impl fmt::Display for ShownTable {
    ghost output = { λ shown. Some (table_text shown.low shown.high (target_of shown.target.offset shown.target.distance)) };

    fn fmt<W: fmt::Write>(&self, f: &mut fmt::Formatter<W>) -> fmt::Result {
        let low = self.low;
        let high = self.high;
        let target = self.target;
        write!(f, " {low} to {high}, else {target}")
    }
}

impl fmt::Display for ShownLocal {
    ghost output = { λ shown. Some (local_text shown.0 shown.1) };

    fn fmt<W: fmt::Write>(&self, f: &mut fmt::Formatter<W>) -> fmt::Result {
        let local = self.0;
        match self.1 {
            LocalForm::Opcode => write!(f, "_{local}"),
            LocalForm::Byte => write!(f, " {local}"),
            LocalForm::Wide => write!(f, "_w {local}"),
        }
    }
}

impl fmt::Display for ShownIncrement {
    ghost output = { λ shown. Some (increment_text shown.0 shown.1 shown.2) };

    fn fmt<W: fmt::Write>(&self, f: &mut fmt::Formatter<W>) -> fmt::Result {
        let local = self.0;
        let number = self.1;
        match self.2 {
            IncrementForm::Byte => write!(f, " {local}, {number}"),
            IncrementForm::Wide => write!(f, "_w {local}, {number}"),
        }
    }
}

impl fmt::Display for ShownInt {
    ghost output = { λ shown. Some (int_text shown.0 shown.1) };

    fn fmt<W: fmt::Write>(&self, f: &mut fmt::Formatter<W>) -> fmt::Result {
        let number = self.0;
        match self.1 {
            IntForm::Opcode => {
                let size = number.unsigned_abs();
                if number < 0 {
                    write!(f, "_m{size}")
                } else {
                    write!(f, "_{size}")
                }
            }
            IntForm::Byte => write!(f, " {number}"),
            IntForm::Half => write!(f, " {number}"),
        }
    }
}

impl fmt::Display for ShownComputation {
    ghost output = { λ shown. Some (computation_text shown.0) };

    fn fmt<W: fmt::Write>(&self, f: &mut fmt::Formatter<W>) -> fmt::Result {
        match self.0 {
            Computation::IntConstant(number, form) => {
                let shown = ShownInt(number, form);
                write!(f, "{shown}")
            }
            Computation::LongConstant(LongValue::Zero) => f.write_str("_0"),
            Computation::LongConstant(LongValue::One) => f.write_str("_1"),
            _ => Ok(()),
        }
    }
}
