//! Instructions as they are printed.

ghost use Rattle.std.specs.Prelude.{◌≡◌, Some};
ghost use Rattle.jv_code.specs.Insns.{instruction_of};
ghost use Rattle.jv_shown.specs.Instructions.{instruction_text, operand_text};

use crate::mnemonics::{element_name, mnemonic};
use crate::operands::{
    ShownClass, ShownComputation, ShownIncrement, ShownLocal, ShownMember, ShownTable, ShownTarget,
};
use jv_code::Insn;
use jv_pool::Pool;
use std::fmt;

/// The operands of an instruction at an offset, as they are printed behind its mnemonic.
#[derive(Clone, Copy)]
struct ShownOperand<'p, 'a> {
    pool: &'p Pool<'a>,
    offset: u32,
    insn: Insn<&'a [u8]>,
}

/// An instruction at an offset of the code of a class with these constants, as it is printed.
#[derive(Clone, Copy)]
pub struct ShownInsn<'p, 'a> {
    /// The constants of the class.
    pub pool: &'p Pool<'a>,
    /// Where the instruction starts, in bytes from the code's start.
    pub offset: u32,
    /// The instruction.
    pub insn: Insn<&'a [u8]>,
}

impl fmt::Display for ShownOperand<'_, '_> {
    ghost output = { λ shown. Some (operand_text shown.pool.now shown.offset (instruction_of shown.insn)) };

    fn fmt<W: fmt::Write>(&self, f: &mut fmt::Formatter<W>) -> fmt::Result {
        let pool = self.pool;
        let offset = self.offset;
        match self.insn {
            Insn::Compute(computation) => {
                let shown = ShownComputation(computation);
                write!(f, "{shown}")
            }
            Insn::PoolConstant(index, _) => {
                let class = ShownClass { pool, index };
                write!(f, " {class}")
            }
            Insn::PoolLongConstant(index) => write!(f, " #{index}"),
            Insn::Load(_, local, form) => {
                let shown = ShownLocal(local, form);
                write!(f, "{shown}")
            }
            Insn::Store(_, local, form) => {
                let shown = ShownLocal(local, form);
                write!(f, "{shown}")
            }
            Insn::StoreLong(local, form) => {
                let shown = ShownLocal(local, form);
                write!(f, "{shown}")
            }
            Insn::Increment(local, number, form) => {
                let shown = ShownIncrement(local, number, form);
                write!(f, "{shown}")
            }
            Insn::Branch(_, distance) => {
                let distance = i32::from(distance);
                let target = ShownTarget { offset, distance };
                write!(f, " {target}")
            }
            Insn::Goto(distance, _) => {
                let target = ShownTarget { offset, distance };
                write!(f, " {target}")
            }
            Insn::TableSwitch(_, distance, low, high, _) => {
                let target = ShownTarget { offset, distance };
                let table = ShownTable { low, high, target };
                write!(f, "{table}")
            }
            Insn::LookupSwitch(_, distance, _) => {
                let target = ShownTarget { offset, distance };
                write!(f, " else {target}")
            }
            Insn::Field(_, index) => {
                let member = ShownMember { pool, index };
                write!(f, " {member}")
            }
            Insn::Invoke(_, index) => {
                let member = ShownMember { pool, index };
                write!(f, " {member}")
            }
            Insn::InvokeInterface(index, count) => {
                let member = ShownMember { pool, index };
                write!(f, " {member}, {count}")
            }
            Insn::New(index) => {
                let class = ShownClass { pool, index };
                write!(f, " {class}")
            }
            Insn::NewArray(element) => {
                let name = element_name(element);
                write!(f, " {name}")
            }
            Insn::NewReferenceArray(index) => {
                let class = ShownClass { pool, index };
                write!(f, " {class}")
            }
            Insn::NewMultiArray(index, dimensions) => {
                let class = ShownClass { pool, index };
                write!(f, " {class}, {dimensions}")
            }
            Insn::CheckCast(index) => {
                let class = ShownClass { pool, index };
                write!(f, " {class}")
            }
            Insn::InstanceOf(index) => {
                let class = ShownClass { pool, index };
                write!(f, " {class}")
            }
            _ => Ok(()),
        }
    }
}

impl fmt::Display for ShownInsn<'_, '_> {
    ghost output = { λ shown. Some (instruction_text shown.pool.now shown.offset (instruction_of shown.insn)) };

    fn fmt<W: fmt::Write>(&self, f: &mut fmt::Formatter<W>) -> fmt::Result {
        let name = mnemonic(&self.insn);
        let operand = ShownOperand {
            pool: self.pool,
            offset: self.offset,
            insn: self.insn,
        };
        write!(f, "{name}{operand}")
    }
}
