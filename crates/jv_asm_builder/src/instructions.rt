//! Instructions by their names (JVMS 6.5).

ghost use Rattle.std.specs.Prelude.{◌≡◌, ◌<◌, ◌+◌};
ghost use Rattle.jv_asm.specs.declared.item.Item.TheVariants as an_item;
ghost use Rattle.jv_asm_builder.specs.Assembly.{Branch, IsStepAdded, IsItemAdded};
ghost use Rattle.jv_asm_builder.specs.Instructions.{local_item, int_item, ldc_item, iinc_item};

use crate::code_builder::CodeBuilder;
use crate::opcode::{ArrayType, BranchOp, IndexOp, Op};
use crate::step::{BuilderStep, Label};
use jv_asm::{AsmFault, Item};

/// An instruction with a local variable, in its shortest form.
fn local_item(with_0: u8, opcode: u8, local: u16) -> Item<'static>
    requires { with_0 + 3 < 256 }
    ensures { result ≡ local_item with_0 opcode local }
{
    if local < 4 {
        Item::Plain(with_0 + local as u8)
    } else if local < 256 {
        Item::Byte(opcode, local as u8)
    } else {
        Item::Wide(opcode, local)
    }
}

impl<'a> CodeBuilder<'a> {
    /// An instruction without operands.
    pub fn op(&mut self, op: Op) -> Result<(), AsmFault>
        ensures { IsItemAdded self.old (an_item.Plain op.opcode) result self.new }
    {
        self.item(Item::Plain(op.opcode))
    }

    /// `iconst`, `bipush` or `sipush`, whichever is the shortest with this value.
    pub fn int(&mut self, value: i16) -> Result<(), AsmFault>
        ensures { IsItemAdded self.old (int_item value) result self.new }
    {
        if -1 <= value && value <= 5 {
            self.item(Item::Plain((value + 3) as u8))
        } else if -128 <= value && value <= 127 {
            self.item(Item::SignedByte(16, value as i8))
        } else {
            self.item(Item::SignedHalf(17, value))
        }
    }

    /// `ldc` of the constant at an index, or `ldc_w` where the index has two bytes.
    pub fn ldc(&mut self, index: u16) -> Result<(), AsmFault>
        ensures { IsItemAdded self.old (ldc_item index) result self.new }
    {
        if index < 256 {
            self.item(Item::Byte(18, index as u8))
        } else {
            self.item(Item::Half(19, index))
        }
    }

    /// `iinc`, in its shortest form.
    pub fn iinc(&mut self, local: u16, by: i16) -> Result<(), AsmFault>
        ensures { IsItemAdded self.old (iinc_item local by) result self.new }
    {
        if local < 256 && -128 <= by && by <= 127 {
            self.item(Item::Iinc(local as u8, by as i8))
        } else {
            self.item(Item::WideIinc(local, by))
        }
    }

    /// `newarray`.
    pub fn newarray(&mut self, element: ArrayType) -> Result<(), AsmFault>
        ensures { IsItemAdded self.old (an_item.Byte 188 element.code) result self.new }
    {
        self.item(Item::Byte(188, element.code))
    }

    /// `invokeinterface` of the method at an index, whose arguments with the object have so many
    /// words.
    pub fn invokeinterface(&mut self, index: u16, count: u8) -> Result<(), AsmFault>
        ensures { IsItemAdded self.old (an_item.Invokeinterface index count) result self.new }
    {
        self.item(Item::Invokeinterface(index, count))
    }

    /// `multianewarray` of the array type at an index.
    pub fn multianewarray(&mut self, index: u16, dimensions: u8) -> Result<(), AsmFault>
        ensures { IsItemAdded self.old (an_item.Multianewarray index dimensions) result self.new }
    {
        self.item(Item::Multianewarray(index, dimensions))
    }

    /// `iload`, in its shortest form.
    pub fn iload(&mut self, local: u16) -> Result<(), AsmFault>
        ensures { IsItemAdded self.old (local_item 26 21 local) result self.new }
    {
        self.item(local_item(26, 21, local))
    }

    /// `lload`, in its shortest form.
    pub fn lload(&mut self, local: u16) -> Result<(), AsmFault>
        ensures { IsItemAdded self.old (local_item 30 22 local) result self.new }
    {
        self.item(local_item(30, 22, local))
    }

    /// `aload`, in its shortest form.
    pub fn aload(&mut self, local: u16) -> Result<(), AsmFault>
        ensures { IsItemAdded self.old (local_item 42 25 local) result self.new }
    {
        self.item(local_item(42, 25, local))
    }

    /// `istore`, in its shortest form.
    pub fn istore(&mut self, local: u16) -> Result<(), AsmFault>
        ensures { IsItemAdded self.old (local_item 59 54 local) result self.new }
    {
        self.item(local_item(59, 54, local))
    }

    /// `lstore`, in its shortest form.
    pub fn lstore(&mut self, local: u16) -> Result<(), AsmFault>
        ensures { IsItemAdded self.old (local_item 63 55 local) result self.new }
    {
        self.item(local_item(63, 55, local))
    }

    /// `astore`, in its shortest form.
    pub fn astore(&mut self, local: u16) -> Result<(), AsmFault>
        ensures { IsItemAdded self.old (local_item 75 58 local) result self.new }
    {
        self.item(local_item(75, 58, local))
    }

    /// An instruction with the index of a constant in two bytes.
    pub fn with_index(&mut self, op: IndexOp, index: u16) -> Result<(), AsmFault>
        ensures { IsItemAdded self.old (an_item.Half op.opcode index) result self.new }
    {
        self.item(Item::Half(op.opcode, index))
    }

    /// A branch of two bytes to a label.
    pub fn branch(&mut self, op: BranchOp, target: Label) -> Result<(), AsmFault>
        ensures { IsStepAdded self.old (Branch op.opcode target) result self.new }
    {
        self.step(BuilderStep::Branch(op.opcode, target))
    }
}
