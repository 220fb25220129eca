//! What each opcode tells (JVMS 6.5, 7).

ghost use Rattle.std.specs.Prelude.{◌≡◌};
ghost use Rattle.jv_code.specs.Inside.Shapes.{shape_at};

use crate::kinds::{
    ArithmeticOperator, Computation, Condition, Conversion, DivisionOperator, Equality,
    FieldAccess, IntForm, Invocation, LongValue, NumberElement, NumberKind, ShiftOperator,
    StackForm, Test, ValueKind, WordKind,
};

/// What an index that follows an opcode is for.
#[derive(Clone, Copy)]
pub(crate) enum IndexUse {
    PoolConstant,
    PoolLongConstant,
    Field(FieldAccess),
    Invoke(Invocation),
    New,
    NewReferenceArray,
    CheckCast,
    InstanceOf,
}

/// What a local's number that follows an opcode is for.
#[derive(Clone, Copy)]
pub(crate) enum LocalUse {
    Load(ValueKind),
    Store(WordKind),
    StoreLong,
}

/// An instruction that is its opcode alone.
#[derive(Clone, Copy)]
pub(crate) enum WholeInsn {
    Nop,
    NullConstant,
    Compute(Computation),
    /// The local's number is in the opcode.
    Local(LocalUse, u16),
    ArrayLoad(NumberElement),
    ReferenceArrayLoad,
    ArrayStore(NumberElement),
    ReferenceArrayStore,
    Stack(StackForm),
    Division(NumberKind, DivisionOperator),
    ReturnValue(ValueKind),
    Return,
    ArrayLength,
    Throw,
}

/// What an opcode tells: the instruction, or what of it follows.
#[derive(Clone, Copy)]
pub(crate) enum OpcodeShape {
    /// The opcode is the whole instruction.
    Whole(WholeInsn),
    /// Two bytes, an index.
    Index(IndexUse),
    /// One byte, the number of a local.
    Local(LocalUse),
    /// Two bytes, the distance of a branch.
    Branch(Test),
    /// Two bytes, the distance of a jump that is always taken.
    Goto,
    /// Four bytes, the distance of such a jump.
    FarGoto,
    /// One byte, an int.
    ByteConstant,
    /// Two bytes, an int.
    HalfConstant,
    /// One byte, an index.
    PoolByte,
    /// A local and a number, one byte each.
    Increment,
    TableSwitch,
    LookupSwitch,
    /// An index, a count and a zero byte.
    InvokeInterface,
    /// One byte that tells the elements.
    NewArray,
    /// An index and a number of dimensions.
    NewMultiArray,
    /// An instruction with a local of two bytes.
    Wide,
}

/// The shape of each opcode, from 0 on; `None` where it is not of the profile.
static SHAPES: [Option<OpcodeShape>; 256] = [
    // 0 to 15
    Some(OpcodeShape::Whole(WholeInsn::Nop)),
    Some(OpcodeShape::Whole(WholeInsn::NullConstant)),
    Some(OpcodeShape::Whole(WholeInsn::Compute(Computation::IntConstant(-1, IntForm::Opcode)))),
    Some(OpcodeShape::Whole(WholeInsn::Compute(Computation::IntConstant(0, IntForm::Opcode)))),
    Some(OpcodeShape::Whole(WholeInsn::Compute(Computation::IntConstant(1, IntForm::Opcode)))),
    Some(OpcodeShape::Whole(WholeInsn::Compute(Computation::IntConstant(2, IntForm::Opcode)))),
    Some(OpcodeShape::Whole(WholeInsn::Compute(Computation::IntConstant(3, IntForm::Opcode)))),
    Some(OpcodeShape::Whole(WholeInsn::Compute(Computation::IntConstant(4, IntForm::Opcode)))),
    Some(OpcodeShape::Whole(WholeInsn::Compute(Computation::IntConstant(5, IntForm::Opcode)))),
    Some(OpcodeShape::Whole(WholeInsn::Compute(Computation::LongConstant(LongValue::Zero)))),
    Some(OpcodeShape::Whole(WholeInsn::Compute(Computation::LongConstant(LongValue::One)))),
    None,
    None,
    None,
    None,
    None,
    // 16 to 31
    Some(OpcodeShape::ByteConstant),
    Some(OpcodeShape::HalfConstant),
    Some(OpcodeShape::PoolByte),
    Some(OpcodeShape::Index(IndexUse::PoolConstant)),
    Some(OpcodeShape::Index(IndexUse::PoolLongConstant)),
    Some(OpcodeShape::Local(LocalUse::Load(ValueKind::Int))),
    Some(OpcodeShape::Local(LocalUse::Load(ValueKind::Long))),
    None,
    None,
    Some(OpcodeShape::Local(LocalUse::Load(ValueKind::Reference))),
    Some(OpcodeShape::Whole(WholeInsn::Local(LocalUse::Load(ValueKind::Int), 0))),
    Some(OpcodeShape::Whole(WholeInsn::Local(LocalUse::Load(ValueKind::Int), 1))),
    Some(OpcodeShape::Whole(WholeInsn::Local(LocalUse::Load(ValueKind::Int), 2))),
    Some(OpcodeShape::Whole(WholeInsn::Local(LocalUse::Load(ValueKind::Int), 3))),
    Some(OpcodeShape::Whole(WholeInsn::Local(LocalUse::Load(ValueKind::Long), 0))),
    Some(OpcodeShape::Whole(WholeInsn::Local(LocalUse::Load(ValueKind::Long), 1))),
    // 32 to 47
    Some(OpcodeShape::Whole(WholeInsn::Local(LocalUse::Load(ValueKind::Long), 2))),
    Some(OpcodeShape::Whole(WholeInsn::Local(LocalUse::Load(ValueKind::Long), 3))),
    None,
    None,
    None,
    None,
    None,
    None,
    None,
    None,
    Some(OpcodeShape::Whole(WholeInsn::Local(LocalUse::Load(ValueKind::Reference), 0))),
    Some(OpcodeShape::Whole(WholeInsn::Local(LocalUse::Load(ValueKind::Reference), 1))),
    Some(OpcodeShape::Whole(WholeInsn::Local(LocalUse::Load(ValueKind::Reference), 2))),
    Some(OpcodeShape::Whole(WholeInsn::Local(LocalUse::Load(ValueKind::Reference), 3))),
    Some(OpcodeShape::Whole(WholeInsn::ArrayLoad(NumberElement::Int))),
    Some(OpcodeShape::Whole(WholeInsn::ArrayLoad(NumberElement::Long))),
    // 48 to 63
    None,
    None,
    Some(OpcodeShape::Whole(WholeInsn::ReferenceArrayLoad)),
    Some(OpcodeShape::Whole(WholeInsn::ArrayLoad(NumberElement::ByteOrBoolean))),
    Some(OpcodeShape::Whole(WholeInsn::ArrayLoad(NumberElement::Char))),
    Some(OpcodeShape::Whole(WholeInsn::ArrayLoad(NumberElement::Short))),
    Some(OpcodeShape::Local(LocalUse::Store(WordKind::Int))),
    Some(OpcodeShape::Local(LocalUse::StoreLong)),
    None,
    None,
    Some(OpcodeShape::Local(LocalUse::Store(WordKind::Reference))),
    Some(OpcodeShape::Whole(WholeInsn::Local(LocalUse::Store(WordKind::Int), 0))),
    Some(OpcodeShape::Whole(WholeInsn::Local(LocalUse::Store(WordKind::Int), 1))),
    Some(OpcodeShape::Whole(WholeInsn::Local(LocalUse::Store(WordKind::Int), 2))),
    Some(OpcodeShape::Whole(WholeInsn::Local(LocalUse::Store(WordKind::Int), 3))),
    Some(OpcodeShape::Whole(WholeInsn::Local(LocalUse::StoreLong, 0))),
    // 64 to 79
    Some(OpcodeShape::Whole(WholeInsn::Local(LocalUse::StoreLong, 1))),
    Some(OpcodeShape::Whole(WholeInsn::Local(LocalUse::StoreLong, 2))),
    Some(OpcodeShape::Whole(WholeInsn::Local(LocalUse::StoreLong, 3))),
    None,
    None,
    None,
    None,
    None,
    None,
    None,
    None,
    Some(OpcodeShape::Whole(WholeInsn::Local(LocalUse::Store(WordKind::Reference), 0))),
    Some(OpcodeShape::Whole(WholeInsn::Local(LocalUse::Store(WordKind::Reference), 1))),
    Some(OpcodeShape::Whole(WholeInsn::Local(LocalUse::Store(WordKind::Reference), 2))),
    Some(OpcodeShape::Whole(WholeInsn::Local(LocalUse::Store(WordKind::Reference), 3))),
    Some(OpcodeShape::Whole(WholeInsn::ArrayStore(NumberElement::Int))),
    // 80 to 95
    Some(OpcodeShape::Whole(WholeInsn::ArrayStore(NumberElement::Long))),
    None,
    None,
    Some(OpcodeShape::Whole(WholeInsn::ReferenceArrayStore)),
    Some(OpcodeShape::Whole(WholeInsn::ArrayStore(NumberElement::ByteOrBoolean))),
    Some(OpcodeShape::Whole(WholeInsn::ArrayStore(NumberElement::Char))),
    Some(OpcodeShape::Whole(WholeInsn::ArrayStore(NumberElement::Short))),
    Some(OpcodeShape::Whole(WholeInsn::Stack(StackForm::Pop))),
    Some(OpcodeShape::Whole(WholeInsn::Stack(StackForm::Pop2))),
    Some(OpcodeShape::Whole(WholeInsn::Stack(StackForm::Dup))),
    Some(OpcodeShape::Whole(WholeInsn::Stack(StackForm::DupX1))),
    Some(OpcodeShape::Whole(WholeInsn::Stack(StackForm::DupX2))),
    Some(OpcodeShape::Whole(WholeInsn::Stack(StackForm::Dup2))),
    Some(OpcodeShape::Whole(WholeInsn::Stack(StackForm::Dup2X1))),
    Some(OpcodeShape::Whole(WholeInsn::Stack(StackForm::Dup2X2))),
    Some(OpcodeShape::Whole(WholeInsn::Stack(StackForm::Swap))),
    // 96 to 111
    Some(OpcodeShape::Whole(WholeInsn::Compute(Computation::Arithmetic(
        NumberKind::Int,
        ArithmeticOperator::Add,
    )))),
    Some(OpcodeShape::Whole(WholeInsn::Compute(Computation::Arithmetic(
        NumberKind::Long,
        ArithmeticOperator::Add,
    )))),
    None,
    None,
    Some(OpcodeShape::Whole(WholeInsn::Compute(Computation::Arithmetic(
        NumberKind::Int,
        ArithmeticOperator::Subtract,
    )))),
    Some(OpcodeShape::Whole(WholeInsn::Compute(Computation::Arithmetic(
        NumberKind::Long,
        ArithmeticOperator::Subtract,
    )))),
    None,
    None,
    Some(OpcodeShape::Whole(WholeInsn::Compute(Computation::Arithmetic(
        NumberKind::Int,
        ArithmeticOperator::Multiply,
    )))),
    Some(OpcodeShape::Whole(WholeInsn::Compute(Computation::Arithmetic(
        NumberKind::Long,
        ArithmeticOperator::Multiply,
    )))),
    None,
    None,
    Some(OpcodeShape::Whole(WholeInsn::Division(NumberKind::Int, DivisionOperator::Divide))),
    Some(OpcodeShape::Whole(WholeInsn::Division(NumberKind::Long, DivisionOperator::Divide))),
    None,
    None,
    // 112 to 127
    Some(OpcodeShape::Whole(WholeInsn::Division(NumberKind::Int, DivisionOperator::Remainder))),
    Some(OpcodeShape::Whole(WholeInsn::Division(NumberKind::Long, DivisionOperator::Remainder))),
    None,
    None,
    Some(OpcodeShape::Whole(WholeInsn::Compute(Computation::Negate(NumberKind::Int)))),
    Some(OpcodeShape::Whole(WholeInsn::Compute(Computation::Negate(NumberKind::Long)))),
    None,
    None,
    Some(OpcodeShape::Whole(WholeInsn::Compute(Computation::Shift(
        NumberKind::Int,
        ShiftOperator::Left,
    )))),
    Some(OpcodeShape::Whole(WholeInsn::Compute(Computation::Shift(
        NumberKind::Long,
        ShiftOperator::Left,
    )))),
    Some(OpcodeShape::Whole(WholeInsn::Compute(Computation::Shift(
        NumberKind::Int,
        ShiftOperator::Right,
    )))),
    Some(OpcodeShape::Whole(WholeInsn::Compute(Computation::Shift(
        NumberKind::Long,
        ShiftOperator::Right,
    )))),
    Some(OpcodeShape::Whole(WholeInsn::Compute(Computation::Shift(
        NumberKind::Int,
        ShiftOperator::UnsignedRight,
    )))),
    Some(OpcodeShape::Whole(WholeInsn::Compute(Computation::Shift(
        NumberKind::Long,
        ShiftOperator::UnsignedRight,
    )))),
    Some(OpcodeShape::Whole(WholeInsn::Compute(Computation::Arithmetic(
        NumberKind::Int,
        ArithmeticOperator::And,
    )))),
    Some(OpcodeShape::Whole(WholeInsn::Compute(Computation::Arithmetic(
        NumberKind::Long,
        ArithmeticOperator::And,
    )))),
    // 128 to 143
    Some(OpcodeShape::Whole(WholeInsn::Compute(Computation::Arithmetic(
        NumberKind::Int,
        ArithmeticOperator::Or,
    )))),
    Some(OpcodeShape::Whole(WholeInsn::Compute(Computation::Arithmetic(
        NumberKind::Long,
        ArithmeticOperator::Or,
    )))),
    Some(OpcodeShape::Whole(WholeInsn::Compute(Computation::Arithmetic(
        NumberKind::Int,
        ArithmeticOperator::Xor,
    )))),
    Some(OpcodeShape::Whole(WholeInsn::Compute(Computation::Arithmetic(
        NumberKind::Long,
        ArithmeticOperator::Xor,
    )))),
    Some(OpcodeShape::Increment),
    Some(OpcodeShape::Whole(WholeInsn::Compute(Computation::Convert(Conversion::IntToLong)))),
    None,
    None,
    Some(OpcodeShape::Whole(WholeInsn::Compute(Computation::Convert(Conversion::LongToInt)))),
    None,
    None,
    None,
    None,
    None,
    None,
    None,
    // 144 to 159
    None,
    Some(OpcodeShape::Whole(WholeInsn::Compute(Computation::Convert(Conversion::IntToByte)))),
    Some(OpcodeShape::Whole(WholeInsn::Compute(Computation::Convert(Conversion::IntToChar)))),
    Some(OpcodeShape::Whole(WholeInsn::Compute(Computation::Convert(Conversion::IntToShort)))),
    Some(OpcodeShape::Whole(WholeInsn::Compute(Computation::CompareLongs))),
    None,
    None,
    None,
    None,
    Some(OpcodeShape::Branch(Test::IfInt(Condition::Equal))),
    Some(OpcodeShape::Branch(Test::IfInt(Condition::NotEqual))),
    Some(OpcodeShape::Branch(Test::IfInt(Condition::Less))),
    Some(OpcodeShape::Branch(Test::IfInt(Condition::GreaterOrEqual))),
    Some(OpcodeShape::Branch(Test::IfInt(Condition::Greater))),
    Some(OpcodeShape::Branch(Test::IfInt(Condition::LessOrEqual))),
    Some(OpcodeShape::Branch(Test::IfInts(Condition::Equal))),
    // 160 to 175
    Some(OpcodeShape::Branch(Test::IfInts(Condition::NotEqual))),
    Some(OpcodeShape::Branch(Test::IfInts(Condition::Less))),
    Some(OpcodeShape::Branch(Test::IfInts(Condition::GreaterOrEqual))),
    Some(OpcodeShape::Branch(Test::IfInts(Condition::Greater))),
    Some(OpcodeShape::Branch(Test::IfInts(Condition::LessOrEqual))),
    Some(OpcodeShape::Branch(Test::IfReferences(Equality::Same))),
    Some(OpcodeShape::Branch(Test::IfReferences(Equality::Different))),
    Some(OpcodeShape::Goto),
    None,
    None,
    Some(OpcodeShape::TableSwitch),
    Some(OpcodeShape::LookupSwitch),
    Some(OpcodeShape::Whole(WholeInsn::ReturnValue(ValueKind::Int))),
    Some(OpcodeShape::Whole(WholeInsn::ReturnValue(ValueKind::Long))),
    None,
    None,
    // 176 to 191
    Some(OpcodeShape::Whole(WholeInsn::ReturnValue(ValueKind::Reference))),
    Some(OpcodeShape::Whole(WholeInsn::Return)),
    Some(OpcodeShape::Index(IndexUse::Field(FieldAccess::GetStatic))),
    Some(OpcodeShape::Index(IndexUse::Field(FieldAccess::PutStatic))),
    Some(OpcodeShape::Index(IndexUse::Field(FieldAccess::GetField))),
    Some(OpcodeShape::Index(IndexUse::Field(FieldAccess::PutField))),
    Some(OpcodeShape::Index(IndexUse::Invoke(Invocation::Virtual))),
    Some(OpcodeShape::Index(IndexUse::Invoke(Invocation::Special))),
    Some(OpcodeShape::Index(IndexUse::Invoke(Invocation::Static))),
    Some(OpcodeShape::InvokeInterface),
    None,
    Some(OpcodeShape::Index(IndexUse::New)),
    Some(OpcodeShape::NewArray),
    Some(OpcodeShape::Index(IndexUse::NewReferenceArray)),
    Some(OpcodeShape::Whole(WholeInsn::ArrayLength)),
    Some(OpcodeShape::Whole(WholeInsn::Throw)),
    // 192 to 207
    Some(OpcodeShape::Index(IndexUse::CheckCast)),
    Some(OpcodeShape::Index(IndexUse::InstanceOf)),
    None,
    None,
    Some(OpcodeShape::Wide),
    Some(OpcodeShape::NewMultiArray),
    Some(OpcodeShape::Branch(Test::IfNull(Equality::Same))),
    Some(OpcodeShape::Branch(Test::IfNull(Equality::Different))),
    Some(OpcodeShape::FarGoto),
    None,
    None,
    None,
    None,
    None,
    None,
    None,
    // 208 to 223
    None,
    None,
    None,
    None,
    None,
    None,
    None,
    None,
    None,
    None,
    None,
    None,
    None,
    None,
    None,
    None,
    // 224 to 239
    None,
    None,
    None,
    None,
    None,
    None,
    None,
    None,
    None,
    None,
    None,
    None,
    None,
    None,
    None,
    None,
    // 240 to 255
    None,
    None,
    None,
    None,
    None,
    None,
    None,
    None,
    None,
    None,
    None,
    None,
    None,
    None,
    None,
    None,
];

/// The shape that an opcode tells; `None` where it is not of the profile.
#[inline]
pub(crate) fn shape_of(opcode: u8) -> Option<OpcodeShape>
    ensures { result ≡ shape_at opcode }
{
    SHAPES[usize::from(opcode)]
}
