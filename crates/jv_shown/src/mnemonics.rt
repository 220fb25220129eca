//! The mnemonics of instructions (JVMS 6.5).

ghost use Rattle.std.specs.Prelude.{◌≡◌};
ghost use Rattle.jv_code.specs.Insns.{instruction_of};
ghost use Rattle.jv_shown.specs.Mnemonics.{arithmetic_name, array_load_name, array_store_name, branch_name, computation_name, conversion_name, division_name, element_name, field_name, goto_name, if_ints_name, if_name, if_null_name, if_references_name, int_arithmetic_name, int_constant_name, int_division_name, int_shift_name, invoke_name, load_constant_name, load_name, long_arithmetic_name, long_division_name, long_shift_name, mnemonic, negate_name, return_name, shift_name, stack_name, store_name};

use jv_code::{
    ArithmeticOperator, Computation, Condition, Conversion, DivisionOperator, ElementType,
    Equality, FieldAccess, IndexForm, Insn, IntForm, Invocation, JumpForm, NumberElement,
    NumberKind, ShiftOperator, StackForm, Test, ValueKind, WordKind,
};

fn load_name(kind: ValueKind) -> &'static str
    ensures { result.now ≡ load_name kind }
{
    match kind {
        ValueKind::Int => "iload",
        ValueKind::Long => "lload",
        ValueKind::Reference => "aload",
    }
}

fn store_name(kind: WordKind) -> &'static str
    ensures { result.now ≡ store_name kind }
{
    match kind {
        WordKind::Int => "istore",
        WordKind::Reference => "astore",
    }
}

fn return_name(kind: ValueKind) -> &'static str
    ensures { result.now ≡ return_name kind }
{
    match kind {
        ValueKind::Int => "ireturn",
        ValueKind::Long => "lreturn",
        ValueKind::Reference => "areturn",
    }
}

fn array_load_name(kind: NumberElement) -> &'static str
    ensures { result.now ≡ array_load_name kind }
{
    match kind {
        NumberElement::Int => "iaload",
        NumberElement::Long => "laload",
        NumberElement::ByteOrBoolean => "baload",
        NumberElement::Char => "caload",
        NumberElement::Short => "saload",
    }
}

fn array_store_name(kind: NumberElement) -> &'static str
    ensures { result.now ≡ array_store_name kind }
{
    match kind {
        NumberElement::Int => "iastore",
        NumberElement::Long => "lastore",
        NumberElement::ByteOrBoolean => "bastore",
        NumberElement::Char => "castore",
        NumberElement::Short => "sastore",
    }
}

fn stack_name(kind: StackForm) -> &'static str
    ensures { result.now ≡ stack_name kind }
{
    match kind {
        StackForm::Pop => "pop",
        StackForm::Pop2 => "pop2",
        StackForm::Dup => "dup",
        StackForm::DupX1 => "dup_x1",
        StackForm::DupX2 => "dup_x2",
        StackForm::Dup2 => "dup2",
        StackForm::Dup2X1 => "dup2_x1",
        StackForm::Dup2X2 => "dup2_x2",
        StackForm::Swap => "swap",
    }
}

fn int_arithmetic_name(kind: ArithmeticOperator) -> &'static str
    ensures { result.now ≡ int_arithmetic_name kind }
{
    match kind {
        ArithmeticOperator::Add => "iadd",
        ArithmeticOperator::Subtract => "isub",
        ArithmeticOperator::Multiply => "imul",
        ArithmeticOperator::And => "iand",
        ArithmeticOperator::Or => "ior",
        ArithmeticOperator::Xor => "ixor",
    }
}

fn long_arithmetic_name(kind: ArithmeticOperator) -> &'static str
    ensures { result.now ≡ long_arithmetic_name kind }
{
    match kind {
        ArithmeticOperator::Add => "ladd",
        ArithmeticOperator::Subtract => "lsub",
        ArithmeticOperator::Multiply => "lmul",
        ArithmeticOperator::And => "land",
        ArithmeticOperator::Or => "lor",
        ArithmeticOperator::Xor => "lxor",
    }
}

fn arithmetic_name(kind: NumberKind, op: ArithmeticOperator) -> &'static str
    ensures { result.now ≡ arithmetic_name kind op }
{
    match kind {
        NumberKind::Int => int_arithmetic_name(op),
        NumberKind::Long => long_arithmetic_name(op),
    }
}

fn negate_name(kind: NumberKind) -> &'static str
    ensures { result.now ≡ negate_name kind }
{
    match kind {
        NumberKind::Int => "ineg",
        NumberKind::Long => "lneg",
    }
}

fn int_shift_name(kind: ShiftOperator) -> &'static str
    ensures { result.now ≡ int_shift_name kind }
{
    match kind {
        ShiftOperator::Left => "ishl",
        ShiftOperator::Right => "ishr",
        ShiftOperator::UnsignedRight => "iushr",
    }
}

fn long_shift_name(kind: ShiftOperator) -> &'static str
    ensures { result.now ≡ long_shift_name kind }
{
    match kind {
        ShiftOperator::Left => "lshl",
        ShiftOperator::Right => "lshr",
        ShiftOperator::UnsignedRight => "lushr",
    }
}

fn shift_name(kind: NumberKind, op: ShiftOperator) -> &'static str
    ensures { result.now ≡ shift_name kind op }
{
    match kind {
        NumberKind::Int => int_shift_name(op),
        NumberKind::Long => long_shift_name(op),
    }
}

fn int_division_name(kind: DivisionOperator) -> &'static str
    ensures { result.now ≡ int_division_name kind }
{
    match kind {
        DivisionOperator::Divide => "idiv",
        DivisionOperator::Remainder => "irem",
    }
}

fn long_division_name(kind: DivisionOperator) -> &'static str
    ensures { result.now ≡ long_division_name kind }
{
    match kind {
        DivisionOperator::Divide => "ldiv",
        DivisionOperator::Remainder => "lrem",
    }
}

fn division_name(kind: NumberKind, op: DivisionOperator) -> &'static str
    ensures { result.now ≡ division_name kind op }
{
    match kind {
        NumberKind::Int => int_division_name(op),
        NumberKind::Long => long_division_name(op),
    }
}

fn conversion_name(kind: Conversion) -> &'static str
    ensures { result.now ≡ conversion_name kind }
{
    match kind {
        Conversion::IntToLong => "i2l",
        Conversion::LongToInt => "l2i",
        Conversion::IntToByte => "i2b",
        Conversion::IntToChar => "i2c",
        Conversion::IntToShort => "i2s",
    }
}

fn int_constant_name(kind: IntForm) -> &'static str
    ensures { result.now ≡ int_constant_name kind }
{
    match kind {
        IntForm::Opcode => "iconst",
        IntForm::Byte => "bipush",
        IntForm::Half => "sipush",
    }
}

fn computation_name(kind: Computation) -> &'static str
    ensures { result.now ≡ computation_name kind }
{
    match kind {
        Computation::IntConstant(_, form) => int_constant_name(form),
        Computation::LongConstant(_) => "lconst",
        Computation::Arithmetic(kind, op) => arithmetic_name(kind, op),
        Computation::Negate(kind) => negate_name(kind),
        Computation::Shift(kind, op) => shift_name(kind, op),
        Computation::Convert(to) => conversion_name(to),
        Computation::CompareLongs => "lcmp",
    }
}

fn if_name(kind: Condition) -> &'static str
    ensures { result.now ≡ if_name kind }
{
    match kind {
        Condition::Equal => "ifeq",
        Condition::NotEqual => "ifne",
        Condition::Less => "iflt",
        Condition::GreaterOrEqual => "ifge",
        Condition::Greater => "ifgt",
        Condition::LessOrEqual => "ifle",
    }
}

fn if_ints_name(kind: Condition) -> &'static str
    ensures { result.now ≡ if_ints_name kind }
{
    match kind {
        Condition::Equal => "if_icmpeq",
        Condition::NotEqual => "if_icmpne",
        Condition::Less => "if_icmplt",
        Condition::GreaterOrEqual => "if_icmpge",
        Condition::Greater => "if_icmpgt",
        Condition::LessOrEqual => "if_icmple",
    }
}

fn if_references_name(kind: Equality) -> &'static str
    ensures { result.now ≡ if_references_name kind }
{
    match kind {
        Equality::Same => "if_acmpeq",
        Equality::Different => "if_acmpne",
    }
}

fn if_null_name(kind: Equality) -> &'static str
    ensures { result.now ≡ if_null_name kind }
{
    match kind {
        Equality::Same => "ifnull",
        Equality::Different => "ifnonnull",
    }
}

fn branch_name(kind: Test) -> &'static str
    ensures { result.now ≡ branch_name kind }
{
    match kind {
        Test::IfInt(to) => if_name(to),
        Test::IfInts(to) => if_ints_name(to),
        Test::IfReferences(to) => if_references_name(to),
        Test::IfNull(to) => if_null_name(to),
    }
}

fn field_name(kind: FieldAccess) -> &'static str
    ensures { result.now ≡ field_name kind }
{
    match kind {
        FieldAccess::GetStatic => "getstatic",
        FieldAccess::PutStatic => "putstatic",
        FieldAccess::GetField => "getfield",
        FieldAccess::PutField => "putfield",
    }
}

fn invoke_name(kind: Invocation) -> &'static str
    ensures { result.now ≡ invoke_name kind }
{
    match kind {
        Invocation::Virtual => "invokevirtual",
        Invocation::Special => "invokespecial",
        Invocation::Static => "invokestatic",
    }
}

fn load_constant_name(kind: IndexForm) -> &'static str
    ensures { result.now ≡ load_constant_name kind }
{
    match kind {
        IndexForm::Byte => "ldc",
        IndexForm::Half => "ldc_w",
    }
}

fn goto_name(kind: JumpForm) -> &'static str
    ensures { result.now ≡ goto_name kind }
{
    match kind {
        JumpForm::Half => "goto",
        JumpForm::Quad => "goto_w",
    }
}

pub(crate) fn element_name(kind: ElementType) -> &'static str
    ensures { result.now ≡ element_name kind }
{
    match kind {
        ElementType::Boolean => "boolean",
        ElementType::Char => "char",
        ElementType::Byte => "byte",
        ElementType::Short => "short",
        ElementType::Int => "int",
        ElementType::Long => "long",
    }
}

/// The mnemonic of an instruction, without the local or the number that some end with.
pub(crate) fn mnemonic(insn: &Insn<&[u8]>) -> &'static str
    ensures { result.now ≡ mnemonic (instruction_of insn.now) }
{
    match *insn {
        Insn::Nop => "nop",
        Insn::NullConstant => "aconst_null",
        Insn::Compute(computation) => computation_name(computation),
        Insn::PoolConstant(_, form) => load_constant_name(form),
        Insn::PoolLongConstant(_) => "ldc2_w",
        Insn::Load(kind, _, _) => load_name(kind),
        Insn::Store(kind, _, _) => store_name(kind),
        Insn::StoreLong(_, _) => "lstore",
        Insn::ArrayLoad(kind) => array_load_name(kind),
        Insn::ReferenceArrayLoad => "aaload",
        Insn::ArrayStore(kind) => array_store_name(kind),
        Insn::ReferenceArrayStore => "aastore",
        Insn::Stack(form) => stack_name(form),
        Insn::Division(kind, op) => division_name(kind, op),
        Insn::Increment(_, _, _) => "iinc",
        Insn::Branch(test, _) => branch_name(test),
        Insn::Goto(_, form) => goto_name(form),
        Insn::TableSwitch(_, _, _, _, _) => "tableswitch",
        Insn::LookupSwitch(_, _, _) => "lookupswitch",
        Insn::ReturnValue(kind) => return_name(kind),
        Insn::Return => "return",
        Insn::Field(access, _) => field_name(access),
        Insn::Invoke(how, _) => invoke_name(how),
        Insn::InvokeInterface(_, _) => "invokeinterface",
        Insn::New(_) => "new",
        Insn::NewArray(_) => "newarray",
        Insn::NewReferenceArray(_) => "anewarray",
        Insn::NewMultiArray(_, _) => "multianewarray",
        Insn::ArrayLength => "arraylength",
        Insn::Throw => "athrow",
        Insn::CheckCast(_) => "checkcast",
        Insn::InstanceOf(_) => "instanceof",
    }
}
