//! Each opcode of the profile (JVMS 6.5).

use jv_code::{
    ArithmeticOperator, Code, Computation, Condition, Conversion, DivisionOperator, ElementType,
    Equality, FieldAccess, IncrementForm, IndexForm, Insn, IntForm, Invocation, JumpForm,
    LocalForm, LongValue, NumberElement, NumberKind, ShiftOperator, StackForm, Test, ValueKind,
    WordKind,
};
use std::alloc::Global;

fn letter(kind: NumberKind) -> &'static str {
    match kind {
        NumberKind::Int => "i",
        NumberKind::Long => "l",
    }
}

fn operator_name(operator: ArithmeticOperator) -> &'static str {
    match operator {
        ArithmeticOperator::Add => "add",
        ArithmeticOperator::Subtract => "sub",
        ArithmeticOperator::Multiply => "mul",
        ArithmeticOperator::And => "and",
        ArithmeticOperator::Or => "or",
        ArithmeticOperator::Xor => "xor",
    }
}

fn shift_name(operator: ShiftOperator) -> &'static str {
    match operator {
        ShiftOperator::Left => "shl",
        ShiftOperator::Right => "shr",
        ShiftOperator::UnsignedRight => "ushr",
    }
}

fn conversion_name(conversion: Conversion) -> &'static str {
    match conversion {
        Conversion::IntToLong => "i2l",
        Conversion::LongToInt => "l2i",
        Conversion::IntToByte => "i2b",
        Conversion::IntToChar => "i2c",
        Conversion::IntToShort => "i2s",
    }
}

fn int_name(value: i16, form: IntForm) -> &'static str {
    match (value, form) {
        (-1, IntForm::Opcode) => "iconst_m1",
        (0, IntForm::Opcode) => "iconst_0",
        (1, IntForm::Opcode) => "iconst_1",
        (2, IntForm::Opcode) => "iconst_2",
        (3, IntForm::Opcode) => "iconst_3",
        (4, IntForm::Opcode) => "iconst_4",
        (5, IntForm::Opcode) => "iconst_5",
        (-2, IntForm::Byte) => "bipush",
        (-2, IntForm::Half) => "sipush",
        _ => "",
    }
}

fn computation_name(computation: Computation) -> &'static str {
    match computation {
        Computation::IntConstant(value, form) => int_name(value, form),
        Computation::LongConstant(LongValue::Zero) => "lconst_0",
        Computation::LongConstant(LongValue::One) => "lconst_1",
        Computation::Arithmetic(kind, _)
        | Computation::Negate(kind)
        | Computation::Shift(kind, _) => letter(kind),
        Computation::Convert(conversion) => conversion_name(conversion),
        Computation::CompareLongs => "lcmp",
    }
}

fn computation_end(computation: Computation) -> &'static str {
    match computation {
        Computation::Arithmetic(_, operator) => operator_name(operator),
        Computation::Negate(_) => "neg",
        Computation::Shift(_, operator) => shift_name(operator),
        _ => "",
    }
}

fn condition_name(condition: Condition) -> &'static str {
    match condition {
        Condition::Equal => "eq",
        Condition::NotEqual => "ne",
        Condition::Less => "lt",
        Condition::GreaterOrEqual => "ge",
        Condition::Greater => "gt",
        Condition::LessOrEqual => "le",
    }
}

fn test_name(test: Test) -> &'static str {
    match test {
        Test::IfInt(_) => "if",
        Test::IfInts(_) => "if_icmp",
        Test::IfReferences(_) => "if_acmp",
        Test::IfNull(Equality::Same) => "ifnull",
        Test::IfNull(Equality::Different) => "ifnonnull",
    }
}

fn test_end(test: Test) -> &'static str {
    match test {
        Test::IfInt(condition) | Test::IfInts(condition) => condition_name(condition),
        Test::IfReferences(Equality::Same) => "eq",
        Test::IfReferences(Equality::Different) => "ne",
        Test::IfNull(_) => "",
    }
}

fn stack_name(form: StackForm) -> &'static str {
    match form {
        StackForm::Pop => "pop",
        StackForm::Pop2 => "pop2",
        StackForm::Dup => "dup",
        StackForm::DupX1 => "dup_x1",
        StackForm::DupX2 => "dup_x2",
        StackForm::Dup2 => "dup2",
        StackForm::Dup2X1 => "dup2_x1",
        StackForm::Dup2X2 => "dup2_x2",
        StackForm::Swap => "swap",
    }
}

fn value_letter(kind: ValueKind) -> &'static str {
    match kind {
        ValueKind::Int => "i",
        ValueKind::Long => "l",
        ValueKind::Reference => "a",
    }
}

fn load_name(kind: ValueKind) -> &'static str {
    match kind {
        ValueKind::Int => "iload",
        ValueKind::Long => "lload",
        ValueKind::Reference => "aload",
    }
}

fn store_name(kind: WordKind) -> &'static str {
    match kind {
        WordKind::Int => "istore",
        WordKind::Reference => "astore",
    }
}

/// What follows a load's or a store's name, with a local variable of the table below.
fn local_end(local: u16) -> &'static str {
    match local {
        0 => "_0",
        1 => "_1",
        2 => "_2",
        3 => "_3",
        254 => "",
        _ => "?",
    }
}

fn element_name(element: NumberElement) -> &'static str {
    match element {
        NumberElement::Int => "i",
        NumberElement::Long => "l",
        NumberElement::ByteOrBoolean => "b",
        NumberElement::Char => "c",
        NumberElement::Short => "s",
    }
}

fn use_name(insn: Insn<&[u8]>) -> &'static str {
    match insn {
        Insn::PoolConstant(254, IndexForm::Byte) => "ldc",
        Insn::PoolConstant(258, IndexForm::Half) => "ldc_w",
        Insn::PoolLongConstant(258) => "ldc2_w",
        Insn::Field(FieldAccess::GetStatic, 258) => "getstatic",
        Insn::Field(FieldAccess::PutStatic, 258) => "putstatic",
        Insn::Field(FieldAccess::GetField, 258) => "getfield",
        Insn::Field(FieldAccess::PutField, 258) => "putfield",
        Insn::Invoke(Invocation::Virtual, 258) => "invokevirtual",
        Insn::Invoke(Invocation::Special, 258) => "invokespecial",
        Insn::Invoke(Invocation::Static, 258) => "invokestatic",
        Insn::InvokeInterface(258, 3) => "invokeinterface",
        Insn::New(258) => "new",
        Insn::NewArray(ElementType::Int) => "newarray",
        Insn::NewReferenceArray(258) => "anewarray",
        Insn::NewMultiArray(258, 3) => "multianewarray",
        Insn::CheckCast(258) => "checkcast",
        Insn::InstanceOf(258) => "instanceof",
        _ => "",
    }
}

fn jump_name(insn: Insn<&[u8]>) -> &'static str {
    match insn {
        Insn::Increment(254, -3, IncrementForm::Byte) => "iinc",
        Insn::Increment(258, -2, IncrementForm::Wide) => "wide",
        Insn::Branch(test, -2) => test_name(test),
        Insn::Goto(-2, JumpForm::Half) => "goto",
        Insn::Goto(-2, JumpForm::Quad) => "goto_w",
        Insn::TableSwitch(_, -1, 2, 2, _) => "tableswitch",
        Insn::LookupSwitch(_, -1, _) => "lookupswitch",
        _ => use_name(insn),
    }
}

/// The name of an instruction of the table below, with the operands that stand there: of those that differ in a kind or in a number,
/// what it begins with.
fn name(insn: Insn<&[u8]>) -> &'static str {
    match insn {
        Insn::Nop => "nop",
        Insn::NullConstant => "aconst_null",
        Insn::Compute(computation) => computation_name(computation),
        Insn::Load(kind, _, LocalForm::Opcode | LocalForm::Byte) => load_name(kind),
        Insn::Store(kind, _, LocalForm::Opcode | LocalForm::Byte) => store_name(kind),
        Insn::StoreLong(_, LocalForm::Opcode | LocalForm::Byte) => "lstore",
        Insn::ArrayLoad(element) | Insn::ArrayStore(element) => element_name(element),
        Insn::ReferenceArrayLoad => "aaload",
        Insn::ReferenceArrayStore => "aastore",
        Insn::Stack(form) => stack_name(form),
        Insn::Division(kind, _) => letter(kind),
        Insn::ReturnValue(kind) => value_letter(kind),
        Insn::Return => "return",
        Insn::ArrayLength => "arraylength",
        Insn::Throw => "athrow",
        _ => jump_name(insn),
    }
}

/// What follows the name that `name` gives.
fn name_end(insn: Insn<&[u8]>) -> &'static str {
    match insn {
        Insn::Compute(computation) => computation_end(computation),
        Insn::Load(_, local, _) | Insn::Store(_, local, _) | Insn::StoreLong(local, _) => local_end(
            local,
        ),
        Insn::ArrayLoad(_) => "aload",
        Insn::ArrayStore(_) => "astore",
        Insn::Division(_, DivisionOperator::Divide) => "div",
        Insn::Division(_, DivisionOperator::Remainder) => "rem",
        Insn::ReturnValue(_) => "return",
        Insn::Branch(test, _) => test_end(test),
        _ => "",
    }
}

/// Whether the whole code is the instruction of that name.
fn is_named(bytes: &[u8], wanted: &str) -> bool {
    let Ok(code) = Code::read(bytes) else {
        return false;
    };
    let _ = code.size();
    let (insn, next) = code.insn_at(0);
    next == code.size() && wanted.strip_prefix(name(insn)) == Some(name_end(insn))
}

/// The bytes of an instruction in hexadecimal, and its name.
const ROWS: &str = "\
00 nop
01 aconst_null
02 iconst_m1
03 iconst_0
04 iconst_1
05 iconst_2
06 iconst_3
07 iconst_4
08 iconst_5
09 lconst_0
0a lconst_1
10fe bipush
11fffe sipush
12fe ldc
130102 ldc_w
140102 ldc2_w
15fe iload
16fe lload
19fe aload
1a iload_0
1b iload_1
1c iload_2
1d iload_3
1e lload_0
1f lload_1
20 lload_2
21 lload_3
2a aload_0
2b aload_1
2c aload_2
2d aload_3
2e iaload
2f laload
32 aaload
33 baload
34 caload
35 saload
36fe istore
37fe lstore
3afe astore
3b istore_0
3c istore_1
3d istore_2
3e istore_3
3f lstore_0
40 lstore_1
41 lstore_2
42 lstore_3
4b astore_0
4c astore_1
4d astore_2
4e astore_3
4f iastore
50 lastore
53 aastore
54 bastore
55 castore
56 sastore
57 pop
58 pop2
59 dup
5a dup_x1
5b dup_x2
5c dup2
5d dup2_x1
5e dup2_x2
5f swap
60 iadd
61 ladd
64 isub
65 lsub
68 imul
69 lmul
6c idiv
6d ldiv
70 irem
71 lrem
74 ineg
75 lneg
78 ishl
79 lshl
7a ishr
7b lshr
7c iushr
7d lushr
7e iand
7f land
80 ior
81 lor
82 ixor
83 lxor
84fefd iinc
85 i2l
88 l2i
91 i2b
92 i2c
93 i2s
94 lcmp
99fffe ifeq
9afffe ifne
9bfffe iflt
9cfffe ifge
9dfffe ifgt
9efffe ifle
9ffffe if_icmpeq
a0fffe if_icmpne
a1fffe if_icmplt
a2fffe if_icmpge
a3fffe if_icmpgt
a4fffe if_icmple
a5fffe if_acmpeq
a6fffe if_acmpne
a7fffe goto
aa090807ffffffff000000020000000200000005 tableswitch
ab090807ffffffff00000000 lookupswitch
ac ireturn
ad lreturn
b0 areturn
b1 return
b20102 getstatic
b30102 putstatic
b40102 getfield
b50102 putfield
b60102 invokevirtual
b70102 invokespecial
b80102 invokestatic
b901020300 invokeinterface
bb0102 new
bc0a newarray
bd0102 anewarray
be arraylength
bf athrow
c00102 checkcast
c10102 instanceof
c4840102fffe wide
c5010203 multianewarray
c6fffe ifnull
c7fffe ifnonnull
c8fffffffe goto_w";

/// Whether the bytes of a row are the instruction of that name.
fn is_right(alloc: Global, row: &str) -> bool {
    let Some((text, wanted)) = row.split_once(' ') else {
        return false;
    };
    match hex::decode(alloc, text) {
        Ok(bytes) => is_named(&bytes, wanted),
        Err(_) => false,
    }
}

#[test]
fn each_opcode(rt: HostRuntime) {
    for row in ROWS.lines() {
        assert!(rt; is_right(rt.alloc(), row), "{row}");
    }
}
