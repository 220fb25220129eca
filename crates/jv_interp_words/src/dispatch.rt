//! A step by the opcode at hand.

ghost use Rattle.std.specs.Prelude.{◌≡◌, ◌+◌, false, get_or, nat_eq};
ghost use Rattle.jv_interp_words.specs.Opcodes.{works_alone};
ghost use Rattle.jv_interp_words.specs.Stepping.{CanStep, TookStep};

use crate::branch_steps::{step_goto, step_if_int, step_if_ints, step_if_null, step_if_same};
use crate::bytes::opcode_at;
use crate::computing_steps::{
    step_byte_constant, step_compute, step_half_constant, step_nop, step_null,
};
use crate::form_steps::step_form;
use crate::local_steps::{
    step_increment, step_load, step_load_of, step_store, step_store_long, step_store_long_of,
    step_store_of,
};
use crate::opcodes;
use crate::registers::Registers;
use crate::switch_steps::step_table_switch;
use jv_code::{
    ArithmeticOperator, Computation, Condition, Conversion, Equality, IntForm, LongValue,
    NumberKind, ShiftOperator, StackForm, ValueKind, WordKind,
};

/// Takes a step where the opcode at hand is one of 97 whose instructions work on the words of their frame alone, and go on, and answers 0;
/// else nothing is done, and one more than the opcode is the answer. Each of the others has an arm with a number of its own, which is not
/// the opcode itself: so the compiler jumps from here right to what is done with that answer, and tests no range of opcodes.
#[inline(always)]
pub fn step_in_words<'l>(words: &mut [u32], at: &mut Registers<'l>) -> u16
    requires { CanStep at.old words.old }
    ensures took { TookStep (nat_eq result 0) at.old words.old at.new words.new }
    ensures when { nat_eq result 0 ≡ works_alone (get_or at.old.code.now at.old.pc 0) }
    ensures rest { nat_eq result 0 ≡ false → result ≡ get_or at.old.code.now at.old.pc 0 + 1 }
{
    let opcode = opcode_at(at.code, at.pc as usize);
    match opcode {
        opcodes::NOP => {
            step_nop(words, at);
            0
        }
        opcodes::ACONST_NULL => {
            step_null(words, at);
            0
        }
        opcodes::ICONST_M1 => {
            step_compute(words, at, Computation::IntConstant(-1, IntForm::Opcode));
            0
        }
        opcodes::ICONST_0 => {
            step_compute(words, at, Computation::IntConstant(0, IntForm::Opcode));
            0
        }
        opcodes::ICONST_1 => {
            step_compute(words, at, Computation::IntConstant(1, IntForm::Opcode));
            0
        }
        opcodes::ICONST_2 => {
            step_compute(words, at, Computation::IntConstant(2, IntForm::Opcode));
            0
        }
        opcodes::ICONST_3 => {
            step_compute(words, at, Computation::IntConstant(3, IntForm::Opcode));
            0
        }
        opcodes::ICONST_4 => {
            step_compute(words, at, Computation::IntConstant(4, IntForm::Opcode));
            0
        }
        opcodes::ICONST_5 => {
            step_compute(words, at, Computation::IntConstant(5, IntForm::Opcode));
            0
        }
        opcodes::LCONST_0 => {
            step_compute(words, at, Computation::LongConstant(LongValue::Zero));
            0
        }
        opcodes::LCONST_1 => {
            step_compute(words, at, Computation::LongConstant(LongValue::One));
            0
        }
        opcodes::FCONST_0 => opcodes::FCONST_0 as u16 + 1,
        opcodes::FCONST_1 => opcodes::FCONST_1 as u16 + 1,
        opcodes::FCONST_2 => opcodes::FCONST_2 as u16 + 1,
        opcodes::DCONST_0 => opcodes::DCONST_0 as u16 + 1,
        opcodes::DCONST_1 => opcodes::DCONST_1 as u16 + 1,
        opcodes::BIPUSH => {
            step_byte_constant(words, at);
            0
        }
        opcodes::SIPUSH => {
            step_half_constant(words, at);
            0
        }
        opcodes::LDC => opcodes::LDC as u16 + 1,
        opcodes::LDC_W => opcodes::LDC_W as u16 + 1,
        opcodes::LDC2_W => opcodes::LDC2_W as u16 + 1,
        opcodes::ILOAD => {
            step_load(words, at, ValueKind::Int);
            0
        }
        opcodes::LLOAD => {
            step_load(words, at, ValueKind::Long);
            0
        }
        opcodes::FLOAD => opcodes::FLOAD as u16 + 1,
        opcodes::DLOAD => opcodes::DLOAD as u16 + 1,
        opcodes::ALOAD => {
            step_load(words, at, ValueKind::Reference);
            0
        }
        opcodes::ILOAD_0 => {
            step_load_of(words, at, ValueKind::Int, 0);
            0
        }
        opcodes::ILOAD_1 => {
            step_load_of(words, at, ValueKind::Int, 1);
            0
        }
        opcodes::ILOAD_2 => {
            step_load_of(words, at, ValueKind::Int, 2);
            0
        }
        opcodes::ILOAD_3 => {
            step_load_of(words, at, ValueKind::Int, 3);
            0
        }
        opcodes::LLOAD_0 => {
            step_load_of(words, at, ValueKind::Long, 0);
            0
        }
        opcodes::LLOAD_1 => {
            step_load_of(words, at, ValueKind::Long, 1);
            0
        }
        opcodes::LLOAD_2 => {
            step_load_of(words, at, ValueKind::Long, 2);
            0
        }
        opcodes::LLOAD_3 => {
            step_load_of(words, at, ValueKind::Long, 3);
            0
        }
        opcodes::FLOAD_0 => opcodes::FLOAD_0 as u16 + 1,
        opcodes::FLOAD_1 => opcodes::FLOAD_1 as u16 + 1,
        opcodes::FLOAD_2 => opcodes::FLOAD_2 as u16 + 1,
        opcodes::FLOAD_3 => opcodes::FLOAD_3 as u16 + 1,
        opcodes::DLOAD_0 => opcodes::DLOAD_0 as u16 + 1,
        opcodes::DLOAD_1 => opcodes::DLOAD_1 as u16 + 1,
        opcodes::DLOAD_2 => opcodes::DLOAD_2 as u16 + 1,
        opcodes::DLOAD_3 => opcodes::DLOAD_3 as u16 + 1,
        opcodes::ALOAD_0 => {
            step_load_of(words, at, ValueKind::Reference, 0);
            0
        }
        opcodes::ALOAD_1 => {
            step_load_of(words, at, ValueKind::Reference, 1);
            0
        }
        opcodes::ALOAD_2 => {
            step_load_of(words, at, ValueKind::Reference, 2);
            0
        }
        opcodes::ALOAD_3 => {
            step_load_of(words, at, ValueKind::Reference, 3);
            0
        }
        opcodes::IALOAD => opcodes::IALOAD as u16 + 1,
        opcodes::LALOAD => opcodes::LALOAD as u16 + 1,
        opcodes::FALOAD => opcodes::FALOAD as u16 + 1,
        opcodes::DALOAD => opcodes::DALOAD as u16 + 1,
        opcodes::AALOAD => opcodes::AALOAD as u16 + 1,
        opcodes::BALOAD => opcodes::BALOAD as u16 + 1,
        opcodes::CALOAD => opcodes::CALOAD as u16 + 1,
        opcodes::SALOAD => opcodes::SALOAD as u16 + 1,
        opcodes::ISTORE => {
            step_store(words, at, WordKind::Int);
            0
        }
        opcodes::LSTORE => {
            step_store_long(words, at);
            0
        }
        opcodes::FSTORE => opcodes::FSTORE as u16 + 1,
        opcodes::DSTORE => opcodes::DSTORE as u16 + 1,
        opcodes::ASTORE => {
            step_store(words, at, WordKind::Reference);
            0
        }
        opcodes::ISTORE_0 => {
            step_store_of(words, at, WordKind::Int, 0);
            0
        }
        opcodes::ISTORE_1 => {
            step_store_of(words, at, WordKind::Int, 1);
            0
        }
        opcodes::ISTORE_2 => {
            step_store_of(words, at, WordKind::Int, 2);
            0
        }
        opcodes::ISTORE_3 => {
            step_store_of(words, at, WordKind::Int, 3);
            0
        }
        opcodes::LSTORE_0 => {
            step_store_long_of(words, at, 0);
            0
        }
        opcodes::LSTORE_1 => {
            step_store_long_of(words, at, 1);
            0
        }
        opcodes::LSTORE_2 => {
            step_store_long_of(words, at, 2);
            0
        }
        opcodes::LSTORE_3 => {
            step_store_long_of(words, at, 3);
            0
        }
        opcodes::FSTORE_0 => opcodes::FSTORE_0 as u16 + 1,
        opcodes::FSTORE_1 => opcodes::FSTORE_1 as u16 + 1,
        opcodes::FSTORE_2 => opcodes::FSTORE_2 as u16 + 1,
        opcodes::FSTORE_3 => opcodes::FSTORE_3 as u16 + 1,
        opcodes::DSTORE_0 => opcodes::DSTORE_0 as u16 + 1,
        opcodes::DSTORE_1 => opcodes::DSTORE_1 as u16 + 1,
        opcodes::DSTORE_2 => opcodes::DSTORE_2 as u16 + 1,
        opcodes::DSTORE_3 => opcodes::DSTORE_3 as u16 + 1,
        opcodes::ASTORE_0 => {
            step_store_of(words, at, WordKind::Reference, 0);
            0
        }
        opcodes::ASTORE_1 => {
            step_store_of(words, at, WordKind::Reference, 1);
            0
        }
        opcodes::ASTORE_2 => {
            step_store_of(words, at, WordKind::Reference, 2);
            0
        }
        opcodes::ASTORE_3 => {
            step_store_of(words, at, WordKind::Reference, 3);
            0
        }
        opcodes::IASTORE => opcodes::IASTORE as u16 + 1,
        opcodes::LASTORE => opcodes::LASTORE as u16 + 1,
        opcodes::FASTORE => opcodes::FASTORE as u16 + 1,
        opcodes::DASTORE => opcodes::DASTORE as u16 + 1,
        opcodes::AASTORE => opcodes::AASTORE as u16 + 1,
        opcodes::BASTORE => opcodes::BASTORE as u16 + 1,
        opcodes::CASTORE => opcodes::CASTORE as u16 + 1,
        opcodes::SASTORE => opcodes::SASTORE as u16 + 1,
        opcodes::POP => {
            step_form(words, at, StackForm::Pop);
            0
        }
        opcodes::POP2 => {
            step_form(words, at, StackForm::Pop2);
            0
        }
        opcodes::DUP => {
            step_form(words, at, StackForm::Dup);
            0
        }
        opcodes::DUP_X1 => {
            step_form(words, at, StackForm::DupX1);
            0
        }
        opcodes::DUP_X2 => {
            step_form(words, at, StackForm::DupX2);
            0
        }
        opcodes::DUP2 => {
            step_form(words, at, StackForm::Dup2);
            0
        }
        opcodes::DUP2_X1 => {
            step_form(words, at, StackForm::Dup2X1);
            0
        }
        opcodes::DUP2_X2 => {
            step_form(words, at, StackForm::Dup2X2);
            0
        }
        opcodes::SWAP => {
            step_form(words, at, StackForm::Swap);
            0
        }
        opcodes::IADD => {
            step_compute(
                words,
                at,
                Computation::Arithmetic(NumberKind::Int, ArithmeticOperator::Add),
            );
            0
        }
        opcodes::LADD => {
            step_compute(
                words,
                at,
                Computation::Arithmetic(NumberKind::Long, ArithmeticOperator::Add),
            );
            0
        }
        opcodes::FADD => opcodes::FADD as u16 + 1,
        opcodes::DADD => opcodes::DADD as u16 + 1,
        opcodes::ISUB => {
            step_compute(
                words,
                at,
                Computation::Arithmetic(NumberKind::Int, ArithmeticOperator::Subtract),
            );
            0
        }
        opcodes::LSUB => {
            step_compute(
                words,
                at,
                Computation::Arithmetic(NumberKind::Long, ArithmeticOperator::Subtract),
            );
            0
        }
        opcodes::FSUB => opcodes::FSUB as u16 + 1,
        opcodes::DSUB => opcodes::DSUB as u16 + 1,
        opcodes::IMUL => {
            step_compute(
                words,
                at,
                Computation::Arithmetic(NumberKind::Int, ArithmeticOperator::Multiply),
            );
            0
        }
        opcodes::LMUL => {
            step_compute(
                words,
                at,
                Computation::Arithmetic(NumberKind::Long, ArithmeticOperator::Multiply),
            );
            0
        }
        opcodes::FMUL => opcodes::FMUL as u16 + 1,
        opcodes::DMUL => opcodes::DMUL as u16 + 1,
        opcodes::IDIV => opcodes::IDIV as u16 + 1,
        opcodes::LDIV => opcodes::LDIV as u16 + 1,
        opcodes::FDIV => opcodes::FDIV as u16 + 1,
        opcodes::DDIV => opcodes::DDIV as u16 + 1,
        opcodes::IREM => opcodes::IREM as u16 + 1,
        opcodes::LREM => opcodes::LREM as u16 + 1,
        opcodes::FREM => opcodes::FREM as u16 + 1,
        opcodes::DREM => opcodes::DREM as u16 + 1,
        opcodes::INEG => {
            step_compute(words, at, Computation::Negate(NumberKind::Int));
            0
        }
        opcodes::LNEG => {
            step_compute(words, at, Computation::Negate(NumberKind::Long));
            0
        }
        opcodes::FNEG => opcodes::FNEG as u16 + 1,
        opcodes::DNEG => opcodes::DNEG as u16 + 1,
        opcodes::ISHL => {
            step_compute(
                words,
                at,
                Computation::Shift(NumberKind::Int, ShiftOperator::Left),
            );
            0
        }
        opcodes::LSHL => {
            step_compute(
                words,
                at,
                Computation::Shift(NumberKind::Long, ShiftOperator::Left),
            );
            0
        }
        opcodes::ISHR => {
            step_compute(
                words,
                at,
                Computation::Shift(NumberKind::Int, ShiftOperator::Right),
            );
            0
        }
        opcodes::LSHR => {
            step_compute(
                words,
                at,
                Computation::Shift(NumberKind::Long, ShiftOperator::Right),
            );
            0
        }
        opcodes::IUSHR => {
            step_compute(
                words,
                at,
                Computation::Shift(NumberKind::Int, ShiftOperator::UnsignedRight),
            );
            0
        }
        opcodes::LUSHR => {
            step_compute(
                words,
                at,
                Computation::Shift(NumberKind::Long, ShiftOperator::UnsignedRight),
            );
            0
        }
        opcodes::IAND => {
            step_compute(
                words,
                at,
                Computation::Arithmetic(NumberKind::Int, ArithmeticOperator::And),
            );
            0
        }
        opcodes::LAND => {
            step_compute(
                words,
                at,
                Computation::Arithmetic(NumberKind::Long, ArithmeticOperator::And),
            );
            0
        }
        opcodes::IOR => {
            step_compute(
                words,
                at,
                Computation::Arithmetic(NumberKind::Int, ArithmeticOperator::Or),
            );
            0
        }
        opcodes::LOR => {
            step_compute(
                words,
                at,
                Computation::Arithmetic(NumberKind::Long, ArithmeticOperator::Or),
            );
            0
        }
        opcodes::IXOR => {
            step_compute(
                words,
                at,
                Computation::Arithmetic(NumberKind::Int, ArithmeticOperator::Xor),
            );
            0
        }
        opcodes::LXOR => {
            step_compute(
                words,
                at,
                Computation::Arithmetic(NumberKind::Long, ArithmeticOperator::Xor),
            );
            0
        }
        opcodes::IINC => {
            step_increment(words, at);
            0
        }
        opcodes::I2L => {
            step_compute(words, at, Computation::Convert(Conversion::IntToLong));
            0
        }
        opcodes::I2F => opcodes::I2F as u16 + 1,
        opcodes::I2D => opcodes::I2D as u16 + 1,
        opcodes::L2I => {
            step_compute(words, at, Computation::Convert(Conversion::LongToInt));
            0
        }
        opcodes::L2F => opcodes::L2F as u16 + 1,
        opcodes::L2D => opcodes::L2D as u16 + 1,
        opcodes::F2I => opcodes::F2I as u16 + 1,
        opcodes::F2L => opcodes::F2L as u16 + 1,
        opcodes::F2D => opcodes::F2D as u16 + 1,
        opcodes::D2I => opcodes::D2I as u16 + 1,
        opcodes::D2L => opcodes::D2L as u16 + 1,
        opcodes::D2F => opcodes::D2F as u16 + 1,
        opcodes::I2B => {
            step_compute(words, at, Computation::Convert(Conversion::IntToByte));
            0
        }
        opcodes::I2C => {
            step_compute(words, at, Computation::Convert(Conversion::IntToChar));
            0
        }
        opcodes::I2S => {
            step_compute(words, at, Computation::Convert(Conversion::IntToShort));
            0
        }
        opcodes::LCMP => {
            step_compute(words, at, Computation::CompareLongs);
            0
        }
        opcodes::FCMPL => opcodes::FCMPL as u16 + 1,
        opcodes::FCMPG => opcodes::FCMPG as u16 + 1,
        opcodes::DCMPL => opcodes::DCMPL as u16 + 1,
        opcodes::DCMPG => opcodes::DCMPG as u16 + 1,
        opcodes::IFEQ => {
            step_if_int(words, at, Condition::Equal);
            0
        }
        opcodes::IFNE => {
            step_if_int(words, at, Condition::NotEqual);
            0
        }
        opcodes::IFLT => {
            step_if_int(words, at, Condition::Less);
            0
        }
        opcodes::IFGE => {
            step_if_int(words, at, Condition::GreaterOrEqual);
            0
        }
        opcodes::IFGT => {
            step_if_int(words, at, Condition::Greater);
            0
        }
        opcodes::IFLE => {
            step_if_int(words, at, Condition::LessOrEqual);
            0
        }
        opcodes::IF_ICMPEQ => {
            step_if_ints(words, at, Condition::Equal);
            0
        }
        opcodes::IF_ICMPNE => {
            step_if_ints(words, at, Condition::NotEqual);
            0
        }
        opcodes::IF_ICMPLT => {
            step_if_ints(words, at, Condition::Less);
            0
        }
        opcodes::IF_ICMPGE => {
            step_if_ints(words, at, Condition::GreaterOrEqual);
            0
        }
        opcodes::IF_ICMPGT => {
            step_if_ints(words, at, Condition::Greater);
            0
        }
        opcodes::IF_ICMPLE => {
            step_if_ints(words, at, Condition::LessOrEqual);
            0
        }
        opcodes::IF_ACMPEQ => {
            step_if_same(words, at, Equality::Same);
            0
        }
        opcodes::IF_ACMPNE => {
            step_if_same(words, at, Equality::Different);
            0
        }
        opcodes::GOTO => {
            step_goto(words, at);
            0
        }
        opcodes::JSR => opcodes::JSR as u16 + 1,
        opcodes::RET => opcodes::RET as u16 + 1,
        opcodes::TABLESWITCH => {
            step_table_switch(words, at);
            0
        }
        opcodes::LOOKUPSWITCH => opcodes::LOOKUPSWITCH as u16 + 1,
        opcodes::IRETURN => opcodes::IRETURN as u16 + 1,
        opcodes::LRETURN => opcodes::LRETURN as u16 + 1,
        opcodes::FRETURN => opcodes::FRETURN as u16 + 1,
        opcodes::DRETURN => opcodes::DRETURN as u16 + 1,
        opcodes::ARETURN => opcodes::ARETURN as u16 + 1,
        opcodes::RETURN => opcodes::RETURN as u16 + 1,
        opcodes::GETSTATIC => opcodes::GETSTATIC as u16 + 1,
        opcodes::PUTSTATIC => opcodes::PUTSTATIC as u16 + 1,
        opcodes::GETFIELD => opcodes::GETFIELD as u16 + 1,
        opcodes::PUTFIELD => opcodes::PUTFIELD as u16 + 1,
        opcodes::INVOKEVIRTUAL => opcodes::INVOKEVIRTUAL as u16 + 1,
        opcodes::INVOKESPECIAL => opcodes::INVOKESPECIAL as u16 + 1,
        opcodes::INVOKESTATIC => opcodes::INVOKESTATIC as u16 + 1,
        opcodes::INVOKEINTERFACE => opcodes::INVOKEINTERFACE as u16 + 1,
        opcodes::INVOKEDYNAMIC => opcodes::INVOKEDYNAMIC as u16 + 1,
        opcodes::NEW => opcodes::NEW as u16 + 1,
        opcodes::NEWARRAY => opcodes::NEWARRAY as u16 + 1,
        opcodes::ANEWARRAY => opcodes::ANEWARRAY as u16 + 1,
        opcodes::ARRAYLENGTH => opcodes::ARRAYLENGTH as u16 + 1,
        opcodes::ATHROW => opcodes::ATHROW as u16 + 1,
        opcodes::CHECKCAST => opcodes::CHECKCAST as u16 + 1,
        opcodes::INSTANCEOF => opcodes::INSTANCEOF as u16 + 1,
        opcodes::MONITORENTER => opcodes::MONITORENTER as u16 + 1,
        opcodes::MONITOREXIT => opcodes::MONITOREXIT as u16 + 1,
        opcodes::WIDE => opcodes::WIDE as u16 + 1,
        opcodes::MULTIANEWARRAY => opcodes::MULTIANEWARRAY as u16 + 1,
        opcodes::IFNULL => {
            step_if_null(words, at, Equality::Same);
            0
        }
        opcodes::IFNONNULL => {
            step_if_null(words, at, Equality::Different);
            0
        }
        opcodes::GOTO_W => opcodes::GOTO_W as u16 + 1,
        opcodes::JSR_W => opcodes::JSR_W as u16 + 1,
        opcodes::BREAKPOINT => opcodes::BREAKPOINT as u16 + 1,
        203 => 204,
        204 => 205,
        205 => 206,
        206 => 207,
        207 => 208,
        208 => 209,
        209 => 210,
        210 => 211,
        211 => 212,
        212 => 213,
        213 => 214,
        214 => 215,
        215 => 216,
        216 => 217,
        217 => 218,
        218 => 219,
        219 => 220,
        220 => 221,
        221 => 222,
        222 => 223,
        223 => 224,
        224 => 225,
        225 => 226,
        226 => 227,
        227 => 228,
        228 => 229,
        229 => 230,
        230 => 231,
        231 => 232,
        232 => 233,
        233 => 234,
        234 => 235,
        235 => 236,
        236 => 237,
        237 => 238,
        238 => 239,
        239 => 240,
        240 => 241,
        241 => 242,
        242 => 243,
        243 => 244,
        244 => 245,
        245 => 246,
        246 => 247,
        247 => 248,
        248 => 249,
        249 => 250,
        250 => 251,
        251 => 252,
        252 => 253,
        253 => 254,
        opcodes::IMPDEP1 => opcodes::IMPDEP1 as u16 + 1,
        _ => u16::from(opcode) + 1,
    }
}
