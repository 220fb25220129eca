//! Reads an instruction from the front of bytes (JVMS 6.5).

ghost use Rattle.std.specs.Prelude.{◌≡◌};
ghost use Rattle.jv_format.specs.Format.{Finds, byte, half};
ghost use Rattle.jv_format.specs.Readers.{both};
ghost use Rattle.jv_code.specs.declared.kinds.LocalForm.TheVariants as local;
ghost use Rattle.jv_code.specs.Numbers.{signed8, signed16, signed32};
ghost use Rattle.jv_code.specs.Inside.Reading.{made, indexed, with_local, whole_insn, branch_by, goto_by, far_goto_by, byte_constant, half_constant, pool_byte, increment_by, wide_increment_by, invoke_interface_of, new_array_of, new_multi_array_of, count, element_at, element_type, dimensions, wide_operands, wide_read, operands, insn_read, known_insn_read, Reads};
ghost use Rattle.jv_code.specs.Insns.{instruction_of};

use crate::insn::Insn;
use crate::kinds::{
    Computation, ElementType, IncrementForm, IndexForm, IntForm, JumpForm, LocalForm, Test,
};
use crate::numbers::{signed8_at, signed16_at, signed32_at};
use crate::shapes::{IndexUse, LocalUse, OpcodeShape, WholeInsn, shape_of};
use crate::switches::{known_lookup_switch_at, lookup_switch_at, table_switch_at};
use jv_format::{byte_at, half_at};

#[inline]
fn indexed<'a>(index_use: IndexUse, index: u16) -> Insn<&'a [u8]>
    ensures { instruction_of result ≡ indexed index_use index }
{
    match index_use {
        IndexUse::PoolConstant => Insn::PoolConstant(index, IndexForm::Half),
        IndexUse::PoolLongConstant => Insn::PoolLongConstant(index),
        IndexUse::Field(access) => Insn::Field(access, index),
        IndexUse::Invoke(how) => Insn::Invoke(how, index),
        IndexUse::New => Insn::New(index),
        IndexUse::NewReferenceArray => Insn::NewReferenceArray(index),
        IndexUse::CheckCast => Insn::CheckCast(index),
        IndexUse::InstanceOf => Insn::InstanceOf(index),
    }
}

/// The instruction that is its opcode alone.
#[inline(always)]
fn whole<'a>(insn: WholeInsn) -> Insn<&'a [u8]>
    ensures { instruction_of result ≡ whole_insn insn }
{
    match insn {
        WholeInsn::Nop => Insn::Nop,
        WholeInsn::NullConstant => Insn::NullConstant,
        WholeInsn::Compute(computation) => Insn::Compute(computation),
        WholeInsn::Local(local_use, local) => with_local(local_use, LocalForm::Opcode, local),
        WholeInsn::ArrayLoad(kind) => Insn::ArrayLoad(kind),
        WholeInsn::ReferenceArrayLoad => Insn::ReferenceArrayLoad,
        WholeInsn::ArrayStore(kind) => Insn::ArrayStore(kind),
        WholeInsn::ReferenceArrayStore => Insn::ReferenceArrayStore,
        WholeInsn::Stack(form) => Insn::Stack(form),
        WholeInsn::Division(kind, operator) => Insn::Division(kind, operator),
        WholeInsn::ReturnValue(kind) => Insn::ReturnValue(kind),
        WholeInsn::Return => Insn::Return,
        WholeInsn::ArrayLength => Insn::ArrayLength,
        WholeInsn::Throw => Insn::Throw,
    }
}

#[inline(always)]
fn index_at(index_use: IndexUse, bytes: &[u8]) -> Option<(Insn<&[u8]>, &[u8])>
    ensures { Reads (made half (indexed index_use) bytes.now) result }
{
    let Some((index, rest)) = half_at(bytes) else {
        return None;
    };
    Some((indexed(index_use, index), rest))
}

#[inline(always)]
fn with_local<'a>(local_use: LocalUse, form: LocalForm, local: u16) -> Insn<&'a [u8]>
    ensures { instruction_of result ≡ with_local local_use form local }
{
    match local_use {
        LocalUse::Load(kind) => Insn::Load(kind, local, form),
        LocalUse::Store(kind) => Insn::Store(kind, local, form),
        LocalUse::StoreLong => Insn::StoreLong(local, form),
    }
}

#[inline(always)]
fn local_at(local_use: LocalUse, bytes: &[u8]) -> Option<(Insn<&[u8]>, &[u8])>
    ensures { Reads (made byte (with_local local_use local.Byte) bytes.now) result }
{
    let Some((local, rest)) = byte_at(bytes) else {
        return None;
    };
    let insn = with_local(local_use, LocalForm::Byte, u16::from(local));
    Some((insn, rest))
}

#[inline]
fn wide_local_at(local_use: LocalUse, bytes: &[u8]) -> Option<(Insn<&[u8]>, &[u8])>
    ensures { Reads (made half (with_local local_use local.Wide) bytes.now) result }
{
    let Some((local, rest)) = half_at(bytes) else {
        return None;
    };
    let insn = with_local(local_use, LocalForm::Wide, local);
    Some((insn, rest))
}

#[inline(always)]
fn branch_at(test: Test, bytes: &[u8]) -> Option<(Insn<&[u8]>, &[u8])>
    ensures { Reads (made signed16 (branch_by test) bytes.now) result }
{
    let Some((distance, rest)) = signed16_at(bytes) else {
        return None;
    };
    Some((Insn::Branch(test, distance), rest))
}

#[inline(always)]
fn goto_at(bytes: &[u8]) -> Option<(Insn<&[u8]>, &[u8])>
    ensures { Reads (made signed16 goto_by bytes.now) result }
{
    let Some((distance, rest)) = signed16_at(bytes) else {
        return None;
    };
    Some((Insn::Goto(i32::from(distance), JumpForm::Half), rest))
}

#[inline]
fn far_goto_at(bytes: &[u8]) -> Option<(Insn<&[u8]>, &[u8])>
    ensures { Reads (made signed32 far_goto_by bytes.now) result }
{
    let Some((distance, rest)) = signed32_at(bytes) else {
        return None;
    };
    Some((Insn::Goto(distance, JumpForm::Quad), rest))
}

#[inline]
fn byte_constant_at(bytes: &[u8]) -> Option<(Insn<&[u8]>, &[u8])>
    ensures { Reads (made signed8 byte_constant bytes.now) result }
{
    let Some((value, rest)) = signed8_at(bytes) else {
        return None;
    };
    let computation = Computation::IntConstant(i16::from(value), IntForm::Byte);
    Some((Insn::Compute(computation), rest))
}

#[inline]
fn half_constant_at(bytes: &[u8]) -> Option<(Insn<&[u8]>, &[u8])>
    ensures { Reads (made signed16 half_constant bytes.now) result }
{
    let Some((value, rest)) = signed16_at(bytes) else {
        return None;
    };
    let computation = Computation::IntConstant(value, IntForm::Half);
    Some((Insn::Compute(computation), rest))
}

#[inline]
fn pool_byte_at(bytes: &[u8]) -> Option<(Insn<&[u8]>, &[u8])>
    ensures { Reads (made byte pool_byte bytes.now) result }
{
    let Some((index, rest)) = byte_at(bytes) else {
        return None;
    };
    Some((Insn::PoolConstant(u16::from(index), IndexForm::Byte), rest))
}

#[inline(always)]
fn increment_at(bytes: &[u8]) -> Option<(Insn<&[u8]>, &[u8])>
    ensures { Reads (made (both byte signed8) increment_by bytes.now) result }
{
    let Some((local, rest)) = byte_at(bytes) else {
        return None;
    };
    let Some((value, rest)) = signed8_at(rest) else {
        return None;
    };
    let insn = Insn::Increment(u16::from(local), i16::from(value), IncrementForm::Byte);
    Some((insn, rest))
}

#[inline]
fn wide_increment_at(bytes: &[u8]) -> Option<(Insn<&[u8]>, &[u8])>
    ensures { Reads (made (both half signed16) wide_increment_by bytes.now) result }
{
    let Some((local, rest)) = half_at(bytes) else {
        return None;
    };
    let Some((value, rest)) = signed16_at(rest) else {
        return None;
    };
    Some((Insn::Increment(local, value, IncrementForm::Wide), rest))
}

#[inline]
fn count_at(bytes: &[u8]) -> Option<(u8, &[u8])>
    ensures { Finds count bytes.now (λ x. (x.0, x.1.now)) result }
{
    match bytes {
        [count, 0, rest @ ..] => Some((*count, rest)),
        _ => None,
    }
}

#[inline]
fn invoke_interface_at(bytes: &[u8]) -> Option<(Insn<&[u8]>, &[u8])>
    ensures { Reads (made (both half count) invoke_interface_of bytes.now) result }
{
    let Some((index, rest)) = half_at(bytes) else {
        return None;
    };
    let Some((count, rest)) = count_at(rest) else {
        return None;
    };
    Some((Insn::InvokeInterface(index, count), rest))
}

#[inline]
fn element_of(code: u8) -> Option<ElementType>
    ensures { result ≡ element_at code }
{
    match code {
        4 => Some(ElementType::Boolean),
        5 => Some(ElementType::Char),
        8 => Some(ElementType::Byte),
        9 => Some(ElementType::Short),
        10 => Some(ElementType::Int),
        11 => Some(ElementType::Long),
        _ => None,
    }
}

#[inline]
fn new_array_at(bytes: &[u8]) -> Option<(Insn<&[u8]>, &[u8])>
    ensures { Reads (made element_type new_array_of bytes.now) result }
{
    let Some((code, rest)) = byte_at(bytes) else {
        return None;
    };
    let Some(element) = element_of(code) else {
        return None;
    };
    Some((Insn::NewArray(element), rest))
}

#[inline]
fn dimensions_at(bytes: &[u8]) -> Option<(u8, &[u8])>
    ensures { Finds dimensions bytes.now (λ x. (x.0, x.1.now)) result }
{
    let Some((dimensions, rest)) = byte_at(bytes) else {
        return None;
    };
    if dimensions == 0 {
        return None;
    }
    Some((dimensions, rest))
}

#[inline]
fn new_multi_array_at(bytes: &[u8]) -> Option<(Insn<&[u8]>, &[u8])>
    ensures { Reads (made (both half dimensions) new_multi_array_of bytes.now) result }
{
    let Some((index, rest)) = half_at(bytes) else {
        return None;
    };
    let Some((dimensions, rest)) = dimensions_at(rest) else {
        return None;
    };
    Some((Insn::NewMultiArray(index, dimensions), rest))
}

#[inline]
fn wide_operands(shape: OpcodeShape, bytes: &[u8]) -> Option<(Insn<&[u8]>, &[u8])>
    ensures { Reads (wide_operands bytes.now shape) result }
{
    match shape {
        OpcodeShape::Local(local_use) => wide_local_at(local_use, bytes),
        OpcodeShape::Increment => wide_increment_at(bytes),
        _ => None,
    }
}

#[inline]
fn wide_at(bytes: &[u8]) -> Option<(Insn<&[u8]>, &[u8])>
    ensures { Reads (wide_read bytes.now) result }
{
    let Some((opcode, rest)) = byte_at(bytes) else {
        return None;
    };
    let Some(shape) = shape_of(opcode) else {
        return None;
    };
    wide_operands(shape, rest)
}

#[inline(always)]
fn operands(at: usize, shape: OpcodeShape, bytes: &[u8]) -> Option<(Insn<&[u8]>, &[u8])>
    ensures { Reads (operands at bytes.now shape) result }
{
    match shape {
        OpcodeShape::Whole(insn) => Some((whole(insn), bytes)),
        OpcodeShape::Index(index_use) => index_at(index_use, bytes),
        OpcodeShape::Local(local_use) => local_at(local_use, bytes),
        OpcodeShape::Branch(test) => branch_at(test, bytes),
        OpcodeShape::Goto => goto_at(bytes),
        OpcodeShape::FarGoto => far_goto_at(bytes),
        OpcodeShape::ByteConstant => byte_constant_at(bytes),
        OpcodeShape::HalfConstant => half_constant_at(bytes),
        OpcodeShape::PoolByte => pool_byte_at(bytes),
        OpcodeShape::Increment => increment_at(bytes),
        OpcodeShape::TableSwitch => table_switch_at(at, bytes),
        OpcodeShape::LookupSwitch => lookup_switch_at(at, bytes),
        OpcodeShape::InvokeInterface => invoke_interface_at(bytes),
        OpcodeShape::NewArray => new_array_at(bytes),
        OpcodeShape::NewMultiArray => new_multi_array_at(bytes),
        OpcodeShape::Wide => wide_at(bytes),
    }
}

/// The instruction at the front, which stands at an offset of the code, and what follows it.
#[inline(always)]
pub(crate) fn read_insn(at: usize, bytes: &[u8]) -> Option<(Insn<&[u8]>, &[u8])>
    ensures { Reads (insn_read at bytes.now) result }
{
    let Some((opcode, rest)) = byte_at(bytes) else {
        return None;
    };
    let Some(shape) = shape_of(opcode) else {
        return None;
    };
    operands(at, shape, rest)
}

/// The instruction at the front, where one is known to stand, and what follows it.
#[inline(always)]
pub(crate) fn read_known_insn(at: usize, bytes: &[u8]) -> Option<(Insn<&[u8]>, &[u8])>
    ensures { Reads (known_insn_read at bytes.now) result }
{
    match bytes {
        [] => None,
        [171, rest @ ..] => known_lookup_switch_at(at, rest),
        _ => read_insn(at, bytes),
    }
}
