//! Instructions of the profile that name a constant which the profile leaves out (JVMS 4.4, 6.5).

ghost use Rattle.std.specs.Prelude.{◌≡◌, ◌<◌, ℕ, IfNone, IfSome};
ghost use Rattle.jv_code.specs.Insns.{instruction_of};
ghost use Rattle.jv_pool.specs.Constants.{at_index};
ghost use Rattle.jv_beyond.specs.Inside.Used.{IsFoundAmong, IsFoundIn, IsFoundBy};
ghost use Rattle.jv_beyond.specs.Uses.{constant_index, constants_at, parts_of_member};

use crate::supported::is_supported_entry;
use jv_code::{Code, Insn, one_at_offset, starts_apart};
use jv_pool::{Constant, Pool};

/// The index that stands in an instruction, where it names a constant.
fn constant_index(insn: Insn<&[u8]>) -> Option<u16>
    ensures { result ≡ constant_index (instruction_of insn.entry) }
{
    match insn {
        Insn::PoolConstant(index, _)
        | Insn::PoolLongConstant(index)
        | Insn::Field(_, index)
        | Insn::Invoke(_, index)
        | Insn::InvokeInterface(index, _)
        | Insn::New(index)
        | Insn::NewReferenceArray(index)
        | Insn::NewMultiArray(index, _)
        | Insn::CheckCast(index)
        | Insn::InstanceOf(index) => Some(index),
        _ => None,
    }
}

/// The indices of the Class and the NameAndType of the field or the method at an index.
fn parts_of_member(pool: &Pool<'_>, index: u16) -> Option<(u16, u16)>
    ensures { result ≡ parts_of_member (at_index pool.now index) }
{
    match pool.constant(index) {
        Some(
            Constant::Fieldref(class, name_and_type)
            | Constant::Methodref(class, name_and_type)
            | Constant::InterfaceMethodref(class, name_and_type),
        ) => Some((class, name_and_type)),
        _ => None,
    }
}

/// The first of the constant at an index and those that it names which the profile leaves out.
fn beyond_at(pool: &Pool<'_>, index: u16) -> Option<u16>
    ensures { IsFoundAmong pool.now (constants_at pool.now index) result }
{
    if !is_supported_entry(pool, index) {
        return Some(index);
    }
    let Some((class, name_and_type)) = parts_of_member(pool, index) else {
        return None;
    };
    if !is_supported_entry(pool, class) {
        return Some(class);
    }
    if !is_supported_entry(pool, name_and_type) {
        return Some(name_and_type);
    }
    None
}

/// The constant that an instruction names and the profile leaves out.
pub(crate) fn beyond_of(pool: &Pool<'_>, insn: Insn<&[u8]>) -> Option<u16>
    ensures { IsFoundBy pool.now (instruction_of insn.entry) result }
{
    match constant_index(insn) {
        Some(index) => beyond_at(pool, index),
        None => None,
    }
}

/// The offset of the first instruction of code that names a constant which the profile leaves out.
pub(crate) fn use_in(pool: &Pool<'_>, code: &Code<'_>) -> Option<u32>
    ensures { IsFoundIn pool.now code.now.bytes.now result }
{
    one_at_offset();
    starts_apart();
    let size = code.size();
    let mut offset = 0;
    while offset < size {
        let (insn, next) = code.insn_at(offset);
        if beyond_of(pool, insn).is_some() {
            return Some(offset);
        }
        offset = next;
    }
    None
}
