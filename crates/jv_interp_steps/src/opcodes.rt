//! What an opcode says of its instruction (JVMS 6.5).

ghost use Rattle.std.specs.Prelude.{◌≡◌, IfSome};
ghost use Rattle.jv_code.specs.Opcodes.{array_load_opcode, array_store_opcode, return_opcode};

use jv_code::{NumberElement, ValueKind};
use jv_interp_words::opcodes;

/// What numbers `iaload` and its kin load.
#[inline(always)]
pub(crate) fn element_loaded(opcode: u8) -> Option<NumberElement>
    ensures { IfSome result (λ x. array_load_opcode x ≡ opcode) }
{
    match opcode {
        opcodes::IALOAD => Some(NumberElement::Int),
        opcodes::LALOAD => Some(NumberElement::Long),
        opcodes::BALOAD => Some(NumberElement::ByteOrBoolean),
        opcodes::CALOAD => Some(NumberElement::Char),
        opcodes::SALOAD => Some(NumberElement::Short),
        _ => None,
    }
}

/// What numbers `iastore` and its kin store.
#[inline(always)]
pub(crate) fn element_stored(opcode: u8) -> Option<NumberElement>
    ensures { IfSome result (λ x. array_store_opcode x ≡ opcode) }
{
    match opcode {
        opcodes::IASTORE => Some(NumberElement::Int),
        opcodes::LASTORE => Some(NumberElement::Long),
        opcodes::BASTORE => Some(NumberElement::ByteOrBoolean),
        opcodes::CASTORE => Some(NumberElement::Char),
        opcodes::SASTORE => Some(NumberElement::Short),
        _ => None,
    }
}

/// What `ireturn` and its kin return.
#[inline(always)]
pub(crate) fn value_returned(opcode: u8) -> Option<ValueKind>
    ensures { IfSome result (λ x. return_opcode x ≡ opcode) }
{
    match opcode {
        opcodes::IRETURN => Some(ValueKind::Int),
        opcodes::LRETURN => Some(ValueKind::Long),
        opcodes::ARETURN => Some(ValueKind::Reference),
        _ => None,
    }
}
