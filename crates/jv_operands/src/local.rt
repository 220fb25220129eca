//! What an instruction wants of a local variable.

ghost use Rattle.std.specs.Prelude.{◌≡◌};
ghost use Rattle.std.specs.Option.{option_map};
ghost use Rattle.jv_code.specs.Insns.{instruction_of};
ghost use Rattle.jv_operands.specs.Wants.{local_want};
ghost use Rattle.jv_operands.specs.Inside.Locals.{seen_local};

use crate::want::Want;
use crate::wants::of_kind;
use jv_code::Insn;
use jv_stackmap::VerificationTypeOf;

/// What is wanted of the local variable at an index.
#[derive(Clone, Copy)]
pub(crate) struct LocalWant<'a> {
    pub(crate) index: usize,
    pub(crate) want: Want<&'a [u8]>,
}

/// What an instruction wants of a local variable, where it wants anything of one (JVMS 4.10.1.9).
pub(crate) fn local_want<'a>(insn: &Insn<&[u8]>) -> Option<LocalWant<'a>>
    ensures { option_map seen_local result ≡ local_want (instruction_of insn.now) }
{
    match *insn {
        Insn::Load(kind, index, _) => Some(LocalWant {
            index: usize::from(index),
            want: of_kind(kind),
        }),
        Insn::Increment(index, _, _) => Some(LocalWant {
            index: usize::from(index),
            want: Want::Type(VerificationTypeOf::Int),
        }),
        Insn::Store(_, index, _) => Some(LocalWant {
            index: usize::from(index),
            want: Want::Any,
        }),
        Insn::StoreLong(index, _) => Some(LocalWant {
            index: usize::from(index) + 1,
            want: Want::Any,
        }),
        _ => None,
    }
}
