//! Instructions that write no local variable.

ghost use Rattle.std.specs.Prelude.{◌≡◌};
ghost use Rattle.jv_code.specs.Insns.{instruction_of};
ghost use Rattle.jv_verify_rules.specs.Laws.{keeps_locals};

use jv_code::{Insn, Invocation};

/// Whether an instruction stores into no local variable, makes no object and calls no `<init>`, which both replace types
/// (JVMS 4.10.1.4): the local variables and the flag stay as they are.
pub fn keeps_locals(insn: &Insn<&[u8]>) -> bool
    ensures { result ≡ keeps_locals (instruction_of insn.now) }
{
    match insn {
        Insn::Store(..)
        | Insn::StoreLong(..)
        | Insn::New(_)
        | Insn::Invoke(Invocation::Special, _) => false,
        _ => true,
    }
}
