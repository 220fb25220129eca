//! The code of methods that run.

ghost use Rattle.std.specs.Prelude.{◌≡◌, Some};
ghost use Rattle.jv_class_structure.specs.Parts.{CodeSeen};
ghost use Rattle.jv_class_structure.specs.Seen.{seen_code};
ghost use Rattle.jv_meaning_world.specs.Overriding.{Declared};
ghost use Rattle.jv_lookups.specs.Places.{method_at};
ghost use Rattle.jv_meaning_machine.specs.State.{Program};
ghost use Rattle.jv_meaning_machine.specs.Costs.{code_words};
ghost use Rattle.jv_interp_control.specs.Inside.Codes.{IsCodeOf, CanFind};

use jv_class::MethodCode;
use jv_interp_members::Methods;
use jv_loader::Place;

/// The code of the method with a number, which can be entered.
#[inline(always)]
pub fn code_of<'a>(methods: &Methods<'a>, number: u32) -> MethodCode<'a>
    requires { CanFind methods.now number }
    ensures { (program : Program) (d : Declared) (code : CodeSeen) → IsCodeOf methods.now number program d code → seen_code result ≡ code }
{
    let Some(body) = methods.method(number).body else {
        unreachable!();
    };
    body.code
}

/// The words that a frame of it is given (own).
#[inline(always)]
pub fn words_of(code: &MethodCode<'_>) -> u32
    ensures { result ≡ code_words (seen_code code.now) }
{
    u32::from(code.max_locals) + u32::from(code.max_stack) + 4
}

/// Its place in the class that declares it.
#[inline(always)]
pub(crate) fn place_of(methods: &Methods<'_>, number: u32) -> Place
    requires { CanFind methods.now number }
    ensures { (program : Program) (d : Declared) (code : CodeSeen)
        → IsCodeOf methods.now number program d code → method_at program.world result ≡ Some d }
{
    methods.method(number).place
}
