//! Steps that are counted (JVMS 5.5).

ghost use Rattle.std.specs.Prelude.{◌≡◌, ◌+◌, ◌<◌};

/// How many of so many steps are left behind one after which another frame goes on. That of an instruction which only begins an
/// initialization counts as well: the instruction is executed again in a step of its own.
#[inline(always)]
pub fn steps_behind(left: u64) -> u64
    requires { 0 < left }
    ensures { result + 1 ≡ left }
{
    left - 1
}
