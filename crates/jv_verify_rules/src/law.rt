//! Laws of the rules.

ghost use Rattle.jv_verify_rules.specs.Laws.{KeepsLocalCount, KeepsLocals, LeavesBelow, WritesThere};

/// An instruction leaves as many local variables as there were. The call does nothing.
pub fn keeps_local_count()
    ensures { KeepsLocalCount }
{}

/// An instruction of which `keeps_locals` is true leaves the local variables and the flag as they were. The call does nothing.
pub fn leaves_locals()
    ensures { KeepsLocals }
{}

/// An instruction leaves the local variables of which `may_write` is false. The call does nothing.
pub fn writes_there()
    ensures { WritesThere }
{}

/// An instruction that constructs no object leaves what is on the stack below what it takes, and puts few items on it. The call does
/// nothing.
pub fn leaves_below()
    ensures { LeavesBelow }
{}
