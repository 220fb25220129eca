//! A law of the worlds that guests run in.

ghost use Rattle.jv_meaning_machine.specs.Laws.Worlds.{JudgedIsRooted};

/// java/lang/Object is at the top of the world of any files: the types have an order there.
pub fn judged_is_rooted()
    ensures { JudgedIsRooted }
{}
