//! Laws of feeds: what came at which of a guest's own steps decides what it does.

ghost use Rattle.jv_meaning_machine.specs.Laws.Feeds.{FeedJoins, FeedShowsLater, SameBytesDoTheSame, SameBytesFaultTheSame, SameBytesShowTheSame};

/// The same bytes at the same own steps lead to the same state; what comes later makes no difference.
pub fn same_bytes_do_the_same()
    ensures { SameBytesDoTheSame }
{}

/// A feed that comes now joins behind the input that waits, and changes nothing else.
pub fn feed_joins()
    ensures { FeedJoins }
{}

/// What is shown after some steps is decided by what came before the last of them was taken.
pub fn same_bytes_show_the_same()
    ensures { SameBytesShowTheSame }
{}

/// So are faults.
pub fn same_bytes_fault_the_same()
    ensures { SameBytesFaultTheSame }
{}

/// A feed changes nothing of what is shown at its own step, or earlier.
pub fn feed_shows_later()
    ensures { FeedShowsLater }
{}
