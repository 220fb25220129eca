//! Laws of closed libraries.

ghost use Rattle.jv_meaning_library.specs.Law.{ClosedIsJudgedOnce, ClosedStandsOnce};
ghost use Rattle.jv_meaning_library.specs.Rows.Closed.{WorkedClosedRows};

/// Each class of a closed library, and each of the system's that it lends to, has beside any guest's files the verdicts that it has alone
/// (JVMS 4.10.1).
pub fn closed_is_judged_once()
    ensures { ClosedIsJudgedOnce }
{}

/// A closed library stands beside any guest's files exactly where it stands alone.
pub fn closed_stands_once()
    ensures { ClosedStandsOnce }
{}

/// Worked rows of closed libraries, computed.
pub fn closed_rows()
    ensures { WorkedClosedRows }
{}
