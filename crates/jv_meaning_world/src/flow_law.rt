//! Worked rows of what flows to what.

ghost use Rattle.jv_meaning_world.specs.Rows.Flow.{WorkedRows};

/// Worked rows of what flows to what, computed.
pub fn flow_rows()
    ensures { WorkedRows }
{}
