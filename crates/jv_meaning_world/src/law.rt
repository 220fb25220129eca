//! Laws of a guest's classes.

ghost use Rattle.jv_meaning_world.specs.Laws.Above.{AboveByWays, AboveIsTransitive, LoadableByAll};
ghost use Rattle.jv_meaning_world.specs.Rows.Files.{WorkedRows};

/// Worked rows of what is wrong with a guest's files, computed.
pub fn file_rows()
    ensures { WorkedRows }
{}

/// A class is above another exactly where a way of direct supers leads up to it (JVMS 5.3.5).
pub fn above_by_ways()
    ensures { AboveByWays }
{}

/// What is above a class that is above another is above the other.
pub fn above_is_transitive()
    ensures { AboveIsTransitive }
{}

/// A class is loadable exactly where it and all classes above it stand themselves (JVMS 5.3.5).
pub fn loadable_by_all()
    ensures { LoadableByAll }
{}
