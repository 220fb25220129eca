//! Worked rows of the system classes, and of a library.

ghost use Rattle.jv_meaning_world.specs.Rows.Library.{WorkedLibraryRows};
ghost use Rattle.jv_meaning_world.specs.Rows.System.{WorkedRows};

/// Worked rows of the system classes, computed.
pub fn system_rows()
    ensures { WorkedRows }
{}

/// Worked rows of a library, computed.
pub fn library_rows()
    ensures { WorkedLibraryRows }
{}
