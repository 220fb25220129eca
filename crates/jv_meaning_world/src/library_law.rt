//! A law of libraries.

ghost use Rattle.jv_meaning_world.specs.Laws.Library.{NoLibraryIsOne};

/// No files are a library, of no classes.
pub fn no_library_is_one()
    ensures { NoLibraryIsOne }
{}
