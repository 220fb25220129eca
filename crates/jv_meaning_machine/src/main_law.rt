//! Laws of the main method.

ghost use Rattle.jv_meaning_machine.specs.Laws.Mains.{MainIsItsOwn, NoMainWithoutFiles};

/// A guest without files and without a library has no main method, whatever its main class is called.
pub fn no_main_without_files()
    ensures { NoMainWithoutFiles }
{}

/// A main method is one of the guest's own classes, whatever its files and its host's library are.
pub fn main_is_its_own()
    ensures { MainIsItsOwn }
{}
