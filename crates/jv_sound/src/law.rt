//! The law.

ghost use Rattle.jv_sound.specs.Law.{NeverFaults, NoLibraryStands, ObjectsAreLoadable, InitializationsAreLoadable};

use jv_code::{next_starts, one_list, stands_in_list};
use jv_text::types_agree;

/// A guest whose files were judged meets no fault on the machine: for every budget, whatever is fed to it, and after every
/// number of steps.
pub fn never_faults()
    ensures { NeverFaults }
{
    types_agree();
    one_list();
    next_starts();
    stands_in_list();
}

/// All objects of such a guest are of classes that can be loaded, after every number of steps.
pub fn objects_are_loadable()
    ensures { ObjectsAreLoadable }
{
    types_agree();
    one_list();
    next_starts();
    stands_in_list();
}

/// Each initialization among its frames is of a class that can be loaded, after every number of steps.
pub fn initializations_are_loadable()
    ensures { InitializationsAreLoadable }
{
    types_agree();
    one_list();
    next_starts();
    stands_in_list();
}

/// Where there is no library, the system's classes stand in the world of any guest.
pub fn no_library_stands()
    ensures { NoLibraryStands }
{}
