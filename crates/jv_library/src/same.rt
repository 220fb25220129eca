//! Whether two libraries are the same.

ghost use Rattle.std.specs.Prelude.{◌≡◌, IsTrue};

use jv_loader::SystemFiles;

/// Whether two libraries have the same files.
pub(crate) fn are_same(one: &SystemFiles, other: &SystemFiles) -> bool
    ensures { IsTrue result → one.now ≡ other.now }
{
    let count = one.library_count();
    if other.library_count() != count {
        return false;
    }
    for file in 0..count {
        if one.library_file(file) != other.library_file(file) {
            return false;
        }
    }
    true
}
