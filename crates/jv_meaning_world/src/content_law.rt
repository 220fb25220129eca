//! The law of what files hold.

ghost use Rattle.jv_meaning_world.specs.FileContent.{OneContent};

use jv_class::one_structure;

/// A file of a guest holds one thing.
pub fn one_content()
    ensures { OneContent }
{
    one_structure();
}
