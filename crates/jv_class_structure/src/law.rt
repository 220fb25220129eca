//! The law of the parts.

ghost use Rattle.jv_class_structure.specs.Parts.{OneBehindVersion};

use jv_pool::one_pool;

/// Bytes behind a version are one class structure's of that version at most (JVMS 4.1).
pub fn one_behind_version()
    ensures { OneBehindVersion }
{
    one_pool();
}
