//! The laws of constant pools.

ghost use Rattle.jv_pool.specs.Rules.{OnePool};
ghost use Rattle.jv_pool.specs.Named.{HoldsAtIndex, KindsName};

/// Bytes begin with one pool at most (JVMS 4.4).
pub fn one_pool()
    ensures { OnePool }
{}

/// What holds of all constants of a pool holds of the one at an index (JVMS 4.4).
pub fn holds_at_index()
    ensures { HoldsAtIndex }
{}

/// Constants that keep their rules name what their kinds say (JVMS 4.4): a Class constant a class
/// or an array type, a Fieldref a field, and so on; each Utf8 constant is text.
pub fn kinds_name()
    ensures { KindsName }
{}
