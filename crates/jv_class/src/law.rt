//! The law of class files.

ghost use Rattle.jv_class.specs.Class.{IsSomeClass, OneOfEachName};
ghost use Rattle.jv_class.specs.ClassFile.{OneStructure};

use jv_class_structure::one_behind_version;

/// The bytes of a file have one structure at most, and none where they begin with a version that is
/// not supported.
pub fn one_structure()
    ensures { OneStructure }
{
    one_behind_version();
}

/// A well-formed structure is a class with names (JVMS 4.1).
pub fn is_some_class()
    ensures { IsSomeClass }
{}

/// A class has one field and one method of a name and a descriptor at most (JVMS 4.5, 4.6).
pub fn one_of_each_name()
    ensures { OneOfEachName }
{}
