//! What is wrong with a file of a guest before its methods are looked at.

/// What is wrong with a file of a guest before its methods are looked at, the first of these that applies
/// (own order; JVMS 4.1 to 4.7, 5.3.5, 5.4.4, 5.4.5).
#[derive(Clone, Copy)]
pub enum LoadVerdict {
    /// The bytes begin like a class file of a version other than 50.0, 51.0 and 52.0 (JVMS 4.1).
    Version,
    /// The bytes are no class file (JVMS 4.1 to 4.7).
    Format,
    /// A class file with more than this host's profile has.
    Unsupported,
    /// The class has a name that is the system's.
    Reserved,
    /// The class has the name of an earlier file's class, or of one that stands in front of the guest's own.
    Duplicate,
    /// The class is among its own superclasses and superinterfaces (JVMS 5.3.5).
    Circular,
    /// A direct super is not there, or cannot be loaded (JVMS 5.3.5).
    NoSuper,
    /// The superclass is an interface, or a direct superinterface is none (JVMS 5.3.5).
    WrongKind,
    /// A direct super is not open to the class (JVMS 5.3.5, 5.4.4).
    NoAccess,
    /// The superclass is final, or a method overrides a final one (JVMS 4.10).
    FinalBroken,
}
