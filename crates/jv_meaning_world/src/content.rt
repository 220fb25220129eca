//! What a file holds.

use jv_class::ClassFile;

/// What a file holds, the first of the four that applies; `C` is a class, as it was read
/// in the code, and by its names in definitions.
#[derive(Drop)]
pub enum Content<C> {
    /// Bytes that begin like a class file of a version other than 50.0, 51.0 and 52.0 (JVMS 4.1).
    OtherVersion,
    /// No class file (JVMS 4.1 to 4.7).
    NoClassFile,
    /// A class file with more than this host's profile has, its code included.
    MoreThanProfile,
    /// A class.
    Holds(C),
}

/// What a file holds, with the class as it was read.
pub type FileClass<'a> = Content<ClassFile<'a>>;
