//! What a guest brings.

use jv_loader::SystemFiles;

/// What a guest brings: its class files, the name of its main class, and its input; and what it stands on, which many guests may have in
/// common.
#[derive(Clone, Copy)]
pub struct GuestFiles<'a> {
    /// The files of the system's classes, with those of a library or without one.
    pub system: &'a SystemFiles,
    /// The bytes of each class file.
    pub files: &'a [&'a [u8]],
    /// The name of the main class, in internal form (JVMS 4.2.1).
    pub main: &'a [u8],
    /// The bytes that the guest may read.
    pub input: &'a [u8],
}
