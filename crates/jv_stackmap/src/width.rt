//! How many words a local entry takes (JVMS 4.10.1.2).

/// The words of an initial local entry.
#[derive(Clone, Copy)]
pub enum Width {
    /// An int or a reference.
    One,
    /// A long.
    Two,
}
