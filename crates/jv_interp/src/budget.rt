//! What a guest may use.

/// What a guest may use (own).
#[derive(Clone, Copy)]
pub struct Budget {
    /// How many cells its objects may take.
    pub cells: u32,
    /// How many words its frames may take.
    pub words: u32,
    /// How many bytes it may write.
    pub output: u32,
}
