//! The limits of a method's frames (JVMS 4.7.3).

/// The words that a frame of a method can have, as its Code attribute says.
#[derive(Clone, Copy)]
pub struct Limits {
    /// Of the local variables, where a long takes two words.
    pub max_locals: u16,
    /// Of the stack, where a long takes two words.
    pub max_stack: u16,
}
