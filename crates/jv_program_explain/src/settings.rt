//! What is asked of an explanation.

/// How verdicts are explained.
#[derive(Clone, Copy)]
pub struct ExplainSettings {
    /// Whether the report is JSON.
    pub json: bool,
    /// Whether the references of an accepted class that don't resolve are told.
    pub links: bool,
    /// Whether the methods of an accepted class are listed, and of a method that breaks a rule the instructions below the one at which
    /// it does, each with the frame before it.
    pub frames: bool,
}
