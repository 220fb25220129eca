//! What the program says.

/// A report, and the status that the program ends with.
#[derive(Drop)]
pub struct Outcome {
    /// The report's text.
    pub report: String,
    /// What a guest wrote, where that goes to standard output in the report's place.
    pub raw: Option<Vec<u8>>,
    /// The status.
    pub status: u8,
}
