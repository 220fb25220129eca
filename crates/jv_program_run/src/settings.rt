//! What each guest may use, and how many steps it gets.

use jv_host::Budget;

/// What each guest may use, how many steps it gets, which one is fed, which one's output is wanted as it is, and how they
/// are reported.
#[derive(Clone, Copy)]
pub struct RunSettings {
    /// Its cells, words and bytes of output.
    pub budget: Budget,
    /// The most steps of a turn.
    pub quantum: u32,
    /// The most rounds, in each of which a guest gets one turn.
    pub rounds: u32,
    /// The number of the guest that is fed what is read, the first's being 1.
    pub stdin: Option<u32>,
    /// The number of the guest whose output goes to standard output as it is, the first's being 1.
    pub raw: Option<u32>,
    /// Whether the report is JSON.
    pub json: bool,
    /// Whether a report that isn't JSON has the place of a guest's last throw.
    pub places: bool,
}
