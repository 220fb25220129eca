//! What a handler reaches to.

/// The offsets from `start` up to `end`, and the ranks from `low` up to `high`, neither end among them.
#[derive(Clone, Copy)]
pub struct Reach {
    pub start: u16,
    pub end: u16,
    pub low: u16,
    pub high: u16,
}
