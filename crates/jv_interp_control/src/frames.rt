//! The frames of a guest, all of them in records and words.

ghost use Rattle.std.specs.Prelude.{◌≡◌, ◌+◌, ◌-◌, ◌<◌, ◌≤◌, [], ◌∷◌, ◌++◌, length, vec_len, vec_capacity};

use jv_interp_words::FrameRecord;

/// The frames of a guest (JVMS 2.6).
#[derive(Drop)]
pub struct Frames {
    /// The words of all frames, the newest frame's behind the others'; as many as the guest may have.
    pub words: Vec<u32>,
    /// What is kept of each frame beside its words, the newest last.
    pub records: Vec<FrameRecord>,
    /// How many of the words are in use.
    pub top: usize,
    /// How many words are left to the guest (own).
    pub left: u32,
}

/// A frame comes above the others.
#[inline(always)]
pub fn push_record(records: &mut Vec<FrameRecord>, frame: FrameRecord)
    requires { vec_len records.old < vec_capacity records.old }
    ensures items { records.new.items ≡ records.old.items ++ frame ∷ [] }
    ensures capacity { vec_capacity records.new ≡ vec_capacity records.old }
{
    records.push_reserved(frame);
}
