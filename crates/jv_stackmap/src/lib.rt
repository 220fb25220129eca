//! Stack map frames (JVMS 4.7.4).
//!
//! [`read_frames`] reads the contents of a StackMapTable attribute, exactly where they have frames
//! within the limits; the definition is `Maps` of `specs/Frames.antt`, by words and names. What it
//! gives, [`MapFrames`], holds no name: an entry is an item of the map, or an initial local entry
//! by its place, and `specs/Entries.antt` says which type that stands for.
//!
//! Each entry that the map has is kept once, as a node on the one below it, and a frame is its two
//! top nodes; so the frames take memory in proportion to the bytes, and each of them is at hand by
//! its place.
//!
//! `specs/Initial.antt` has the frame with which a method begins.
#![tactic(auto)]

mod entries;
mod entry;
mod fault;
mod form;
mod frames;
mod item;
mod law;
mod limits;
mod nodes;
mod reading;
mod table;
mod verification;
mod width;

pub use entries::{Entries, MapFrame};
pub use entry::FrameEntry;
pub use fault::FrameFault;
pub use frames::{MapFrames, no_frames, read_frames};
pub use law::{fills_locals, offsets_rise, one_maps, worked_rows};
pub use limits::Limits;
pub use verification::VerificationTypeOf;
pub use width::Width;
