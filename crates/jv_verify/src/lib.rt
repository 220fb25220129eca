//! The verifier (JVMS 4.10): the code of each method against all rules in their order, the verdict on each class and on each
//! file of a guest.
#![tactic(auto)]

mod check;
mod class;
mod entries;
mod files;
mod frames;
mod known;
mod methods;
mod read;
mod tables;
mod verified;

pub use class::check_class;
pub use frames::{frames_before, tell_frames};
pub use jv_meaning_typing::{Verdict, VerifyFault, VerifyRule};
pub use jv_verify_pass::{
    Difference, FrameSink, FramedInsn, FramesBefore, NamedFrame, NamedType, NamedUnmet,
};
pub use jv_verify_types::{ConstantTypes, CurrentClass};
pub use verified::{Verified, verify, verify_files, verify_files_beside};
