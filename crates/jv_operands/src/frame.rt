//! Frames, by the names of classes.

use jv_stackmap::VerificationTypeOf;

/// The types of a frame's local variables, the first first, a long as long and top, and of its stack, the top first, where a long is one
/// item (JVMS 4.10.1.4).
#[derive(Clone, Copy)]
pub struct FrameTypes<'f, 'a> {
    pub locals: &'f [VerificationTypeOf<&'a [u8]>],
    pub stack: &'f [VerificationTypeOf<&'a [u8]>],
}
