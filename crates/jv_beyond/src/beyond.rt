//! The parts of a class file that can be beyond the profile.

/// A part of a class file that is beyond the profile. Fields and methods go by their places in the file, the first at 0.
#[derive(Clone, Copy)]
pub enum Beyond {
    /// The instruction at an offset of the code of a method, behind instructions of the profile (JVMS 6.5).
    Instruction {
        /// The method's place.
        method: usize,
        /// The instruction's offset.
        offset: usize,
    },
    /// The instruction at an offset of the code of a method, which is of the profile and names a constant that is not (JVMS 4.4, 6.5).
    Use {
        /// The method's place.
        method: usize,
        /// The instruction's offset.
        offset: u32,
    },
    /// The type of the field at a place (JVMS 4.5).
    Field(usize),
    /// The flags of the method at a place (JVMS 4.6).
    MethodFlags(usize),
    /// The type of the method at a place (JVMS 4.6).
    MethodType(usize),
    /// The constant at an index (JVMS 4.4).
    Constant(u16),
}
