//! Where the current frame is.

/// The registers of a method that runs (JVMS 2.5.1): they live in a local variable of the loop of steps.
#[derive(Clone, Copy)]
pub struct Registers<'l> {
    /// The bytes of its code.
    pub code: &'l [u8],
    /// The offset there of its instruction.
    pub pc: u32,
    /// How many words stand below its local variables.
    pub base: usize,
    /// How many words are in use, its stack's included.
    pub top: usize,
    /// Where the constants of its class begin among those of all classes.
    pub first: usize,
    /// Its number among the methods of all classes.
    pub method: u32,
}
