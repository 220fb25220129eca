//! What is kept of frames that wait, beside their words.

/// A method that waits: its number among the methods of all classes, the offset of its instruction, and how many words stand below
/// its local variables. Its stack ends where the words of the frame above begin.
#[derive(Clone, Copy)]
pub struct MethodRecord {
    pub method: u32,
    pub pc: u32,
    pub base: u32,
}

/// The initialization of a class (JVMS 5.5), by the class's number, and how many of its tasks are done.
#[derive(Clone, Copy)]
pub struct InitializationRecord {
    pub class: u32,
    pub done: u32,
}

/// A frame that waits.
#[derive(Clone, Copy)]
pub enum FrameRecord {
    Runs(MethodRecord),
    Initializes(InitializationRecord),
}
