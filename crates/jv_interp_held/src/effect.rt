//! What an instruction does beside what it does to words and memory.

/// The effect of an instruction (JVMS 2.11), which makes frames of it: by numbers.
#[derive(Clone, Copy)]
pub enum Effect {
    /// Control goes on at the offset that the registers tell.
    Goes,
    /// The method with this number is entered: its receiver and its arguments are so many words on top.
    Enters { method: u32, words: u32 },
    /// The method returns; its result is so many words on top.
    Leaves { words: u32 },
    /// The object at an address is thrown.
    Throws { address: u32 },
    /// The machine throws a new exception of the class with this number.
    Raises { class: u32 },
    /// The initialization of the class with this number is begun, and the instruction is executed again afterwards.
    Begins { class: u32 },
}
