//! What is found of a class file.

use jv_meaning_world::LoadVerdict;

/// The rules by which a method's code is type safe (JVMS 4.10.1), in the order in which they are asked.
#[derive(Clone, Copy)]
pub enum VerifyRule {
    /// The code is a list of instructions, and the arguments fit `max_locals` (JVMS 4.9.1). At offset 0.
    Code,
    /// Each handler covers instructions, begins at one, and catches a Throwable (JVMS 4.7.3, 4.10.1.6). At offset 0.
    HandlerTable,
    /// The StackMapTable has frames, each at an instruction (JVMS 4.7.4). At offset 0.
    MapFrames,
    /// The frame that falls into an instruction flows to the map's; behind a jump there is one (JVMS 4.10.1.6).
    Merge,
    /// The frame with which a handler of the instruction begins flows to the map's there (JVMS 4.10.1.6).
    CoveredHandler,
    /// The instruction can stand behind its frame (JVMS 4.10.1.9).
    Instruction,
    /// What the instruction leaves flows to the map's frame at each of its targets (JVMS 4.10.1.9).
    BranchTarget,
    /// Control does not go on behind the last instruction (JVMS 4.10.1.6). At that one's offset.
    EndOfCode,
}

/// The first rule that the first ill-typed method of a class breaks, and where.
#[derive(Clone, Copy)]
pub struct VerifyFault {
    /// The method's place in the file, the first at 0.
    pub method: u16,
    /// The offset in its code, in bytes.
    pub offset: u32,
    /// The rule.
    pub rule: VerifyRule,
}

/// What is found of a class file.
#[derive(Clone, Copy)]
pub enum Verdict {
    /// It is refused before its methods are looked at.
    Refused(LoadVerdict),
    /// A method is not type safe (JVMS 4.10.1).
    Verify(VerifyFault),
    /// Each method with code is type safe.
    Accepted,
}
