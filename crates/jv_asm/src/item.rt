//! Instructions as they are spelled (JVMS 6.5).

/// An instruction: the number of its opcode, and its operands as they are spelled.
///
/// A distance is a number of bytes from the instruction's own offset. What an instruction spells
/// is told by its operands alone, so that any opcode may stand before any operands;
/// `specs/Items.antt` says which items are instructions of the profile.
#[derive(Clone, Copy)]
pub enum Item<'a> {
    /// An opcode alone.
    Plain(u8),
    /// One byte: `ldc`, the instructions with a local, `newarray`.
    Byte(u8, u8),
    /// One signed byte: `bipush`.
    SignedByte(u8, i8),
    /// Two bytes, an index: `ldc_w`, `ldc2_w`, those on fields, methods and classes.
    Half(u8, u16),
    /// Two bytes, a signed number or a distance: `sipush`, the branches, `goto`.
    SignedHalf(u8, i16),
    /// Four bytes, a distance: `goto_w`.
    SignedQuad(u8, i32),
    /// `iinc`: a local and what is added to it.
    Iinc(u8, i8),
    /// `wide` before an instruction with a local.
    Wide(u8, u16),
    /// `wide` before `iinc`.
    WideIinc(u16, i16),
    /// `invokeinterface`: an index and a count; a zero byte follows.
    Invokeinterface(u16, u8),
    /// `multianewarray`: an index and a number of dimensions.
    Multianewarray(u16, u8),
    /// `tableswitch`: the default distance, the lowest and the highest number with a distance of
    /// its own, and these distances.
    Tableswitch(i32, i32, i32, &'a [i32]),
    /// `lookupswitch`: the default distance, and the pairs of a key and its distance.
    Lookupswitch(i32, &'a [(i32, i32)]),
}
