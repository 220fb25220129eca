//! A type as a stack map has it (JVMS 4.7.4).

/// The `verification_type_info` of 4.7.4, without float (2) and double (3).
#[derive(Clone, Copy)]
pub enum Item {
    /// Tag 0.
    Top,
    /// Tag 1.
    Integer,
    /// Tag 4, one item for the two words.
    Long,
    /// Tag 5.
    Null,
    /// Tag 6.
    UninitializedThis,
    /// Tag 7: the index of a Class constant.
    Object(u16),
    /// Tag 8: the offset of a `new` in the code, in bytes.
    Uninitialized(u16),
}
