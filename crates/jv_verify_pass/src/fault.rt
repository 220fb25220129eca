//! What is wrong with a method's code.

use jv_meaning_typing::VerifyRule;

/// The first rule that a method's code breaks, and where.
#[derive(Clone, Copy)]
pub struct CodeFault {
    /// The offset of the instruction, in bytes.
    pub offset: u32,
    /// The rule.
    pub rule: VerifyRule,
}
