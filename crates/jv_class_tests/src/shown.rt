//! What calls answered, and what was written.

use jv_asm_builder::{AsmFault, CodeBuilder};
use std::alloc::Global;
use std::fmt::Display;

/// Whether something is shown as this text.
pub fn is_shown<T: Display + Drop>(alloc: Global, value: T, want: &str) -> bool {
    match format!(in alloc; "{value}") {
        Ok(text) => text.as_str() == want,
        Err(_) => false,
    }
}

/// Whether code has these bytes.
pub fn has_code(code: &CodeBuilder<'_>, bytes: &[u8]) -> bool {
    match code.code() {
        Ok(written) => written.as_slice() == bytes,
        Err(_) => false,
    }
}

/// Whether all calls went well.
pub fn are_ok(outcomes: &[Result<(), AsmFault>]) -> bool {
    for outcome in outcomes {
        if outcome.is_err() {
            return false;
        }
    }
    true
}
