//! The room for what is said of a class.

ghost use Rattle.std.specs.Prelude.{◌≡◌, ◌++◌, IfOk, string_bytes};

use std::alloc::AllocError;

// How long a text may be before more is appended, in bytes (own): a class file of 4 MB can name a text of 65,535 bytes in every third byte
// of its code.
const MOST: usize = 16_777_216;

/// Appends to a text, where that is not too long already.
///
/// # Errors
///
/// Where there was no memory, or the text is longer than 16,777,216 bytes.
pub fn append(text: &mut String, more: &str) -> Result<(), AllocError>
    ensures { IfOk result (λ _. string_bytes text.new ≡ string_bytes text.old ++ more.now) }
{
    if text.len() > MOST {
        return Err(AllocError);
    }
    text.push_str(more)
}
