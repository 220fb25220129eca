//! How bytes are printed: a byte outside 0x20 to 0x7E, and the backslash, as `\xhh`.
ghost use Rattle.std.specs.Prelude.{◌≡◌, ◌≤◌, ◌<◌, Some, take};
ghost use Rattle.jv_program_base.specs.Escape.{escaped_text, escaped_byte, hex_digit, is_plain};

use std::fmt;

/// Bytes as they are printed.
#[derive(Clone, Copy)]
pub struct Escaped<'a>(pub &'a [u8]);

/// A byte as it is printed.
#[derive(Clone, Copy)]
pub struct EscapedByte(pub u8);

/// Whether a byte is printed as it is.
fn is_shown_plain(byte: u8) -> bool
    ensures { result ≡ is_plain byte }
{
    32 <= byte && byte <= 126 && byte != b'\\'
}

/// A digit of base sixteen.
fn hex_digit(digit: u8) -> u8
    requires { digit < 16 }
    ensures { result ≡ hex_digit digit }
{
    if digit < 10 {
        b'0' + digit
    } else {
        b'a' - 10 + digit
    }
}

/// A byte as it is printed: the first of these bytes, and how many of them.
pub fn escape_of(byte: u8) -> ([u8; 4], usize)
    ensures few { result.1 ≤ 4 }
    ensures text { take result.1 result.0 ≡ escaped_byte byte }
{
    if is_shown_plain(byte) {
        ([byte, 0, 0, 0], 1)
    } else {
        ([b'\\', b'x', hex_digit(byte / 16), hex_digit(byte % 16)], 4)
    }
}

impl fmt::Display for EscapedByte {
    ghost output = { λ b. Some (escaped_byte b.0) };

    fn fmt<W: fmt::Write>(&self, f: &mut fmt::Formatter<W>) -> fmt::Result {
        let byte = self.0;
        if is_shown_plain(byte) {
            let shown = char::from(byte);
            write!(f, "{shown}")
        } else {
            write!(f, "\\x{byte:02x}")
        }
    }
}

impl fmt::Display for Escaped<'_> {
    ghost output = { λ bytes. Some (escaped_text bytes.0.now) };

    fn fmt<W: fmt::Write>(&self, f: &mut fmt::Formatter<W>) -> fmt::Result {
        let bytes = self.0;
        for byte in bytes {
            let shown = EscapedByte(*byte);
            write!(f, "{shown}")?;
        }
        Ok(())
    }
}
