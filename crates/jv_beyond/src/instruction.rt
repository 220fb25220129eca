//! The instruction at the front of bytes, which the profile leaves out, as it is printed (JVMS 6.5).

ghost use Rattle.std.specs.Prelude.{◌≡◌, Some};
ghost use Rattle.jv_beyond.specs.Text.{feature_of_opcode, front_feature, front_text, two_bytes_text};

use crate::feature::Feature;
use crate::mnemonics::mnemonic;
use std::fmt;

/// An opcode and the byte behind it.
#[derive(Clone, Copy)]
struct ShownTwo {
    opcode: u8,
    next: u8,
}

/// The instruction at the front of bytes.
#[derive(Clone, Copy)]
pub(crate) struct ShownFront<'a>(pub(crate) &'a [u8]);

impl fmt::Display for ShownTwo {
    ghost output = { λ two. Some (two_bytes_text two.opcode two.next) };

    fn fmt<W: fmt::Write>(&self, f: &mut fmt::Formatter<W>) -> fmt::Result {
        if self.opcode == 188 {
            let element = if self.next == 6 { "float" } else { "double" };
            write!(f, "newarray {element}")
        } else if self.opcode == 196 {
            let name = mnemonic(self.next);
            write!(f, "{name}_w")
        } else {
            let name = mnemonic(self.opcode);
            write!(f, "{name}")
        }
    }
}

impl fmt::Display for ShownFront<'_> {
    ghost output = { λ front. Some (front_text front.0.now) };

    fn fmt<W: fmt::Write>(&self, f: &mut fmt::Formatter<W>) -> fmt::Result {
        match self.0 {
            [] => Ok(()),
            [opcode] => {
                let name = mnemonic(*opcode);
                write!(f, "{name}")
            }
            [opcode, next, ..] => {
                let two = ShownTwo {
                    opcode: *opcode,
                    next: *next,
                };
                write!(f, "{two}")
            }
        }
    }
}

fn feature_of_opcode(opcode: u8) -> Feature
    ensures { result ≡ feature_of_opcode opcode }
{
    if opcode == 186 {
        Feature::DynamicCalls
    } else if opcode == 194 || opcode == 195 {
        Feature::Monitors
    } else {
        Feature::FloatingPoint
    }
}

/// What the profile leaves out of the instruction at the front of bytes.
pub(crate) fn front_feature(rest: &[u8]) -> Feature
    ensures { result ≡ front_feature rest.now }
{
    match rest {
        [] => Feature::FloatingPoint,
        [opcode, ..] => feature_of_opcode(*opcode),
    }
}
