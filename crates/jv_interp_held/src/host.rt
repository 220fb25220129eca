//! host/Io, whose methods are built in (own): `write(int)` appends the low eight bits to what was written, and `read()` gives the next
//! byte that came in and was not read, or -1. The two others ask for objects, and are run where these are made.

ghost use Rattle.std.specs.Prelude.{◌≡◌};
ghost use Rattle.jv_interp_words.specs.Going.{StaysIn};
ghost use Rattle.jv_interp_heap.specs.ObjectsInBlocks.{Blocks};
ghost use Rattle.jv_interp_held.specs.Executing.{IsUnmoved, place};
ghost use Rattle.jv_interp_held.specs.Host.{CanWrite, Writes, CanRead, Reads};

use crate::effect::Effect;
use crate::held::Held;
use jv_interp_words::Registers;

/// The number of host/Io.
pub const HOST_IO: usize = 32;

/// The place of `write` among its methods.
pub const WRITE: usize = 1;

/// The place of `className`.
pub const CLASS_NAME: usize = 2;

/// The place of `arrayLike`.
pub const ARRAY_LIKE: usize = 3;

/// The low eight bits of the int on top are written; where no byte of output is left, the OutOfMemoryError of the start is thrown.
#[inline(always)]
pub fn write<'l>(held: &mut Held, words: &[u32], at: &mut Registers<'l>, next: u32) -> Effect
    requires { CanWrite next at.old words.now held.old }
    ensures writes { Writes next at.old words.now held.old at.new held.new result }
    ensures stays { StaysIn at.old at.new words.now }
    ensures unmoved { (blocks : Blocks) → IsUnmoved result (place at.old words.now held.old blocks)
        (place at.new words.now held.new blocks) }
    ensures same { held.new ≡ record held.old { output = held.new.output; output_left = held.new.output_left } }
{
    if held.output_left == 0 {
        return Effect::Throws {
            address: held.out_of_memory,
        };
    }
    let word = words[at.top - 1];
    held.output.push_reserved((word % 256) as u8);
    held.output_left = held.output_left - 1;
    at.pc = next;
    at.top = at.top - 1;
    Effect::Goes
}

/// The next byte that came in comes to stand on top, or -1 where all were read.
#[inline(always)]
pub fn read<'l>(held: &mut Held, words: &mut [u32], at: &mut Registers<'l>, next: u32) -> Effect
    requires { CanRead next at.old words.old held.old }
    ensures reads { Reads next at.old words.old held.old at.new words.new held.new result }
    ensures stays { StaysIn at.old at.new words.new }
    ensures unmoved { (blocks : Blocks) → IsUnmoved result (place at.old words.old held.old blocks)
        (place at.new words.new held.new blocks) }
    ensures same { held.new ≡ record held.old { read = held.new.read } }
{
    if held.read < held.input.len() {
        let byte = held.input[held.read];
        words[at.top] = byte as u32;
        held.read = held.read + 1;
        at.pc = next;
        at.top = at.top + 1;
        return Effect::Goes;
    }
    words[at.top] = 0xffff_ffff;
    at.pc = next;
    at.top = at.top + 1;
    Effect::Goes
}
