//! What a guest holds beside its frames and its objects.

ghost use Rattle.std.specs.Prelude.{◌≡◌, ◌<◌, length, set};

/// The values of static fields, the string literals that were made, two objects of the start, what is left of the budget, and what was
/// read and written.
#[derive(Drop)]
pub struct Held {
    /// The words of all static fields, those of each class behind those of the classes before it.
    pub statics: Vec<u32>,
    /// Of each text that a literal may have, by its number, the address of its object; 0 where it was not made.
    pub literals: Vec<u32>,
    /// The address of the OutOfMemoryError object that was made at the start (own).
    pub out_of_memory: u32,
    /// The address of the array of Strings that was made at the start for main (own).
    pub arguments: u32,
    /// The cells that are left (own).
    pub cells: u32,
    /// How many bytes of output are left (own).
    pub output_left: u32,
    /// What was written.
    pub output: Vec<u8>,
    /// What came in.
    pub input: Vec<u8>,
    /// How many bytes of the input were read.
    pub read: usize,
}

/// The String that was made of the text with a number is what its literals refer to from now on (JVMS 5.1): a guest has a table of its own,
/// and has paid for what stands there, so that so many cells are left to it (own).
#[inline(always)]
pub fn keep_literal(held: &mut Held, number: usize, string: u32, cells: u32)
    requires { number < length held.old.literals.items }
    ensures own { held.new ≡ record held.old { literals = held.new.literals; cells = cells } }
    ensures literals { held.new.literals.items ≡ set held.old.literals.items number string }
{
    held.literals[number] = string;
    held.cells = cells;
}
