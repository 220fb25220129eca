//! Numbers of classes in two bytes.

ghost use Rattle.std.specs.Prelude.{◌≡◌, IfOk};

use std::alloc::AllocError;

/// A number in two bytes. Lists of numbers are kept so, since a guest's classes can have a list each with as many numbers as there
/// are classes; there is no memory for more classes than two bytes can number.
pub fn short_number(number: usize) -> Result<u16, AllocError>
    ensures { IfOk result (λ short. short ≡ number) }
{
    match u16::try_from(number) {
        Ok(short) => Ok(short),
        Err(_) => Err(AllocError),
    }
}
