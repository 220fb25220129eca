//! Run-time packages by number.

ghost use Rattle.std.specs.Prelude.{◌≡◌, ◌<◌, ◌^◌, IfOk, OnOk, length};
ghost use Rattle.jv_classes.specs.Names.{with_name};
ghost use Rattle.jv_lookups.specs.Packages.{AreNumbered};
ghost use Rattle.jv_lookups.specs.Inside.FinalNumbers.{IsFirstAt, number_at};

use jv_classes::{LoadedClass, Names};
use std::alloc::{AllocError, Global};
use std::hash::RandomState;

/// The place of a text, which joins at the end where it isn't there yet.
fn place_of<'a>(names: &mut Names<'a>, text: &'a [u8]) -> Result<usize, AllocError>
    ensures place { IfOk result (IsFirstAt names.new text.now) }
    ensures names { OnOk result (names.new ≡ with_name names.old text.now) }
{
    if let Some(place) = names.place_of(text) {
        return Ok(place);
    }
    let place = names.count();
    names.add(text)?;
    Ok(place)
}

/// Two numbers for each place, one for each loader.
fn number(place: usize, by_system: bool) -> usize
    requires { place < 2 ^ 62 }
    ensures { result ≡ number_at place by_system }
{
    if by_system { 2 * place + 1 } else { 2 * place }
}

/// A number for the run-time package of each class (JVMS 5.3); names of packages are hashed with the
/// state, each once, and a new one twice more.
///
/// # Errors
///
/// Where the host had no memory for the numbers or the names.
pub fn package_numbers(
    alloc: Global,
    state: RandomState,
    classes: &[LoadedClass<'_>],
) -> Result<Vec<usize>, AllocError>
    ensures { IfOk result (λ numbers. AreNumbered classes.now numbers.items) }
{
    let mut names = Names::new(alloc, state);
    let mut numbers = Vec::new(alloc);
    for class in classes {
        let place = place_of(&mut names, class.package())?;
        numbers.push(number(place, class.by_system()))?;
    }
    Ok(numbers)
}
