//! The classes that a search for a member meets (JVMS 5.4.3.2).

ghost use Rattle.std.specs.Prelude.{◌≡◌, ◌<◌, length, IfOk, OnOk};
ghost use Rattle.jv_meaning_world.specs.LookUps.{searched_from};
ghost use Rattle.jv_classes.specs.Once.{interface_numbers};
ghost use Rattle.jv_meaning_world.specs.Numbers.{HoldsAtNumber};
ghost use Rattle.jv_meaning_world.specs.Numbers.{AreNumbers};
ghost use Rattle.jv_lookups.specs.Inside.Numbers.{AreNumbersOf};
ghost use Rattle.jv_lookups.specs.Places.{AreSearched};
ghost use Rattle.jv_lookups.specs.Inside.Members.{SearchesOn};

use crate::begun::Begun;
use jv_classes::ClassTable;
use std::alloc::{AllocError, Global};

/// The numbers of the direct superinterfaces of a class, each once and where it is there.
pub fn interfaces_of<'t>(table: &'t ClassTable<'_>, number: usize) -> &'t [Option<usize>]
    requires { number < length table.now }
    ensures { HoldsAtNumber table.now number (λ l. result.now ≡ interface_numbers table.now l.class) }
{
    let supers = table.supers(number);
    if table.classes()[number].super_name().is_some() {
        match supers {
            [_, interfaces @ ..] => interfaces,
            [] => supers,
        }
    } else {
        supers
    }
}

/// Goes on from a class, and at most so many steps deeper: what the search meets joins those that it has
/// begun.
fn go_on(
    table: &ClassTable<'_>,
    deeper: usize,
    number: usize,
    begun: &mut Begun,
) -> Result<(), AllocError>
    requires number { number < length table.now }
    requires begun { AreNumbersOf table.now begun.old }
    ensures found { OnOk result (SearchesOn table.now deeper number begun.old.numbers begun.new.numbers) }
    ensures begun { AreNumbersOf table.now begun.new }
{
    table.is_numbered();
    if begun.has(number) {
        return Ok(());
    }
    begun.add(number)?;
    if deeper == 0 {
        return Ok(());
    }
    let interfaces = interfaces_of(table, number);
    for place in 0..interfaces.len() {
        if let Some(interface) = interfaces[place] {
            go_on(table, deeper - 1, interface, begun)?;
        }
    }
    if let Some(superclass) = table.super_of(number) {
        go_on(table, deeper - 1, superclass, begun)?;
    }
    Ok(())
}

/// The classes that a search for a member meets, by number: the class itself, what its superinterfaces
/// lead to, and what its superclass leads to, each class once (JVMS 5.4.3.2).
///
/// # Errors
///
/// Where the host had no memory for them, as there is none for a class whose number has no room in two bytes.
pub fn searched_from(
    alloc: Global,
    table: &ClassTable<'_>,
    number: usize,
) -> Result<Vec<u16>, AllocError>
    requires { number < length table.now }
    ensures found { IfOk result (λ searched. AreSearched table.now number searched.items) }
    ensures numbers { IfOk result (λ searched. AreNumbers table.now searched.items) }
{
    let mut begun = Begun::new(alloc, table.count())?;
    go_on(table, table.count(), number, &mut begun)?;
    Ok(begun.numbers())
}
