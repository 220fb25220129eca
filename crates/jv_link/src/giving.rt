//! The superinterfaces of a class, each behind its own (JVMS 5.5).

ghost use Rattle.std.specs.Prelude.{◌<◌, IfOk, OnOk, length};
ghost use Rattle.jv_meaning_world.specs.Numbers.{AreNumbers};
ghost use Rattle.jv_lookups.specs.Inside.Numbers.{AreNumbersOf};
ghost use Rattle.jv_meaning_typing.specs.InitializationOrder.{enumerated};
ghost use Rattle.jv_link.specs.Inside.Enumerating.{GivesBehind, AreEnumerated};

use jv_loader::ClassTable;
use jv_lookups::{Begun, interfaces_of};
use std::alloc::{AllocError, Global};

/// Gives an interface behind those that were given, its superinterfaces first, and these at most so many
/// steps up. One that was given is not given again.
fn give(
    table: &ClassTable<'_>,
    steps: usize,
    number: usize,
    given: &mut Begun,
) -> Result<(), AllocError>
    requires number { number < length table.now }
    requires given { AreNumbersOf table.now given.old }
    ensures found { OnOk result (GivesBehind table.now steps number given.old.numbers given.new.numbers) }
    ensures given { AreNumbersOf table.now given.new }
{
    table.is_numbered();
    if steps == 0 {
        return Ok(());
    }
    if given.has(number) {
        return Ok(());
    }
    let interfaces = interfaces_of(table, number);
    for place in 0..interfaces.len() {
        if let Some(interface) = interfaces[place] {
            give(table, steps - 1, interface, given)?;
        }
    }
    given.add(number)?;
    Ok(())
}

/// The superinterfaces that a class's own lead to, by number: for each of its own in the order of the
/// file, those above it first, and then it.
pub(crate) fn enumerated(
    alloc: Global,
    table: &ClassTable<'_>,
    class: usize,
) -> Result<Vec<u16>, AllocError>
    requires { class < length table.now }
    ensures found { IfOk result (λ given. AreEnumerated table.now class given.items) }
    ensures numbers { IfOk result (λ given. AreNumbers table.now given.items) }
{
    let mut given = Begun::new(alloc, table.count())?;
    let interfaces = interfaces_of(table, class);
    for place in 0..interfaces.len() {
        if let Some(interface) = interfaces[place] {
            give(table, table.count(), interface, &mut given)?;
        }
    }
    Ok(given.numbers())
}
