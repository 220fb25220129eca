//! What the constants of a class name (JVMS 4.4.1, 4.4.6).

ghost use Rattle.std.specs.Prelude.{◌≡◌, IfOk};
ghost use Rattle.std.specs.List.{flat_map};
ghost use Rattle.jv_pool.specs.Constants.{at_index};
ghost use Rattle.jv_meaning_library.specs.Closed.{constant_names};
ghost use Rattle.jv_closed.specs.There.{are_there, constant_is_there};

use crate::first::FirstClasses;
use crate::texts::{both, has_described, has_named};
use jv_pool::{Constant, Pool};
use std::alloc::{AllocError, Global};

/// Whether the table has the classes that the constant at an index names, if one is there.
fn has_constant(
    alloc: Global,
    table: &FirstClasses<'_, '_>,
    pool: &Pool<'_>,
    index: u16,
) -> Result<bool, AllocError>
    ensures { IfOk result (λ all. all ≡ constant_is_there table.now pool.now (at_index pool.now index)) }
{
    match pool.constant(index) {
        Some(Constant::Class(name)) => match pool.utf8_index(name) {
            Some(text) => Ok(has_named(table, pool.utf8(text))),
            None => Ok(true),
        },
        Some(Constant::NameAndType(_, descriptor)) => match pool.utf8_index(descriptor) {
            Some(text) => has_described(alloc, table, pool.utf8(text)),
            None => Ok(true),
        },
        _ => Ok(true),
    }
}

/// Whether it has the classes that the constants of a pool name.
pub(crate) fn has_constants(
    alloc: Global,
    table: &FirstClasses<'_, '_>,
    pool: &Pool<'_>,
) -> Result<bool, AllocError>
    ensures { IfOk result (λ all. all ≡ are_there table.now (flat_map (constant_names pool.now) pool.now)) }
{
    let mut all = true;
    for index in 0..pool.count() {
        let is_there = has_constant(alloc, table, pool, index)?;
        all = both(all, is_there);
    }
    Ok(all)
}
