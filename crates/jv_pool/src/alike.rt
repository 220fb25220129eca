//! The least index of each text of a table.

ghost use Rattle.std.specs.Prelude.{◌≡◌, ◌+◌, Some, IfOk, IfErr, OnOk};
ghost use Rattle.jv_pool.specs.declared.fault.PoolFault.TheVariants.{OutOfMemory};
ghost use Rattle.jv_pool.specs.Constants.{utf8_at};
ghost use Rattle.jv_pool.specs.Inside.Alike.{IsAlike, IsInOrder, AreFirsts};

use crate::fault::PoolFault;
use crate::table::Table;
use std::alloc::Global;
use std::collections::BTreeMap;

/// The least index of the text at an index, where the map has that of each text below.
fn first_of<'a>(
    table: &Table<'a>,
    firsts: &mut BTreeMap<&'a [u8], u16>,
    index: u16,
) -> Result<u16, PoolFault>
    requires { AreFirsts table.now index firsts.old }
    ensures alike { IfOk result (λ first. IsAlike table.now index (utf8_at table.now index) (Some first)) }
    ensures firsts { OnOk result (AreFirsts table.now (index + 1) firsts.new) }
    ensures err { IfErr result (λ e. e ≡ OutOfMemory) }
{
    let Some(text) = table.utf8(index) else {
        return Ok(index);
    };
    // (few files have a text twice: so it is put there at once, and what it took the place of is put back)
    let Some(first) = firsts.insert(text, index)? else {
        return Ok(index);
    };
    firsts.insert(text, first)?;
    Ok(first)
}

/// The least index of the text at each index, and any number where there is none.
pub fn all_alike(alloc: Global, table: &Table<'_>) -> Result<Vec<u16>, PoolFault>
    ensures ok { IfOk result (λ alike. IsInOrder table.now alike.items) }
    ensures err { IfErr result (λ e. e ≡ OutOfMemory) }
{
    let mut firsts = BTreeMap::new(alloc);
    let mut alike = Vec::with_capacity(alloc, usize::from(table.count()))?;
    for index in 0..table.count() {
        let first = first_of(table, &mut firsts, index)?;
        alike.push(first)?;
    }
    Ok(alike)
}
