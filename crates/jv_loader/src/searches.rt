//! The classes that a search for a member meets, class by class.

ghost use Rattle.std.specs.Prelude.{IfOk};
ghost use Rattle.jv_loader.specs.Inside.Searches.{AreSearches, lists_of};

use jv_classes::ClassTable;
use jv_lookups::searched_from;
use std::alloc::{AllocError, Global};

/// The classes that a search for a member from each class meets, in its order (JVMS 5.4.3.2), by numbers of two bytes.
pub(crate) fn searches_of(
    alloc: Global,
    table: &ClassTable<'_>,
) -> Result<Vec<Vec<u16>>, AllocError>
    ensures { IfOk result (λ searches. AreSearches table.now (lists_of searches.items)) }
{
    let mut searches = Vec::new(alloc);
    for number in 0..table.count() {
        searches.push(searched_from(alloc, table, number)?)?;
    }
    Ok(searches)
}
