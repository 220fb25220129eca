//! Whose files are whose in a library.

ghost use Rattle.std.specs.Prelude.{◌<◌, IfErr, IfNone, IfOk, IfSome, length};
ghost use Rattle.jv_classes.specs.Inside.KeptNames.{texts_of};
ghost use Rattle.jv_meaning_world.specs.System.Classes.{system_bytes};
ghost use Rattle.jv_loader.specs.LibraryFault.{IsLibraryFault};
ghost use Rattle.jv_loader.specs.Inside.Given.{HasThree};
ghost use Rattle.jv_loader.specs.Inside.Headers.{AllLend, headers_in};
ghost use Rattle.jv_loader.specs.Inside.Tables.{AreTables, IsFaultTogether};
ghost use Rattle.jv_loader.specs.Inside.Library.{IsHost};

use crate::given::given_list;
use crate::header::{Header, headers};
use crate::law::system_holds;
use crate::lending::{fault_of_lenders, front_of, lacking, lenders_of};
use crate::library_fault::LibraryFault;
use jv_classes::ClassList;
use jv_meaning_world::one_content;
use std::alloc::{AllocError, Global};
use std::hash::RandomState;

/// The places of a library's files that lend the system's classes their methods, and of those that stand in front of a guest's.
#[derive(Drop)]
pub(crate) struct Tables {
    pub(crate) lenders: Vec<Option<usize>>,
    pub(crate) front: Vec<usize>,
}

/// Why classes that may be a library's one by one are none together.
fn fault_together(list: &ClassList<'_>, headers: &[Header]) -> Option<LibraryFault>
    ensures lend { IfNone result (AllLend list.now (headers_in headers.now)) }
    ensures three { IfNone result (HasThree list.now) }
    ensures fault { IfSome result (IsFaultTogether list.now (headers_in headers.now)) }
{
    let fault = lacking(list);
    if fault.is_some() {
        return fault;
    }
    fault_of_lenders(list, headers)
}

/// The tables of the classes in a list.
fn tables_in(alloc: Global, list: &ClassList<'_>, headers: &[Header]) -> Result<Tables, AllocError>
    ensures { IfOk result (λ tables. AreTables list.now (headers_in headers.now) tables.lenders.items tables.front.items) }
{
    let lenders = lenders_of(alloc, list, headers)?;
    let front = front_of(alloc, list, headers)?;
    Ok(Tables { lenders, front })
}

/// The tables of a library's files.
pub(crate) fn tables_of(
    alloc: Global,
    state: RandomState,
    files: &[&[u8]],
) -> Result<Tables, LibraryFault>
    requires { 0 < length files.now }
    ensures ok { IfOk result (λ tables. IsHost system_bytes (texts_of files.now) tables.lenders.items tables.front.items) }
    ensures fault { IfErr result (IsLibraryFault (texts_of files.now)) }
{
    one_content();
    system_holds();
    let list = match given_list(alloc, state, files) {
        Ok(list) => list,
        Err(fault) => return Err(fault),
    };
    list.is_numbered();
    let headers = headers(alloc)?;
    if let Some(fault) = fault_together(&list, &headers) {
        return Err(fault);
    }
    Ok(tables_in(alloc, &list, &headers)?)
}
