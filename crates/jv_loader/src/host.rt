//! The files of a host's classes, by the tables that say whose they are.

ghost use Rattle.std.specs.Prelude.{◌≡◌, [], IfOk, get_or};
ghost use Rattle.jv_classes.specs.Inside.KeptNames.{texts_of};
ghost use Rattle.jv_loader.specs.Inside.Library.{bytes_of, file_of, files_at, files_from};

use std::alloc::{AllocError, Global};

/// The file at a place; nothing where there is none.
fn file_at(files: &[Vec<u8>], place: usize) -> &[u8]
    ensures { result.now ≡ get_or (bytes_of files.now) place [] }
{
    match files.get(place) {
        Some(file) => file,
        None => b"".as_slice(),
    }
}

/// The file of the system's class at a place, whose lender is known: the library's at that place, or else its own.
fn file_of<'a>(
    own: &'a [Vec<u8>],
    library: &'a [Vec<u8>],
    place: usize,
    lender: Option<usize>,
) -> &'a [u8]
    ensures { result.now ≡ file_of (bytes_of own.now) (bytes_of library.now) place lender }
{
    match lender {
        Some(lender) => file_at(library, lender),
        None => file_at(own, place),
    }
}

/// The files of the system's classes, in their order.
pub(crate) fn lent_files<'a>(
    alloc: Global,
    own: &'a [Vec<u8>],
    library: &'a [Vec<u8>],
    lenders: &[Option<usize>],
) -> Result<Vec<&'a [u8]>, AllocError>
    ensures { IfOk result (λ files. texts_of files.items ≡ files_from (bytes_of own.now) (bytes_of library.now) 0 lenders.now) }
{
    let mut files = Vec::new(alloc);
    for (place, lender) in lenders.iter().enumerate() {
        files.push(file_of(own, library, place, *lender))?;
    }
    Ok(files)
}

/// The files at places.
pub(crate) fn files_at<'a>(
    alloc: Global,
    files: &'a [Vec<u8>],
    places: &[usize],
) -> Result<Vec<&'a [u8]>, AllocError>
    ensures { IfOk result (λ found. texts_of found.items ≡ files_at (bytes_of files.now) places.now) }
{
    let mut found = Vec::new(alloc);
    for place in places {
        found.push(file_at(files, *place))?;
    }
    Ok(found)
}
