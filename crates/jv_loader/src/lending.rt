//! Which classes of a library lend their methods to the system's, and which stand in front of a guest's.

ghost use Rattle.std.specs.Prelude.{◌≡◌, ◌↔◌, Some, IfNone, IfOk, IfSome, IsSome, IsTrue, is_none, map, not, slice_get};
ghost use Rattle.std.specs.List.{list_any};
ghost use Rattle.std.specs.Str.{bytes_eq};
ghost use Rattle.jv_meaning_world.specs.Numbers.{number_named};
ghost use Rattle.jv_loader.specs.Inside.Given.{HasThree, IsLacking};
ghost use Rattle.jv_loader.specs.Inside.Headers.{AllLend, IsBeside, IsFaultIn, IsFaultOfOne, LendsIn, LendsTo, header_in, headers_in, initializer_of, is_above_arrays};
ghost use Rattle.jv_loader.specs.Inside.Tables.{in_front};

use crate::header::{Header, has_header};
use crate::library_fault::LibraryFault;
use jv_classes::{ClassList, LoadedClass};
use std::alloc::{AllocError, Global};

/// Whether the class has a `<clinit>` (JVMS 2.9).
fn has_initializer(class: &LoadedClass<'_>) -> bool
    ensures { IsTrue result ↔ IsSome (initializer_of class.now.class) }
{
    class.method_named(b"<clinit>", b"()V").is_some()
}

/// Whether it is the name of a class that arrays are below (JVMS 4.10.1.2).
fn is_above_arrays(name: &[u8]) -> bool
    ensures { result ≡ is_above_arrays name.now }
{
    name == b"java/lang/Cloneable".as_slice() || name == b"java/io/Serializable".as_slice()
}

/// Why a class, which stands at a place, does not lend its methods to the one with a header.
fn fault_beside(class: &LoadedClass<'_>, header: &Header, place: usize) -> Option<LibraryFault>
    ensures none { IfNone result (LendsTo (header_in header.now) class.now.class) }
    ensures some { IfSome result (IsBeside place (header_in header.now) class.now.class) }
{
    if !has_header(class, header) {
        return Some(LibraryFault::Header(place));
    }
    if has_initializer(class) {
        return Some(LibraryFault::Initializer(place));
    }
    if is_above_arrays(class.name()) && class.method_count() > 0 {
        return Some(LibraryFault::AboveArrays(place));
    }
    None
}

/// The same of the class of the name in a list, where there is one.
fn fault_in(list: &ClassList<'_>, header: &Header) -> Option<LibraryFault>
    ensures none { IfNone result (LendsIn list.now (header_in header.now)) }
    ensures some { IfSome result (IsFaultIn list.now (header_in header.now)) }
{
    match list.find(header.name) {
        Some(place) => fault_beside(&list.classes()[place], header, place),
        None => None,
    }
}

/// The same of each of the headers.
pub(crate) fn fault_of_lenders(list: &ClassList<'_>, headers: &[Header]) -> Option<LibraryFault>
    ensures none { IfNone result (AllLend list.now (headers_in headers.now)) }
    ensures some { IfSome result (IsFaultOfOne list.now (headers_in headers.now)) }
{
    for header in headers {
        let fault = fault_in(list, header);
        if fault.is_some() {
            return fault;
        }
    }
    None
}

/// Which of java/lang/String and its two interfaces that only a library has is missing.
pub(crate) fn lacking(list: &ClassList<'_>) -> Option<LibraryFault>
    ensures none { IfNone result (HasThree list.now) }
    ensures some { IfSome result (IsLacking list.now) }
{
    if list.find(b"java/lang/String").is_none() {
        return Some(LibraryFault::NoString);
    }
    if list.find(b"java/lang/Comparable").is_none() {
        return Some(LibraryFault::NoComparable);
    }
    if list.find(b"java/lang/CharSequence").is_none() {
        return Some(LibraryFault::NoCharSequence);
    }
    None
}

/// The place of the class that has the name of each header, where there is one.
pub(crate) fn lenders_of(
    alloc: Global,
    list: &ClassList<'_>,
    headers: &[Header],
) -> Result<Vec<Option<usize>>, AllocError>
    ensures { IfOk result (λ lenders. lenders.items ≡ map (λ h. number_named list.now h.name) (headers_in headers.now)) }
{
    let mut lenders = Vec::with_capacity(alloc, headers.len())?;
    for header in headers {
        lenders.push(list.find(header.name))?;
    }
    Ok(lenders)
}

/// Whether one of the headers has the name.
fn is_lent(headers: &[Header], name: &[u8]) -> bool
    ensures { result ≡ list_any (λ header. bytes_eq header.name.now name.now) headers.now }
{
    headers.iter().any(|header| header.name == name)
}

/// The places of the classes that have the name of none.
pub(crate) fn front_of(
    alloc: Global,
    list: &ClassList<'_>,
    headers: &[Header],
) -> Result<Vec<usize>, AllocError>
    ensures { IfOk result (λ front. map (slice_get list.now) front.items
        ≡ map Some (in_front (headers_in headers.now) list.now)) }
{
    let mut front = Vec::new(alloc);
    for (place, class) in list.classes().iter().enumerate() {
        if !is_lent(headers, class.name()) {
            front.push(place)?;
        }
    }
    Ok(front)
}
