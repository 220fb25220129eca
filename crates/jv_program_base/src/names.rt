//! The names in a folder's listing.
ghost use Rattle.std.specs.Prelude.{◌≡◌, map, IfOk, IsPermutation, IsSorted, filter};
ghost use Rattle.std.specs.Ordering.{nat_cmp};
ghost use Rattle.std.specs.Cmp.Lexicographic.{slice_cmp};
ghost use Rattle.std.specs.List.{list_any};
ghost use Rattle.std.specs.Str.{bytes_eq};
ghost use Rattle.jv_limits.specs.Bytes.{bytes_of};
ghost use Rattle.jv_program_base.specs.Names.{is_listed_name, is_class_file, listing_parts, names_listed};

use std::alloc::{AllocError, Global};

/// The parts of a listing between its NULs, before the first and behind the last.
fn parts_of(alloc: Global, listing: &[u8]) -> Result<Vec<&[u8]>, AllocError>
    ensures { IfOk result (λ parts. map bytes_of parts.items ≡ listing_parts listing.now) }
{
    listing.split(|byte| *byte == 0).collect(alloc)
}

/// The names in a listing, in which each ends in a NUL.
pub fn names_in(alloc: Global, listing: &[u8]) -> Result<Vec<&[u8]>, AllocError>
    ensures { IfOk result (λ names. map bytes_of names.items ≡ names_listed listing.now) }
{
    let mut names = parts_of(alloc, listing)?;
    let _behind_the_last = names.pop();
    Ok(names)
}

/// Whether a name is that of a class file.
fn is_class_file_name(name: &[u8]) -> bool
    ensures { result ≡ is_class_file name.now }
{
    name.ends_with(b".class")
}

/// The names of class files, in byte order.
pub fn class_file_names<'a>(alloc: Global, names: &[&'a [u8]]) -> Result<Vec<&'a [u8]>, AllocError>
    ensures same { IfOk result (λ found.
        IsPermutation (filter (λ name. is_class_file name.now) names.now) found.items) }
    ensures order { IfOk result (λ found.
        IsSorted (λ a b. slice_cmp nat_cmp a.now b.now) found.items) }
{
    let mut found: Vec<&'a [u8]> = names
        .iter()
        .copied()
        .filter(|name| is_class_file_name(name))
        .collect(alloc)?;
    found.sort()?;
    Ok(found)
}

/// Whether one of the names is this one.
fn any_is(names: &[&[u8]], wanted: &[u8]) -> bool
    ensures { result ≡ list_any (λ name. bytes_eq name.now wanted.now) names.now }
{
    names.iter().any(|name| *name == wanted)
}

/// Whether a name is among the names.
pub fn is_listed_name(names: &[&[u8]], wanted: &[u8]) -> bool
    ensures { result ≡ is_listed_name wanted.now (map bytes_of names.now) }
{
    any_is(names, wanted)
}
