//! What a file of a guest is among the files before it.

ghost use Rattle.std.specs.Prelude.{◌≡◌, false, IfOk, OnOk};
ghost use Rattle.jv_meaning_world.specs.declared.content.Content.TheVariants.{Holds};
ghost use Rattle.jv_meaning_world.specs.World.{is_reserved};
ghost use Rattle.jv_classes.specs.Inside.KeptNames.{texts_of};
ghost use Rattle.jv_loader.specs.Inside.Files.{with_file, entry_of, ArePut, IsPut};

use crate::out_of_memory::OutOfMemory;
use crate::reading::read_content;
use jv_classes::{ClassList, LoadedClass};
use jv_meaning_world::{Content, LoadVerdict};
use std::alloc::{AllocError, Global};
use std::hash::RandomState;

/// The number of the class of a file, or what is wrong with it by itself and beside those before it.
pub(crate) type Entry = Result<usize, LoadVerdict>;

/// Whether no file of a guest may take the name.
fn is_reserved(name: &[u8]) -> bool
    ensures { result ≡ is_reserved name.now }
{
    name.starts_with(b"java/") || name.starts_with(b"host/")
}

/// Adds the class of a guest's file, where its name is neither reserved nor taken.
fn put_class<'a>(list: &mut ClassList<'a>, class: LoadedClass<'a>) -> Result<Entry, AllocError>
    requires { class.by_system ≡ false }
    ensures world { OnOk result (list.new ≡ with_file list.old (Holds class.entry.class)) }
    ensures entry { IfOk result (λ entry. entry ≡ entry_of list.old (Holds class.entry.class)) }
{
    if is_reserved(class.name()) {
        return Ok(Err(LoadVerdict::Reserved));
    }
    if list.find(class.name()).is_some() {
        return Ok(Err(LoadVerdict::Duplicate));
    }
    let number = list.count();
    list.add(class)?;
    Ok(Ok(number))
}

/// Reads a file of a guest, and adds its class where it has one.
fn put_file<'a>(
    alloc: Global,
    state: RandomState,
    list: &mut ClassList<'a>,
    bytes: &'a [u8],
) -> Result<Entry, OutOfMemory>
    ensures { IfOk result (IsPut bytes.now list.old list.new) }
{
    match read_content(alloc, bytes)? {
        Content::OtherVersion => Ok(Err(LoadVerdict::Version)),
        Content::NoClassFile => Ok(Err(LoadVerdict::Format)),
        Content::MoreThanProfile => Ok(Err(LoadVerdict::Unsupported)),
        Content::Holds(file) => {
            let class = LoadedClass::from_file(alloc, state, false, file)?;
            Ok(put_class(list, class)?)
        }
    }
}

/// Reads the files of a guest, and adds the classes that they have.
pub(crate) fn put_files<'a>(
    alloc: Global,
    state: RandomState,
    list: &mut ClassList<'a>,
    files: &'a [&'a [u8]],
) -> Result<Vec<Entry>, OutOfMemory>
    ensures { IfOk result (λ entries. ArePut (texts_of files.now) list.old list.new entries.items) }
{
    let mut entries = Vec::new(alloc);
    for file in files {
        entries.push(put_file(alloc, state, list, file)?)?;
    }
    Ok(entries)
}
