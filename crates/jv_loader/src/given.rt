//! The classes of a library's files, in a list.

ghost use Rattle.std.specs.Prelude.{◌≡◌, ◌↔◌, ◌++◌, [], ◌∷◌, IfErr, IfNone, IfOk, IfSome, IsSome, IsTrue, None, OnOk};
ghost use Rattle.jv_classes.specs.Inside.KeptNames.{texts_of};
ghost use Rattle.jv_meaning_world.specs.Numbers.{number_named};
ghost use Rattle.jv_loader.specs.LibraryFault.{IsLibraryFault};
ghost use Rattle.jv_loader.specs.Inside.Given.{AreGiven, IsFaultOfClass, IsFaultOfFile, IsGivenBy, IsOwnFault, MayBeGiven, is_of_host, main_of};

use crate::library_fault::LibraryFault;
use crate::reading::read_content;
use jv_classes::{ClassList, LoadedClass};
use jv_meaning_world::Content;
use std::alloc::Global;
use std::hash::RandomState;

/// Whether it is a name in a package of the host's.
fn is_of_host(name: &[u8]) -> bool
    ensures { result ≡ is_of_host name.now }
{
    name.starts_with(b"host/")
}

/// Whether the class has a main method, which is the guest's.
fn has_main(class: &LoadedClass<'_>) -> bool
    ensures { IsTrue result ↔ IsSome (main_of class.now.class) }
{
    class
        .method_named(b"main", b"([Ljava/lang/String;)V")
        .is_some()
}

/// Why a class, which stands at a place, may not be a library's by itself.
fn own_fault(class: &LoadedClass<'_>, place: usize) -> Option<LibraryFault>
    ensures none { IfNone result (MayBeGiven class.now.class) }
    ensures some { IfSome result (IsOwnFault place class.now.class) }
{
    if is_of_host(class.name()) {
        return Some(LibraryFault::Reserved(place));
    }
    if has_main(class) {
        return Some(LibraryFault::Main(place));
    }
    None
}

/// Adds the class of a file of a library, where it may be one's and its name is new.
fn give_class<'a>(
    list: &mut ClassList<'a>,
    class: LoadedClass<'a>,
    place: usize,
) -> Result<(), LibraryFault>
    ensures may { OnOk result (MayBeGiven class.entry.class) }
    ensures is_new { OnOk result (number_named list.old class.entry.class.name ≡ None) }
    ensures joins { OnOk result (list.new ≡ list.old ++ class.entry ∷ []) }
    ensures fault { IfErr result (IsFaultOfClass list.old place class.entry.class) }
{
    if let Some(fault) = own_fault(&class, place) {
        return Err(fault);
    }
    if list.find(class.name()).is_some() {
        return Err(LibraryFault::Duplicate(place));
    }
    list.add(class)?;
    Ok(())
}

/// Reads a file of a library, and adds its class.
fn give_file<'a>(
    alloc: Global,
    state: RandomState,
    list: &mut ClassList<'a>,
    bytes: &'a [u8],
    place: usize,
) -> Result<(), LibraryFault>
    ensures ok { OnOk result (IsGivenBy bytes.now list.old list.new) }
    ensures fault { IfErr result (IsFaultOfFile list.old bytes.now place) }
{
    match read_content(alloc, bytes)? {
        Content::OtherVersion => Err(LibraryFault::Version(place)),
        Content::NoClassFile => Err(LibraryFault::Format(place)),
        Content::MoreThanProfile => Err(LibraryFault::Unsupported(place)),
        Content::Holds(file) => {
            let class = LoadedClass::from_file(alloc, state, false, file)?;
            give_class(list, class, place)
        }
    }
}

/// The classes of a library's files, in their order.
pub(crate) fn given_list<'a>(
    alloc: Global,
    state: RandomState,
    files: &'a [&'a [u8]],
) -> Result<ClassList<'a>, LibraryFault>
    ensures ok { IfOk result (AreGiven (texts_of files.now)) }
    ensures fault { IfErr result (IsLibraryFault (texts_of files.now)) }
{
    let mut list = ClassList::new(alloc, state);
    for (place, file) in files.iter().enumerate() {
        if let Err(fault) = give_file(alloc, state, &mut list, file, place) {
            return Err(fault);
        }
    }
    Ok(list)
}
