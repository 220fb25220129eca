//! The files of the classes that a host gives.

ghost use Rattle.std.specs.Prelude.{◌≡◌, ◌<◌, ◌++◌, [], ◌∷◌, None, Some, IfErr, IfOk, OnOk, length, map, replicate, slice_get};
ghost use Rattle.jv_class_structure.specs.Structure.{class_bytes};
ghost use Rattle.jv_meaning_world.specs.FileContent.{AreContents};
ghost use Rattle.jv_meaning_world.specs.System.Interfaces.{cloneable_file, serializable_file};
ghost use Rattle.jv_meaning_world.specs.System.Object.{object_file};
ghost use Rattle.jv_meaning_world.specs.System.String.{string_file};
ghost use Rattle.jv_meaning_world.specs.System.Throwable.{throwable_file};
ghost use Rattle.jv_meaning_world.specs.System.Classes.{system_bytes, system_contents};
ghost use Rattle.jv_classes.specs.Inside.KeptNames.{texts_of};
ghost use Rattle.jv_loader.specs.LibraryFault.{IsLibraryFault, IsRefused, IsSomeLibrary};
ghost use Rattle.jv_loader.specs.Inside.Library.{IsHost, IsHostList, bytes_of};

use crate::host::{files_at, lent_files};
use crate::interface::{cloneable_file, serializable_file};
use crate::law::{faults_refuse, system_holds};
use crate::library::{Tables, tables_of};
use crate::library_fault::LibraryFault;
use crate::object::object_file;
use crate::out_of_memory::OutOfMemory;
use crate::string::string_file;
use crate::system::host_list;
use crate::throwable::throwable_file;
use crate::throwables::put_throwable_files;
use jv_classes::ClassList;
use std::alloc::{AllocError, Global};
use std::hash::RandomState;
use std::marker::Model;

// How many of the system's classes have files.
const SYSTEM_FILES: usize = 32;

/// The files of the classes that a host gives: those of the system's, host/Io aside, which has none, in the order of
/// `system_classes`, and those of a library; with the places of the library's files that lend the system's classes their methods,
/// and of those that stand in front of a guest's. In contracts it is the list of the library's files.
#[derive(Drop)]
pub struct SystemFiles {
    own: Vec<Vec<u8>>,
    library: Vec<Vec<u8>>,
    lenders: Vec<Option<usize>>,
    front: Vec<usize>,
}

impl Model for SystemFiles {
    ghost use Rattle.std.specs.Prelude.{ℕ, List};
    ghost use Rattle.jv_loader.specs.Inside.Library.{IsHost, bytes_of};

    ghost Value = { List (List ℕ) };

    ghost view = { λ s. bytes_of s.library.items };

    ghost invariant = { λ s. IsHost (bytes_of s.own.items) (bytes_of s.library.items) s.lenders.items s.front.items };
}

impl SystemFiles {
    /// How many files of the system's own there are: 32.
    pub fn count(&self) -> usize
        ensures { result ≡ length system_bytes }
    {
        self.own.len()
    }

    /// The file of the system's own at a place, the first at 0.
    pub fn file(&self, place: usize) -> &[u8]
        requires { place < length system_bytes }
        ensures { slice_get system_bytes place ≡ Some result.now }
    {
        &self.own[place]
    }

    /// How many files the library has.
    pub fn library_count(&self) -> usize
        ensures { result ≡ length self.now }
    {
        self.library.len()
    }

    /// The file of the library at a place, the first at 0.
    pub fn library_file(&self, place: usize) -> &[u8]
        requires { place < length self.now }
        ensures { slice_get self.now place ≡ Some result.now }
    {
        &self.library[place]
    }

    /// The library's files are one. The call does nothing.
    pub fn is_library(&self)
        ensures { IsSomeLibrary self.now }
    {
        // Reads a field, so that the invariant is known.
        let _library = &self.library;
    }

    /// These are the files of the system classes, and each holds the class at its place.
    pub fn hold_system_classes(&self)
        ensures { AreContents system_bytes system_contents }
    {
        // Reads a field, so that the invariant is known.
        let _own = &self.own;
        system_holds();
    }

    /// The classes that a host with these files gives, in their order.
    pub(crate) fn list<'a>(
        &'a self,
        alloc: Global,
        state: RandomState,
    ) -> Result<ClassList<'a>, OutOfMemory>
        ensures { IfOk result (IsHostList self.now) }
    {
        let lent = lent_files(alloc, &self.own, &self.library, &self.lenders)?;
        let front = files_at(alloc, &self.library, &self.front)?;
        host_list(alloc, state, &lent, &front)
    }
}

/// The files of the interfaces, of java/lang/Object, java/lang/String and java/lang/Throwable.
fn first_files(alloc: Global) -> Result<Vec<Vec<u8>>, OutOfMemory>
    ensures { IfOk result (λ files. map (λ file. file.items) files.items
        ≡ class_bytes cloneable_file ∷ class_bytes serializable_file ∷ class_bytes object_file
        ∷ class_bytes string_file ∷ class_bytes throwable_file ∷ []) }
{
    let mut files = Vec::new(alloc);
    files.push(cloneable_file(alloc)?)?;
    files.push(serializable_file(alloc)?)?;
    files.push(object_file(alloc)?)?;
    files.push(string_file(alloc)?)?;
    files.push(throwable_file(alloc)?)?;
    Ok(files)
}

/// The files of the system classes.
fn own_files(alloc: Global) -> Result<Vec<Vec<u8>>, OutOfMemory>
    ensures { IfOk result (λ files. bytes_of files.items ≡ system_bytes) }
{
    let mut files = first_files(alloc)?;
    put_throwable_files(alloc, &mut files)?;
    Ok(files)
}

/// No lenders for any of them.
fn no_lenders(alloc: Global) -> Result<Vec<Option<usize>>, AllocError>
    ensures { IfOk result (λ lenders. lenders.items ≡ replicate 32 None) }
{
    let mut lenders = Vec::with_capacity(alloc, SYSTEM_FILES)?;
    for _place in 0..SYSTEM_FILES {
        lenders.push(None)?;
    }
    Ok(lenders)
}

/// The files of the system classes, without a library.
///
/// # Errors
///
/// Where the host had no memory for them.
pub fn system_files(alloc: Global) -> Result<SystemFiles, OutOfMemory>
    ensures { IfOk result (λ files. files ≡ []) }
{
    system_holds();
    let own = own_files(alloc)?;
    let lenders = no_lenders(alloc)?;
    Ok(SystemFiles {
        own,
        library: Vec::new(alloc),
        lenders,
        front: Vec::new(alloc),
    })
}

/// Copies of files, in their order.
fn copies(alloc: Global, files: &[&[u8]]) -> Result<Vec<Vec<u8>>, AllocError>
    ensures { IfOk result (λ copies. bytes_of copies.items ≡ texts_of files.now) }
{
    let mut copies = Vec::with_capacity(alloc, files.len())?;
    for file in files {
        copies.push(Vec::from_slice(alloc, file)?)?;
    }
    Ok(copies)
}

/// The same with the files of a library, which are copied.
fn with_tables(alloc: Global, files: &[&[u8]], tables: Tables) -> Result<SystemFiles, OutOfMemory>
    requires { IsHost system_bytes (texts_of files.now) tables.lenders.items tables.front.items }
    ensures { IfOk result (λ system. system ≡ texts_of files.now) }
{
    let own = own_files(alloc)?;
    let library = copies(alloc, files)?;
    let Tables { lenders, front } = tables;
    Ok(SystemFiles {
        own,
        library,
        lenders,
        front,
    })
}

/// The files of the system classes with those of a library, which are copied: class files that the owner of a host gives, the same for all
/// its guests. A class with the name of one of the system's lends that its methods; the others stand in front of a guest's own. No
/// files are a library, too. It costs a look at each file, and at 34 names for each class; names are hashed with the state.
///
/// # Errors
///
/// Exactly where the files are no library, with the case and the place of the file: bytes of another version, no class file, one with more
/// than this host's profile; a name below `host/`, that of an earlier file's class, a main method; of a class with the name of one of
/// the system's another header (JVMS 4.1: access flags, superclass, superinterfaces, fields; java/lang/String has java/lang/Comparable and
/// java/lang/CharSequence besides its own), a `<clinit>` (2.9), or methods in java/lang/Cloneable or java/io/Serializable; and where
/// java/lang/String, java/lang/Comparable or java/lang/CharSequence is missing. And where the host had no memory.
pub fn system_with_library(
    alloc: Global,
    state: RandomState,
    files: &[&[u8]],
) -> Result<SystemFiles, LibraryFault>
    ensures ok { IfOk result (λ system. system ≡ texts_of files.now) }
    ensures library { OnOk result (IsSomeLibrary (texts_of files.now)) }
    ensures fault { IfErr result (IsLibraryFault (texts_of files.now)) }
    ensures refused { IfErr result (IsRefused (texts_of files.now)) }
{
    faults_refuse();
    if files.is_empty() {
        let system = system_files(alloc)?;
        system.is_library();
        return Ok(system);
    }
    match tables_of(alloc, state, files) {
        Ok(tables) => {
            let system = with_tables(alloc, files, tables)?;
            system.is_library();
            Ok(system)
        }
        Err(fault) => Err(fault),
    }
}
